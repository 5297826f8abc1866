// A plan's program bits for the fabric of its counts: S(u, 2K), U(K), S(K, v). The call takes every plan, refuses by document 01's numbers in its
// order, and on a refusal changes no buffer. S is programmed through the block library alone.
#![tactic(auto)]

mod block;
mod programming;

pub use programming::program_plan;

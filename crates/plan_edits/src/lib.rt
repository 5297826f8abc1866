// Edits of a plan: a gate replaced, a gate appended, an output replaced. For any record in memory and whatever an edit brings, the calls say, with proof,
// which fault there is, or give the edited plan with its figures settled.
#![tactic(auto)]

mod edits;
mod uncounting;

pub use edits::{append_gate, replace_gate, replace_output};

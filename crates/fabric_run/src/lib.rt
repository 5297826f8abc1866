// The run of a contact fabric: a table with a program on a row of input contacts, and on a series of them with outputs that are held. For any table,
// program and entries the calls say, with proof, which of them is malformed, or give every wire's bit and the outputs' bits. Checks come first and
// touch no buffer.
#![tactic(auto)]

mod calls;
mod intervals;
mod running;

pub use calls::{run, run_series};

// Plan evaluation: what a plan gives on a row of input contacts, and on a series of them with outputs that are held. For any record in memory and any
// entries the calls say, with proof, which of them has a fault, or give the plan's outputs.
#![tactic(auto)]

mod evaluation;
mod gates;
mod intervals;

pub use evaluation::{evaluate, evaluate_series};

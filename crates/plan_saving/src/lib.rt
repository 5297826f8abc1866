// Saving a plan: its shortest file, in a lent buffer. For any record and any buffer the call says, with proof, which fault there is, or writes the
// file and answers its length.
#![tactic(auto)]

mod gate;
mod saving;

pub use saving::save_plan;

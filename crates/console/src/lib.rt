// What the programs share: standard input, the plan that it holds, and text in a lent buffer. No contract says what standard input gives; what is
// read from it and what is put into a text are what the contracts say.
#![tactic(auto)]

mod input;
mod text;

pub use input::{read_input, read_small_plan};
pub use text::{put_byte, put_named, put_number, put_refusal, put_word};

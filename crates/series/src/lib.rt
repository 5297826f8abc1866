// A series of intervals over any step from a row to outputs, and its laws. Its functions copy entries: what each interval does with its row and with
// the state, and a copy to any place, which no call of the library needs.
#![tactic(auto)]

mod copying;

pub use copying::{copy_entries, copy_part};

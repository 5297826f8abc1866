// The elements X, Y and G in lent buffers: wires and rows of the table. Every call takes all inputs: what does not fit is not stored.
#![tactic(auto)]

mod rows;
mod wires;

pub use rows::{KIND_PLACE, LEFT_PLACE, RIGHT_PLACE, STRIDE, put_pairs, put_row, row_place};
pub use wires::{copy_wires, put_wires, wire_at};

// The fields of a plan file, and a gate. For any bytes and any place in them, each step says, with proof, which field or gate stands there and
// where the next one begins, or which fault it has and where.
#![tactic(auto)]

mod cursor;
mod gate;

pub use cursor::Cursor;
pub use gate::{ABSENT_TABLE, FIRST_PLACE, SECOND_PLACE, TABLE_PLACE, read_gate, wire_before};

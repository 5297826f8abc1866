// Reading a plan, or a drawing, from a file. For any bytes the reader says, with proof, whether they are one, or which fault they have and
// where.
#![tactic(auto)]

mod reading;

pub use reading::{HEADER_BYTES, read_drawing, read_plan};

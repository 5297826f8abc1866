// The sizes of fabrics: how many rows, wires and program bits U, the fabric's other parts and the fabric have, how long its table and its program
// are, and where a table's entries stand. Every call takes all numbers.
#![tactic(auto)]

mod counting;
mod layout;
mod parts;
mod programming;
mod writing;

pub use counting::{count_fabric, fabric_counts, program_length, table_length};
pub use layout::{HEADER, INPUTS, OUTPUTS, ROWS};
pub use parts::{MAX_PINS, gate_places, output_counts, pin_counts, universal_counts};
pub use programming::check_plan_program;
pub use writing::check_fabric;

// The plan's gates as a list, or as lists of their operands and tables; what the pins and the outputs want of the selection blocks; and the bits
// of a table. Every call takes all inputs: an operand past the end of a list is wire 0, and what the record or a list has no place for is not
// stored.
#![tactic(auto)]

mod gates;
mod wanted;

pub use gates::{GateList, load_gates, load_list, store_table};
pub use wanted::{list_gates, list_inputs, list_outputs, store_choices};

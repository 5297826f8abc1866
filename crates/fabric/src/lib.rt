// The door of the fabrics: counting, also by kind, the table for three counts, a plan's program bits, and the run of any table with any program, on a row
// and on a series of rows. Every call takes all inputs, refuses by the documents' numbers in their order, and on a refusal changes no buffer.
#![tactic(auto)]

pub use fabric_bits::program_plan;
pub use fabric_rows::write_fabric;
pub use fabric_run::{run, run_series};
pub use fabric_sheet::count_kinds;
pub use fabric_sizes::{HEADER, count_fabric, fabric_counts, program_length, table_length};

// The table of a fabric as a run finds it: where its entries stand, what its rows count, and check 13, which takes any table and touches no
// buffer.
#![tactic(auto)]

mod checking;
mod table;

pub use checking::check_table;
pub use table::{TableCounts, counts_of, row_start};

// Where the entries of a table stand before its rows: u, v and the number of rows.

// The entries before the rows.
pub const HEADER: usize = 3;

// Which of them is u.
pub const INPUTS: usize = 0;

// Which of them is v.
pub const OUTPUTS: usize = 1;

// Which of them is the number of rows.
pub const ROWS: usize = 2;

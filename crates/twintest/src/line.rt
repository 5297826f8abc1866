// A line of output in an array of bytes.
use console::{put_byte, put_number};
use plan::Plan;

// Places for the longest line: a digit for each input, for each of the plan's outputs and for each of the fabric's, two spaces and LF. Line one is
// shorter.
const LENGTH: usize = Plan::MAX_INPUTS + 2 * Plan::MAX_OUTPUTS + 3;

// The bytes of a line.
// Kept: an array, whose text's length is beside it, as `console` takes it.
pub(crate) type Line = [u8; LENGTH];

// A line with nothing put.
pub(crate) fn blank() -> Line {
    [0; LENGTH]
}

// The first `count` entries of a row, each as its digit.
pub(crate) fn put_entries(line: &mut [u8], at: usize, row: &[u8], count: usize) -> usize {
    let mut next = at;
    for &entry in row.iter().take(count) {
        next = put_number(line, next, u64::from(entry));
    }
    next
}

// Ends the line at the place `at` and writes it.
pub(crate) fn print(line: &mut [u8], at: usize) {
    let n = put_byte(line, at, b'\n');
    io::write_all(1, &line[..n]);
}

// Where a table's rows stand, and what a row of a kind makes and takes.
ghost use Rattle.std.specs.Prelude.{◌≡◌, ◌+◌, ◌*◌, ◌≤◌, length};
ghost use Rattle.elements.specs.Elements.{max_wires};
ghost use Rattle.blocks.specs.Elements.{stride};
ghost use Rattle.fabric_sizes.specs.Layout.{header, row_start, outputs_in, rows_in};
ghost use Rattle.fabric_table_checks.specs.Counting.{CountsOf};

use elements::{GATE_BITS, Kind};
use fabric_sizes::{HEADER, OUTPUTS, ROWS};

// How many wires and how many program bits there are: those of a row, or of a table up to a row.
#[derive(Clone, Copy)]
pub struct TableCounts {
    pub wires: usize,
    pub bits: usize,
}

// The wires that a row of this kind makes, and the program bits that it takes. What is no kind is counted as G.
// Kept: a number and no Kind, since the promise is for every entry of a table.
#[tactic(auto, unfolding(blocks::specs::Elements::row_of, blocks::specs::Elements::makes, blocks::specs::Elements::takes))]
pub fn counts_of(kind: u16) -> TableCounts
    ensures { CountsOf kind result }
{
    // Y before X: the compiler then tests first for X, which most rows are.
    match Kind::try_from(kind) {
        Ok(Kind::Y) => TableCounts { wires: 1, bits: 1 },
        Ok(Kind::X) => TableCounts { wires: 2, bits: 1 },
        _ => TableCounts {
            wires: 1,
            bits: GATE_BITS as usize,
        },
    }
}

// The place of row i in the table. Behind the last row stand the output wires.
pub fn row_start(i: u16) -> usize
    ensures { (result ≡ row_start i) × (result ≤ stride * max_wires) }
{
    HEADER + blocks::row_place(u32::from(i))
}

// The length that a table with these counts has.
pub(crate) fn expected_length(table: &[u16]) -> usize
    requires { header ≤ length table.now }
    ensures { result ≡ row_start (rows_in table.now) + outputs_in table.now }
{
    row_start(table[ROWS]) + usize::from(table[OUTPUTS])
}

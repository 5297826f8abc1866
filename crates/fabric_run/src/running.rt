// One row of inputs through a table with a program: every wire's bit into the work buffer, row by row, then the outputs' bits into the results. A program
// bit is read by shift and mask.
ghost use Rattle.std.specs.Prelude.{◌≡◌, [], ◌∷◌, ◌++◌, ◌+◌, ◌<◌, ◌≤◌, length};
ghost use Rattle.fault.specs.Buffers.{over};
ghost use Rattle.blocks.specs.Elements.{X, Y, Gate, row_of, choose};
ghost use Rattle.fabric_table_checks.specs.Counting.{kind_wires};
ghost use Rattle.fabric_run.specs.Running.{run_wires};
ghost use Rattle.fabric_run.specs.RunRows.{Runnable, RowRoom, ResultRoom, outputs_on, kind_entry, left_of, right_of, row_done};

use blocks::{LEFT_PLACE, RIGHT_PLACE, STRIDE, read_bit};
use elements::{FabricWire, Kind};
use fabric_sizes::{INPUTS, ROWS};
use fabric_table_checks::{TableCounts, counts_of, row_start};
use series::copy_entries;

// A table with a program.
#[derive(Clone, Copy)]
pub(crate) struct Fabric<'a> {
    pub table: &'a [u16],
    pub program: &'a [u8],
}

// All wires' bits: wire 0, the inputs, which are the row's entries and then the state's, then row by row.
pub(crate) fn run_rows(fabric: Fabric, row: &[u8], state: &[u8], work: &mut [u8])
    requires { Runnable fabric.table.now (row.now ++ state.now) (length work.old) }
    ensures { work.new ≡ over (run_wires fabric.entry.table.now fabric.entry.program.now (row.now ++ state.now)) work.old }
{
    let table = fabric.table;
    let program = fabric.program;
    start_wires(row, state, work);
    let mut before = TableCounts {
        wires: 1 + usize::from(table[INPUTS]),
        bits: 0,
    };
    for i in 0..table[ROWS] {
        let at = row_start(i);
        let entries = &table[at..at + STRIDE];
        let own = counts_of(entries[0]);
        run_row(entries, program, before, work);
        before.wires += own.wires;
        before.bits += own.bits;
    }
}

// Wire 0, which is 0, and the inputs.
fn start_wires(row: &[u8], state: &[u8], work: &mut [u8])
    requires { length (row.now ++ state.now) < length work.old }
    ensures { work.new ≡ over (0 ∷ (row.now ++ state.now)) work.old }
{
    let inputs = 1 + row.len();
    work[0] = 0;
    copy_entries(row, &mut work[1..inputs]);
    copy_entries(state, &mut work[inputs..inputs + state.len()]);
}

// A row's three entries, with what the rows before it make and take: its outputs' bits behind the wires that are made.
#[tactic(auto, unfolding(blocks::specs::Elements::row_of, blocks::specs::Elements::makes))]
fn run_row(row: &[u16], program: &[u8], before: TableCounts, work: &mut [u8])
    requires { RowRoom (kind_wires (kind_entry row.now)) row.now before work.old }
    ensures { work.new ≡ row_done (row_of (kind_entry row.now) (left_of row.now) (right_of row.now)) program.now before work.old }
{
    match Kind::try_from(row[0]) {
        Ok(Kind::X) => run_x(row, program, before, work),
        Ok(Kind::Y) => run_y(row, program, before, work),
        _ => run_g(row, program, before, work),
    }
}

// X: bit 0 straight, bit 1 crossed.
fn run_x(row: &[u16], program: &[u8], before: TableCounts, work: &mut [u8])
    requires { RowRoom 2 row.now before work.old }
    ensures { work.new ≡ row_done (X (left_of row.now) (right_of row.now)) program.now before work.old }
{
    let b = read_bit(program, before.bits);
    let first = work[chosen(row, b).0 as usize];
    let second = work[chosen(row, 1 - b).0 as usize];
    work[before.wires] = first;
    work[before.wires + 1] = second;
}

// Y: bit 0 gives the left, 1 the right.
fn run_y(row: &[u16], program: &[u8], before: TableCounts, work: &mut [u8])
    requires { RowRoom 1 row.now before work.old }
    ensures { work.new ≡ row_done (Y (left_of row.now) (right_of row.now)) program.now before work.old }
{
    let b = read_bit(program, before.bits);
    work[before.wires] = work[chosen(row, b).0 as usize];
}

// G: its table is the next four program bits, and gives bit 2a + b.
fn run_g(row: &[u16], program: &[u8], before: TableCounts, work: &mut [u8])
    requires { RowRoom 1 row.now before work.old }
    ensures { work.new ≡ row_done (Gate (left_of row.now ∷ right_of row.now ∷ [])) program.now before work.old }
{
    let a = work[usize::from(row[LEFT_PLACE])];
    let b = work[usize::from(row[RIGHT_PLACE])];
    work[before.wires] = read_bit(program, before.bits + usize::from(2 * a + b));
}

// The wire that bit b chooses of a row: the left one for 0, the right one for 1. An index and no branch: which bits a program has cannot be
// foretold.
fn chosen(row: &[u16], b: u8) -> FabricWire
    requires { (2 < length row.now) × (b ≤ 1) }
    ensures { result.0 ≡ choose b (left_of row.now) (right_of row.now) }
{
    FabricWire::from(row[LEFT_PLACE + usize::from(b)])
}

// The bits on the output wires.
pub(crate) fn write_result(table: &[u16], work: &[u8], out: &mut [u8])
    requires { ResultRoom table.now (length work.now) (length out.old) }
    ensures { out.new ≡ outputs_on table.now work.now }
{
    let first = row_start(table[ROWS]);
    for (j, bit) in out.iter_mut().enumerate() {
        *bit = work[usize::from(table[first + j])];
    }
}

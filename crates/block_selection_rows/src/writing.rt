// Writing S: its rows into the lent table, its output wires into the second buffer. Checks come first and touch no buffer.
ghost use Rattle.std.specs.Prelude.{◌≡◌, ◌^◌, ◌≤◌, length};
ghost use Rattle.fault.specs.Number.{answer_number};
ghost use Rattle.fault.specs.Buffers.{over};
ghost use Rattle.block_elements.specs.Rows.{flat};
ghost use Rattle.block_networks.specs.Selection.{selection_level, selection_rows, selection_outs};
ghost use Rattle.block_sizes.specs.Sizes.{max_size};
ghost use Rattle.block_write_checks.specs.WriteChecks.{selection_write_fault, SelectionWritePasses};
ghost use Rattle.block_selection_rows.specs.WriteCalls.{selection_written_rows, selection_written_outputs};

use crate::block::write_block;
use block_rows::copy_wires;
use block_sizes::{MAX_PLACES, SMALL_PLACES, selection_positions};
use block_write_checks::check_selection_write;
use elements::FabricWire;
use fault::Fault;

// S(m, n) on the input wires, where `next` is the next unmade wire.
pub fn write_selection(
    m: u32,
    n: u32,
    inputs: &[u16],
    next: FabricWire,
    rows: &mut [u16],
    outputs: &mut [u16],
) -> Result<(), Fault>
    ensures answered { answer_number result ≡ selection_write_fault m n inputs.now next.0 (length rows.old) (length outputs.old) }
    ensures rows { rows.new ≡ selection_written_rows m n inputs.now next.0 rows.old outputs.old }
    ensures outputs { outputs.new ≡ selection_written_outputs m n inputs.now next.0 rows.old outputs.old }
{
    check_selection_write(m, n, inputs, next, rows.len(), outputs.len())?;
    write_checked_selection(m, n, inputs, next, rows, outputs);
    Ok(())
}

// S(m, n) where all checks pass. The call's own lists of wires take 256 bytes for a small block and 2,048 for another.
// Kept: the six parameters of the public call; a struct of them would be made here and be taken apart in the one function that it is handed to.
fn write_checked_selection(
    m: u32,
    n: u32,
    inputs: &[u16],
    next: FabricWire,
    rows: &mut [u16],
    outputs: &mut [u16],
)
    requires { SelectionWritePasses m n inputs.now next.0 (length rows.old) (length outputs.old) }
    ensures rows_after { rows.new ≡ over (flat (selection_rows m n inputs.now next.0)) rows.old }
    ensures outputs_after { outputs.new ≡ over (selection_outs m n inputs.now next.0) outputs.old }
{
    // Kept: lists of two sizes, by a test: with the large ones alone writing S(4, 4) takes a quarter longer, for clearing them.
    if selection_positions(m, n) <= SMALL_PLACES {
        write_in::<SMALL_PLACES>(m, n, inputs, next, rows, outputs);
    } else {
        write_in::<MAX_PLACES>(m, n, inputs, next, rows, outputs);
    }
}

// The same in lists of N places. Inputs past m stay wire 0.
fn write_in<const N: usize>(
    m: u32,
    n: u32,
    inputs: &[u16],
    next: FabricWire,
    rows: &mut [u16],
    outputs: &mut [u16],
)
    requires selection_write_passes { SelectionWritePasses m n inputs.now next.0 (length rows.old) (length outputs.old) }
    requires places { (2 ^ selection_level m n ≤ N) × (N ≤ max_size) }
    ensures rows_after { rows.new ≡ over (flat (selection_rows m n inputs.now next.0)) rows.old }
    ensures outputs_after { outputs.new ≡ over (selection_outs m n inputs.now next.0) outputs.old }
{
    let size = selection_positions(m, n);
    let mut from = [0u16; N];
    let mut to = [0u16; N];
    let from = &mut from[..size];
    let to = &mut to[..size];
    copy_wires(inputs, from);
    write_block(next, rows, from, to);
    let end = n as usize;
    copy_wires(&to[..end], outputs);
}

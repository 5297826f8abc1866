// Writing P: its rows into the lent table, its output wires into the second buffer. Checks come first and touch no buffer.
ghost use Rattle.std.specs.Prelude.{◌≡◌, suc, length};
ghost use Rattle.fault.specs.Number.{answer_number};
ghost use Rattle.fault.specs.Buffers.{over};
ghost use Rattle.block_elements.specs.Rows.{flat};
ghost use Rattle.block_networks.specs.Permutation.{permutation_rows, permutation_outs};
ghost use Rattle.block_sizes.specs.Sizes.{level_of};
ghost use Rattle.block_write_checks.specs.WriteChecks.{WritePasses, write_fault};
ghost use Rattle.block_permutation_rows.specs.WriteCalls.{written_rows, written_outputs};
ghost use Rattle.block_permutation_rows.specs.Levels.{outs_list, LevelRoom, OutsRoom};

use crate::level::{LevelOuts, size_at, write_inner};
use block_rows::{copy_wires, put_pairs, put_wires, row_place};
use block_write_checks::check_permutation_write;
use elements::{FabricWire, Kind, MAX_WIRES};
use fault::Fault;

// P(n) on the input wires, where `next` is the next unmade wire.
pub fn write_permutation(
    n: u32,
    inputs: &[u16],
    next: FabricWire,
    rows: &mut [u16],
    outputs: &mut [u16],
) -> Result<(), Fault>
    ensures answered { answer_number result ≡ write_fault n inputs.now next.0 (length rows.old) (length outputs.old) }
    ensures rows { rows.new ≡ written_rows n inputs.now next.0 rows.old outputs.old }
    ensures outputs { outputs.new ≡ written_outputs n inputs.now next.0 rows.old outputs.old }
{
    check_permutation_write(n, inputs, next, rows.len(), outputs.len())?;
    write_checked_permutation(n, inputs, next, rows, outputs);
    Ok(())
}

// P(n) where all checks pass. P(1) is a wire.
// Kept: the parameters of the public call, here and below; a struct of them would be made and taken apart in one step.
fn write_checked_permutation(
    n: u32,
    inputs: &[u16],
    next: FabricWire,
    rows: &mut [u16],
    outputs: &mut [u16],
)
    requires { WritePasses n inputs.now next.0 (length rows.old) (length outputs.old) }
    ensures rows_after { rows.new ≡ over (flat (permutation_rows (level_of n) inputs.now next.0)) rows.old }
    ensures outputs_after { outputs.new ≡ over (permutation_outs (level_of n) inputs.now next.0) outputs.old }
{
    let level = powers::ceil_log(n);
    if level == 0 {
        copy_wires(inputs, outputs);
    } else {
        write_from_inputs(level - 1, inputs, next, rows, outputs);
    }
}

// P at level n + 1: the input rows on the wires of the list, and behind them all others, on wires that are numbers.
fn write_from_inputs(
    n: u32,
    inputs: &[u16],
    next: FabricWire,
    rows: &mut [u16],
    outputs: &mut [u16],
)
    requires { LevelRoom n (length inputs.now) next.0 (length rows.old) (length outputs.old) }
    ensures rows_after { rows.new ≡ over (flat (permutation_rows (suc n) inputs.now next.0)) rows.old }
    ensures outputs_after { outputs.new ≡ over (permutation_outs (suc n) inputs.now next.0) outputs.old }
{
    let half = size_at(n);
    let inner = row_place(half);
    put_pairs(rows, Kind::X, half, inputs, &inputs[1..], 2);
    let outs = write_inner(n, next, &mut rows[inner..]);
    put_outs(outputs, 2 * (half as usize - 1), outs);
}

// The output wires of P into the first places of a list: so many that rise, then the last pair.
fn put_outs(outputs: &mut [u16], rising: usize, outs: LevelOuts)
    requires { OutsRoom rising outs (length outputs.old) }
    ensures { outputs.new ≡ over (outs_list rising outs) outputs.old }
{
    put_wires(outputs, rising, outs.first, 1);
    outputs[rising] = (outs.upper.0 as usize % MAX_WIRES) as u16;
    outputs[rising + 1] = (outs.lower.0 as usize % MAX_WIRES) as u16;
}

// The recursive writer of P. Inside P all wires are numbers that rise by a step, so that a level passes on where its halves' wires begin
// and no list of them.
ghost use Rattle.std.specs.Prelude.{◌≡◌, ◌^◌, ◌≤◌, length};
ghost use Rattle.fault.specs.Buffers.{over};
ghost use Rattle.block_elements.specs.Rows.{flat};
ghost use Rattle.block_sizes.specs.Sizes.{max_size, max_level};
ghost use Rattle.block_permutation_rows.specs.Levels.{inner_rows, join_rows, InnerWires, InnerRoom, SmallRoom, JoinRoom, LevelPartsAt, OutsAt};

use crate::switches::{put_rising, put_switch};
use block_rows::{STRIDE, row_place};
use elements::FabricWire;

// The output wires of P at a level above 0: they rise from `first` on, but for the last pair, `upper` and `lower`, which has no X.
#[derive(Clone, Copy)]
pub(crate) struct LevelOuts {
    pub(crate) first: FabricWire,
    pub(crate) upper: FabricWire,
    pub(crate) lower: FabricWire,
}

// The parts of P at level n + 1 behind its own input rows. A half has `half` places and `inputs` input rows. The places are those where
// the upper half's rows go on behind its input rows, where the lower half begins, where it goes on, and where the output rows begin; the
// wires are the first that the parts make.
#[derive(Clone, Copy)]
struct LevelParts {
    half: u32,
    inputs: u32,
    upper: usize,
    lower: usize,
    lower_inner: usize,
    outputs: usize,
    upper_next: FabricWire,
    lower_next: FabricWire,
    output_next: FabricWire,
}

// P at level n + 1 behind its input rows, which make the wires from `next` on: the rows of its halves and its output rows to the front of the
// table's part. Gives P's output wires.
pub(crate) fn write_inner(n: u32, next: FabricWire, rows: &mut [u16]) -> LevelOuts
    requires { InnerRoom n next.0 (length rows.old) }
    ensures rows_after { rows.new ≡ over (flat (inner_rows n next.0)) rows.old }
    ensures outs_at { OutsAt n next.0 result }
{
    if n < 3 {
        return write_base(n, next, rows);
    }
    let w = next.0;
    let parts = level_parts(n, next);
    put_rising(rows, parts.inputs, w, w + 2, 4);
    let above = write_inner(n - 1, parts.upper_next, &mut rows[parts.upper..]);
    put_rising(&mut rows[parts.lower..], parts.inputs, w + 1, w + 3, 4);
    let below = write_inner(n - 1, parts.lower_next, &mut rows[parts.lower_inner..]);
    join_halves(&mut rows[parts.outputs..], parts.half, above, below);
    LevelOuts {
        first: parts.output_next,
        upper: above.lower,
        lower: below.lower,
    }
}

// The same for P(2), which has no row behind its input row, for P(4) and for P(8). Most blocks are these.
// Kept: P(4) and P(8) written out beside the general level, which costs several times as much there.
fn write_base(n: u32, next: FabricWire, rows: &mut [u16]) -> LevelOuts
    requires { (n ≤ 2) × InnerRoom n next.0 (length rows.old) }
    ensures rows_after { rows.new ≡ over (flat (inner_rows n next.0)) rows.old }
    ensures outs_at { OutsAt n next.0 result }
{
    match n {
        0 => LevelOuts {
            first: FabricWire(next.0 + 2),
            upper: next,
            lower: FabricWire(next.0 + 1),
        },
        1 => write_four(next, rows),
        _ => write_eight(next, rows),
    }
}

// The same for P(8), whose halves are P(4). All places and all distances of wires are numbers that are known here.
fn write_eight(next: FabricWire, rows: &mut [u16]) -> LevelOuts
    requires { SmallRoom 34 13 next.0 (length rows.old) }
    ensures rows_after { rows.new ≡ over (flat (inner_rows 2 next.0)) rows.old }
    ensures outs_at { OutsAt 2 next.0 result }
{
    let w = next.0;
    put_rising(rows, 2, w, w + 2, 4);
    let above = write_four(FabricWire(w + 8), &mut rows[2 * STRIDE..]);
    put_rising(&mut rows[5 * STRIDE..], 2, w + 1, w + 3, 4);
    let below = write_four(FabricWire(w + 18), &mut rows[7 * STRIDE..]);
    join_halves(&mut rows[10 * STRIDE..], 4, above, below);
    LevelOuts {
        first: FabricWire(w + 28),
        upper: above.lower,
        lower: below.lower,
    }
}

// The same for P(4): each half is one X, and there is one output row.
fn write_four(next: FabricWire, rows: &mut [u16]) -> LevelOuts
    requires { SmallRoom 10 3 next.0 (length rows.old) }
    ensures rows_after { rows.new ≡ over (flat (inner_rows 1 next.0)) rows.old }
    ensures outs_at { OutsAt 1 next.0 result }
{
    let w = next.0 as usize;
    put_switch(rows, w, w + 2);
    put_switch(&mut rows[STRIDE..], w + 1, w + 3);
    put_switch(&mut rows[2 * STRIDE..], w + 4, w + 6);
    LevelOuts {
        first: FabricWire(next.0 + 8),
        upper: FabricWire(next.0 + 5),
        lower: FabricWire(next.0 + 7),
    }
}

// The positions of P at a level.
pub(crate) fn size_at(level: u32) -> u32
    requires { level ≤ max_level }
    ensures { (result ≡ 2 ^ level) × (result ≤ max_size) }
{
    1u32 << level
}

// The parts of P at level n + 1 for n above 0. Each row makes two wires.
fn level_parts(n: u32, next: FabricWire) -> LevelParts
    requires { (1 ≤ n) × InnerWires n next.0 }
    ensures { LevelPartsAt n next.0 result }
{
    let inputs = size_at(n - 1);
    let half = 2 * inputs;
    let count = half * n + 1 - half;
    LevelParts {
        half,
        inputs,
        upper: row_place(inputs),
        lower: row_place(count),
        lower_inner: row_place(count + inputs),
        outputs: row_place(2 * count),
        upper_next: FabricWire(next.0 + 2 * half),
        lower_next: FabricWire(next.0 + 2 * (half + count)),
        output_next: FabricWire(next.0 + 2 * (half + 2 * count)),
    }
}

// The output rows of a level with `half` places in a half: the halves' rising outputs, and the first of their last pairs. The last outputs of
// the halves have no X.
fn join_halves(rows: &mut [u16], half: u32, above: LevelOuts, below: LevelOuts)
    requires { JoinRoom half (length rows.old) }
    ensures { rows.new ≡ over (flat (join_rows half above below)) rows.old }
{
    let rising = half - 2;
    let last = row_place(rising);
    put_rising(rows, rising, above.first.0, below.first.0, 1);
    put_switch(
        &mut rows[last..],
        above.upper.0 as usize,
        below.upper.0 as usize,
    );
}

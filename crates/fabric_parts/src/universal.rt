// The elements of the universal block U besides its selection block, in lent buffers: G, and the Y rows between the halves. Every call takes
// all inputs: what does not fit is not stored.
ghost use Rattle.std.specs.Prelude.{◌≡◌, [], ◌∷◌, ◌++◌, ◌≤◌, length, get_or, take, drop};
ghost use Rattle.fault.specs.Buffers.{part_of};
ghost use Rattle.elements.specs.declared.Kind.{Kind};
ghost use Rattle.blocks.specs.Elements.{Gate, wires_put, pair_rows, rows_put};

use blocks::{put_pairs, put_row, put_wires, wire_at};
use elements::{FabricWire, Kind};

// U(1), which is G: its row on the first two pins, and its output wire.
#[tactic(auto, unfolding(blocks::specs::Elements::row_put, blocks::specs::Elements::rows_put, blocks::specs::Elements::flat, blocks::specs::Elements::entries))]
pub fn write_gate(next: FabricWire, rows: &mut [u16], pins: &[u16], outs: &mut [u16])
    ensures rows { rows.new ≡ rows_put (Gate (get_or pins.now 0 0 ∷ get_or pins.now 1 0 ∷ []) ∷ []) rows.old }
    ensures outs { outs.new ≡ wires_put 1 next.0 1 outs.old }
{
    put_row(rows, Kind::G, wire_at(pins, 0), wire_at(pins, 1));
    put_wires(outs, 1, next, 1);
}

// The Y rows on `count` pins and on what was selected, which stands before them. Their output wires go over these pins.
#[tactic(auto, using(crate::proofs::ElementLaws::mixed_pairs))]
pub fn write_mix(count: u16, next: FabricWire, rows: &mut [u16], pins: &mut [u16])
    ensures rows { rows.new ≡ rows_put (pair_rows Kind.Y count (drop count pins.old) pins.old 1) rows.old }
    ensures pins { pins.new ≡ take count pins.old ++ wires_put count next.0 1 (drop count pins.old) }
{
    let middle = usize::from(count).min(pins.len());
    let (selected, own) = pins.split_at_mut(middle);
    put_pairs(rows, Kind::Y, u32::from(count), own, selected, 1);
    put_wires(own, usize::from(count), next, 1);
}

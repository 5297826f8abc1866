// Wires of a fabric. A single wire is a `FabricWire`, never a plan's wire. Lists of them in lent buffers are 16-bit entries.
ghost use Rattle.std.specs.Prelude.{◌≡◌, ◌+◌, ◌%◌, ◌<◌, length, get_or, take};
ghost use Rattle.fault.specs.Buffers.{over};
ghost use Rattle.elements.specs.Elements.{max_wires};
ghost use Rattle.block_rows.specs.Wires.{wires_put};

use elements::{FabricWire, MAX_WIRES};

// The wire that stands at a place of a list, wire 0 past its end.
pub fn wire_at(wires: &[u16], at: usize) -> FabricWire
    ensures { (result.0 ≡ get_or wires.now at 0) × (result.0 < max_wires) }
{
    FabricWire::from(entry_at(wires, at))
}

// The entry at a place of a list, 0 past its end.
pub(crate) fn entry_at(wires: &[u16], at: usize) -> u16
    ensures { result ≡ get_or wires.now at 0 }
{
    wires.get(at).copied().unwrap_or(0)
}

// A wire as an entry of a list.
pub(crate) fn entry_of(wire: FabricWire) -> u16
    ensures { result ≡ wire.0 % max_wires }
{
    (wire.0 as usize % MAX_WIRES) as u16
}

// The wires first, first + step, .. into the first `count` places of the list, as far as it has them.
pub fn put_wires(wires: &mut [u16], count: usize, first: FabricWire, step: u16)
    ensures { wires.new ≡ wires_put count first.0 step wires.old }
{
    let end = count.min(wires.len());
    let mut wire = entry_of(first);
    for entry in &mut wires[..end] {
        *entry = wire;
        wire = wire.wrapping_add(step);
    }
}

// The wires of one list into the first places of another, as far as it has them.
// Kept: a loop and no `copy_from_slice`, for which a unit's linker wants memmove, as for bytes.
pub fn copy_wires(from: &[u16], to: &mut [u16])
    ensures { to.new ≡ over (take (length to.old) from.now) to.old }
{
    let end = from.len().min(to.len());
    for i in 0..end {
        to[i] = from[i];
    }
}

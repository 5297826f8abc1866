// The recursive writer of the universal block U. Each part gets its own stretch of the table; the halves share the list of pins, and the lower
// half's output wires stand behind the upper's. Nothing is held inside the recursion.
ghost use Rattle.std.specs.Prelude.{◌≡◌, length};
ghost use Rattle.blocks.specs.Elements.{flat};
ghost use Rattle.fabric_universal.specs.Selector.{selection};
ghost use Rattle.fabric_universal.specs.Universal.{universal_outs, universal_rows};
ghost use Rattle.fabric_universal.specs.Fabric.{gate_level};
ghost use Rattle.fabric_rows.specs.Block.{middle_rows, middle_pins, MiddleRoom, UniversalWires, UniversalWriteRoom, UniversalPartsAt};

use blocks::row_place;
use elements::FabricWire;
use fabric_parts::{write_gate, write_mix, write_selection_on};
use fabric_sizes::{pin_counts, universal_counts};

// The gates and the pins of a half; the entries of the upper half's rows, of the selection block's, and of these with the Y rows; and the first
// wires that the parts behind the upper half make.
#[derive(Clone, Copy)]
struct UniversalParts {
    half: u16,
    pins: u16,
    upper: usize,
    select: usize,
    middle: usize,
    select_next: FabricWire,
    mix_next: FabricWire,
    lower_next: FabricWire,
}

// U, a power of two of gates, one for each place of `outs`, on the pins, two for each gate: its rows fill the table's part, its output wires
// fill `outs`. The pins are used up.
pub(crate) fn write_universal(
    next: FabricWire,
    rows: &mut [u16],
    pins: &mut [u16],
    outs: &mut [u16],
)
    requires { UniversalWriteRoom next.0 (length rows.old) (length pins.old) (length outs.old) }
    ensures rows { rows.new ≡ flat (universal_rows selection (gate_level (length outs.old)) pins.old next.0) }
    ensures outs { outs.new ≡ universal_outs selection (gate_level (length outs.old)) next.0 }
{
    let gates = outs.len();
    if gates == 1 {
        write_gate(next, rows, pins, outs);
        return;
    }
    let parts = universal_parts(gates as u16, next);
    let lower = parts.upper + parts.middle;
    let (upper_outs, lower_outs) = outs.split_at_mut(gates / 2);
    write_universal(
        next,
        &mut rows[..parts.upper],
        &mut pins[..gates],
        upper_outs,
    );
    write_middle(parts, &mut rows[parts.upper..lower], pins, upper_outs);
    write_universal(
        parts.lower_next,
        &mut rows[lower..],
        &mut pins[gates..],
        lower_outs,
    );
}

// The parts of U of `gates` gates, more than one.
fn universal_parts(gates: u16, next: FabricWire) -> UniversalParts
    requires { UniversalWires gates next.0 }
    ensures { UniversalPartsAt gates next.0 result }
{
    let half = gates / 2;
    let upper = universal_counts(half);
    let select = pin_counts(half, half);
    let mixed = u32::from(gates);
    let made = upper.wires + select.wires;
    UniversalParts {
        half,
        pins: gates,
        upper: row_place(upper.rows),
        select: row_place(select.rows),
        middle: row_place(select.rows + mixed),
        select_next: next.plus(upper.wires),
        mix_next: next.plus(made),
        lower_next: next.plus(made + mixed),
    }
}

// Between the halves: the selection block, whose output wires go over the upper half's pins, and the Y rows, whose output wires go over the
// lower half's. There is room for the block, so that S does not refuse.
fn write_middle(parts: UniversalParts, rows: &mut [u16], pins: &mut [u16], outs: &[u16])
    requires { MiddleRoom parts outs.now (length rows.old) (length pins.old) }
    ensures rows { rows.new ≡ flat (middle_rows parts outs.now pins.old) }
    ensures pins { pins.new ≡ middle_pins parts outs.now }
{
    let _ = write_selection_on(
        parts.half,
        parts.pins,
        outs,
        parts.select_next,
        &mut rows[..parts.select],
        pins,
    );
    write_mix(parts.pins, parts.mix_next, &mut rows[parts.select..], pins);
}

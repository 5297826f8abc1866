// Writing the fabric's table: u, v and the number of rows, then the rows of S(u, 2K), U(K), S(K, v), each straight into its own stretch, then
// the output wires. Checks come first and touch no buffer. The calls' own lists of wires take 1,664 bytes at one time; none is inside the
// recursion.
ghost use Rattle.std.specs.Prelude.{◌≡◌, [], ◌∷◌, suc, ◌*◌, ◌≤◌, length};
ghost use Rattle.fault.specs.Number.{answer_number};
ghost use Rattle.fault.specs.Buffers.{over};
ghost use Rattle.blocks.specs.Elements.{flat};
ghost use Rattle.blocks.specs.Networks.{selection_rows, selection_outs};
ghost use Rattle.fabric_universal.specs.Fabric.{input_wires, fabric_table};
ghost use Rattle.fabric_sizes.specs.Counting.{table_length};
ghost use Rattle.fabric_sizes.specs.FabricChecks.{fabric_fault};
ghost use Rattle.fabric_rows.specs.FabricCalls.{fabric_result};
ghost use Rattle.fabric_rows.specs.Writing.{LayoutIs, HeaderRoom, PinRoom};

use crate::block::write_universal;
use blocks::{put_wires, row_place};
use elements::FabricWire;
use fabric_parts::{put_outputs, write_selection_on};
use fabric_sizes::{
    HEADER, INPUTS, MAX_PINS, OUTPUTS, ROWS, check_fabric, gate_places, output_counts, pin_counts,
    universal_counts,
};
use fault::Fault;
use plan::{Plan, PlanCounts};

// The number of rows; K; the entries of the rows of S(u, 2K), U(K) and S(K, v); and the first wires that U(K) and S(K, v) make.
#[derive(Clone, Copy)]
struct Layout {
    rows: u32,
    gates: u16,
    pins: usize,
    universal: usize,
    outputs: usize,
    universal_next: FabricWire,
    output_next: FabricWire,
}

// The table of the fabric of u inputs, k gates and v outputs.
// Kept: three numbers and no PlanCounts: the call takes every number, and says which is out of its limits.
#[tactic(auto, using(fabric_sizes::proofs::FabricChecksLaws::fabric_passes))]
pub fn write_fabric(u: u32, k: u32, v: u32, table: &mut [u16]) -> Result<(), Fault>
    ensures answered { answer_number result ≡ fabric_fault u k v (length table.old) }
    ensures written { table.new ≡ fabric_result u k v table.old }
{
    let counts = check_fabric(u, k, v, table.len())?;
    put_fabric(counts, table);
    Ok(())
}

// The layout of the fabric of these numbers.
fn layout_of(counts: PlanCounts) -> Layout
    ensures { LayoutIs counts.inputs counts.gates counts.outputs result }
{
    let pins = pin_counts(counts.inputs, counts.gates);
    let universal = universal_counts(counts.gates);
    let outputs = output_counts(counts.gates, counts.outputs);
    let made = 1 + u32::from(counts.inputs) + pins.wires;
    Layout {
        rows: pins.rows + universal.rows + outputs.rows,
        gates: gate_places(counts.gates) as u16,
        pins: row_place(pins.rows),
        universal: row_place(universal.rows),
        outputs: row_place(outputs.rows),
        universal_next: FabricWire(made),
        output_next: FabricWire(made + universal.wires),
    }
}

// The table where all checks pass, so that S does not refuse.
fn put_fabric(counts: PlanCounts, table: &mut [u16])
    requires { table_length counts.inputs counts.gates counts.outputs ≤ length table.old }
    ensures { table.new ≡ over (fabric_table counts.inputs counts.gates counts.outputs) table.old }
{
    let layout = layout_of(counts);
    let gates = usize::from(layout.gates);
    let mut pins = [0u16; MAX_PINS];
    let mut outs = [0u16; Plan::MAX_GATES];
    let pins = &mut pins[..2 * gates];
    let outs = &mut outs[..gates];
    let universal = HEADER + layout.pins;
    let outputs = universal + layout.universal;
    put_header(
        counts.inputs,
        counts.outputs,
        layout.rows,
        &mut table[..HEADER],
    );
    put_pins(
        counts.inputs,
        layout.gates,
        &mut table[HEADER..universal],
        pins,
    );
    write_universal(
        layout.universal_next,
        &mut table[universal..outputs],
        pins,
        outs,
    );
    let _ = put_outputs(
        layout.gates,
        counts.outputs,
        layout.outputs,
        layout.output_next,
        &mut table[outputs..],
        outs,
    );
}

// u, v and the number of rows in the header.
fn put_header(u: u16, v: u16, rows: u32, header: &mut [u16])
    requires { HeaderRoom rows (length header.old) }
    ensures { header.new ≡ u ∷ v ∷ rows ∷ [] }
{
    header[INPUTS] = u;
    header[OUTPUTS] = v;
    header[ROWS] = rows as u16;
}

// S(u, 2K) on the inputs: its rows fill the table's part, its output wires, which are the pins, fill their list. There is room for them, so
// that S does not refuse.
fn put_pins(u: u16, gates: u16, rows: &mut [u16], pins: &mut [u16])
    requires { PinRoom u gates (length rows.old) (length pins.old) }
    ensures rows_after { rows.new ≡ flat (selection_rows u (2 * gates) (input_wires u) (suc u)) }
    ensures pins_after { pins.new ≡ selection_outs u (2 * gates) (input_wires u) (suc u) }
{
    let mut inputs = [0u16; Plan::MAX_INPUTS];
    put_wires(&mut inputs, usize::from(u), FabricWire(1), 1);
    let next = FabricWire(u32::from(u) + 1);
    let _ = write_selection_on(u, 2 * gates, &inputs, next, rows, pins);
}

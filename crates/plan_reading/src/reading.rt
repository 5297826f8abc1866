// Reading a plan file: the header, each gate, each output, the end. The first failing check decides, and a refusal has no record.
ghost use Rattle.std.specs.Prelude.{◌≡◌, ◌%◌, ◌<◌, ◌≤◌, length, MatchResult};
ghost use Rattle.plan.specs.Record.{word_numbers};
ghost use Rattle.plan_reading.specs.PlanFile.{operand_bound, whole_file, plan_read, drawing_read, parsed_outcome};
ghost use Rattle.plan_reading.specs.Answers.{header_answer, read_outcome};
ghost use Rattle.plan_reading.specs.Parts.{header_part};

use fault::{Fault, Refusal};
use plan::{Plan, PlanCounts, PlanWire, count_operands, count_use, gate_wire};
use plan_fields::{Cursor, read_gate};
use powers::ceil_power;

// The bytes of the three counts.
pub const HEADER_BYTES: usize = 6;

// The plan that a file holds.
#[tactic(auto, unfolding(crate::specs::PlanFile::plan_read))]
pub fn read_plan(file: &[u8]) -> Result<Plan, Refusal>
    ensures { read_outcome result ≡ plan_read file.now }
{
    read_whole(file, false)
}

// The drawing that a file holds: an operand may be any of its wires.
#[tactic(auto, unfolding(crate::specs::PlanFile::drawing_read))]
pub fn read_drawing(file: &[u8]) -> Result<Plan, Refusal>
    ensures { read_outcome result ≡ drawing_read file.now }
{
    read_whole(file, true)
}

// The three counts of a file that is long enough for them.
#[tactic(auto, unfolding(crate::specs::PlanFile::not_stub, crate::specs::Parts::header_part), using(crate::proofs::PartsLaws::counts_read))]
fn read_header(file: &[u8]) -> Result<(PlanCounts, Cursor), Refusal>
    ensures { header_answer result ≡ header_part file.now 0 }
{
    if file.len() < HEADER_BYTES {
        return Err(Refusal {
            fault: Fault::Stub,
            at: 0,
        });
    }
    let c = Cursor { at: 0 };
    let (inputs, c) = c.count(file, Plan::MAX_INPUTS, Fault::Inputs)?;
    let (gates, c) = c.count(file, Plan::MAX_GATES, Fault::Gates)?;
    let (outputs, c) = c.count(file, Plan::MAX_OUTPUTS, Fault::Outputs)?;
    Ok((
        PlanCounts {
            inputs,
            gates,
            outputs,
        },
        c,
    ))
}

// The bound of the operands of gate i, counted from 0: its own wire; in a drawing the wire after the last.
fn operand_bound(drawn: bool, counts: PlanCounts, i: usize) -> PlanWire
    ensures { result.0 ≡ operand_bound drawn counts.inputs counts.gates i % word_numbers }
{
    let below = if drawn { usize::from(counts.gates) } else { i };
    gate_wire(counts.inputs, below)
}

// The plan, or the drawing, that a file holds: the counts and K; the gates and the outputs, each to its place in the record, which is made zero before
// the header is looked at, and their uses counted in it; and the end of the file, where no byte may stand. One function, because each call that hands a
// record on copies it.
// Kept: drawn is a flag and no closure for the bound: the definition of the file takes the flag, so that a closure's contract would have to name it too.
fn read_whole(file: &[u8], drawn: bool) -> Result<Plan, Refusal>
    ensures { read_outcome result ≡ parsed_outcome (whole_file drawn file.now 0) }
{
    let mut plan = Plan::zero();
    let (counts, start) = read_header(file)?;
    plan.inputs = counts.inputs;
    plan.gate_count = counts.gates;
    plan.output_count = counts.outputs;
    plan.gate_places = ceil_power(u32::from(counts.gates)) as u16;
    let mut at = start;
    for i in 0..usize::from(counts.gates) {
        let own = gate_wire(counts.inputs, i);
        let (gate, next) = read_gate(file, at, operand_bound(drawn, counts, i), own)?;
        plan.gates[i] = gate;
        count_operands(gate, &mut plan.uses);
        at = next;
    }
    for j in 0..usize::from(counts.outputs) {
        let (wire, next) = at.output(file, counts.inputs, counts.gates)?;
        plan.outputs[j] = wire;
        count_use(wire, &mut plan.uses);
        at = next;
    }
    at_end(file, at)?;
    Ok(plan)
}

// The end of the file, where no byte may stand.
fn at_end(file: &[u8], c: Cursor) -> Result<(), Refusal>
    ensures { MatchResult result (λ _. length file.now ≤ c.at) (λ x. (c.at < length file.now) × (x ≡ record { fault = Fault.Tail; at = c.at })) }
{
    if c.at < file.len() {
        return Err(Refusal {
            fault: Fault::Tail,
            at: c.at,
        });
    }
    Ok(())
}

// The three edits. The plan faults come first, then the place, then what the edit brings.
ghost use Rattle.std.specs.Prelude.{◌≡◌, ◌+◌, ◌-◌, ◌<◌, IfOk};
ghost use Rattle.fault.specs.Number.{answer_number};
ghost use Rattle.plan_edits.specs.Edits.{place_fault, replace_gate_fault, append_gate_fault, replace_output_fault, gate_replaced, gate_appended, output_replaced};
ghost use Rattle.plan_edits.specs.Answers.{edited_outcome};

use crate::uncounting::{drop_operands, drop_use};
use fault::Fault;
use plan::{
    Gate, Plan, PlanWire, count_allowed, count_operands, count_use, gate_fault, gate_wire,
    plan_fault, source_allowed,
};
use powers::ceil_power;

// The plan with this gate, counted from 1, replaced.
#[tactic(auto, using(crate::proofs::EditsLaws::can_replace_gate))]
pub fn replace_gate(plan: Plan, gate: u32, new_gate: Gate) -> Result<Plan, Fault>
    ensures { edited_outcome plan result ≡ gate_replaced plan gate new_gate }
{
    let at = check_replace_gate(plan, gate, new_gate)?;
    let mut edited = plan;
    let old = edited.gates[at];
    edited.gates[at] = new_gate;
    drop_operands(old, &mut edited.uses);
    count_operands(new_gate, &mut edited.uses);
    Ok(edited)
}

// The checks of replacing a gate, and its place.
#[tactic(auto, using(crate::proofs::EditsLaws::own_fault), unfolding(crate::specs::Edits::replace_gate_fault))]
fn check_replace_gate(plan: Plan, gate: u32, new_gate: Gate) -> Result<usize, Fault>
    ensures answered { answer_number result ≡ replace_gate_fault plan gate new_gate }
    ensures placed { IfOk result (λ at. at ≡ gate - 1) }
{
    plan_fault(plan)?;
    let at = place(gate, plan.gate_count)?;
    gate_fault(gate_wire(plan.inputs, at), new_gate)?;
    Ok(at)
}

// The plan with one gate more, behind its last.
#[tactic(auto, using(crate::proofs::EditsLaws::can_append_gate))]
pub fn append_gate(plan: Plan, new_gate: Gate) -> Result<Plan, Fault>
    ensures { edited_outcome plan result ≡ gate_appended plan new_gate }
{
    check_append_gate(plan, new_gate)?;
    let mut edited = plan;
    let at = usize::from(edited.gate_count);
    edited.gate_count += 1;
    edited.gate_places = ceil_power(u32::from(edited.gate_count)) as u16;
    edited.gates[at] = new_gate;
    edited.uses[usize::from(edited.inputs) + at] = 0;
    count_operands(new_gate, &mut edited.uses);
    Ok(edited)
}

// The checks of appending a gate.
#[tactic(auto, using(crate::proofs::EditsLaws::own_fault), unfolding(crate::specs::Edits::append_gate_fault))]
fn check_append_gate(plan: Plan, new_gate: Gate) -> Result<(), Fault>
    ensures { answer_number result ≡ append_gate_fault plan new_gate }
{
    plan_fault(plan)?;
    if !count_allowed(u32::from(plan.gate_count) + 1, Plan::MAX_GATES) {
        return Err(Fault::Gates);
    }
    gate_fault(
        gate_wire(plan.inputs, usize::from(plan.gate_count)),
        new_gate,
    )
}

// The plan with this output, counted from 1, replaced.
#[tactic(auto, using(crate::proofs::EditsLaws::can_replace_output))]
pub fn replace_output(plan: Plan, output: u32, wire: PlanWire) -> Result<Plan, Fault>
    ensures { edited_outcome plan result ≡ output_replaced plan output wire }
{
    let at = check_replace_output(plan, output, wire)?;
    let mut edited = plan;
    let old = edited.outputs[at];
    edited.outputs[at] = wire;
    drop_use(old, &mut edited.uses);
    count_use(wire, &mut edited.uses);
    Ok(edited)
}

// The checks of replacing an output, and its place.
#[tactic(auto, unfolding(crate::specs::Edits::replace_output_fault, plan::specs::Faults::output_fault))]
fn check_replace_output(plan: Plan, output: u32, wire: PlanWire) -> Result<usize, Fault>
    ensures answered { answer_number result ≡ replace_output_fault plan output wire }
    ensures placed { IfOk result (λ at. at ≡ output - 1) }
{
    plan_fault(plan)?;
    let at = place(output, plan.output_count)?;
    if !source_allowed(plan.inputs, plan.gate_count, wire) {
        return Err(Fault::Source);
    }
    Ok(at)
}

// The place of this number, counted from 1, of so many: 18 where there is none.
#[tactic(auto, unfolding(crate::specs::Edits::place_fault, plan::specs::Rules::count_allowed))]
fn place(number: u32, count: u16) -> Result<usize, Fault>
    ensures answered { answer_number result ≡ place_fault count number }
    ensures placed { IfOk result (λ at. (at < count) × (number ≡ at + 1)) }
{
    if !count_allowed(number, usize::from(count)) {
        return Err(Fault::Place);
    }
    Ok(number as usize - 1)
}

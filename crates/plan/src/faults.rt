// Plan faults: for any record in memory `plan_fault` says, with proof, whether it is an accepted plan. Unused places are not looked at.
ghost use Rattle.std.specs.Prelude.{◌≡◌};
ghost use Rattle.fault.specs.Number.{answer_number};
ghost use Rattle.plan.specs.Faults.{gate_fault, plan_fault};

use crate::counts::PlanCounts;
use crate::record::{Gate, Plan, PlanWire, gate_wire};
use crate::rules::{operand_allowed, source_allowed, table_allowed};
use crate::uses::{count_operands, count_use, tally_fault};
use fault::Fault;

// The first plan fault: the counts, then gate by gate, then output by output, whose uses are counted on the way, then the figures.
pub fn plan_fault(plan: Plan) -> Result<(), Fault>
    ensures { answer_number result ≡ plan_fault plan }
{
    let counts = PlanCounts::new(
        u32::from(plan.inputs),
        u32::from(plan.gate_count),
        u32::from(plan.output_count),
    )?;
    let mut counted = [0u16; Plan::MAX_WIRES];
    for (i, &gate) in plan.gates[..usize::from(counts.gates)].iter().enumerate() {
        gate_fault(gate_wire(counts.inputs, i), gate)?;
        count_operands(gate, &mut counted);
    }
    for &wire in &plan.outputs[..usize::from(counts.outputs)] {
        if !source_allowed(counts.inputs, counts.gates, wire) {
            return Err(Fault::Source);
        }
        count_use(wire, &mut counted);
    }
    tally_fault(&plan, counts, &counted)
}

// The fault of a gate whose own wire is own.
#[tactic(auto, unfolding(crate::specs::Faults::gate_fault))]
pub fn gate_fault(own: PlanWire, gate: Gate) -> Result<(), Fault>
    ensures { answer_number result ≡ gate_fault own.0 gate }
{
    if !operand_allowed(own, gate.first) || !operand_allowed(own, gate.second) {
        return Err(Fault::Operand);
    }
    if !table_allowed(gate.table) {
        return Err(Fault::Table);
    }
    Ok(())
}

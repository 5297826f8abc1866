// Counting the uses of a plan's wires, wire w at place w - 1, and comparing them with those that its record holds.
ghost use Rattle.std.specs.Prelude.{◌≡◌, slice_index};
ghost use Rattle.fault.specs.Number.{answer_number};
ghost use Rattle.plan.specs.Faults.{figures_fault};
ghost use Rattle.plan.specs.Counting.{with_use, with_operands};

use crate::counts::PlanCounts;
use crate::record::{Gate, Plan, PlanWire};
use crate::rules::count_allowed;
use fault::Fault;
use powers::ceil_power;

// One use more of the wire, if it has a place.
#[tactic(auto, unfolding(crate::specs::Counting::with_use, crate::specs::Rules::count_allowed))]
pub fn count_use(wire: PlanWire, uses: &mut [u16; Plan::MAX_WIRES])
    ensures { uses.new ≡ with_use wire.0 uses.old }
{
    if count_allowed(u32::from(wire.0), Plan::MAX_WIRES) {
        let used = &mut uses[usize::from(wire.0) - 1];
        *used = used.wrapping_add(1);
    }
}

// One use more of each of the gate's operands.
#[tactic(auto, unfolding(crate::specs::Counting::with_operands))]
pub fn count_operands(gate: Gate, uses: &mut [u16; Plan::MAX_WIRES])
    ensures { uses.new ≡ with_operands gate uses.old }
{
    count_use(gate.first, uses);
    count_use(gate.second, uses);
}

// 17: K, or the uses of a wire, that the plan holds and that are not the counted ones.
pub(crate) fn tally_fault(
    plan: &Plan,
    counts: PlanCounts,
    counted: &[u16; Plan::MAX_WIRES],
) -> Result<(), Fault>
    ensures { answer_number result ≡ figures_fault counts.inputs counts.gates plan.now.gate_places plan.now.uses (λ i. slice_index counted.now i) }
{
    let wires = usize::from(counts.inputs) + usize::from(counts.gates);
    if ceil_power(u32::from(counts.gates)) != u64::from(plan.gate_places)
        || plan.uses[..wires] != counted[..wires]
    {
        return Err(Fault::Tally);
    }
    Ok(())
}

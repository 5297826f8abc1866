// The uses that go with a gate or an output: wire w at place w - 1.
ghost use Rattle.std.specs.Prelude.{◌≡◌, ◌-◌, ◌≤◌, get_or};
ghost use Rattle.plan.specs.Record.{max_plan_wires};
ghost use Rattle.plan_edits.specs.Uncounting.{without_use, without_operands};

use plan::{Gate, Plan, PlanWire};

// One use less of the wire, which has one.
#[tactic(auto, unfolding(crate::specs::Uncounting::without_use))]
pub(crate) fn drop_use(wire: PlanWire, uses: &mut [u16; Plan::MAX_WIRES])
    requires { (1 ≤ wire.0) × (wire.0 ≤ max_plan_wires) × (1 ≤ get_or uses.old (wire.0 - 1) 0) }
    ensures { uses.new ≡ without_use wire.0 uses.old }
{
    uses[usize::from(wire.0) - 1] -= 1;
}

// One use less of each of the gate's operands, which have them.
#[tactic(auto, unfolding(crate::specs::Uncounting::without_operands))]
pub(crate) fn drop_operands(gate: Gate, uses: &mut [u16; Plan::MAX_WIRES])
    requires le_first { (1 ≤ gate.first.0) × (gate.first.0 ≤ max_plan_wires) × (1 ≤ get_or uses.old (gate.first.0 - 1) 0) }
    requires le_second { (1 ≤ gate.second.0) × (gate.second.0 ≤ max_plan_wires) × (1 ≤ get_or (without_use gate.first.0 uses.old) (gate.second.0 - 1) 0) }
    ensures { uses.new ≡ without_operands gate uses.old }
{
    drop_use(gate.first, uses);
    drop_use(gate.second, uses);
}

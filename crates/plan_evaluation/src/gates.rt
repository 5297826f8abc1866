// One gate of a plan on the array of its wires' bits. Wire w stands at place w - 1.
ghost use Rattle.std.specs.Prelude.{◌≡◌, ◌-◌, ◌≤◌, set};
ghost use Rattle.plan_evaluation.specs.Evaluation.{value_on, table_bit};
ghost use Rattle.plan_evaluation.specs.GateStands.{GateStands};

use plan::{Gate, PlanWire};

// The bit that a gate's table gives for its operands' bits.
#[tactic(auto, unfolding(crate::specs::Evaluation::table_bit))]
fn gate_bit(table: u16, a: u8, b: u8) -> u8
    requires { (a ≤ 1) × (b ≤ 1) }
    ensures { (result ≡ table_bit table a b) × (result ≤ 1) }
{
    ((table >> (2 * a + b)) & 1) as u8
}

// The place of a wire's bit.
pub(crate) fn place_of(wire: PlanWire) -> usize
    requires { 1 ≤ wire.0 }
    ensures { result ≡ wire.0 - 1 }
{
    usize::from(wire.0) - 1
}

// The bit of a gate, made of its operands' bits, at the place of its own wire.
pub(crate) fn put_gate(gate: Gate, own: usize, wires: &mut [u8])
    requires { GateStands gate own wires.old }
    ensures { wires.new ≡ set wires.old own (table_bit gate.table (value_on 0 wires.old gate.first) (value_on 0 wires.old gate.second)) }
{
    let a = wires[place_of(gate.first)];
    let b = wires[place_of(gate.second)];
    wires[own] = gate_bit(gate.table, a, b);
}

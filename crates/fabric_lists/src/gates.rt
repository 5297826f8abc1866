// The plan's gates as a list of gates, or as a list of operands, pin by pin, and a list of tables; and the bits of a table. Gates and pins count
// from 0.
// Kept: `program` and `start` are two parameters: each part has its own start, and the program is wanted again behind it.
ghost use Rattle.std.specs.Prelude.{◌≡◌, ◌*◌, ◌<◌, length};
ghost use Rattle.blocks.specs.Elements.{store_bits};
ghost use Rattle.fabric_universal.specs.Universal.{table_program};
ghost use Rattle.fabric_lists.specs.GateLists.{gates_listed, loaded_list, loaded_operands, loaded_tables};

use crate::wanted::list_by;
use blocks::store_field;
use elements::GATE_BITS;
use plan::{Gate, Plan, PlanWire};

// Gates whose wires follow `before` others: pins 2g and 2g + 1 are the operands of gate g.
#[derive(Clone, Copy)]
pub struct GateList<'a> {
    pub before: u32,
    pub gates: &'a [Gate],
}

// The operand of pin q of the gates; past them wire 0.
#[tactic(auto, unfolding(blocks::specs::Elements::choose))]
pub(crate) fn operand(gates: &[Gate], q: usize) -> PlanWire
    ensures { result.0 ≡ (gates_listed 0 gates.now).operand q }
{
    let Some(gate) = gates.get(q / 2) else {
        return PlanWire(0);
    };
    if q % 2 == 0 { gate.first } else { gate.second }
}

// The plan's gates to the front of `gates`, as far as the record and the list have places. What stands behind them stays.
pub fn load_list(plan: Plan, gates: &mut [Gate])
    ensures { gates.new ≡ loaded_list plan gates.old }
{
    let count = usize::from(plan.gate_count)
        .min(Plan::MAX_GATES)
        .min(gates.len());
    gates[..count].copy_from_slice(&plan.gates[..count]);
}

// The operands of the plan's gates to the front of `operands`, their tables to the front of `tables`, as far as the record and the lists have
// places. What stands behind them stays.
// Kept: two lists, of operands and of tables: its contract is of both, and `load_list` has the one list that the library uses.
pub fn load_gates(plan: Plan, operands: &mut [u16], tables: &mut [u16])
    ensures operands { operands.new ≡ loaded_operands plan operands.old tables.old }
    ensures tables { tables.new ≡ loaded_tables plan operands.old tables.old }
{
    let count = usize::from(plan.gate_count)
        .min(Plan::MAX_GATES)
        .min(operands.len() / 2)
        .min(tables.len());
    list_by(operands, 2 * count, |q| operand(&plan.gates, q).0);
    list_by(tables, count, |g| plan.gates[g].table);
}

// A gate's table, the lowest bit first, stored from bit `start` on as far as the program goes.
pub fn store_table(table: u16, program: &mut [u8], start: u32)
    ensures { program.new ≡ store_bits program.old start (table_program table) }
{
    store_field(program, start as usize, (table % 256) as u8, GATE_BITS);
}

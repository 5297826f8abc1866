// The program bits of a plan. Checks come first and touch no buffer. The call holds two arrays, 2,560 bytes, and lends them to all that works
// under it.
// Kept: `program` and `start` are two parameters: each part has its own start, and the program is wanted again behind it.
ghost use Rattle.std.specs.Prelude.{◌≡◌, ◌+◌, ◌*◌, ◌^◌, ◌≤◌, length};
ghost use Rattle.fault.specs.Number.{answer_number};
ghost use Rattle.lists.specs.Lists.{list_of};
ghost use Rattle.blocks.specs.Elements.{store_bits};
ghost use Rattle.blocks.specs.Networks.{selection_count, selection_bits};
ghost use Rattle.plan.specs.Faults.{Accepted};
ghost use Rattle.fabric_universal.specs.Fabric.{gate_level, fabric_takes, padded_gate, wanted_outputs, plan_bits};
ghost use Rattle.fabric_lists.specs.WantedLists.{pins_wanted};
ghost use Rattle.fabric_sizes.specs.FabricChecks.{plan_program_fault};
ghost use Rattle.fabric_sizes.specs.Parts.{max_pins};
ghost use Rattle.fabric_bits.specs.ProgramCalls.{plan_program_result};
ghost use Rattle.fabric_bits.specs.ProgramParts.{bit_limit, gates_program, GatesRoom};

use crate::block::{program_universal, store_selection};
use blocks::fill_bytes;
use fabric_lists::{GateList, list_outputs, load_list};
use fabric_sizes::{MAX_PINS, check_plan_program};
use fault::Fault;
use plan::{Gate, Plan, PlanWire};

// A gate past the plan's: table 0, both pins on input 1.
const SPARE_GATE: Gate = Gate {
    first: PlanWire(1),
    second: PlanWire(1),
    table: 0,
};

// What stands in the places past K, which are not read. An array of it is cleared at once.
const NO_GATE: Gate = Gate {
    first: PlanWire(0),
    second: PlanWire(0),
    table: 0,
};

// The program of the plan, from the front of `program`. Spare bits of its last byte are 0.
pub fn program_plan(plan: Plan, program: &mut [u8]) -> Result<(), Fault>
    ensures answered { answer_number result ≡ plan_program_fault plan (length program.old) }
    ensures written { program.new ≡ plan_program_result plan program.old }
{
    let length = check_plan_program(plan, program.len())?;
    fill_bytes(program, length, 0);
    store_plan(plan, program);
    Ok(())
}

// The plan's bits, stored from bit 0 on.
// Kept: that the plan is accepted is a clause: a struct of the plan with the fact would put one field more into each access, and nothing else would change.
fn store_plan(plan: Plan, program: &mut [u8])
    requires accepted { Accepted plan }
    requires fits { fabric_takes plan.inputs plan.gate_count plan.output_count ≤ 8 * length program.old }
    ensures { program.new ≡ store_bits program.old 0 (plan_bits plan) }
{
    let mut gates = [NO_GATE; Plan::MAX_GATES];
    let mut wanted = [0u16; MAX_PINS];
    let gates = &mut gates[..usize::from(plan.gate_places)];
    load_padded(plan, gates);
    let list = GateList {
        before: u32::from(plan.inputs),
        gates,
    };
    let next = store_gates(list, &mut wanted, program);
    store_outputs(plan, &mut wanted, program, next);
}

// The gates at the K places of the plan: its own, and spare ones behind them.
#[tactic(auto, using(crate::proofs::LoadedLaws::loaded))]
fn load_padded(plan: Plan, gates: &mut [Gate])
    requires accepted { Accepted plan }
    requires places { length gates.old ≡ plan.gate_places }
    ensures { gates.new ≡ list_of plan.gate_places (padded_gate plan) }
{
    gates.fill(SPARE_GATE);
    load_list(plan, gates);
}

// The bits of S(u, 2K) and of U(K) for the gates of the list, K of them, stored from bit 0 on. Gives the bit behind them.
#[tactic(auto, using(crate::proofs::PlanBitsLaws::room_behind, crate::proofs::PlanBitsLaws::gates_stored, crate::proofs::PlanBitsLaws::length_gates))]
fn store_gates(list: GateList, wanted: &mut [u16], program: &mut [u8]) -> u32
    requires { GatesRoom list.before list.gates.now (length wanted.old) (length program.old) }
    ensures behind { result ≡ length (gates_program list.entry.before list.entry.gates.now) }
    ensures stored { program.new ≡ store_bits program.old 0 (gates_program list.entry.before list.entry.gates.now) }
{
    let next = store_inputs(list, wanted, program);
    program_universal(list, wanted, program, next)
}

// The bits of S(u, 2K) for the inputs that the pins want, stored from bit 0 on. Gives the bit behind them.
fn store_inputs(list: GateList, wanted: &mut [u16], program: &mut [u8]) -> u32
    requires { GatesRoom list.before list.gates.now (length wanted.old) (length program.old) }
    ensures behind { result ≡ selection_count list.entry.before (2 * length list.entry.gates.now) }
    ensures stored { program.new ≡ store_bits program.old 0 (selection_bits list.entry.before (2 * length list.entry.gates.now) (pins_wanted list.entry.before list.entry.gates.now)) }
{
    let pins = 2 * list.gates.len() as u32;
    list.list_inputs(wanted);
    store_selection(list.before, pins, wanted, program, 0)
}

// The bits of S(K, v) for the gates that the outputs name, stored from bit `start` on.
fn store_outputs(plan: Plan, wanted: &mut [u16], program: &mut [u8], start: u32)
    requires accepted { Accepted plan }
    requires wanted_len { length wanted.old ≡ max_pins }
    requires fits { start + selection_count (2 ^ gate_level plan.gate_count) plan.output_count ≤ 8 * length program.old }
    requires few { start + selection_count (2 ^ gate_level plan.gate_count) plan.output_count ≤ bit_limit }
    ensures { program.new ≡ store_bits program.old start (selection_bits (2 ^ gate_level plan.gate_count) plan.output_count (wanted_outputs plan)) }
{
    list_outputs(plan, wanted);
    store_selection(
        u32::from(plan.gate_places),
        u32::from(plan.output_count),
        wanted,
        program,
        start,
    );
}

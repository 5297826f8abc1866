// What the pins and the outputs want of a selection block. Gates, pins and outputs count from 0, wanted inputs from 1. Each call on pins is there
// for a list of their operands and for a list of gates, and takes all inputs: an operand past the end of the list is wire 0, and what the record or
// a list has no place for is not stored.
// Kept: `program` and `start` are two parameters: each part has its own start, and the program is wanted again behind it.
ghost use Rattle.std.specs.Prelude.{◌≡◌, ℕ, ◌+◌, ◌-◌, ◌*◌, ◌/◌, ◌^◌, ◌<◌, min, length, get_or, take, drop};
ghost use Rattle.lists.specs.Lists.{list_of, Gives};
ghost use Rattle.fault.specs.Buffers.{over};
ghost use Rattle.blocks.specs.Elements.{store_bits};
ghost use Rattle.plan.specs.Record.{max_outputs};
ghost use Rattle.fabric_universal.specs.Universal.{wanted_gates, mix_bits};
ghost use Rattle.fabric_universal.specs.Fabric.{wanted_input, wanted_outputs};
ghost use Rattle.fabric_lists.specs.GateLists.{gates_listed};
ghost use Rattle.fabric_lists.specs.WantedLists.{listed_operands, inputs_wanted, pins_wanted, is_among, wanted_among};

use crate::gates::{GateList, operand};
use blocks::{TellsBits, store_bits_by};
use plan::{Gate, Plan, PlanWire};

// The inputs that the first `count` pins, which have these operands, want, at the front of `wanted`, as far as it has places.
pub fn list_inputs(inputs: u16, count: u32, operands: &[u16], wanted: &mut [u16])
    ensures { wanted.new ≡ over (take (length wanted.old) (inputs_wanted inputs operands.now count)) wanted.old }
{
    let inputs = u32::from(inputs);
    list_by(
        wanted,
        count as usize,
        |q| wanted_input(inputs, operand_at(operands, q)),
    );
}

// The operand if it is an input, otherwise input 1.
#[tactic(auto, unfolding(fabric_universal::specs::Fabric::wanted_input))]
fn wanted_input(inputs: u32, operand: PlanWire) -> u16
    ensures { result ≡ wanted_input inputs operand.0 }
{
    if u32::from(operand.0) <= inputs {
        operand.0
    } else {
        1
    }
}

// The gates that the outputs name, counted from 1, at the front of `wanted`, as far as the record and the list have places.
pub fn list_outputs(plan: Plan, wanted: &mut [u16])
    ensures { wanted.new ≡ over (take (min max_outputs (length wanted.old)) (wanted_outputs plan)) wanted.old }
{
    let count = usize::from(plan.output_count).min(Plan::MAX_OUTPUTS);
    list_by(wanted, count, |j| gate_number(plan.inputs, plan.outputs[j]));
}

// Which gate behind `inputs` inputs has the wire, counted from 1; 0 for an input.
fn gate_number(inputs: u16, wire: PlanWire) -> u16
    ensures { result ≡ wire.0 - inputs }
{
    wire.0.saturating_sub(inputs)
}

// The gates of an upper half that the pins of its lower half want, at the front of `wanted`, as far as it has places. The upper half has `half`
// gates from `base` on, whose wires follow `before` others.
pub fn list_gates(before: u32, base: u32, half: u32, operands: &[u16], wanted: &mut [u16])
    ensures { wanted.new ≡ over (take (length wanted.old) (wanted_gates (listed_operands before operands.now) base half)) wanted.old }
{
    let first = before as usize + base as usize;
    let half = half as usize;
    let lower = pins_behind(base as usize + half, operands);
    list_by(
        wanted,
        2 * half,
        |j| wanted_gate(first, half, operand_at(lower, j)),
    );
}

// The bits of the Y rows before the lower half, stored from bit `start` on as far as the program goes.
pub fn store_choices(
    before: u32,
    base: u32,
    half: u32,
    operands: &[u16],
    program: &mut [u8],
    start: u32,
)
    ensures { program.new ≡ store_bits program.old start (mix_bits (listed_operands before operands.now) base half) }
{
    let choices = OperandChoices {
        before: before as usize + base as usize,
        half: half as usize,
        lower: pins_behind(base as usize + half as usize, operands),
    };
    store_bits_by(program, start as usize, 2 * half as usize, &choices);
}

impl GateList<'_> {
    // The inputs that the pins of the gates want, at the front of `wanted`, as far as it has places. The wires before the gates are the inputs.
    pub fn list_inputs(self, wanted: &mut [u16])
        ensures { wanted.new ≡ over (take (length wanted.old) (pins_wanted self.entry.before self.entry.gates.now)) wanted.old }
    {
        let pins = 2 * self.gates.len();
        list_by(
            wanted,
            pins,
            |q| wanted_input(self.before, operand(self.gates, q)),
        );
    }

    // The gates of an upper half that the pins of its lower half want, at the front of `wanted`, as far as it has places. The list has the gates of
    // both halves.
    pub fn list_gates(self, wanted: &mut [u16])
        ensures { wanted.new ≡ over (take (length wanted.old) (wanted_gates (gates_listed self.entry.before self.entry.gates.now) 0 (length self.entry.gates.now / 2))) wanted.old }
    {
        let before = self.before as usize;
        let half = self.gates.len() / 2;
        let lower = &self.gates[half..];
        list_by(
            wanted,
            2 * half,
            |j| wanted_gate(before, half, operand(lower, j)),
        );
    }

    // The bits of the Y rows before the lower half, stored from bit `start` on as far as the program goes: 1 if the operand of the row's pin is a
    // gate of the upper half. The list has the gates of both halves.
    pub fn store_choices(self, program: &mut [u8], start: u32)
        ensures { program.new ≡ store_bits program.old start (mix_bits (gates_listed self.entry.before self.entry.gates.now) 0 (length self.entry.gates.now / 2)) }
    {
        let before = self.before as usize;
        let half = self.gates.len() / 2;
        let lower = &self.gates[half..];
        let choices = Choices {
            before,
            half,
            lower,
        };
        store_bits_by(program, start as usize, 2 * half, &choices);
    }
}

// The bits of the Y rows before a lower half: the wires before the upper half, its gates, and the lower half.
#[derive(Clone, Copy)]
struct Choices<'a> {
    before: usize,
    half: usize,
    lower: &'a [Gate],
}

impl TellsBits for Choices<'_> {
    ghost told = { λ rows j. is_among rows.before rows.half ((gates_listed 0 rows.lower.now).operand j) };

    fn is_one(&self, j: usize) -> bool {
        is_among(self.before, self.half, operand(self.lower, j))
    }
}

// The same where the lower half is a list of its pins' operands.
#[derive(Clone, Copy)]
struct OperandChoices<'a> {
    before: usize,
    half: usize,
    lower: &'a [u16],
}

impl TellsBits for OperandChoices<'_> {
    ghost told = { λ rows j. is_among rows.before rows.half (get_or rows.lower.now j 0) };

    fn is_one(&self, j: usize) -> bool {
        is_among(self.before, self.half, operand_at(self.lower, j))
    }
}

// Of the `half` gates behind `before` wires the operand, counted from 1, if it is one of them, otherwise the first.
#[tactic(auto, unfolding(crate::specs::WantedLists::wanted_among, crate::specs::WantedLists::is_among))]
fn wanted_gate(before: usize, half: usize, operand: PlanWire) -> u16
    ensures { result ≡ wanted_among before half operand.0 }
{
    if is_among(before, half, operand) {
        (usize::from(operand.0) - before) as u16
    } else {
        1
    }
}

// Whether the operand is one of the `half` gates behind `before` wires.
#[tactic(auto, unfolding(crate::specs::WantedLists::is_among))]
fn is_among(before: usize, half: usize, operand: PlanWire) -> bool
    ensures { result ≡ is_among before half operand.0 }
{
    let wire = usize::from(operand.0);
    before < wire && wire - before <= half
}

// The operands of the pins behind the first `gates` gates.
fn pins_behind(gates: usize, operands: &[u16]) -> &[u16]
    requires { gates < 2 ^ 33 }
    ensures { result.now ≡ drop (2 * gates) operands.now }
{
    &operands[(2 * gates).min(operands.len())..]
}

// The operand of pin q, wire 0 past the end of the list.
fn operand_at(operands: &[u16], q: usize) -> PlanWire
    ensures { result.0 ≡ get_or operands.now q 0 }
{
    PlanWire(operands.get(q).copied().unwrap_or(0))
}

// What `input` gives for each of the first `count` places, at the front of `wanted`, as far as it has places.
pub(crate) fn list_by<F: Fn(usize) -> u16>(wanted: &mut [u16], count: usize, input: F)
    requires { (q : ℕ) → q < count → F.pre input q }
    ensures { (f : ℕ → ℕ) → Gives (F.post input) count f → wanted.new ≡ over (take (length wanted.old) (list_of count f)) wanted.old }
{
    let end = count.min(wanted.len());
    for (q, place) in wanted[..end].iter_mut().enumerate() {
        *place = input(q);
    }
}

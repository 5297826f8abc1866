// The plan record in memory, with its limits.
ghost use Rattle.std.specs.Prelude.{◌≡◌, ◌%◌};
ghost use Rattle.plan.specs.Record.{word_numbers, zero_plan, gate_wire};

// How many numbers two bytes hold: a wire of a plan is one of them.
const WORD_NUMBERS: usize = 65_536;

// A wire of a plan: 1 to u are inputs, u + g is gate g.
#[repr(C)]
#[derive(Clone, Copy, PartialEq, Eq)]
pub struct PlanWire(pub u16);

// A gate: two operands, each a smaller wire than its own, and a table of four bits. The table has 16 bits of room, so that a gate has no
// padding and a record is cleared at once.
#[repr(C)]
#[derive(Clone, Copy)]
pub struct Gate {
    pub first: PlanWire,
    pub second: PlanWire,
    pub table: u16,
}

// A plan with places for every gate and output it may have, and its figures: K, and for each wire, wire w at place w - 1, how many operand places and
// outputs name it. Places past its counts, and past its wires, are unused.
// Kept: counts beside arrays that have all places, since the C interface hands the record over by value.
#[repr(C)]
#[derive(Clone, Copy)]
pub struct Plan {
    pub inputs: u16,
    pub gate_count: u16,
    pub output_count: u16,
    pub gates: [Gate; Plan::MAX_GATES],
    pub outputs: [PlanWire; Plan::MAX_OUTPUTS],
    pub gate_places: u16,
    pub uses: [u16; Plan::MAX_WIRES],
}

impl Gate {
    // The table in which all four bits stand.
    pub const MAX_TABLE: u16 = 15;
}

impl Plan {
    // The most inputs that a plan may have.
    pub const MAX_INPUTS: usize = 64;

    // The most gates that a plan may have: its record has a place for each.
    pub const MAX_GATES: usize = 256;

    // The most outputs that a plan may have: its record has a place for each.
    pub const MAX_OUTPUTS: usize = 64;

    // The most wires that a plan may have: its record has a place for the uses of each.
    pub const MAX_WIRES: usize = Plan::MAX_INPUTS + Plan::MAX_GATES;

    // The record with every count, every place and every figure zero.
    #[tactic(auto, unfolding(crate::specs::Record::places))]
    pub fn zero() -> Self
        ensures { result ≡ zero_plan }
    {
        let none = PlanWire(0);
        let gate = Gate {
            first: none,
            second: none,
            table: 0,
        };
        Plan {
            inputs: 0,
            gate_count: 0,
            output_count: 0,
            gates: [gate; Plan::MAX_GATES],
            outputs: [none; Plan::MAX_OUTPUTS],
            gate_places: 0,
            uses: [0; Plan::MAX_WIRES],
        }
    }
}

// The own wire of gate i, counted from 0, in a plan with this number of inputs, modulo WORD_NUMBERS.
pub fn gate_wire(inputs: u16, i: usize) -> PlanWire
    ensures { result.0 ≡ gate_wire inputs i % word_numbers }
{
    PlanWire(((usize::from(inputs) + i % WORD_NUMBERS + 1) % WORD_NUMBERS) as u16)
}

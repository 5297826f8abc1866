// Taking gates: again and again the lowest one whose operands are inputs or gates already taken. Gates count from 0.
ghost use Rattle.std.specs.Prelude.{◌≡◌, None, suc, ◌<◌, length, get_or};
ghost use Rattle.plan.specs.Record.{max_gates, gate_wire};
ghost use Rattle.plan_order.specs.Drawing.{DrawingWithin, ordered_plan};
ghost use Rattle.plan_drawn.specs.Taking.{unnumbered, can_take_gate, LowestFound, Started, OrderTaken};

use plan::{Gate, Plan, PlanWire, count_operands, count_use, gate_wire};
use powers::ceil_power;

// A drawing whose gates are being taken.
#[derive(Clone, Copy)]
pub(crate) struct Taking<'a> {
    drawing: &'a Plan,
    // The number of each wire in the plan, 0 where no gate that was taken has the wire.
    // Kept: 0 and no Option, which would take twice the room; no gate's wire has the number 0.
    numbers: [u16; Taking::NUMBER_PLACES],
    // The drawn numbers of the gates that were taken, in the order of taking.
    pub drawn: [u16; Plan::MAX_GATES],
    ghost within: { DrawingWithin drawing.now },
}

// The place of gate g's own wire in the list of numbers. It is asked for in the innermost loop, and needs no wrap at 16 bits.
fn own_place(inputs: u16, g: usize) -> usize
    requires { g < max_gates }
    ensures { result ≡ gate_wire inputs g }
{
    usize::from(inputs) + g + 1
}

// A gate's drawn number: gates count from 1 there.
pub(crate) fn drawn_number(g: usize) -> u16
    requires { g < max_gates }
    ensures { result ≡ suc g }
{
    g as u16 + 1
}

impl<'a> Taking<'a> {
    // The places of a list that has the number of every wire, and of wire 0.
    const NUMBER_PLACES: usize = Plan::MAX_WIRES + 1;

    // None of the drawing's gates is taken: wire 0 and the inputs have their own numbers.
    pub(crate) fn new(drawing: &'a Plan) -> Self
        requires { DrawingWithin drawing.now }
        ensures same { result.drawing.now ≡ drawing.now }
        ensures started { Started drawing.now result.numbers result.drawn }
    {
        let mut numbers = [0u16; Taking::NUMBER_PLACES];
        for w in 0..=drawing.inputs {
            numbers[usize::from(w)] = w;
        }
        Taking {
            drawing,
            numbers,
            drawn: [0; Plan::MAX_GATES],
        }
    }

    // Whether gate g is not taken: its own wire has no number.
    #[tactic(auto, unfolding(crate::specs::Taking::unnumbered))]
    fn is_left(&self, g: usize) -> bool
        requires { g < self.now.drawing.now.gate_count }
        ensures { result ≡ unnumbered self.now.numbers (gate_wire self.now.drawing.now.inputs g) }
    {
        self.numbers[own_place(self.drawing.inputs, g)] == 0
    }

    // Whether gate g can be taken next: its operands have numbers, its own wire has none.
    #[tactic(auto, unfolding(crate::specs::Taking::unnumbered, crate::specs::Taking::can_take))]
    fn can_take(&self, g: usize) -> bool
        requires { g < self.now.drawing.now.gate_count }
        ensures { result ≡ can_take_gate self.now.drawing.now self.now.numbers g }
    {
        let gate = self.drawing.gates[g];
        self.numbers[usize::from(gate.first.0)] != 0
            && self.numbers[usize::from(gate.second.0)] != 0
            && self.is_left(g)
    }

    // The lowest gate from `from` on that can be taken next.
    fn lowest_ready(&self, from: usize) -> Option<usize>
        ensures { LowestFound (can_take_gate self.now.drawing.now self.now.numbers) from self.now.drawing.now.gate_count result }
    {
        (from..usize::from(self.drawing.gate_count)).find(|&g| self.can_take(g))
    }

    // The lowest gate from `from` on that is not taken.
    fn lowest_left(&self, from: usize) -> Option<usize>
        ensures { LowestFound (λ g. unnumbered self.now.numbers (gate_wire self.now.drawing.now.inputs g)) from self.now.drawing.now.gate_count result }
    {
        (from..usize::from(self.drawing.gate_count)).find(|&g| self.is_left(g))
    }

    // Takes gates until none can be taken: their wires get their numbers, and their drawn numbers stand in `drawn` in the order in which they were taken.
    // Gives the lowest gate that is left over. The search for the next gate begins at the lowest that is left, since below it all are taken.
    pub(crate) fn take_gates(&mut self) -> Option<usize>
        requires { Started self.old.drawing.now self.old.numbers self.old.drawn }
        ensures same { self.new.drawing.now ≡ self.old.drawing.now }
        ensures taken { OrderTaken self.old.drawing.now result self.new.numbers self.new.drawn }
    {
        let inputs = self.drawing.inputs;
        let count = usize::from(self.drawing.gate_count);
        let mut low = 0;
        for taken in 0..count {
            let Some(next) = self.lowest_ready(low) else {
                return Some(low);
            };
            self.numbers[own_place(inputs, next)] = gate_wire(inputs, taken).0;
            self.drawn[taken] = drawn_number(next);
            low = self.lowest_left(low).unwrap_or(count);
        }
        None
    }

    // A drawn wire by its number in the plan.
    fn renumber(&self, wire: PlanWire) -> PlanWire
        requires { wire.0 < length self.now.numbers }
        ensures { result.0 ≡ get_or self.now.numbers wire.0 0 }
    {
        PlanWire(self.numbers[usize::from(wire.0)])
    }

    // The plan of a drawing all of whose gates are taken: the gates in the order of the drawn numbers, their operands and the outputs renumbered, and its figures.
    pub(crate) fn order_gates(&self) -> Plan
        requires { OrderTaken self.now.drawing.now None self.now.numbers self.now.drawn }
        ensures { result ≡ ordered_plan self.now.drawing.now }
    {
        let drawing = self.drawing;
        let mut plan = Plan::zero();
        plan.inputs = drawing.inputs;
        plan.gate_count = drawing.gate_count;
        plan.output_count = drawing.output_count;
        plan.gate_places = ceil_power(u32::from(drawing.gate_count)) as u16;
        for j in 0..usize::from(drawing.output_count) {
            let wire = self.renumber(drawing.outputs[j]);
            plan.outputs[j] = wire;
            count_use(wire, &mut plan.uses);
        }
        for p in 0..usize::from(drawing.gate_count) {
            let gate = drawing.gates[usize::from(self.drawn[p]) - 1];
            let ordered = Gate {
                first: self.renumber(gate.first),
                second: self.renumber(gate.second),
                table: gate.table,
            };
            plan.gates[p] = ordered;
            count_operands(ordered, &mut plan.uses);
        }
        plan
    }
}

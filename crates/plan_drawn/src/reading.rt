// Reading a drawn plan: the plain reading first, because what it reads is in order; otherwise the drawing, its gates taken one after another, and number 15
// where some are left over.
ghost use Rattle.std.specs.Prelude.{◌≡◌, ◌≤◌};
ghost use Rattle.plan.specs.Record.{max_gates};
ghost use Rattle.plan.specs.Faults.{CountsWithin};
ghost use Rattle.plan_order.specs.Drawing.{DrawingWithin};
ghost use Rattle.plan_drawn.specs.DrawnFile.{map_offset, no_cycle, drawn_outcome, drawn_read};
ghost use Rattle.plan_drawn.specs.DrawnTheorems.{in_order_numbers};
ghost use Rattle.plan_drawn.specs.Answers.{drawn_read_outcome};

use crate::taking::{Taking, drawn_number};
use fault::{Fault, Refusal};
use plan::{Plan, gate_wire};
use plan_fields::{Cursor, read_gate};
use plan_reading::{HEADER_BYTES, read_drawing, read_plan};

// The plan of a drawing, with the drawn number at each place.
#[derive(Clone, Copy)]
pub struct DrawnPlan {
    pub plan: Plan,
    pub drawn: [u16; Plan::MAX_GATES],
}

// The plan that a drawing's file gives.
pub fn read_drawn(file: &[u8]) -> Result<DrawnPlan, Refusal>
    ensures { drawn_read_outcome result ≡ drawn_read file.now }
{
    match read_plan(file) {
        Ok(plan) => Ok(DrawnPlan {
            plan,
            drawn: numbers_in_order(plan.gate_count),
        }),
        Err(_) => read_unordered(file),
    }
}

// The drawn numbers of so many gates that were drawn in order already: 1 to k.
fn numbers_in_order(gates: u16) -> [u16; Plan::MAX_GATES]
    requires { gates ≤ max_gates }
    ensures { result ≡ in_order_numbers gates }
{
    let mut drawn = [0u16; Plan::MAX_GATES];
    for g in 0..usize::from(gates) {
        drawn[g] = drawn_number(g);
    }
    drawn
}

// The plan of a drawing in any order.
fn read_unordered(file: &[u8]) -> Result<DrawnPlan, Refusal>
    ensures { drawn_read_outcome result ≡ drawn_read file.now }
{
    let drawing = read_drawing(file)?;
    order_drawing(file, &drawing)
}

// The plan of this drawing, which the file holds, or 15 at the map byte of the lowest gate that is left over.
fn order_drawing(file: &[u8], drawing: &Plan) -> Result<DrawnPlan, Refusal>
    requires { DrawingWithin drawing.now }
    ensures { drawn_read_outcome result ≡ drawn_outcome (no_cycle drawing.now file.now 0) }
{
    let mut taking = Taking::new(drawing);
    if let Some(low) = taking.take_gates() {
        return Err(Refusal {
            fault: Fault::Ring,
            at: map_offset(file, drawing, low),
        });
    }
    let plan = taking.order_gates();
    Ok(DrawnPlan {
        plan,
        drawn: taking.drawn,
    })
}

// Where the map byte of a gate stands, counted from 0: behind the gates before it, which are read again.
fn map_offset(file: &[u8], drawing: &Plan, gate: usize) -> usize
    requires counts { CountsWithin drawing.now.inputs drawing.now.gate_count drawing.now.output_count }
    requires gate { gate ≤ drawing.now.gate_count }
    ensures { result ≡ map_offset drawing.now.inputs drawing.now.gate_count gate file.now }
{
    let bound = gate_wire(drawing.inputs, usize::from(drawing.gate_count));
    let mut at = Cursor { at: HEADER_BYTES };
    for i in 0..gate {
        match read_gate(file, at, bound, gate_wire(drawing.inputs, i)) {
            Err(x) => {
                return x.at;
            }
            Ok((_, next)) => {
                at = next;
            }
        }
    }
    at.at
}

// The lines of the input rows.
use crate::line::{blank, print, put_entries};
use blocks::STRIDE;
use console::put_byte;
use equivalence::run_both;
use fabric::HEADER;
use fault::Fault;
use plan::Plan;

// The rows, wires and program bits of the fabric of 64 inputs, 64 gates and 64 outputs: the largest counts that the program takes.
const MOST_ROWS: usize = 5185;

const MOST_WIRES: usize = 9476;

const MOST_BITS: usize = 5377;

// The entries of its table, the bytes of its programs, and those of its run's work buffer, one for each wire.
const TABLE: usize = HEADER + STRIDE * MOST_ROWS + Plan::MAX_OUTPUTS;

const PROGRAM: usize = (MOST_BITS + 7) / 8;

const WORK: usize = MOST_WIRES;

// The entries of the longest row of inputs, and of the longest row of outputs.
const ROW: usize = Plan::MAX_INPUTS;

// The inputs that a row's number sets; those past them are 0.
const COUNTED: u16 = 6;

// What the lines of a plan are made in: the fabric's table and program, its run's work buffer, a row of inputs, and the outputs of both.
#[derive(Drop)]
struct Bench {
    table: [u16; TABLE],
    program: [u8; PROGRAM],
    work: [u8; WORK],
    inputs: [u8; ROW],
    evaluated: [u8; ROW],
    ran: [u8; ROW],
}

// A line for each row, in the order of their numbers.
pub(crate) fn print_rows(plan: Plan) {
    let mut bench = Bench {
        table: [0; TABLE],
        program: [0; PROGRAM],
        work: [0; WORK],
        inputs: [0; ROW],
        evaluated: [0; ROW],
        ran: [0; ROW],
    };
    for r in 0..1u8 << plan.inputs.min(COUNTED) {
        if bench.print_row(plan, r).is_err() {
            return;
        }
    }
}

impl Bench {
    // The line of row r. A refusal, and no line, where the calls refuse: by the third demand they do for no plan that was read.
    fn print_row(&mut self, plan: Plan, r: u8) -> Result<(), Fault> {
        let u = usize::from(plan.inputs);
        if u > ROW {
            return Err(Fault::Inputs);
        }
        for (i, input) in self.inputs.iter_mut().enumerate() {
            *input = input_bit(r, i);
        }
        run_both(
            plan,
            &self.inputs[..u],
            &mut self.table,
            &mut self.program,
            &mut self.work,
            &mut self.evaluated,
            &mut self.ran,
        )?;
        self.print_digits(u, usize::from(plan.output_count));
        Ok(())
    }

    // The line: u inputs, then v outputs of each.
    fn print_digits(&self, u: usize, v: usize) {
        let mut line = blank();
        let mut n = put_entries(&mut line, 0, &self.inputs, u);
        n = put_byte(&mut line, n, b' ');
        n = put_entries(&mut line, n, &self.evaluated, v);
        n = put_byte(&mut line, n, b' ');
        n = put_entries(&mut line, n, &self.ran, v);
        print(&mut line, n);
    }
}

// Bit i of r; 0 past the inputs that r sets.
fn input_bit(r: u8, i: usize) -> u8 {
    if i < usize::from(COUNTED) {
        return (r >> i) & 1;
    }
    0
}

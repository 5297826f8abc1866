// Reads a plan on standard input and writes its counts, then a line for each input row: the inputs, the plan's outputs and the fabric's.
// Input and output alone are here; every answer is the library's.
#![tactic(auto)]

ghost use Rattle.std.specs.Prelude.{◌≡◌, take};
ghost use Rattle.console.specs.Text.{Puts};
ghost use Rattle.twintest.specs.CountsLine.{counts_line};

mod line;
mod rows;

use console::{put_byte, put_named, put_refusal, read_input, read_small_plan};
use elements::Counts;
use fabric::count_fabric;
use fault::Fault;
use line::{Line, blank};
use plan::Plan;
use rows::print_rows;

// The buffer is longer than the longest plan file, of 1,670 bytes, so a tail is seen.
fn main() {
    let mut file = io::buffer();
    let n = read_input(&mut file);
    print_file(&file[..n]);
}

// What the program writes for a file.
fn print_file(file: &[u8]) {
    match read_small_plan(file) {
        Ok(plan) => print_plan(plan),
        Err(refusal) => print_refusal(refusal.fault, refusal.at as u64),
    }
}

// The counts, and the rows below them.
fn print_plan(plan: Plan) {
    match count_fabric(
        u32::from(plan.inputs),
        u32::from(plan.gate_count),
        u32::from(plan.output_count),
    ) {
        Ok(counts) => {
            print_counts(plan.inputs, plan.gate_count, plan.output_count, counts);
            print_rows(plan);
        }
        Err(fault) => print_refusal(fault, 0),
    }
}

// Writes line one.
fn print_counts(u: u16, k: u16, v: u16, c: Counts) {
    let mut line = blank();
    let n = put_counts(&mut line, u, k, v, c);
    io::write_all(1, &line[..n]);
}

// Line one, whole.
// Kept: three numbers and no PlanCounts: the definition `counts_line` takes the three.
fn put_counts(line: &mut Line, u: u16, k: u16, v: u16, c: Counts) -> usize
    ensures put { Puts line.old 0 (counts_line u k v c) line.new result }
    ensures whole { take result line.new ≡ counts_line u k v c }
{
    let mut n = put_named(line, 0, b"u ", u64::from(u));
    n = put_named(line, n, b" k ", u64::from(k));
    n = put_named(line, n, b" v ", u64::from(v));
    n = put_named(line, n, b" rows ", u64::from(c.rows));
    n = put_named(line, n, b" wires ", u64::from(c.wires));
    n = put_named(line, n, b" bits ", u64::from(c.bits));
    put_byte(line, n, b'\n')
}

// A refusal's number and place.
fn print_refusal(fault: Fault, at: u64) {
    let mut line = blank();
    let n = put_refusal(&mut line, 0, fault, at);
    io::write_all(1, &line[..n]);
}

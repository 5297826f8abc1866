// Saving a plan: the plan faults, then the room for the file, then the file.
ghost use Rattle.std.specs.Prelude.{◌≡◌, ◌++◌, ◌+◌, ◌≤◌, length};
ghost use Rattle.fault.specs.Buffers.{over};
ghost use Rattle.plan.specs.Faults.{Accepted};
ghost use Rattle.plan_reading.specs.PlanFile.{header_bytes};
ghost use Rattle.plan_files.specs.Encoding.{word};
ghost use Rattle.plan_saving.specs.Saving.{saved_file, plan_save, save_result};
ghost use Rattle.plan_saving.specs.Answers.{save_outcome};
ghost use Rattle.plan_saving.specs.Parts.{saved_gates, saved_outputs, Wrote};

use crate::gate::{encode_gate, fields_needed, put, word};
use fault::Fault;
use plan::{Plan, gate_wire, plan_fault};
use plan_reading::HEADER_BYTES;

// The bytes of a gate in which every field stands, and of an output.
const GATE_BYTES: usize = 6;

const OUTPUT_BYTES: usize = 2;

// The bytes of the longest file.
const LONGEST_FILE: usize = HEADER_BYTES
    + GATE_BYTES * Plan::MAX_GATES
    + OUTPUT_BYTES * Plan::MAX_OUTPUTS;

// Writes the shortest file of a plan into the front of a lent buffer, and answers the file's length. The file is made in an array of the call's own,
// whose length decides whether the buffer has room: a plan's gates are gone through once.
pub fn save_plan(plan: Plan, file: &mut [u8]) -> Result<usize, Fault>
    ensures answered { save_outcome result ≡ plan_save plan (length file.old) }
    ensures written { file.new ≡ save_result plan file.old }
{
    plan_fault(plan)?;
    let mut made = [0u8; LONGEST_FILE];
    let length = encode_plan(&mut made, &plan);
    if file.len() < length {
        return Err(Fault::Short);
    }
    copy_front(&made[..length], file);
    Ok(length)
}

// A file into the front of a buffer.
// Kept: a function for one copy, so that its clause says in the definition's word what a longer buffer holds afterwards.
fn copy_front(made: &[u8], file: &mut [u8])
    requires { length made.now ≤ length file.old }
    ensures { file.new ≡ over made.now file.old }
{
    file[..made.len()].copy_from_slice(made);
}

// The shortest file of an accepted plan into the front of a buffer that has room for it: the counts, the gates, the outputs. It answers the file's length.
// Kept: that the plan is accepted is a clause: a struct of the plan with the fact would put one field more into each access, and nothing else would change.
fn encode_plan(file: &mut [u8], plan: &Plan) -> usize
    requires accepted { Accepted plan.now }
    requires plan_in_bounds { length (saved_file plan.now) ≤ length file.old }
    ensures { Wrote (saved_file plan.now) file.old 0 file.new result }
{
    let header = encode_counts(file, plan.inputs, plan.gate_count, plan.output_count);
    let end = encode_gates(file, header, plan);
    encode_outputs(file, end, plan)
}

// The three counts into the front of a buffer.
fn encode_counts(file: &mut [u8], inputs: u16, gates: u16, outputs: u16) -> usize
    requires { header_bytes ≤ length file.old }
    ensures { Wrote (word inputs ++ (word gates ++ word outputs)) file.old 0 file.new result }
{
    let first = put(file, 0, word(inputs));
    let second = put(file, first, word(gates));
    put(file, second, word(outputs))
}

// The gates, from `start` on.
fn encode_gates(file: &mut [u8], start: usize, plan: &Plan) -> usize
    requires accepted { Accepted plan.now }
    requires gate_count_in_bounds { start + length (saved_gates plan.now plan.now.gate_count) ≤ length file.old }
    ensures { Wrote (saved_gates plan.now plan.now.gate_count) file.old start file.new result }
{
    let gates = &plan.gates[..usize::from(plan.gate_count)];
    let mut at = start;
    for (i, &gate) in gates.iter().enumerate() {
        let fields = fields_needed(gate_wire(plan.inputs, i), gate);
        at = encode_gate(file, at, fields, gate);
    }
    at
}

// The outputs, from `start` on.
fn encode_outputs(file: &mut [u8], start: usize, plan: &Plan) -> usize
    requires accepted { Accepted plan.now }
    requires output_count_in_bounds { start + length (saved_outputs plan.now plan.now.output_count) ≤ length file.old }
    ensures { Wrote (saved_outputs plan.now plan.now.output_count) file.old start file.new result }
{
    let mut at = start;
    for &wire in &plan.outputs[..usize::from(plan.output_count)] {
        at = put(file, at, word(wire.0));
    }
    at
}

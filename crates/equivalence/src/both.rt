// The four calls on lent buffers: the fabric's table for the plan's three counts, the plan's program, the run of exactly those entries and
// bytes, and plan evaluation. Checks come first and touch no buffer.
ghost use Rattle.std.specs.Prelude.{◌≡◌, ◌<◌, length, get_or};
ghost use Rattle.fault.specs.Number.{answer_number};
ghost use Rattle.equivalence.specs.BothCalls.{both_room_fault, both_fault, both_table, both_program, both_work, both_evaluated, both_ran};
ghost use Rattle.equivalence.specs.BothCalls.{LengthsAre};

use fabric::{fabric_counts, program_length, program_plan, run, table_length, write_fabric};
use fault::Fault;
use plan::{Plan, plan_fault};
use plan_evaluation::evaluate;
use plan_evaluation_checks::contact_fault;

// The stated lengths of table, program and work.
#[derive(Clone, Copy)]
struct Lengths {
    table: usize,
    program: usize,
    work: usize,
}

// The plan's outputs on the row into `evaluated`, the fabric's into `ran`; table, program and work are the fabric's. Where the checks pass none of
// the four calls refuses.
// Kept: plan, row and the five lent buffers of the four calls, each with a clause of its own.
pub fn run_both(
    plan: Plan,
    row: &[u8],
    table: &mut [u16],
    program: &mut [u8],
    work: &mut [u8],
    evaluated: &mut [u8],
    ran: &mut [u8],
) -> Result<(), Fault>
    ensures answered { answer_number result ≡ both_fault plan row.now (length table.old) (length program.old) (length work.old) (length evaluated.old) (length ran.old) }
    ensures table { table.new ≡ both_table plan (answer_number result) table.old }
    ensures program { program.new ≡ both_program plan (answer_number result) program.old }
    ensures work { work.new ≡ both_work plan (answer_number result) row.now work.old }
    ensures evaluated { evaluated.new ≡ both_evaluated plan (answer_number result) row.now evaluated.old }
    ensures ran { ran.new ≡ both_ran plan (answer_number result) row.now ran.old }
    ensures same { answer_number result ≡ 0 → (j : _) → j < plan.output_count → get_or evaluated.new j 0 ≡ get_or ran.new j 0 }
{
    check_both(
        plan,
        row,
        table.len(),
        program.len(),
        work.len(),
        evaluated.len(),
        ran.len(),
    )?;
    let lengths = lengths_of(plan);
    write_fabric(
        u32::from(plan.inputs),
        u32::from(plan.gate_count),
        u32::from(plan.output_count),
        table,
    )?;
    program_plan(plan, program)?;
    run(
        &table[..lengths.table],
        &program[..lengths.program],
        row,
        work,
        ran,
    )?;
    evaluate(plan, row, evaluated)
}

// The checks: plan faults, 12, 11.
#[tactic(auto, unfolding(crate::specs::BothCalls::both_fault))]
fn check_both(
    plan: Plan,
    row: &[u8],
    table: usize,
    program: usize,
    work: usize,
    evaluated: usize,
    ran: usize,
) -> Result<(), Fault>
    ensures { answer_number result ≡ both_fault plan row.now table program work evaluated ran }
{
    plan_fault(plan)?;
    contact_fault(usize::from(plan.inputs), row)?;
    check_both_rooms(plan, table, program, work, evaluated, ran)
}

// 11 for each of the five lent buffers, whose lengths are given.
#[tactic(auto, unfolding(crate::specs::BothCalls::both_room_fault, fault::specs::Checks::room_fault))]
fn check_both_rooms(
    plan: Plan,
    table: usize,
    program: usize,
    work: usize,
    evaluated: usize,
    ran: usize,
) -> Result<(), Fault>
    ensures { answer_number result ≡ both_room_fault plan table program work evaluated ran }
{
    let lengths = lengths_of(plan);
    let outputs = usize::from(plan.output_count);
    if table < lengths.table || program < lengths.program || work < lengths.work {
        return Err(Fault::Short);
    }
    if evaluated < outputs || ran < outputs {
        return Err(Fault::Short);
    }
    Ok(())
}

// The stated lengths, by the plan's counts.
fn lengths_of(plan: Plan) -> Lengths
    ensures { LengthsAre plan result }
{
    let counts = fabric_counts(plan.inputs, plan.gate_count, plan.output_count);
    Lengths {
        table: table_length(plan.inputs, plan.gate_count, plan.output_count),
        program: program_length(plan.inputs, plan.gate_count, plan.output_count),
        work: counts.wires as usize,
    }
}

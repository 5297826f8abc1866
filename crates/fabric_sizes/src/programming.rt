// The checks of programming a plan.
ghost use Rattle.fabric_sizes.specs.FabricChecks.{ProgramChecked};

use crate::counting::count_parts;
use blocks::bytes_for;
use fault::Fault;
use plan::{Plan, plan_fault};

// Plan faults; then 11 for a program of `room` bytes. Where no check fails, the program's length. K is the one that the record holds.
#[tactic(auto, unfolding(crate::specs::FabricChecks::plan_program_fault))]
pub fn check_plan_program(plan: Plan, room: usize) -> Result<usize, Fault>
    ensures { ProgramChecked plan room result }
{
    plan_fault(plan)?;
    let counts = count_parts(plan.inputs, u32::from(plan.gate_places), plan.output_count);
    let length = bytes_for(counts.bits as usize);
    if room < length {
        return Err(Fault::Short);
    }
    Ok(length)
}

// Standard input, and the plan that a file holds.
ghost use Rattle.std.specs.Prelude.{◌≡◌};
ghost use Rattle.io.specs.Counts.{IsPrefixLen};
ghost use Rattle.plan_reading.specs.Answers.{read_outcome};
ghost use Rattle.console.specs.Plans.{small_plan_read};

use fault::{Fault, Refusal};
use plan::Plan;
use plan_reading::read_plan;

// A program refuses a plan with more gates, as document 01 says of `twintest`.
const MOST_GATES: u16 = 64;

// Reads standard input to its end, or until the buffer is full, and answers how many bytes there are.
pub fn read_input(file: &mut [u8]) -> usize
    ensures { IsPrefixLen result file.new }
{
    io::read_full(0, file)
}

// The plan that a file holds, if it has at most 64 gates.
pub fn read_small_plan(file: &[u8]) -> Result<Plan, Refusal>
    ensures { read_outcome result ≡ small_plan_read file.now }
{
    let plan = read_plan(file)?;
    if plan.gate_count > MOST_GATES {
        return Err(Refusal {
            fault: Fault::Short,
            at: 0,
        });
    }
    Ok(plan)
}

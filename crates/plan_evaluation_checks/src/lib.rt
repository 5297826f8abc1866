// Check 12, of a row of contacts. It takes any row and touches no buffer.
#![tactic(auto)]

ghost use Rattle.std.specs.Prelude.{◌≡◌};
ghost use Rattle.fault.specs.Number.{answer_number};
ghost use Rattle.plan_evaluation_checks.specs.EvaluationChecks.{contact_fault};

use fault::Fault;

// Whether a row has one entry for each input, each 0 or 1.
pub fn contact_fault(inputs: usize, row: &[u8]) -> Result<(), Fault>
    ensures { answer_number result ≡ contact_fault inputs row.now }
{
    if row.len() != inputs || row.iter().any(|&entry| 1 < entry) {
        return Err(Fault::Contact);
    }
    Ok(())
}

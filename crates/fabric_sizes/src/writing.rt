// The checks of writing the fabric.
ghost use Rattle.std.specs.Prelude.{◌≡◌, IfOk};
ghost use Rattle.fault.specs.Number.{answer_number};
ghost use Rattle.fabric_sizes.specs.FabricChecks.{fabric_fault};

use crate::counting::table_length;
use fault::Fault;
use plan::PlanCounts;

// 2, 3, 4; then 11 for a table of `room` entries. Where no check fails, the three numbers.
// Kept: three numbers and no PlanCounts: the call takes every number, and says which is out of its limits.
#[tactic(auto, unfolding(crate::specs::FabricChecks::fabric_fault, fault::specs::Checks::room_fault))]
pub fn check_fabric(u: u32, k: u32, v: u32, room: usize) -> Result<PlanCounts, Fault>
    ensures answered { answer_number result ≡ fabric_fault u k v room }
    ensures counts { IfOk result (λ c. (c.inputs ≡ u) × (c.gates ≡ k) × (c.outputs ≡ v)) }
{
    let counts = PlanCounts::new(u, k, v)?;
    if room < table_length(counts.inputs, counts.gates, counts.outputs) {
        return Err(Fault::Short);
    }
    Ok(counts)
}

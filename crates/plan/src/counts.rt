// The numbers of a plan, each within its limit.
ghost use Rattle.std.specs.Prelude.{◌≡◌, IfOk};
ghost use Rattle.fault.specs.Number.{answer_number};
ghost use Rattle.plan.specs.Faults.{counts_fault, CountsWithin};

use crate::record::Plan;
use crate::rules::count_allowed;
use fault::Fault;

// The numbers of inputs, gates and outputs of a plan, each at least 1 and within its limit.
#[derive(Clone, Copy)]
pub struct PlanCounts {
    pub inputs: u16,
    pub gates: u16,
    pub outputs: u16,
    pub ghost within: { CountsWithin inputs gates outputs },
}

impl PlanCounts {
    // These numbers, or the fault of the first that is not within its limit.
    #[tactic(auto, unfolding(crate::specs::Faults::counts_fault, crate::specs::Rules::count_allowed))]
    pub fn new(u: u32, k: u32, v: u32) -> Result<PlanCounts, Fault>
        ensures answered { answer_number result ≡ counts_fault u k v }
        ensures counts { IfOk result (λ c. (c.inputs ≡ u) × (c.gates ≡ k) × (c.outputs ≡ v)) }
    {
        if !count_allowed(u, Plan::MAX_INPUTS) {
            return Err(Fault::Inputs);
        }
        if !count_allowed(k, Plan::MAX_GATES) {
            return Err(Fault::Gates);
        }
        if !count_allowed(v, Plan::MAX_OUTPUTS) {
            return Err(Fault::Outputs);
        }
        Ok(PlanCounts {
            inputs: u as u16,
            gates: k as u16,
            outputs: v as u16,
        })
    }
}

// The third demand as one call: plan evaluation beside the run of the plan's fabric with the plan's program. Its contract says what stands in
// every lent buffer, and that the two results are equal.
#![tactic(auto)]

mod both;

pub use both::run_both;

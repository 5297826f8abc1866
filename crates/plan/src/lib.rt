// Plans: the record in memory, the rules of its parts, and its faults. For any record `plan_fault` says, with proof, whether it is an accepted
// plan. Nothing here reads files or knows of fabrics.
#![tactic(auto)]

mod counts;
mod faults;
mod record;
mod rules;
mod uses;

pub use counts::PlanCounts;
pub use faults::{gate_fault, plan_fault};
pub use record::{Gate, Plan, PlanWire, gate_wire};
pub use rules::{count_allowed, map_allowed, operand_allowed, source_allowed};
pub use uses::{count_operands, count_use};

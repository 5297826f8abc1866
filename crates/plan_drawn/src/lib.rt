// Reading a drawn plan. For any bytes the reader says, with proof, whether they are a drawing whose gates can be evaluated in some order, and gives the plan
// in document 02's order (W1) with the drawn number at each place; or which fault they have and where.
#![tactic(auto)]

mod reading;
mod taking;

pub use reading::{DrawnPlan, read_drawn};

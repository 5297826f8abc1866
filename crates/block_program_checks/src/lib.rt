// The checks of programming P and S, which look at the sizes, the wanted inputs and the room for the bits. They touch no lent buffer.
#![tactic(auto)]

mod bits;
mod permutation;
mod selection;

pub use permutation::check_permutation;
pub use selection::check_selection;

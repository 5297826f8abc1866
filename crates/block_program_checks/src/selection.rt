// The checks of programming S.
ghost use Rattle.std.specs.Prelude.{◌≡◌};
ghost use Rattle.fault.specs.Number.{answer_number};
ghost use Rattle.block_program_checks.specs.Checks.{selected_fault, selection_wanted_fault, selection_program_at_fault};

use crate::bits::check_bits;
use block_sizes::{check_selection_sizes, selection_count};
use fault::Fault;

// The checks 2, 4, 12, 9 and 11, the last for bits from bit `start` on in a program of `room` bytes.
#[tactic(auto, using(crate::proofs::ChecksLaws::bits_of_selection_wanted))]
pub fn check_selection(
    m: u32,
    n: u32,
    wanted: &[u16],
    start: usize,
    room: usize,
) -> Result<(), Fault>
    ensures { answer_number result ≡ selection_program_at_fault m n wanted.now start room }
{
    check_selection_wanted(m, n, wanted)?;
    check_bits(selection_count(m, n), start, room)
}

// The checks 2, 4, 12 and 9.
#[tactic(auto, unfolding(crate::specs::Checks::selection_wanted_fault, fault::specs::Checks::list_fault))]
fn check_selection_wanted(m: u32, n: u32, wanted: &[u16]) -> Result<(), Fault>
    ensures { answer_number result ≡ selection_wanted_fault m n wanted.now }
{
    check_selection_sizes(m, n)?;
    if wanted.len() != n as usize {
        return Err(Fault::Contact);
    }
    check_selected(m as usize, wanted)
}

// The check 9: each wanted input is in 1 to m.
pub(crate) fn check_selected(m: usize, wanted: &[u16]) -> Result<(), Fault>
    ensures { answer_number result ≡ selected_fault m wanted.now }
{
    if !wanted.iter().all(|&x| (1..=m).contains(&usize::from(x))) {
        return Err(Fault::Source);
    }
    Ok(())
}

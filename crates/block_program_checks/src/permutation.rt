// The checks of programming P.
ghost use Rattle.std.specs.Prelude.{◌≡◌, ◌≤◌, length};
ghost use Rattle.fault.specs.Number.{answer_number};
ghost use Rattle.block_networks.specs.Selection.{Selected};
ghost use Rattle.block_sizes.specs.Sizes.{max_size};
ghost use Rattle.block_program_checks.specs.Checks.{twice_fault, source_fault, wanted_fault, program_at_fault};

use crate::bits::check_bits;
use crate::selection::check_selected;
use block_sizes::{MAX_PLACES, SMALL_PLACES, permutation_count, size_allowed};
use fault::Fault;

// The checks 2, 12, 9 and 11, the last for bits from bit `start` on in a program of `room` bytes.
#[tactic(auto, using(crate::proofs::ChecksLaws::bits_of_wanted))]
pub fn check_permutation(n: u32, wanted: &[u16], start: usize, room: usize) -> Result<(), Fault>
    ensures { answer_number result ≡ program_at_fault n wanted.now start room }
{
    check_permutation_wanted(n, wanted)?;
    check_bits(permutation_count(n), start, room)
}

// The checks 2, 12 and 9.
#[tactic(auto, using(block_sizes::proofs::SizesLaws::most_of_allowed), unfolding(crate::specs::Checks::wanted_fault, fault::specs::Checks::list_fault))]
fn check_permutation_wanted(n: u32, wanted: &[u16]) -> Result<(), Fault>
    ensures { answer_number result ≡ wanted_fault n wanted.now }
{
    if !size_allowed(n) {
        return Err(Fault::Inputs);
    }
    if wanted.len() != n as usize {
        return Err(Fault::Contact);
    }
    check_sources(n as usize, wanted)
}

// The check 9: each wanted input is in 1 to n, and none comes twice.
#[tactic(auto, using(crate::proofs::ChecksLaws::selected_of), unfolding(crate::specs::Checks::source_fault))]
fn check_sources(n: usize, wanted: &[u16]) -> Result<(), Fault>
    requires { n ≤ max_size }
    ensures { answer_number result ≡ source_fault n wanted.now }
{
    check_selected(n, wanted)?;
    check_once(n, wanted)
}

// The second part of check 9: no wanted input comes twice.
// Kept: arrays of two sizes, by a test, as P's programming has them: clearing the large ones costs a small block more than its check.
fn check_once(n: usize, wanted: &[u16]) -> Result<(), Fault>
    requires selected { Selected n (length wanted.now) wanted.now }
    requires size { n ≤ max_size }
    ensures { answer_number result ≡ twice_fault wanted.now }
{
    if n <= SMALL_PLACES {
        check_once_in::<SMALL_PLACES>(wanted)
    } else {
        check_once_in::<MAX_PLACES>(wanted)
    }
}

// The same for the inputs of a block of at most N positions, each marked as it comes.
fn check_once_in<const N: usize>(wanted: &[u16]) -> Result<(), Fault>
    requires selected { Selected N (length wanted.now) wanted.now }
    requires size { N ≤ max_size }
    ensures { answer_number result ≡ twice_fault wanted.now }
{
    let mut came = [false; N];
    for &input in wanted {
        let x = usize::from(input) - 1;
        if came[x] {
            return Err(Fault::Source);
        }
        came[x] = true;
    }
    Ok(())
}

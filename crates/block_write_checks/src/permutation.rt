// The checks of writing P. They touch no buffer.
ghost use Rattle.std.specs.Prelude.{◌≡◌};
ghost use Rattle.fault.specs.Number.{answer_number};
ghost use Rattle.block_write_checks.specs.WriteChecks.{write_fault};

use crate::wires::{check_room, check_wires};
use block_sizes::{permutation_count, size_allowed};
use elements::FabricWire;
use fault::Fault;

// The checks of writing P: 2, 12, 13, 11.
#[tactic(auto, using(block_sizes::proofs::SizesLaws::rows_of_allowed), unfolding(crate::specs::WriteChecks::write_fault, fault::specs::Checks::list_fault))]
pub fn check_permutation_write(
    n: u32,
    inputs: &[u16],
    next: FabricWire,
    rows: usize,
    outputs: usize,
) -> Result<(), Fault>
    ensures { answer_number result ≡ write_fault n inputs.now next.0 rows outputs }
{
    if !size_allowed(n) {
        return Err(Fault::Inputs);
    }
    if inputs.len() != n as usize {
        return Err(Fault::Contact);
    }
    let count = permutation_count(n) as u32;
    check_wires(inputs, next, 2 * count)?;
    check_room(count, n, rows, outputs)
}

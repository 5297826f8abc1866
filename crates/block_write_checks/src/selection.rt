// The checks of writing S. They touch no buffer.
ghost use Rattle.std.specs.Prelude.{◌≡◌};
ghost use Rattle.fault.specs.Number.{answer_number};
ghost use Rattle.block_write_checks.specs.WriteChecks.{selection_write_fault};

use crate::wires::{check_room, check_wires};
use block_sizes::{check_selection_sizes, selection_count, selection_wires};
use elements::FabricWire;
use fault::Fault;

// The checks of writing S: 2, 4, 12, 13, 11.
#[tactic(auto, using(block_sizes::proofs::SizesLaws::wires_of_allowed, block_sizes::proofs::SizesLaws::rows_make), unfolding(crate::specs::WriteChecks::selection_write_fault, fault::specs::Checks::list_fault))]
pub fn check_selection_write(
    m: u32,
    n: u32,
    inputs: &[u16],
    next: FabricWire,
    rows: usize,
    outputs: usize,
) -> Result<(), Fault>
    ensures { answer_number result ≡ selection_write_fault m n inputs.now next.0 rows outputs }
{
    check_selection_sizes(m, n)?;
    if inputs.len() != m as usize {
        return Err(Fault::Contact);
    }
    check_wires(inputs, next, selection_wires(m, n) as u32)?;
    check_room(selection_count(m, n) as u32, n, rows, outputs)
}

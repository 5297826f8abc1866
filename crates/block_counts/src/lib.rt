// Counting blocks: the rows, wires and program bits of P and S, for callers who lend buffers. Every call takes all numbers.
#![tactic(auto)]

ghost use Rattle.std.specs.Prelude.{◌≡◌};
ghost use Rattle.elements.specs.Elements.{count_outcome};
ghost use Rattle.block_counts.specs.BlockCounting.{permutation_counting, selection_counting};

use block_sizes::{
    check_selection_sizes, permutation_count, selection_count, selection_wires, size_allowed,
};
use elements::Counts;
use fault::Fault;

// The counts of P(n): 2 where n is no size of it.
#[tactic(auto, using(block_sizes::proofs::SizesLaws::rows_of_allowed))]
pub fn count_permutation(n: u32) -> Result<Counts, Fault>
    ensures { count_outcome result ≡ permutation_counting n }
{
    if !size_allowed(n) {
        return Err(Fault::Inputs);
    }
    let rows = permutation_count(n) as u32;
    Ok(Counts {
        rows,
        wires: 2 * rows,
        bits: rows,
    })
}

// The counts of S(m, n): 2 or 4 where m or n is no size of it.
#[tactic(auto, using(block_sizes::proofs::SizesLaws::wires_of_allowed, block_sizes::proofs::SizesLaws::rows_make))]
pub fn count_selection(m: u32, n: u32) -> Result<Counts, Fault>
    ensures { count_outcome result ≡ selection_counting m n }
{
    check_selection_sizes(m, n)?;
    let rows = selection_count(m, n) as u32;
    Ok(Counts {
        rows,
        wires: selection_wires(m, n) as u32,
        bits: rows,
    })
}

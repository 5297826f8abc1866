// The sizes of blocks: which are allowed, and how many rows, program bits and wires P and S have. Every call takes all numbers.
#![tactic(auto)]

ghost use Rattle.std.specs.Prelude.{◌≡◌, ◌^◌, max};
ghost use Rattle.fault.specs.Number.{answer_number};
ghost use Rattle.block_networks.specs.Permutation.{permutation_count};
ghost use Rattle.block_networks.specs.Selection.{selection_level, selection_count, selection_wires};
ghost use Rattle.block_sizes.specs.Sizes.{size_allowed, level_of, selection_sizes_fault};

use fault::Fault;

// The largest number of positions of a block.
pub const MAX_SIZE: u32 = 512;

// That number as a length: the places of an array that serves every block.
pub const MAX_PLACES: usize = MAX_SIZE as usize;

// The places of an array that serves the blocks of at most so many positions. Most blocks of a fabric are these, and clearing takes time.
pub const SMALL_PLACES: usize = 64;

// Whether P may have n positions: a power of two from 1 to 512.
#[tactic(auto, using(crate::proofs::SizesLaws::power_test), unfolding(crate::specs::Sizes::size_allowed))]
pub fn size_allowed(n: u32) -> bool
    ensures { result ≡ size_allowed n }
{
    n <= MAX_SIZE && n.is_power_of_two()
}

// The checks of S(m, n)'s sizes: 2, then 4.
#[tactic(auto, unfolding(crate::specs::Sizes::selection_sizes_fault, crate::specs::Sizes::selection_size_allowed))]
pub fn check_selection_sizes(m: u32, n: u32) -> Result<(), Fault>
    ensures { answer_number result ≡ selection_sizes_fault m n }
{
    if !(1..=MAX_SIZE).contains(&m) {
        return Err(Fault::Inputs);
    }
    if !(1..=MAX_SIZE).contains(&n) {
        return Err(Fault::Outputs);
    }
    Ok(())
}

// The rows of P(n), which are its program bits too: n log n - n + 1.
#[tactic(auto, using(crate::proofs::SizesLaws::row_count, crate::proofs::SizesLaws::positions_fit, crate::proofs::SizesLaws::product_small), unfolding(powers::specs::Powers::ceil_power))]
pub fn permutation_count(n: u32) -> usize
    ensures { result ≡ permutation_count (level_of n) }
{
    let size = powers::ceil_power(n) as usize;
    let level = powers::ceil_log(n) as usize;
    size * level + 1 - size
}

// The positions of S(m, n): the smallest power of two not below both.
#[tactic(auto, unfolding(block_networks::specs::Selection::selection_level, powers::specs::Powers::ceil_power))]
pub fn selection_positions(m: u32, n: u32) -> usize
    ensures { result ≡ 2 ^ selection_level m n }
{
    powers::ceil_power(m.max(n)) as usize
}

// The rows of S(m, n), which are its program bits too.
#[tactic(auto, using(crate::proofs::SizesLaws::rows_small, crate::proofs::SizesLaws::positions_small), unfolding(block_networks::specs::Selection::selection_count, block_networks::specs::Selection::whole_count, block_networks::specs::Selection::selection_level))]
pub fn selection_count(m: u32, n: u32) -> usize
    ensures { result ≡ selection_count m n }
{
    let size = selection_positions(m, n);
    let one = permutation_count(m.max(n));
    one + (size - 1 + one)
}

// The wires that S(m, n) makes: two a row of its networks, one a row of its chain.
#[tactic(auto, using(crate::proofs::SizesLaws::rows_small, crate::proofs::SizesLaws::positions_small), unfolding(block_networks::specs::Selection::selection_wires, block_networks::specs::Selection::whole_wires, block_networks::specs::Selection::selection_level))]
pub fn selection_wires(m: u32, n: u32) -> usize
    ensures { result ≡ selection_wires m n }
{
    let size = selection_positions(m, n);
    let one = permutation_count(m.max(n));
    2 * one + (size - 1 + 2 * one)
}

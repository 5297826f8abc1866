// Programming P: the bits that bring each output the input it wants, packed from the front of a lent program, or stored from a given bit on.
// After the checks the call holds three arrays, 320 bytes for a small block and 2,560 for another, and lends them to all that works under it.
// Kept: `program` and `start` are two parameters: each part has its own start, and the program is wanted again behind it.
ghost use Rattle.std.specs.Prelude.{◌≡◌, ◌+◌, ◌<◌, ◌≤◌, length};
ghost use Rattle.lists.specs.Lists.{list_of};
ghost use Rattle.fault.specs.Number.{answer_number};
ghost use Rattle.fault.specs.Buffers.{over};
ghost use Rattle.block_elements.specs.Bits.{bits_held, store_bits};
ghost use Rattle.block_networks.specs.Permutation.{permutation_count};
ghost use Rattle.block_networks.specs.Wanted.{Wanted, mapping, wanted_bits};
ghost use Rattle.block_sizes.specs.Sizes.{max_size, level_of, SizeIs};
ghost use Rattle.block_program_checks.specs.Checks.{program_fault, program_at_fault};
ghost use Rattle.block_permutation_bits.specs.ProgramCalls.{program_result, program_at_result};

use crate::block::program_block;
use block_bits::{bit_byte, bit_place, bytes_for, fill_bytes};
use block_program_checks::check_permutation;
use block_sizes::{MAX_PLACES, SMALL_PLACES, permutation_count};
use fault::Fault;

// The program of P(n) for the wanted inputs, from the front of `program`. Spare bits of its last byte are 0.
#[tactic(auto, using(crate::proofs::ProgramLaws::fault_at_front))]
pub fn program_permutation(n: u32, wanted: &[u16], program: &mut [u8]) -> Result<(), Fault>
    ensures answered { answer_number result ≡ program_fault n wanted.now (length program.old) }
    ensures written { program.new ≡ program_result n wanted.now program.old }
{
    check_permutation(n, wanted, 0, program.len())?;
    fill_bytes(program, bytes_for(permutation_count(n)), 0);
    program_wanted(wanted, program, 0);
    Ok(())
}

// The program of P(n) for the wanted inputs, its bits stored from bit `start` on. No other bit changes.
pub fn program_permutation_at(
    n: u32,
    wanted: &[u16],
    program: &mut [u8],
    start: usize,
) -> Result<(), Fault>
    ensures answered { answer_number result ≡ program_at_fault n wanted.now start (length program.old) }
    ensures written { program.new ≡ program_at_result n wanted.now start program.old }
{
    check_permutation(n, wanted, start, program.len())?;
    program_wanted(wanted, program, start);
    Ok(())
}

// The bits for the wanted inputs, stored from bit `start` on.
// Kept: arrays of two sizes, by a test: with the large ones alone P(4) takes twice its time, P(8) a third more, for clearing them.
fn program_wanted(wanted: &[u16], program: &mut [u8], start: usize)
    requires size_is { SizeIs (length wanted.now) × Wanted (length wanted.now) wanted.now }
    requires n_bound { start + permutation_count (level_of (length wanted.now)) ≤ bits_held (length program.old) }
    ensures { program.new ≡ store_bits program.old start (wanted_bits (level_of (length wanted.now)) wanted.now) }
{
    if wanted.len() <= SMALL_PLACES {
        program_in::<SMALL_PLACES>(wanted, program, start);
    } else {
        program_in::<MAX_PLACES>(wanted, program, start);
    }
}

// The same in arrays of N places, at least as many as the block has. The part of the program that begins with the first bit's byte is lent on, so
// that bit positions stay small.
fn program_in<const N: usize>(wanted: &[u16], program: &mut [u8], start: usize)
    requires size_is { SizeIs (length wanted.now) × Wanted (length wanted.now) wanted.now × (length wanted.now ≤ N) × (N ≤ max_size) }
    requires n_bound { start + permutation_count (level_of (length wanted.now)) ≤ bits_held (length program.old) }
    ensures { program.new ≡ store_bits program.old start (wanted_bits (level_of (length wanted.now)) wanted.now) }
{
    let mut perm = [0u16; N];
    let mut scratch = [0u16; N];
    let mut mark = [0u8; N];
    load_mapping(wanted, &mut perm);
    let places = wanted.len();
    let byte = bit_byte(start);
    program_block(
        &mut perm[..places],
        &mut scratch[..places],
        &mut mark[..places],
        &mut program[byte..],
        bit_place(start),
    );
}

// The mapping of the wanted inputs, counted from 0, at the front of `perm`.
fn load_mapping(wanted: &[u16], perm: &mut [u16])
    requires wanted { Wanted (length wanted.now) wanted.now }
    requires wanted_in_bounds { length wanted.now ≤ length perm.old }
    ensures { perm.new ≡ over (list_of (length wanted.now) (mapping wanted.now)) perm.old }
{
    for (i, &input) in wanted.iter().enumerate() {
        perm[i] = input - 1;
    }
}

// The program of S by its parts: the first network, which takes each wanted input to its head, the chain, and the second network, which
// takes a copy to each output. The call holds three arrays, 384 bytes for a small block and 3,072 for another, and lends them to all that
// works under it.
// Kept: `program` and `start` are two parameters: each part has its own start, and the program is wanted again behind it.
ghost use Rattle.std.specs.Prelude.{◌≡◌, ◌-◌, ◌^◌, ◌<◌, ◌≤◌, length, get_or};
ghost use Rattle.block_elements.specs.Bits.{bits_held, store_bits};
ghost use Rattle.block_networks.specs.Wanted.{Wanted};
ghost use Rattle.block_networks.specs.Selection.{selection_level, selection_bits};
ghost use Rattle.block_sizes.specs.Sizes.{max_size};
ghost use Rattle.block_program_checks.specs.Checks.{SelectionPasses};
ghost use Rattle.block_selection_bits.specs.Arrays.{is_counted, NetworkRoom, network_bits, chain_bits_by};

use crate::copies::list_copies;
use crate::counting::count_wanted;
use crate::positions::{place_heads, place_idle};
use block_bits::{TellsBits, store_bits_by};
use block_permutation_bits::program_permutation_at;
use block_sizes::{MAX_PLACES, SMALL_PLACES, permutation_count, selection_positions};

// The bits of S(m, n) for the wanted inputs, stored from bit `start` on, which lies in the program's first byte.
pub(crate) fn store_program(m: u32, n: u32, wanted: &[u16], program: &mut [u8], start: usize)
    requires { SelectionPasses m n wanted.now start (length program.old) × (start < bits_held 1) }
    ensures { program.new ≡ store_bits program.old start (selection_bits m n wanted.now) }
{
    // Kept: arrays of two sizes, by a test: with the large ones alone programming S(4, 4) takes 1.4 times its time, for clearing them.
    if selection_positions(m, n) <= SMALL_PLACES {
        store_in::<SMALL_PLACES>(m, n, wanted, program, start);
    } else {
        store_in::<MAX_PLACES>(m, n, wanted, program, start);
    }
}

// The same in arrays of N places: how many outputs want each input, the heads of the inputs, and the wanted inputs of a network. First comes the
// first network, then the chain, then the second network.
fn store_in<const N: usize>(m: u32, n: u32, wanted: &[u16], program: &mut [u8], start: usize)
    requires selection_passes { SelectionPasses m n wanted.now start (length program.old) × (start < bits_held 1) }
    requires places { (2 ^ selection_level m n ≤ N) × (N ≤ max_size) }
    ensures { program.new ≡ store_bits program.old start (selection_bits m n wanted.now) }
{
    let size = selection_positions(m, n);
    let mut counts = [0u16; N];
    let mut heads = [0u16; N];
    let mut list = [0u16; N];
    let counts = &mut counts[..size];
    let heads = &mut heads[..size];
    let list = &mut list[..size];
    count_wanted(wanted, counts);
    place_heads(counts, heads, list);
    place_idle(counts, list);
    store_network(list, program, start);
    let chain = start + permutation_count(size as u32);
    store_chain(counts, list, program, chain);
    list_copies(wanted, heads, list);
    store_network(list, program, chain + size - 1);
}

// The chain's bits from bit `start` on: Y at a position has bit 1 exactly if the input there is a wanted one, whose head it is.
fn store_chain(counts: &[u16], list: &[u16], program: &mut [u8], start: usize)
    requires { Wanted (length list.now) list.now × (1 ≤ length list.now) × (length list.now ≤ length counts.now) }
    ensures { program.new ≡ store_bits program.old start (chain_bits_by counts.now list.now) }
{
    let list = &list[1..];
    let chain = Chain { counts, list };
    store_bits_by(program, start, list.len(), &chain);
}

// The bits of a chain: how many outputs want each input, and the inputs behind the first, whose position has no Y.
#[derive(Clone, Copy)]
struct Chain<'a> {
    counts: &'a [u16],
    list: &'a [u16],
}

impl TellsBits for Chain<'_> {
    ghost told = { λ chain k. is_counted chain.counts.now (get_or chain.list.now k 0 - 1) };

    fn is_one(&self, k: usize) -> bool {
        is_wanted(self.counts, self.list.get(k).copied().unwrap_or(0))
    }
}

// Whether some output wants an input, counted from 1.
fn is_wanted(counts: &[u16], input: u16) -> bool
    ensures { result ≡ is_counted counts.now (input - 1) }
{
    let j = usize::from(input.saturating_sub(1));
    counts.get(j).copied().unwrap_or(0) != 0
}

// P's bits for a list that names each of its inputs once, from bit `start` on. P's call has nothing to refuse.
fn store_network(list: &[u16], program: &mut [u8], start: usize)
    requires { NetworkRoom list.now start (length program.old) }
    ensures { program.new ≡ store_bits program.old start (network_bits list.now) }
{
    program_permutation_at(list.len() as u32, list, program, start).unwrap();
}

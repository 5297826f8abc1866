// P(4)'s five program bits at once, by arithmetic on the mapping of its four places. A table of them would be an array that the call holds.
// Kept: `program` and `start` are two parameters: each part has its own start, and the program is wanted again behind it.
ghost use Rattle.std.specs.Prelude.{◌≡◌, ◌<◌, ◌≤◌, length, get_or};
ghost use Rattle.block_elements.specs.Bits.{store_bits};
ghost use Rattle.block_permutation_bits.specs.Four.{sides_word, four_word};
ghost use Rattle.block_permutation_bits.specs.ProgramCalls.{mapping_bits};

use crate::mapping::Mapping;
use block_bits::store_field;

// The rows of P(4).
const FOUR_ROWS: u32 = 5;

// The program bits of P(4) for the mapping, from bit `start` on.
#[tactic(auto, using(crate::proofs::FourLaws::word_bits))]
pub(crate) fn program_four(mapping: &Mapping, program: &mut [u8], start: usize)
    requires { length mapping.now.inputs.now ≡ 4 }
    ensures { program.new ≡ store_bits program.old start (mapping_bits mapping.now.inputs.now) }
{
    store_field(program, start, four_word(mapping.inputs), FOUR_ROWS);
}

// Those bits as one number, the first row's lowest. The last pair is straight, so that its first output comes through the upper half, and of that
// output's input pair the other input through the lower.
#[tactic(auto, unfolding(crate::specs::Four::four_word))]
fn four_word(perm: &[u16]) -> u8
    requires { 3 ≤ length perm.now }
    ensures { result ≡ four_word (get_or perm.now 0 0) (get_or perm.now 1 0) (get_or perm.now 2 0) }
{
    let first = perm[0];
    let second = perm[1];
    let third = perm[2];
    if first / 2 == third / 2 {
        return 16 + sides_word(third, second, first);
    }
    sides_word(third, first, second)
}

// The bits but for the output row's, where the third output's input and `upper` go through the upper half, and `lower` through the lower.
#[tactic(auto, unfolding(crate::specs::Four::sides_word))]
fn sides_word(third: u16, upper: u16, lower: u16) -> u8
    ensures { (result ≡ sides_word third upper lower) × (result < 17) }
{
    let inputs = third % 2 + third / 3 % 2 + (upper % 2 + upper / 3 % 2);
    (inputs + 4 * (upper / 2 % 2) + 8 * (lower / 2 % 2)) as u8
}

// Program bits that a value tells, bit 1 where it says true, for 0, 1, .. one after another, eight at a time.
// Kept: `program` and `start` are two parameters: each part has its own start, and the program is wanted again behind it.
ghost use Rattle.std.specs.Prelude.{◌≡◌, ℕ, Bool, ◌+◌, ◌^◌, ◌<◌, ◌≤◌, length};
ghost use Rattle.lists.specs.Lists.{list_of, Gives};
ghost use Rattle.lists.specs.Counting.{one_if};
ghost use Rattle.block_elements.specs.Bits.{bits_held, store_bits};
ghost use Rattle.block_bits.specs.Stores.{number_of};

use crate::fields::store_field;
use crate::{BYTE_BITS, bit_byte, bit_place, bytes_for};

// What tells for every k whether bit k is 1.
pub trait TellsBits {
    ghost told: { Self → ℕ → Bool };

    fn is_one(&self, k: usize) -> bool
        ensures { result ≡ told self.now k };
}

// Makes the bits from bit `start` on those that are told for 0 to count - 1; past the program's end nothing changes.
pub fn store_bits_by<T: TellsBits>(program: &mut [u8], start: usize, count: usize, bits: &T)
    ensures { program.new ≡ store_bits program.old start (list_of count (λ k. one_if (T.told bits.now k))) }
{
    let byte = bit_byte(start);
    if byte < program.len() {
        store_in_part(
            &mut program[byte..],
            bit_place(start),
            count,
            &|k| bits.is_one(k),
        );
    }
}

// The same from a place of the first byte on, for the bits that a closure gives.
fn store_in_part<F: Fn(usize) -> bool>(program: &mut [u8], place: usize, count: usize, is_one: &F)
    requires callable { (k : ℕ) → k < count → F.pre is_one.now k }
    requires place_bound { place < bits_held 1 }
    ensures { (test : ℕ → Bool) → Gives (F.post is_one.now) count test
        → program.new ≡ store_bits program.old place (list_of count (λ k. one_if (test k))) }
{
    for byte in 0..bytes_for(count) {
        let at = BYTE_BITS * byte;
        let n = BYTE_BITS.min(count - at);
        store_field(program, place + at, byte_by(at, n, is_one), n as u32);
    }
}

// The number of the n bits that the closure gives from `at` on, the first lowest.
pub(crate) fn byte_by<F: Fn(usize) -> bool>(at: usize, n: usize, is_one: &F) -> u8
    requires callable { (k : ℕ) → k < n → F.pre is_one.now (at + k) }
    requires within { (n ≤ bits_held 1) × (at + n < 2 ^ 64) }
    ensures { (test : ℕ → Bool) → Gives (λ k. F.post is_one.now (at + k)) n test → result ≡ number_of (λ k. one_if (test k)) n }
{
    let mut x: u8 = 0;
    for k in (0..n).rev() {
        x = 2 * x + u8::from(is_one(at + k));
    }
    x
}

// Program bits that stand one in a byte, stored one after another: those of the first byte and of the last by themselves, and between them
// eight at a time.
// Kept: `program` and `start` are two parameters: each part has its own start, and the program is wanted again behind it.
ghost use Rattle.std.specs.Prelude.{◌≡◌, ◌+◌, ◌*◌, ◌%◌, ◌<◌, ◌≤◌, length};
ghost use Rattle.lists.specs.Lists.{list_of};
ghost use Rattle.block_elements.specs.Bits.{bits_held, store_bits};
ghost use Rattle.block_bits.specs.Stores.{low_bit, low_bits, number_of};

use crate::fields::store_field;
use crate::given::byte_by;
use crate::{BYTE_BITS, bit_byte, bit_place};

// Makes the bits from bit `start` on the lowest bits of these bytes, one after another; past the program's end nothing changes.
// Kept: store_bits_by does the same, but takes 2,714 instructions for 256 bits, and this 471.
#[tactic(auto, using(crate::proofs::StoreLaws::placed))]
pub fn store_bits(program: &mut [u8], start: usize, bits: &[u8])
    ensures { program.new ≡ store_bits program.old start (low_bits bits.now) }
{
    let byte = bit_byte(start);
    if bits.len() <= BYTE_BITS {
        store_few(program, start, bits);
    } else if byte < program.len() {
        store_many(&mut program[byte..], bit_place(start), bits);
    }
}

// More than eight bits, from a place of the first byte on.
fn store_many(program: &mut [u8], place: usize, bits: &[u8])
    requires { (place < bits_held 1) × (0 < length program.old) × (bits_held 1 < length bits.now) }
    ensures { program.new ≡ store_bits program.old place (low_bits bits.now) }
{
    let room = BYTE_BITS - place;
    store_field(program, place, byte_from(bits, 0), room as u32);
    store_bytes(&mut program[1..], &bits[room..]);
}

// Any number of bits, from the border of the first byte on.
#[tactic(auto, using(crate::proofs::PackingLaws::store_parts, crate::proofs::PackingLaws::store_full))]
fn store_bytes(program: &mut [u8], bits: &[u8])
    ensures { program.new ≡ store_bits program.old 0 (low_bits bits.now) }
{
    let whole = program.len().min(bits.len() / BYTE_BITS);
    store_whole(program, whole, bits);
    if whole < program.len() {
        store_few(&mut program[whole..], 0, &bits[BYTE_BITS * whole..]);
    }
}

// The bits of the first `whole` bytes.
fn store_whole(program: &mut [u8], whole: usize, bits: &[u8])
    requires { (whole ≤ length program.old) × (bits_held whole ≤ length bits.now) }
    ensures { program.new ≡ store_bits program.old 0 (list_of (bits_held whole) (low_bit bits.now)) }
{
    for i in 0..whole {
        program[i] = byte_from(bits, BYTE_BITS * i);
    }
}

// The byte of the eight bits from place `at` on.
fn byte_from(bits: &[u8], at: usize) -> u8
    requires { at + bits_held 1 ≤ length bits.now }
    ensures { result ≡ number_of (λ i. low_bit bits.now (at + i)) (bits_held 1) }
{
    let lower = four_bits(bits[at], bits[at + 1], bits[at + 2], bits[at + 3]);
    let upper = four_bits(bits[at + 4], bits[at + 5], bits[at + 6], bits[at + 7]);
    (lower + 16 * upper) as u8
}

// The number of the lowest bits of four bytes, a's lowest. They stand at places 0, 8, 16 and 24 of one number, and its product with
// 2^21 + 2^14 + 2^7 + 1 has them at places 21 to 24.
fn four_bits(a: u8, b: u8, c: u8, d: u8) -> u64
    ensures { result ≡ a % 2 + 2 * (b % 2 + 2 * (c % 2 + 2 * (d % 2))) }
{
    // Kept: sums, and no from_le_bytes: its array would count among the bytes of arrays that programming may hold.
    let word = ((u32::from(d) * 256 + u32::from(c)) * 256 + u32::from(b)) * 256 + u32::from(a);
    u64::from(word & 0x0101_0101) * 0x20_4081 / 0x20_0000 % 16
}

// At most eight bits, from a bit of the program on.
#[tactic(auto, using(crate::proofs::PackingLaws::few_packed))]
fn store_few(program: &mut [u8], start: usize, bits: &[u8])
    requires { length bits.now ≤ bits_held 1 }
    ensures { program.new ≡ store_bits program.old start (low_bits bits.now) }
{
    store_field(program, start, number_of(bits), bits.len() as u32);
}

// The number of at most eight bits, the lowest first: the first four and the last four, without those that they share.
fn number_of(bits: &[u8]) -> u8
    requires { length bits.now ≤ bits_held 1 }
    ensures { result ≡ number_of (low_bit bits.now) (length bits.now) }
{
    let n = bits.len();
    if n < 4 {
        return byte_by(0, n, &|i| bits[i] % 2 == 1);
    }
    let at = n - 4;
    let first = four_bits(bits[0], bits[1], bits[2], bits[3]);
    let last = four_bits(bits[at], bits[at + 1], bits[at + 2], bits[at + 3]);
    (first + 16 * (last >> ((BYTE_BITS - n) as u32))) as u8
}

// Program bits in lent bytes: bit p lies in byte p div 8 at place p mod 8, place 0 lowest, and is read and stored by shift and mask. Every call
// takes all inputs: what does not fit is not stored.
#![tactic(auto)]

ghost use Rattle.std.specs.Prelude.{◌≡◌, ◌%◌, ◌<◌, min, length, replicate};
ghost use Rattle.fault.specs.Buffers.{over};
ghost use Rattle.block_elements.specs.Bits.{bit_byte, bit_place, bytes_for, bits_held, with_bit, bit_at, set_bit};

mod fields;
mod given;
mod packing;

pub use fields::store_field;
pub use given::{TellsBits, store_bits_by};
pub use packing::store_bits;

// The bits of a byte.
pub const BYTE_BITS: usize = 8;

// The byte in which bit p lies.
pub fn bit_byte(p: usize) -> usize
    ensures { result ≡ bit_byte p }
{
    p / BYTE_BITS
}

// The place of bit p in its byte, place 0 lowest.
pub fn bit_place(p: usize) -> usize
    ensures { result ≡ bit_place p }
{
    p % BYTE_BITS
}

// The bytes that hold `bits` bits.
pub fn bytes_for(bits: usize) -> usize
    ensures { result ≡ bytes_for bits }
{
    bits.div_ceil(BYTE_BITS)
}

// Bit p of the program, 0 past its end.
#[tactic(auto, using(block_elements::proofs::BitsLaws::bit_of_mask), unfolding(block_elements::specs::Bits::bit_at))]
pub fn read_bit(program: &[u8], p: usize) -> u8
    ensures { result ≡ bit_at program.now p }
{
    let byte = program.get(bit_byte(p)).copied().unwrap_or(0);
    (byte >> bit_place(p) as u32) & 1
}

// Makes bit p of the program the lowest bit of b; past the end nothing changes.
#[tactic(auto, unfolding(block_elements::specs::Bits::set_bit))]
pub fn store_bit(program: &mut [u8], p: usize, b: u8)
    ensures { program.new ≡ set_bit program.old p (b % 2) }
{
    let byte = bit_byte(p);
    if byte < program.len() {
        program[byte] = with_bit(program[byte], bit_place(p) as u32, b % 2);
    }
}

// The byte x with the bit b at a place.
fn with_bit(x: u8, place: u32, b: u8) -> u8
    requires { (place < bits_held 1) × (b < 2) }
    ensures { result ≡ with_bit place b x }
{
    (x & !(1u8 << place)) | (b << place)
}

// Makes each of the first `count` bytes b, or all of them where there are fewer.
// Kept: `fill` asks for a part that is there, and this promises what it does for every count.
pub fn fill_bytes(bytes: &mut [u8], count: usize, b: u8)
    ensures { bytes.new ≡ over (replicate (min count (length bytes.old)) b) bytes.old }
{
    let end = count.min(bytes.len());
    bytes[..end].fill(b);
}

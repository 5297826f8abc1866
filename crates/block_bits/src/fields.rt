// A few program bits at once, the lowest bits of a byte: they lie in two bytes of the program, which are read and stored as one number.
// Kept: `program` and `start` are two parameters: each part has its own start, and the program is wanted again behind it.
ghost use Rattle.std.specs.Prelude.{◌≡◌, ◌+◌, ◌*◌, ◌%◌, ◌^◌, ◌<◌, ◌≤◌};
ghost use Rattle.block_elements.specs.Bits.{bits_held, store_bits};
ghost use Rattle.block_bits.specs.Stores.{field_bits, with_field};

use crate::{bit_byte, bit_place};

// Makes the `count` bits from bit `start` on those of x, its lowest bit first, eight of them where there are more; past the program's end
// nothing changes.
pub fn store_field(program: &mut [u8], start: usize, x: u8, count: u32)
    ensures { program.new ≡ store_bits program.old start (field_bits count x) }
{
    let byte = bit_byte(start);
    let place = bit_place(start) as u32;
    let n = count.min(u8::BITS);
    if byte + 1 < program.len() {
        // Kept: sums, and no from_le_bytes and to_le_bytes: their arrays would count among the bytes of arrays that programming may hold.
        let old = u16::from(program[byte]) + 256 * u16::from(program[byte + 1]);
        let new = with_field(old, place, x, n);
        program[byte] = (new % 256) as u8;
        program[byte + 1] = (new / 256) as u8;
    } else if byte < program.len() {
        let new = with_field(u16::from(program[byte]), place, x, n);
        program[byte] = (new % 256) as u8;
    }
}

// Two bytes as one number, with the n lowest bits of x from a place of the lower one on.
fn with_field(old: u16, place: u32, x: u8, n: u32) -> u16
    requires { (n ≤ bits_held 1) × (place < bits_held 1) }
    ensures { result ≡ with_field place n (x % 2 ^ n) old }
{
    let mask = (1u16 << n) - 1;
    let replaced = (old >> place) & mask;
    let given = u16::from(x) & mask;
    old - (replaced << place) + (given << place)
}

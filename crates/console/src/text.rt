// Text in a lent buffer. Each function puts something behind the first `at` bytes, as far as there is room, and answers the length of the text.
// Kept: an array of bytes with the text's length beside it, and no String: nothing is allocated; `ArrayString` takes a piece whole or not at all, and
// here what has room is put.
ghost use Rattle.std.specs.Prelude.{[], ◌∷◌};
ghost use Rattle.fault.specs.Number.{fault_number};
ghost use Rattle.console.specs.Text.{decimal, named, Puts};
ghost use Rattle.console.specs.Plans.{refusal_line};

use fault::Fault;

// The most digits of a number.
const DIGITS: usize = 20;

// One byte.
pub fn put_byte(text: &mut [u8], at: usize, byte: u8) -> usize
    ensures { Puts text.old at (byte ∷ []) text.new result }
{
    if at < text.len() {
        text[at] = byte;
        return at + 1;
    }
    text.len()
}

// The bytes of a word.
pub fn put_word(text: &mut [u8], at: usize, word: &[u8]) -> usize
    ensures { Puts text.old at word.now text.new result }
{
    let mut next = at.min(text.len());
    for &byte in word {
        next = put_byte(text, next, byte);
    }
    next
}

// A number in decimal digits.
pub fn put_number(text: &mut [u8], at: usize, number: u64) -> usize
    ensures { Puts text.old at (decimal number) text.new result }
{
    let mut digits = [0u8; DIGITS];
    let n = io::decimal(number, &mut digits);
    put_word(text, at, &digits[..n])
}

// A word and its number.
pub fn put_named(text: &mut [u8], at: usize, name: &[u8], number: u64) -> usize
    ensures { Puts text.old at (named name.now number) text.new result }
{
    let next = put_word(text, at, name);
    put_number(text, next, number)
}

// The line of a refusal: its number and its place.
pub fn put_refusal(text: &mut [u8], at: usize, fault: Fault, place: u64) -> usize
    ensures { Puts text.old at (refusal_line (fault_number fault) place) text.new result }
{
    let mut next = put_named(text, at, b"refused ", u64::from(u32::from(fault)));
    next = put_named(text, next, b" at ", place);
    put_byte(text, next, b'\n')
}

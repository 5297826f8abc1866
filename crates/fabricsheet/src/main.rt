// Reads a plan on standard input and writes the sheet of its fabric: the rows of each kind in its three parts and in all.
#![tactic(auto)]

ghost use Rattle.std.specs.Prelude.{◌≡◌, take};
ghost use Rattle.io.specs.Counts.{IsPrefixLen};
ghost use Rattle.console.specs.Text.{Puts};
ghost use Rattle.fabricsheet.specs.SheetText.{kinds_line, sheet_lines, plan_text, file_text};

use console::{put_byte, put_named, put_refusal, put_word, read_input, read_small_plan};
use elements::{KindCounts, Sheet};
use fabric::count_kinds;
use plan::Plan;

// Places for the longest text: four lines, each of a name of at most 6 bytes, four figures of at most 20 digits with a space each, and LF.
const TEXT: usize = 4 * (6 + 4 * (1 + 20) + 1);

// The buffer is longer than the longest plan file, of 1,670 bytes, so a tail is seen.
fn main() {
    let mut file = io::buffer();
    let n = read_input(&mut file);
    print_sheet(&file[..n]);
}

// Writes the text for a file.
fn print_sheet(file: &[u8]) {
    let mut text = [0u8; TEXT];
    let n = put_file(&mut text, file);
    io::write_all(1, &text[..n]);
}

// The text for a file, whole.
fn put_file(text: &mut [u8; TEXT], file: &[u8]) -> usize
    ensures counted { IsPrefixLen result text.new }
    ensures written { take result text.new ≡ file_text file.now }
{
    put_text(text, file)
}

// The text for a file, as far as there is room.
fn put_text(text: &mut [u8], file: &[u8]) -> usize
    ensures { Puts text.old 0 (file_text file.now) text.new result }
{
    match read_small_plan(file) {
        Ok(plan) => put_plan(text, plan),
        Err(refusal) => put_refusal(text, 0, refusal.fault, refusal.at as u64),
    }
}

// The text for a plan.
fn put_plan(text: &mut [u8], plan: Plan) -> usize
    ensures { Puts text.old 0 (plan_text plan) text.new result }
{
    match count_kinds(
        u32::from(plan.inputs),
        u32::from(plan.gate_count),
        u32::from(plan.output_count),
    ) {
        Ok(sheet) => put_sheet(text, sheet),
        Err(fault) => put_refusal(text, 0, fault, 0),
    }
}

// The four lines of a sheet.
fn put_sheet(text: &mut [u8], s: Sheet) -> usize
    ensures { Puts text.old 0 (sheet_lines s) text.new result }
{
    let mut n = put_line(text, 0, b"input", s.input);
    n = put_line(text, n, b"block", s.block);
    n = put_line(text, n, b"output", s.output);
    put_line(text, n, b"sum", s.sum)
}

// A line: its name, and the figures of a part.
// Kept: the text and the place are two parameters: the text is wanted again behind each piece, so a struct would say in each contract that it lends the same.
fn put_line(text: &mut [u8], at: usize, name: &[u8], c: KindCounts) -> usize
    ensures { Puts text.old at (kinds_line name.now c) text.new result }
{
    let mut n = put_word(text, at, name);
    n = put_named(text, n, b" ", u64::from(c.x));
    n = put_named(text, n, b" ", u64::from(c.y));
    n = put_named(text, n, b" ", u64::from(c.g));
    n = put_named(text, n, b" ", u64::from(c.total));
    put_byte(text, n, b'\n')
}

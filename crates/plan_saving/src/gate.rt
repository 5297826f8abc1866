// A gate in its shortest file. `fields_needed` decides which fields stand, and with it how long the file is.
ghost use Rattle.std.specs.Prelude.{◌≡◌, not, ◌&&◌, ◌+◌, ◌≤◌, eqb, length};
ghost use Rattle.plan.specs.Rules.{max_table};
ghost use Rattle.plan_files.specs.Encoding.{word, where_standing, table_byte, middle_lines, encode_gate};
ghost use Rattle.plan_saving.specs.Saving.{map_byte_of, fields_needed};
ghost use Rattle.plan_saving.specs.Parts.{Wrote};

use plan::{Gate, PlanWire};
use plan_fields::{ABSENT_TABLE, FIRST_PLACE, SECOND_PLACE, TABLE_PLACE, wire_before};

// Which fields of a gate stand.
#[derive(Clone, Copy)]
pub(crate) struct Standing {
    pub first: bool,
    pub second: bool,
    pub table: bool,
}

// The fields of the gate whose own wire is own that stand in its shortest file: those that differ from their defaults, and the second operand also
// where two lines cannot say the table.
#[tactic(auto, unfolding(crate::specs::Saving::fields_needed))]
pub(crate) fn fields_needed(own: PlanWire, gate: Gate) -> Standing
    ensures { result ≡ fields_needed own.0 gate }
{
    let default = wire_before(own);
    Standing {
        first: gate.first != default,
        second: second_needed(gate),
        table: gate.table != ABSENT_TABLE,
    }
}

// Whether the second operand stands: it differs from the first, or bits 1 and 2 of the table are not clear.
fn second_needed(gate: Gate) -> bool
    ensures { result ≡ not (eqb gate.second.0 gate.first.0 && eqb (middle_lines gate.table) 0) }
{
    gate.second != gate.first || gate.table / 2 % 4 != 0
}

// The map byte in which these fields stand.
#[tactic(auto, unfolding(crate::specs::Saving::map_byte_of))]
fn map_of(s: Standing) -> u8
    ensures { result ≡ map_byte_of s }
{
    let operands = (u8::from(s.first) << FIRST_PLACE) + (u8::from(s.second) << SECOND_PLACE);
    operands + (u8::from(s.table) << TABLE_PLACE)
}

// A two-byte number, low byte first.
#[tactic(auto, using(crate::proofs::GateLaws::word_bytes))]
pub(crate) fn word(number: u16) -> [u8; 2]
    ensures { result ≡ word number }
{
    number.to_le_bytes()
}

// The table byte of a table: the table itself where the second operand stands, otherwise its bit 0 and, as bit 1, its bit 3.
fn table_byte(second: bool, table: u16) -> u8
    requires { table ≤ max_table }
    ensures { result ≡ table_byte second table }
{
    if second {
        return table as u8;
    }
    (table % 2 + 2 * (table / 8 % 2)) as u8
}

// Some bytes into a buffer from `at` on. Like each function that writes, it answers the place behind what it wrote.
// Kept: buffer and place are two parameters, as in reading: a struct that holds a lent buffer has to say in every contract that it still holds that one.
#[tactic(auto, using(crate::proofs::WritingLaws::wrote_part))]
pub(crate) fn put<const N: usize>(file: &mut [u8], at: usize, bytes: [u8; N]) -> usize
    requires { at + N ≤ length file.old }
    ensures { Wrote bytes.entry file.old at file.new result }
{
    file[at..at + N].copy_from_slice(&bytes);
    at + N
}

// The bytes of a field if it stands, from `at` on.
#[tactic(auto, using(crate::proofs::WritingLaws::wrote_none))]
fn put_standing<const N: usize>(file: &mut [u8], at: usize, stands: bool, field: [u8; N]) -> usize
    requires { at + length (where_standing stands field) ≤ length file.old }
    ensures { Wrote (where_standing stands field.entry) file.old at file.new result }
{
    if stands { put(file, at, field) } else { at }
}

// A gate in which these fields stand, from `at` on: its map byte, then the fields.
pub(crate) fn encode_gate(file: &mut [u8], at: usize, s: Standing, gate: Gate) -> usize
    requires table_le_max_table { gate.table ≤ max_table }
    requires gate_in_bounds { at + length (encode_gate (map_byte_of s) gate) ≤ length file.old }
    ensures { Wrote (encode_gate (map_byte_of s) gate) file.old at file.new result }
{
    let map = put(file, at, [map_of(s)]);
    let first = put_standing(file, map, s.first, word(gate.first.0));
    let second = put_standing(file, first, s.second, word(gate.second.0));
    put_standing(file, second, s.table, [table_byte(s.second, gate.table)])
}

// The fields of a plan file: each step takes the file and the cursor and hands back the value with the next cursor, or the refusal.
#![tactic(auto, unfolding(crate::specs::Parsing::field))]

ghost use Rattle.std.specs.Prelude.{◌≡◌, ◌+◌, ◌-◌, ◌<◌, ◌≤◌, false, cond, length, MatchResult};
ghost use Rattle.plan_fields.specs.Parsing.{uncut, word_at, byte_at};
ghost use Rattle.plan_fields.specs.Fields.{count_field, map_field, operand_field, table_of_byte, table_field, output_field};
ghost use Rattle.plan_fields.specs.Answers.{step_answer, wire_answer};

use fault::{Fault, Refusal};
use plan::{Gate, PlanWire, count_allowed, map_allowed, operand_allowed, source_allowed};

// The table byte in which both of two lines stand.
const MAX_TWO_LINES: u16 = 3;

// A place in a file.
// Kept: the file is a parameter beside it: a rule of the project has each reading step take the file and a cursor and hand back the next cursor.
#[derive(Clone, Copy)]
pub struct Cursor {
    pub at: usize,
}

// The record's table of a table byte of two lines: bit 0 is line 0, bit 1 line 3.
fn two_lines(byte: u16) -> u16
    ensures { result ≡ table_of_byte false byte }
{
    byte % 2 + 8 * (byte / 2 % 2)
}

impl Cursor {
    // A count, from 1 to its limit; the fault is its word in the refusal table.
    pub fn count(self, file: &[u8], limit: usize, fault: Fault) -> Result<(u16, Cursor), Refusal>
        ensures { step_answer result ≡ count_field limit fault file.now self.at }
    {
        let (count, next) = self.word(file)?;
        self.allowed(count_allowed(u32::from(count), limit), fault)?;
        Ok((count, next))
    }

    // The map byte of a gate.
    pub fn map_byte(self, file: &[u8]) -> Result<(u8, Cursor), Refusal>
        ensures { step_answer result ≡ map_field file.now self.at }
    {
        let (map, next) = self.byte(file)?;
        self.allowed(map_allowed(map), Fault::Map)?;
        Ok((map, next))
    }

    // An operand, which is below a bound.
    pub fn operand(self, file: &[u8], bound: PlanWire) -> Result<(PlanWire, Cursor), Refusal>
        ensures { wire_answer result ≡ operand_field bound.0 file.now self.at }
    {
        let (number, next) = self.word(file)?;
        let wire = PlanWire(number);
        self.allowed(operand_allowed(bound, wire), Fault::Operand)?;
        Ok((wire, next))
    }

    // The table of a gate: four lines where its second operand stands, two where that is absent.
    pub fn table(self, file: &[u8], second: bool) -> Result<(u16, Cursor), Refusal>
        ensures { step_answer result ≡ table_field second file.now self.at }
    {
        let (low, next) = self.byte(file)?;
        let byte = u16::from(low);
        // Kept: a branch for each form. With the limit and the table chosen by the bit, each byte costs the work of both, and reading takes a sixth longer.
        if second {
            self.allowed(byte <= Gate::MAX_TABLE, Fault::Table)?;
            return Ok((byte, next));
        }
        self.allowed(byte <= MAX_TWO_LINES, Fault::Table)?;
        Ok((two_lines(byte), next))
    }

    // An output of a plan with these numbers of inputs and gates.
    pub fn output(self, file: &[u8], inputs: u16, gates: u16) -> Result<(PlanWire, Cursor), Refusal>
        ensures { wire_answer result ≡ output_field inputs gates file.now self.at }
    {
        let (number, next) = self.word(file)?;
        let wire = PlanWire(number);
        self.allowed(source_allowed(inputs, gates, wire), Fault::Source)?;
        Ok((wire, next))
    }

    // The two bytes that stand here, as a number whose low byte comes first.
    fn word(self, file: &[u8]) -> Result<(u16, Cursor), Refusal>
        ensures { step_answer result ≡ uncut 2 word_at file.now self.at }
    {
        let next = self.behind(file, 2)?;
        // Kept: a sum, and no from_le_bytes: the check that adds up arrays sees none that a lent closure makes.
        let (low, high) = (file[self.at], file[self.at + 1]);
        Ok((u16::from(low) + 256 * u16::from(high), next))
    }

    // The byte that stands here.
    fn byte(self, file: &[u8]) -> Result<(u8, Cursor), Refusal>
        ensures { step_answer result ≡ uncut 1 byte_at file.now self.at }
    {
        let next = self.behind(file, 1)?;
        Ok((file[self.at], next))
    }

    // The cursor behind a field of this width; a fault where the file ends inside or before it.
    fn behind(self, file: &[u8], width: usize) -> Result<Cursor, Refusal>
        requires { 1 ≤ width }
        ensures { MatchResult result
            (λ next. (width ≤ length file.now - self.at) × (next.at ≡ self.at + width))
            (λ x. (length file.now - self.at < width) × (x ≡ record { fault = Fault.Cut; at = self.at })) }
    {
        let stands = width <= file.len() && self.at <= file.len() - width;
        self.allowed(stands, Fault::Cut)?;
        Ok(Cursor {
            at: self.at + width,
        })
    }

    // The fault of the field that stands here, unless a test holds.
    fn allowed(self, test: bool, fault: Fault) -> Result<(), Refusal>
        ensures { result ≡ cond test (Ok tt) (Err (record { fault = fault; at = self.at })) }
    {
        if test {
            return Ok(());
        }
        Err(Refusal { fault, at: self.at })
    }
}

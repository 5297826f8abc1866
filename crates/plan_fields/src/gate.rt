// A gate of a plan file: one map byte, then only the fields whose map bit stands; the others have their defaults.
ghost use Rattle.std.specs.Prelude.{◌≡◌, ◌-◌, ◌<◌, true, false};
ghost use Rattle.plan_fields.specs.Parsing.{standing};
ghost use Rattle.plan_fields.specs.Fields.{absent_table, table_place, map_bit, operand_field, table_field, gate_fields, gate_step_within};
ghost use Rattle.plan_fields.specs.Answers.{step_answer, wire_answer};

use crate::cursor::Cursor;
use fault::Refusal;
use plan::{Gate, PlanWire};

// The places of a map byte's bits, lowest first.
pub const FIRST_PLACE: u8 = 0;

pub const SECOND_PLACE: u8 = 1;

pub const TABLE_PLACE: u8 = 2;

// A table that is absent: AND.
pub const ABSENT_TABLE: u16 = 8;

// The gate whose own wire is own: the map byte, then the fields that it says stand. Its operands are below a bound, which is its own wire where
// gates stand in the order of evaluation.
#[tactic(auto, unfolding(crate::specs::Fields::gate_step_within))]
pub fn read_gate(
    file: &[u8],
    c: Cursor,
    bound: PlanWire,
    own: PlanWire,
) -> Result<(Gate, Cursor), Refusal>
    ensures { step_answer result ≡ gate_step_within bound.0 own.0 file.now c.at }
{
    let (map, next) = c.map_byte(file)?;
    read_fields(file, next, bound, own, map)
}

// The wire just before a wire, 0 before 0.
pub fn wire_before(own: PlanWire) -> PlanWire
    ensures { result.0 ≡ own.0 - 1 }
{
    PlanWire(own.0.saturating_sub(1))
}

// The fields of a gate with this map byte.
fn read_fields(
    file: &[u8],
    c: Cursor,
    bound: PlanWire,
    own: PlanWire,
    map: u8,
) -> Result<(Gate, Cursor), Refusal>
    ensures { step_answer result ≡ gate_fields bound.0 own.0 map file.now c.at }
{
    let operand = |at: Cursor| at.operand(file, bound);
    let (first, c1) = standing(map_bit(map, FIRST_PLACE), c, operand, wire_before(own))?;
    let (second, c2) = standing(map_bit(map, SECOND_PLACE), c1, operand, first)?;
    let (table, c3) = standing_table(file, c2, map, map_bit(map, SECOND_PLACE))?;
    Ok((
        Gate {
            first,
            second,
            table,
        },
        c3,
    ))
}

// Whether a bit of a map byte stands.
fn map_bit(map: u8, place: u8) -> bool
    requires { place < 8 }
    ensures { result ≡ map_bit map place }
{
    (map >> place) & 1 == 1
}

// A table if its map bit stands, AND if not. Its form goes by whether the gate's second operand stands.
fn standing_table(file: &[u8], c: Cursor, map: u8, second: bool) -> Result<(u16, Cursor), Refusal>
    ensures { step_answer result ≡ standing (map_bit map table_place) (table_field second) absent_table file.now c.at }
{
    standing(
        map_bit(map, TABLE_PLACE),
        c,
        |at| at.table(file, second),
        ABSENT_TABLE,
    )
}

// A field if it stands, its default if not.
fn standing<T: Copy, F: FnOnce(Cursor) -> Result<(T, Cursor), Refusal>>(
    stands: bool,
    c: Cursor,
    step: F,
    default: T,
) -> Result<(T, Cursor), Refusal>
    requires { F.IsAlwaysCallable step }
    ensures stands { stands ≡ true → F.post step c result }
    ensures absent { stands ≡ false → result ≡ Ok (default, c) }
{
    if stands { step(c) } else { Ok((default, c)) }
}

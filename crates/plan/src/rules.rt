// What a count, a map byte, an operand, a table and an output may be: one definition each, for reading and for a plan in memory. The table's is for
// memory: a table byte has its own limit.
ghost use Rattle.std.specs.Prelude.{◌≡◌};
ghost use Rattle.plan.specs.Rules.{count_allowed, map_allowed, operand_allowed, table_allowed, source_allowed};

use crate::record::{Gate, PlanWire};

// The map byte in which all three map bits stand.
const MAX_MAP: u8 = 7;

// Whether count is from 1 to limit.
#[tactic(auto, unfolding(crate::specs::Rules::count_allowed))]
pub fn count_allowed(count: u32, limit: usize) -> bool
    ensures { result ≡ count_allowed limit count }
{
    (1..=limit).contains(&(count as usize))
}

// Whether a map byte has no bit above the three fields.
#[tactic(auto, unfolding(crate::specs::Rules::map_allowed))]
pub fn map_allowed(map: u8) -> bool
    ensures { result ≡ map_allowed map }
{
    map <= MAX_MAP
}

// Whether the wire may be an operand of a gate whose operands are below own: its own wire; in a drawing the wire after the last.
#[tactic(auto, unfolding(crate::specs::Rules::operand_allowed))]
pub fn operand_allowed(own: PlanWire, wire: PlanWire) -> bool
    ensures { result ≡ operand_allowed own.0 wire.0 }
{
    wire.0 != 0 && wire.0 < own.0
}

// Whether a table has no bit above the four lines.
#[tactic(auto, unfolding(crate::specs::Rules::table_allowed))]
pub(crate) fn table_allowed(table: u16) -> bool
    ensures { result ≡ table_allowed table }
{
    table <= Gate::MAX_TABLE
}

// Whether the wire is a gate's, in a plan with these numbers of inputs and gates.
#[tactic(auto, unfolding(crate::specs::Rules::source_allowed))]
pub fn source_allowed(inputs: u16, gates: u16, wire: PlanWire) -> bool
    ensures { result ≡ source_allowed inputs gates wire.0 }
{
    inputs < wire.0 && wire.0 - inputs <= gates
}

// Check 13 of a run: whether a table is well formed, and how many wires and program bits it has. It touches no buffer.
ghost use Rattle.std.specs.Prelude.{◌≡◌, ◌≤◌, IfOk};
ghost use Rattle.fault.specs.Number.{answer_number};
ghost use Rattle.fault.specs.Checks.{first_of};
ghost use Rattle.fabric_sizes.specs.Layout.{outputs_in, rows_in, wires_in};
ghost use Rattle.fabric_table_checks.specs.TableFault.{header_fault, row_fault, output_wire_fault, HeaderWithin};
ghost use Rattle.fabric_table_checks.specs.Counting.{CountedBefore, max_bits};
ghost use Rattle.fabric_table_checks.specs.Checking.{check_outcome, table_outcome, RowToCheck, end_fault};

use crate::table::{TableCounts, counts_of, expected_length, row_start};
use blocks::{LEFT_PLACE, RIGHT_PLACE};
use elements::{FabricWire, Kind, MAX_WIRES};
use fabric_sizes::{HEADER, INPUTS, OUTPUTS, ROWS};
use fault::Fault;
use plan::{Plan, count_allowed};

// 13: a malformed table.
#[tactic(auto, unfolding(crate::specs::TableFault::table_fault))]
pub fn check_table(table: &[u16]) -> Result<TableCounts, Fault>
    ensures checked { check_outcome result ≡ table_outcome table.now }
    ensures few { (check_outcome result).bits ≤ max_bits }
{
    check_header(table)?;
    let counts = check_rows(table)?;
    check_end(table, counts.wires)?;
    Ok(counts)
}

// A length below 3; u or v out of range; another length.
#[tactic(auto, unfolding(crate::specs::TableFault::header_fault))]
fn check_header(table: &[u16]) -> Result<(), Fault>
    ensures { answer_number result ≡ header_fault table.now }
{
    if table.len() < HEADER {
        return Err(Fault::Fabric);
    }
    if !count_allowed(u32::from(table[INPUTS]), Plan::MAX_INPUTS) {
        return Err(Fault::Fabric);
    }
    if !count_allowed(u32::from(table[OUTPUTS]), Plan::MAX_OUTPUTS) {
        return Err(Fault::Fabric);
    }
    if table.len() != expected_length(table) {
        return Err(Fault::Fabric);
    }
    Ok(())
}

// Row by row: a kind not 1 to 3; a wire not made before that row.
fn check_rows(table: &[u16]) -> Result<TableCounts, Fault>
    requires { HeaderWithin table.now }
    ensures checked { answer_number result ≡ first_of (row_fault table.now) (rows_in table.now) }
    ensures counted { IfOk result (CountedBefore table.now (rows_in table.now)) }
    ensures few { IfOk result (λ c. c.bits ≤ max_bits) }
{
    let mut before = TableCounts {
        wires: 1 + usize::from(table[INPUTS]),
        bits: 0,
    };
    for i in 0..table[ROWS] {
        check_row(table, i, before.wires)?;
        let own = counts_of(table[row_start(i)]);
        before.wires += own.wires;
        before.bits += own.bits;
    }
    Ok(before)
}

// Row i, before which `wires` wires are made: its kind, its left wire, its right wire.
#[tactic(auto, unfolding(crate::specs::TableFault::row_fault, crate::specs::TableFault::kind_allowed))]
fn check_row(table: &[u16], i: u16, wires: usize) -> Result<(), Fault>
    requires { RowToCheck table.now i wires }
    ensures { answer_number result ≡ row_fault table.now i }
{
    let at = row_start(i);
    Kind::try_from(table[at])?;
    let left = FabricWire::from(table[at + LEFT_PLACE]);
    if wires <= left.0 as usize {
        return Err(Fault::Fabric);
    }
    let right = FabricWire::from(table[at + RIGHT_PLACE]);
    if wires <= right.0 as usize {
        return Err(Fault::Fabric);
    }
    Ok(())
}

// An output wire that is not made; more than 65,536 wires. `wires` are made in all.
fn check_end(table: &[u16], wires: usize) -> Result<(), Fault>
    requires { HeaderWithin table.now × (wires ≡ wires_in table.now) }
    ensures { answer_number result ≡ end_fault table.now }
{
    check_outputs(table, wires)?;
    if MAX_WIRES < wires {
        return Err(Fault::Fabric);
    }
    Ok(())
}

// An output wire that is not one of the first `wires`.
fn check_outputs(table: &[u16], wires: usize) -> Result<(), Fault>
    requires { HeaderWithin table.now × (wires ≡ wires_in table.now) }
    ensures { answer_number result ≡ first_of (output_wire_fault table.now) (outputs_in table.now) }
{
    let first = row_start(table[ROWS]);
    for &output in &table[first..] {
        if wires <= usize::from(output) {
            return Err(Fault::Fabric);
        }
    }
    Ok(())
}

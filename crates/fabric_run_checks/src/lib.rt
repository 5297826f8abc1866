// The checks of the series of a contact fabric's runs, in document 02's order: 13, 14, 16, 12, 11. The run is a series of one interval. For any table,
// program and entries the call says, with proof, which of them is malformed, or that a buffer is too short. It touches no buffer.
#![tactic(auto)]

ghost use Rattle.std.specs.Prelude.{◌≡◌, ◌≤◌, IfOk};
ghost use Rattle.fault.specs.Number.{answer_number};
ghost use Rattle.fabric_sizes.specs.Layout.{rows_in};
ghost use Rattle.fabric_table_checks.specs.Counting.{CountedBefore, max_bits};
ghost use Rattle.fabric_run_checks.specs.RunFault.{given_program_fault, given_fault, run_series_fault};

use blocks::{BYTE_BITS, bytes_for, read_bit};
use fabric_sizes::{INPUTS, OUTPUTS};
use fabric_table_checks::{TableCounts, check_table};
use fault::Fault;
use plan_series_checks::{Series, check_series};

// The checks of the run's series, for a work buffer, results and an end state of so many entries.
#[tactic(auto, unfolding(crate::specs::RunFault::run_series_fault, fault::specs::Checks::room_fault))]
pub fn check_run_series(
    table: &[u16],
    program: &[u8],
    series: Series,
    work: usize,
    results: usize,
    end: usize,
) -> Result<(), Fault>
    ensures { answer_number result ≡ run_series_fault table.now program.now series.entry.hold series.entry.intervals series.entry.fresh.now series.entry.start.now work results end }
{
    let counts = check_given(table, program)?;
    check_series(table[INPUTS], table[OUTPUTS], series, results, end)?;
    if work < counts.wires {
        return Err(Fault::Short);
    }
    Ok(())
}

// 13, 14: a malformed table; a program that is not exact for it.
#[tactic(auto, unfolding(crate::specs::RunFault::given_fault))]
fn check_given(table: &[u16], program: &[u8]) -> Result<TableCounts, Fault>
    ensures checked { answer_number result ≡ given_fault table.now program.now }
    ensures counted { IfOk result (CountedBefore table.now (rows_in table.now)) }
{
    let counts = check_table(table)?;
    check_given_program(counts.bits, program)?;
    Ok(counts)
}

// 14: a program of another length than that of `bits` program bits; a spare bit set.
#[tactic(auto, unfolding(crate::specs::RunFault::given_program_fault))]
fn check_given_program(bits: usize, program: &[u8]) -> Result<(), Fault>
    requires { bits ≤ max_bits }
    ensures { answer_number result ≡ given_program_fault bits program.now }
{
    let bytes = bytes_for(bits);
    if program.len() != bytes {
        return Err(Fault::Program);
    }
    for place in bits..BYTE_BITS * bytes {
        if read_bit(program, place) != 0 {
            return Err(Fault::Program);
        }
    }
    Ok(())
}

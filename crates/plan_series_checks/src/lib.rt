// The checks of a series of intervals, in document 02's order: plan faults, 16, 12, 11; those from 16 on by themselves, for the fabric's series too.
// They take any record, hold count, number of intervals and entries, and touch no buffer.
#![tactic(auto)]

ghost use Rattle.std.specs.Prelude.{◌≡◌, ◌≤◌};
ghost use Rattle.fault.specs.Number.{answer_number};
ghost use Rattle.plan_series_checks.specs.SeriesChecks.{max_intervals, hold_fault, series_contact_fault, series_room_fault, series_fault, plan_series_fault};

use fault::Fault;
use plan::{Plan, plan_fault};
use plan_evaluation_checks::contact_fault;

// The most intervals of a series.
const MAX_INTERVALS: u32 = 4096;

// A series: how many outputs are held, how many intervals there are, their fresh entries one after another, and the start state.
#[derive(Clone, Copy)]
pub struct Series<'a> {
    pub hold: u32,
    pub intervals: u32,
    pub fresh: &'a [u8],
    pub start: &'a [u8],
}

// The checks of a plan's series, for lent buffers of `results` and `end` entries: plan faults, 16, 12, 11.
pub fn check_plan_series(
    plan: Plan,
    series: Series,
    results: usize,
    end: usize,
) -> Result<(), Fault>
    ensures { answer_number result ≡ plan_series_fault plan series.entry.hold series.entry.intervals series.entry.fresh.now series.entry.start.now results end }
{
    plan_fault(plan)?;
    check_series(plan.inputs, plan.output_count, series, results, end)
}

// The checks of a series over so many inputs and outputs: 16, 12, 11.
#[tactic(auto, using(crate::proofs::SeriesChecksLaws::hold_within), unfolding(crate::specs::SeriesChecks::series_fault))]
pub fn check_series(
    inputs: u16,
    outputs: u16,
    series: Series,
    results: usize,
    end: usize,
) -> Result<(), Fault>
    ensures { answer_number result ≡ series_fault inputs outputs series.entry.hold series.entry.intervals series.entry.fresh.now series.entry.start.now results end }
{
    check_hold(inputs, outputs, series)?;
    check_series_contacts(inputs, series)?;
    check_series_rooms(outputs, series, results, end)
}

// 16: a hold count above the inputs or the outputs, or too many intervals.
#[tactic(auto, unfolding(crate::specs::SeriesChecks::hold_fault))]
fn check_hold(inputs: u16, outputs: u16, series: Series) -> Result<(), Fault>
    ensures { answer_number result ≡ hold_fault inputs outputs series.entry.hold series.entry.intervals }
{
    if u32::from(inputs.min(outputs)) < series.hold || MAX_INTERVALS < series.intervals {
        return Err(Fault::Hold);
    }
    Ok(())
}

// 12: the fresh rows, then the start state.
#[tactic(auto, using(crate::proofs::SeriesChecksLaws::entries_fit))]
fn check_series_contacts(inputs: u16, series: Series) -> Result<(), Fault>
    requires { (series.hold ≤ inputs) × (series.intervals ≤ max_intervals) }
    ensures { answer_number result ≡ series_contact_fault inputs series.entry.hold series.entry.intervals series.entry.fresh.now series.entry.start.now }
{
    let row = usize::from(inputs) - series.hold as usize;
    contact_fault(series.intervals as usize * row, series.fresh)?;
    contact_fault(series.hold as usize, series.start)
}

// 11: the output rows, then the end state.
#[tactic(auto, using(crate::proofs::SeriesChecksLaws::entries_fit), unfolding(fault::specs::Checks::room_fault))]
fn check_series_rooms(outputs: u16, series: Series, results: usize, end: usize) -> Result<(), Fault>
    requires { series.intervals ≤ max_intervals }
    ensures { answer_number result ≡ series_room_fault outputs series.entry.hold series.entry.intervals results end }
{
    if results < series.intervals as usize * usize::from(outputs) || end < series.hold as usize {
        return Err(Fault::Short);
    }
    Ok(())
}

// Plan evaluation: what an accepted plan gives on a row of inputs, or on a series of them. Checks come first and touch no buffer.
ghost use Rattle.std.specs.Prelude.{◌≡◌, length};
ghost use Rattle.fault.specs.Number.{answer_number};
ghost use Rattle.plan_evaluation_checks.specs.EvaluationChecks.{evaluate_fault};
ghost use Rattle.plan_series_checks.specs.SeriesChecks.{plan_series_fault};
ghost use Rattle.plan_evaluation.specs.Evaluation.{evaluate_result};
ghost use Rattle.plan_evaluation.specs.PlanSeries.{plan_series_results, plan_series_end};

use crate::intervals::evaluate_intervals;
use fault::Fault;
use plan::{Plan, plan_fault};
use plan_evaluation_checks::contact_fault;
use plan_series_checks::{Series, check_plan_series};

// The plan's outputs on a row of inputs, each 0 or 1, into the first entries of the result: one interval with nothing held.
#[tactic(auto, using(crate::proofs::PlanTheoremsLaws::evaluation_within, crate::proofs::PlanTheoremsLaws::evaluation_written))]
pub fn evaluate(plan: Plan, row: &[u8], res: &mut [u8]) -> Result<(), Fault>
    ensures answered { answer_number result ≡ evaluate_fault plan row.now (length res.old) }
    ensures written { res.new ≡ evaluate_result plan row.now res.old }
{
    check_evaluation(plan, row, res.len())?;
    let series = Series {
        hold: 0,
        intervals: 1,
        fresh: row,
        start: &row[..0],
    };
    evaluate_intervals(&plan, series, res, &mut []);
    Ok(())
}

// The plan's outputs on a series of rows, whose held entries are the last outputs of the row before: the output rows into the first entries of the
// results, the end state into those of `end`.
#[tactic(auto, using(crate::proofs::PlanTheoremsLaws::series_within))]
pub fn evaluate_series(
    plan: Plan,
    series: Series,
    results: &mut [u8],
    end: &mut [u8],
) -> Result<(), Fault>
    ensures answered { answer_number result ≡ plan_series_fault plan series.entry.hold series.entry.intervals series.entry.fresh.now series.entry.start.now (length results.old) (length end.old) }
    ensures written { results.new ≡ plan_series_results plan series.entry.hold series.entry.intervals series.entry.fresh.now series.entry.start.now results.old end.old }
    ensures ended { end.new ≡ plan_series_end plan series.entry.hold series.entry.intervals series.entry.fresh.now series.entry.start.now results.old end.old }
{
    check_plan_series(plan, series, results.len(), end.len())?;
    evaluate_intervals(&plan, series, results, end);
    Ok(())
}

// The checks of evaluation, for a result of `room` entries: plan faults, 12, 11.
// Kept: its own, and not those of a series of one interval, by which evaluation of a small plan takes longer.
#[tactic(auto, unfolding(fault::specs::Checks::room_fault))]
fn check_evaluation(plan: Plan, row: &[u8], room: usize) -> Result<(), Fault>
    ensures { answer_number result ≡ evaluate_fault plan row.now room }
{
    plan_fault(plan)?;
    contact_fault(usize::from(plan.inputs), row)?;
    if room < usize::from(plan.output_count) {
        return Err(Fault::Short);
    }
    Ok(())
}

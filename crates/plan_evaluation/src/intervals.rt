// The intervals of a plan's series.
ghost use Rattle.std.specs.Prelude.{◌≡◌, ◌++◌, length};
ghost use Rattle.fault.specs.Buffers.{over};
ghost use Rattle.plan.specs.Faults.{Accepted};
ghost use Rattle.plan_series_checks.specs.SeriesChecks.{SeriesWithin};
ghost use Rattle.plan_evaluation.specs.Evaluation.{plan_outputs, gate_bit};
ghost use Rattle.plan_evaluation.specs.IntervalRow.{IntervalRow};
ghost use Rattle.plan_evaluation.specs.PlanSeries.{plan_series_rows, plan_series_state};

use crate::gates::{place_of, put_gate};
use plan::Plan;
use plan_series_checks::Series;
use series::copy_entries;

// The output rows of an accepted plan's intervals, one after another, and the end state. The state stands where the end state goes: an interval is
// evaluated on its fresh entries and the state, and the last of its outputs are held.
// Kept: that the plan is accepted is a clause: a struct of the plan with the fact would put one field more into each access, and nothing else would change.
pub(crate) fn evaluate_intervals(plan: &Plan, series: Series, results: &mut [u8], end: &mut [u8])
    requires accepted { Accepted plan.now }
    requires series_within { SeriesWithin plan.now.inputs plan.now.output_count series.hold series.intervals series.fresh.now series.start.now (length results.old) (length end.old) }
    ensures results_after { results.new ≡ over (plan_series_rows plan.now series.entry.hold series.entry.intervals series.entry.fresh.now series.entry.start.now) results.old }
    ensures end_after { end.new ≡ over (plan_series_state plan.now series.entry.hold series.entry.intervals series.entry.fresh.now series.entry.start.now) end.old }
{
    let hold = series.hold as usize;
    let row = usize::from(plan.inputs) - hold;
    let outputs = usize::from(plan.output_count);
    let mut wires = [0u8; Plan::MAX_WIRES];
    copy_entries(series.start, &mut end[..hold]);
    for t in 0..series.intervals as usize {
        let fresh = &series.fresh[t * row..t * row + row];
        let after = t * outputs + outputs;
        evaluate_row(
            plan,
            fresh,
            &end[..hold],
            &mut wires,
            &mut results[t * outputs..after],
        );
        copy_entries(&results[after - hold..after], &mut end[..hold]);
    }
}

// The plan's outputs on a row, whose last entries are the state. The wires' bits before do not matter.
fn evaluate_row(
    plan: &Plan,
    fresh: &[u8],
    state: &[u8],
    wires: &mut [u8; Plan::MAX_WIRES],
    results: &mut [u8],
)
    requires within { IntervalRow plan.now fresh.now state.now }
    requires room { length results.old ≡ plan.now.output_count }
    ensures { results.new ≡ plan_outputs 0 gate_bit plan.now (fresh.now ++ state.now) }
{
    let inputs = usize::from(plan.inputs);
    copy_entries(fresh, &mut wires[..fresh.len()]);
    copy_entries(state, &mut wires[fresh.len()..inputs]);
    for (i, &gate) in plan.gates[..usize::from(plan.gate_count)]
        .iter()
        .enumerate()
    {
        put_gate(gate, inputs + i, wires);
    }
    for (j, result) in results.iter_mut().enumerate() {
        *result = wires[place_of(plan.outputs[j])];
    }
}

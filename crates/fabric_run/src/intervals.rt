// The intervals of a run's series.
ghost use Rattle.std.specs.Prelude.{◌≡◌, ◌++◌, ◌≤◌, length};
ghost use Rattle.fault.specs.Buffers.{over};
ghost use Rattle.plan_series_checks.specs.SeriesChecks.{SeriesWithin};
ghost use Rattle.fabric_sizes.specs.Layout.{inputs_in, outputs_in, wires_in};
ghost use Rattle.fabric_table_checks.specs.TableFault.{WellFormed};
ghost use Rattle.fabric_run.specs.Running.{run_wires, run_outputs};
ghost use Rattle.fabric_run.specs.RunRows.{RunInterval};
ghost use Rattle.fabric_run.specs.RunSeries.{run_series_wires, run_series_rows, run_series_state};

use crate::running::{Fabric, run_rows, write_result};
use fabric_sizes::{INPUTS, OUTPUTS};
use plan_series_checks::Series;
use series::copy_entries;

// The last interval's bits, the output rows of all intervals, one after another, and the end state. The state stands where the end state goes.
// Kept: a loop of its own beside the plan's: it says what the work buffer holds afterwards, of which a closure that runs an interval would have to tell.
pub(crate) fn run_intervals(
    fabric: Fabric,
    series: Series,
    work: &mut [u8],
    results: &mut [u8],
    end: &mut [u8],
)
    requires well_formed { WellFormed fabric.table.now }
    requires series_within { SeriesWithin (inputs_in fabric.table.now) (outputs_in fabric.table.now) series.hold series.intervals series.fresh.now series.start.now (length results.old) (length end.old) }
    requires table_in_bounds { wires_in fabric.table.now ≤ length work.old }
    ensures work_after { work.new ≡ over (run_series_wires fabric.entry.table.now fabric.entry.program.now series.entry.hold series.entry.intervals series.entry.fresh.now series.entry.start.now) work.old }
    ensures results_after { results.new ≡ over (run_series_rows fabric.entry.table.now fabric.entry.program.now series.entry.hold series.entry.intervals series.entry.fresh.now series.entry.start.now) results.old }
    ensures end_after { end.new ≡ over (run_series_state fabric.entry.table.now fabric.entry.program.now series.entry.hold series.entry.intervals series.entry.fresh.now series.entry.start.now) end.old }
{
    let table = fabric.table;
    let hold = series.hold as usize;
    let row = usize::from(table[INPUTS]) - hold;
    let outputs = usize::from(table[OUTPUTS]);
    copy_entries(series.start, &mut end[..hold]);
    for t in 0..series.intervals as usize {
        let from = t * row;
        let at = t * outputs;
        let past = at + outputs;
        run_interval(
            fabric,
            &series.fresh[from..from + row],
            &end[..hold],
            work,
            &mut results[at..past],
        );
        copy_entries(&results[past - hold..past], &mut end[..hold]);
    }
}

// One interval: its row is the fresh entries, then the state. The outputs' bits go out.
fn run_interval(fabric: Fabric, row: &[u8], state: &[u8], work: &mut [u8], out: &mut [u8])
    requires { RunInterval fabric.table.now (row.now ++ state.now) (length work.old) (length out.old) }
    ensures work_after { work.new ≡ over (run_wires fabric.entry.table.now fabric.entry.program.now (row.now ++ state.now)) work.old }
    ensures out_after { out.new ≡ run_outputs fabric.entry.table.now fabric.entry.program.now (row.now ++ state.now) }
{
    run_rows(fabric, row, state, work);
    write_result(fabric.table, work, out);
}

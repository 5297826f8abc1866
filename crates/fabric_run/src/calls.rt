// The run of a table with a program on a row of inputs, or on a series of them. Checks come first and touch no buffer.
ghost use Rattle.std.specs.Prelude.{◌≡◌, length};
ghost use Rattle.fault.specs.Number.{answer_number};
ghost use Rattle.fabric_run_checks.specs.RunFault.{run_fault, run_series_fault};
ghost use Rattle.fabric_run.specs.RunCalls.{run_work, run_result};
ghost use Rattle.fabric_run.specs.RunSeries.{run_series_work, run_series_results, run_series_end};

use crate::intervals::run_intervals;
use crate::running::Fabric;
use fabric_run_checks::check_run_series;
use fault::Fault;
use plan_series_checks::Series;

// The run of a table with a program on a row of inputs: every wire's bit into the work buffer, the outputs' bits into the result. It is one interval
// with nothing held.
// Kept: a table and a program are lent apart and may be wrong apart, 13 and 14; `Fabric` is what passed.
pub fn run(
    table: &[u16],
    program: &[u8],
    row: &[u8],
    work: &mut [u8],
    res: &mut [u8],
) -> Result<(), Fault>
    ensures answered { answer_number result ≡ run_fault table.now program.now row.now (length work.old) (length res.old) }
    ensures worked { work.new ≡ run_work table.now program.now row.now work.old res.old }
    ensures written { res.new ≡ run_result table.now program.now row.now work.old res.old }
{
    let series = Series {
        hold: 0,
        intervals: 1,
        fresh: row,
        start: &[],
    };
    run_series(table, program, series, work, res, &mut [])
}

// The run on a series of rows, whose last entries are the last outputs of the row before: the last interval's bits into the work buffer, the
// output rows into the first entries of the results, the end state into those of `end`.
pub fn run_series(
    table: &[u16],
    program: &[u8],
    series: Series,
    work: &mut [u8],
    results: &mut [u8],
    end: &mut [u8],
) -> Result<(), Fault>
    ensures answered { answer_number result ≡ run_series_fault table.now program.now series.entry.hold series.entry.intervals series.entry.fresh.now series.entry.start.now (length work.old) (length results.old) (length end.old) }
    ensures worked { work.new ≡ run_series_work table.now program.now series.entry.hold series.entry.intervals series.entry.fresh.now series.entry.start.now work.old results.old end.old }
    ensures written { results.new ≡ run_series_results table.now program.now series.entry.hold series.entry.intervals series.entry.fresh.now series.entry.start.now work.old results.old end.old }
    ensures ended { end.new ≡ run_series_end table.now program.now series.entry.hold series.entry.intervals series.entry.fresh.now series.entry.start.now work.old results.old end.old }
{
    check_run_series(table, program, series, work.len(), results.len(), end.len())?;
    run_intervals(Fabric { table, program }, series, work, results, end);
    Ok(())
}

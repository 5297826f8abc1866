// The exports for C and Rust, declared in include/mukdalis.h. Each is thin: it calls a library function and gives its answer as a number,
// 0 where it was done. A slice is a pointer and a length there. A refusal writes through no pointer.
#![tactic(auto)]

ghost use Rattle.std.specs.Prelude.{◌≡◌, [], length};
ghost use Rattle.elements.specs.Elements.{count_outcome};
ghost use Rattle.blocks.specs.Calls.{write_fault, selection_write_fault, written_rows, written_outputs, selection_written_rows, selection_written_outputs};
ghost use Rattle.blocks.specs.Calls.{permutation_counting, selection_counting, program_fault, selection_program_fault, program_result, selection_program_result};
ghost use Rattle.plan.specs.Record.{max_gates, places};
ghost use Rattle.plan.specs.Faults.{plan_fault};
ghost use Rattle.plan_evaluation_checks.specs.EvaluationChecks.{evaluate_fault};
ghost use Rattle.plan_series_checks.specs.SeriesChecks.{plan_series_fault};
ghost use Rattle.plan_evaluation.specs.Evaluation.{evaluate_result};
ghost use Rattle.plan_evaluation.specs.PlanSeries.{plan_series_results, plan_series_end};
ghost use Rattle.plan_edits.specs.Edits.{gate_replaced, gate_appended, output_replaced};
ghost use Rattle.plan_edits.specs.Answers.{edited_outcome};
ghost use Rattle.plan_reading.specs.PlanFile.{plan_read};
ghost use Rattle.plan_drawn.specs.DrawnFile.{drawn_read};
ghost use Rattle.plan_saving.specs.Saving.{plan_save, save_result};
ghost use Rattle.fabric.specs.Fabrics.{counting, kind_counting, fabric_result, fabric_fault, plan_program_fault, plan_program_result, run_fault, run_work, run_result};
ghost use Rattle.fabric.specs.Fabrics.{run_series_fault, run_series_work, run_series_results, run_series_end};
ghost use Rattle.capi.specs.Exports.{export_outcome, export_drawn, export_edit, export_saved, counts_of, export_sheet};

use elements::{Counts, FabricWire, KindCounts};
use fault::{Fault, answer_number};
use plan::{Gate, Plan, PlanWire};
use plan_series_checks::Series;

// The header's struct mkd_read: number and offset 0 where a plan was read, the plan all zero where not.
#[repr(C)]
#[derive(Clone, Copy)]
pub struct Read {
    pub number: u32,
    pub at: u64,
    pub plan: Plan,
}

// Reads the plan that a file holds.
#[unsafe(no_mangle)]
pub extern "C" fn mkd_plan_read(file: &[u8]) -> Read
    ensures { export_outcome result ≡ plan_read file.now }
{
    match plan_reading::read_plan(file) {
        Ok(read) => Read {
            number: 0,
            at: 0,
            plan: read,
        },
        Err(refusal) => {
            let unread = Plan::zero();
            Read {
                number: u32::from(refusal.fault),
                at: refusal.at as u64,
                plan: unread,
            }
        }
    }
}

// The header's struct mkd_drawn: the same with the drawn number of the gate at each place, plan and numbers all zero where no plan was read.
#[repr(C)]
#[derive(Clone, Copy)]
pub struct Drawn {
    pub number: u32,
    pub at: u64,
    pub plan: Plan,
    pub drawn: [u16; Plan::MAX_GATES],
}

// Reads the plan that a file holds as it was drawn.
#[unsafe(no_mangle)]
pub extern "C" fn mkd_plan_read_drawn(file: &[u8]) -> Drawn
    ensures { export_drawn result ≡ drawn_read file.now }
{
    match plan_drawn::read_drawn(file) {
        Ok(read) => {
            let ordered = read.plan;
            let numbers = read.drawn;
            Drawn {
                number: 0,
                at: 0,
                plan: ordered,
                drawn: numbers,
            }
        }
        Err(refused) => {
            let none = no_numbers();
            Drawn {
                number: u32::from(refused.fault),
                at: refused.at as u64,
                plan: Plan::zero(),
                drawn: none,
            }
        }
    }
}

// The drawn numbers of no gate.
fn no_numbers() -> [u16; Plan::MAX_GATES]
    ensures { result ≡ places max_gates 0 [] }
{
    [0; Plan::MAX_GATES]
}

// The first fault of a plan in memory.
#[unsafe(no_mangle)]
pub extern "C" fn mkd_plan_fault(plan: Plan) -> u32
    ensures { result ≡ plan_fault plan }
{
    answer_number(plan::plan_fault(plan))
}

// The header's struct mkd_edit: number 0 with the edited plan, or a refusal with the plan as it went in.
#[repr(C)]
#[derive(Clone, Copy)]
pub struct Edit {
    pub number: u32,
    pub plan: Plan,
}

// The answer of an edit of a plan as the header's struct.
fn export_edit(plan: Plan, answer: Result<Plan, Fault>) -> Edit
    ensures { export_edit result ≡ edited_outcome plan answer }
{
    match answer {
        Ok(edited) => Edit {
            number: 0,
            plan: edited,
        },
        Err(refused) => Edit {
            number: u32::from(refused),
            plan: plan,
        },
    }
}

// Replaces a gate of a plan.
#[unsafe(no_mangle)]
pub extern "C" fn mkd_plan_replace_gate(plan: Plan, gate: u32, new_gate: Gate) -> Edit
    ensures { export_edit result ≡ gate_replaced plan gate new_gate }
{
    export_edit(plan, plan_edits::replace_gate(plan, gate, new_gate))
}

// Appends a gate to a plan.
#[unsafe(no_mangle)]
pub extern "C" fn mkd_plan_append_gate(plan: Plan, new_gate: Gate) -> Edit
    ensures { export_edit result ≡ gate_appended plan new_gate }
{
    export_edit(plan, plan_edits::append_gate(plan, new_gate))
}

// Replaces an output of a plan.
#[unsafe(no_mangle)]
pub extern "C" fn mkd_plan_replace_output(plan: Plan, output: u32, wire: u16) -> Edit
    ensures { export_edit result ≡ output_replaced plan output (record { 0 = wire }) }
{
    export_edit(
        plan,
        plan_edits::replace_output(plan, output, PlanWire(wire)),
    )
}

// The plan's outputs on a row of inputs.
#[unsafe(no_mangle)]
pub extern "C" fn mkd_plan_evaluate(plan: Plan, row: &[u8], res: &mut [u8]) -> u32
    ensures answered { result ≡ evaluate_fault plan row.now (length res.old) }
    ensures written { res.new ≡ evaluate_result plan row.now res.old }
{
    answer_number(plan_evaluation::evaluate(plan, row, res))
}

// The plan's outputs on a series of rows, whose last entries are the last outputs of the row before.
#[unsafe(no_mangle)]
pub extern "C" fn mkd_plan_series(
    plan: Plan,
    hold: u32,
    intervals: u32,
    fresh: &[u8],
    start: &[u8],
    results: &mut [u8],
    end: &mut [u8],
) -> u32
    ensures answered { result ≡ plan_series_fault plan hold intervals fresh.now start.now (length results.old) (length end.old) }
    ensures written { results.new ≡ plan_series_results plan hold intervals fresh.now start.now results.old end.old }
    ensures ended { end.new ≡ plan_series_end plan hold intervals fresh.now start.now results.old end.old }
{
    let series = Series {
        hold,
        intervals,
        fresh,
        start,
    };
    answer_number(plan_evaluation::evaluate_series(plan, series, results, end))
}

// The header's struct mkd_saved: number 0 with the length of the file that was written, length 0 where none was.
#[repr(C)]
#[derive(Clone, Copy)]
pub struct Saved {
    pub number: u32,
    pub length: u64,
}

// Writes the shortest file of a plan.
#[unsafe(no_mangle)]
pub extern "C" fn mkd_plan_save(plan: Plan, file: &mut [u8]) -> Saved
    ensures answered { export_saved result ≡ plan_save plan (length file.old) }
    ensures written { file.new ≡ save_result plan file.old }
{
    match plan_saving::save_plan(plan, file) {
        Ok(length) => Saved {
            number: 0,
            length: length as u64,
        },
        Err(fault) => Saved {
            number: u32::from(fault),
            length: 0,
        },
    }
}

// The header's struct mkd_counts: number 0 where the block or the fabric was counted, its counts all zero where not.
#[repr(C)]
#[derive(Clone, Copy)]
pub struct Counted {
    pub number: u32,
    pub rows: u32,
    pub wires: u32,
    pub bits: u32,
}

// The answer of counting as the header's struct.
fn export_counts(answer: Result<Counts, Fault>) -> Counted
    ensures { counts_of result ≡ count_outcome answer }
{
    match answer {
        Ok(counts) => Counted {
            number: 0,
            rows: counts.rows,
            wires: counts.wires,
            bits: counts.bits,
        },
        Err(fault) => Counted {
            number: u32::from(fault),
            rows: 0,
            wires: 0,
            bits: 0,
        },
    }
}

// The rows, wires and program bits of the permutation network P(n).
#[unsafe(no_mangle)]
pub extern "C" fn mkd_permutation_count(n: u32) -> Counted
    ensures { counts_of result ≡ permutation_counting n }
{
    export_counts(blocks::count_permutation(n))
}

// The rows, wires and program bits of the selection network S(m, n).
#[unsafe(no_mangle)]
pub extern "C" fn mkd_selection_count(m: u32, n: u32) -> Counted
    ensures { counts_of result ≡ selection_counting m n }
{
    export_counts(blocks::count_selection(m, n))
}

// Writes the permutation network P(n): its rows and its output wires.
#[unsafe(no_mangle)]
pub extern "C" fn mkd_permutation_write(
    n: u32,
    inputs: &[u16],
    next: u32,
    rows: &mut [u16],
    outputs: &mut [u16],
) -> u32
    ensures answered { result ≡ write_fault n inputs.now next (length rows.old) (length outputs.old) }
    ensures rows { rows.new ≡ written_rows n inputs.now next rows.old outputs.old }
    ensures outputs { outputs.new ≡ written_outputs n inputs.now next rows.old outputs.old }
{
    answer_number(blocks::write_permutation(n, inputs, FabricWire(next), rows, outputs))
}

// Programs P(n) for the wanted inputs.
#[unsafe(no_mangle)]
pub extern "C" fn mkd_permutation_program(n: u32, wanted: &[u16], program: &mut [u8]) -> u32
    ensures answered { result ≡ program_fault n wanted.now (length program.old) }
    ensures written { program.new ≡ program_result n wanted.now program.old }
{
    answer_number(blocks::program_permutation(n, wanted, program))
}

// Writes the selection network S(m, n): its rows and its output wires.
#[unsafe(no_mangle)]
pub extern "C" fn mkd_selection_write(
    m: u32,
    n: u32,
    inputs: &[u16],
    next: u32,
    rows: &mut [u16],
    outputs: &mut [u16],
) -> u32
    ensures answered { result ≡ selection_write_fault m n inputs.now next (length rows.old) (length outputs.old) }
    ensures rows { rows.new ≡ selection_written_rows m n inputs.now next rows.old outputs.old }
    ensures outputs { outputs.new ≡ selection_written_outputs m n inputs.now next rows.old outputs.old }
{
    answer_number(blocks::write_selection(m, n, inputs, FabricWire(next), rows, outputs))
}

// Programs S(m, n) for the wanted inputs.
#[unsafe(no_mangle)]
pub extern "C" fn mkd_selection_program(m: u32, n: u32, wanted: &[u16], program: &mut [u8]) -> u32
    ensures answered { result ≡ selection_program_fault m n wanted.now (length program.old) }
    ensures written { program.new ≡ selection_program_result m n wanted.now program.old }
{
    answer_number(blocks::program_selection(m, n, wanted, program))
}

// The rows, wires and program bits of the fabric of u inputs, k gates and v outputs.
#[unsafe(no_mangle)]
pub extern "C" fn mkd_count(u: u32, k: u32, v: u32) -> Counted
    ensures { counts_of result ≡ counting u k v }
{
    export_counts(fabric::count_fabric(u, k, v))
}

// The header's struct mkd_sheet: number 0 where the fabric was counted, its rows by kind all zero where not.
#[repr(C)]
#[derive(Clone, Copy)]
pub struct FabricSheet {
    pub number: u32,
    pub input: KindCounts,
    pub block: KindCounts,
    pub output: KindCounts,
    pub sum: KindCounts,
}

// The rows of each kind in that fabric's three parts, and in its whole table.
#[unsafe(no_mangle)]
pub extern "C" fn mkd_fabric_sheet(u: u32, k: u32, v: u32) -> FabricSheet
    ensures { export_sheet result ≡ kind_counting u k v }
{
    match fabric::count_kinds(u, k, v) {
        Ok(sheet) => FabricSheet {
            number: 0,
            input: sheet.input,
            block: sheet.block,
            output: sheet.output,
            sum: sheet.sum,
        },
        Err(fault) => {
            let none = KindCounts {
                x: 0,
                y: 0,
                g: 0,
                total: 0,
            };
            FabricSheet {
                number: u32::from(fault),
                input: none,
                block: none,
                output: none,
                sum: none,
            }
        }
    }
}

// The table of that fabric.
#[unsafe(no_mangle)]
pub extern "C" fn mkd_fabric(u: u32, k: u32, v: u32, table: &mut [u16]) -> u32
    ensures answered { result ≡ fabric_fault u k v (length table.old) }
    ensures written { table.new ≡ fabric_result u k v table.old }
{
    answer_number(fabric::write_fabric(u, k, v, table))
}

// The program bits of a plan.
#[unsafe(no_mangle)]
pub extern "C" fn mkd_program(plan: Plan, program: &mut [u8]) -> u32
    ensures answered { result ≡ plan_program_fault plan (length program.old) }
    ensures written { program.new ≡ plan_program_result plan program.old }
{
    answer_number(fabric::program_plan(plan, program))
}

// The run of a table with a program on a row of input contacts.
#[unsafe(no_mangle)]
pub extern "C" fn mkd_run(
    table: &[u16],
    program: &[u8],
    row: &[u8],
    work: &mut [u8],
    res: &mut [u8],
) -> u32
    ensures answered { result ≡ run_fault table.now program.now row.now (length work.old) (length res.old) }
    ensures worked { work.new ≡ run_work table.now program.now row.now work.old res.old }
    ensures written { res.new ≡ run_result table.now program.now row.now work.old res.old }
{
    answer_number(fabric::run(table, program, row, work, res))
}

// The run of a table with a program on a series of rows, whose last entries are the last outputs of the row before.
#[unsafe(no_mangle)]
pub extern "C" fn mkd_run_series(
    table: &[u16],
    program: &[u8],
    hold: u32,
    intervals: u32,
    fresh: &[u8],
    start: &[u8],
    work: &mut [u8],
    results: &mut [u8],
    end: &mut [u8],
) -> u32
    ensures answered { result ≡ run_series_fault table.now program.now hold intervals fresh.now start.now (length work.old) (length results.old) (length end.old) }
    ensures worked { work.new ≡ run_series_work table.now program.now hold intervals fresh.now start.now work.old results.old end.old }
    ensures written { results.new ≡ run_series_results table.now program.now hold intervals fresh.now start.now work.old results.old end.old }
    ensures ended { end.new ≡ run_series_end table.now program.now hold intervals fresh.now start.now work.old results.old end.old }
{
    let series = Series {
        hold,
        intervals,
        fresh,
        start,
    };
    answer_number(fabric::run_series(table, program, series, work, results, end))
}

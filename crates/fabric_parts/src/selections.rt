// The fabric's selection blocks, written by S's call: on the first wires of a list, and with the output wires behind the rows. Every call
// takes all inputs and hands S's answer back: where S refuses, no buffer is changed.
ghost use Rattle.std.specs.Prelude.{◌≡◌, length, take};
ghost use Rattle.fault.specs.Number.{answer_number};
ghost use Rattle.blocks.specs.Calls.{selection_write_fault, selection_written_rows, selection_written_outputs};
ghost use Rattle.plan.specs.Record.{max_outputs};
ghost use Rattle.fabric_parts.specs.Copied.{outputs_put};

use blocks::{copy_wires, write_selection};
use elements::FabricWire;
use fault::Fault;
use plan::Plan;

// S(m, n) on the first m wires of a list: its rows to the front of the table's part, its output wires to the front of `to`.
pub fn write_selection_on(
    m: u16,
    n: u16,
    from: &[u16],
    next: FabricWire,
    rows: &mut [u16],
    to: &mut [u16],
) -> Result<(), Fault>
    ensures answered { answer_number result ≡ selection_write_fault m n (take m from.now) next.0 (length rows.old) (length to.old) }
    ensures rows { rows.new ≡ selection_written_rows m n (take m from.now) next.0 rows.old to.old }
    ensures to { to.new ≡ selection_written_outputs m n (take m from.now) next.0 rows.old to.old }
{
    let end = usize::from(m).min(from.len());
    write_selection(u32::from(m), u32::from(n), &from[..end], next, rows, to)
}

// S(K, v) on the gates' wires: its rows to the front of the table's part, and, where S is done, its output wires from the entry `end` on.
#[tactic(auto, using(crate::proofs::PutLaws::outputs_copied))]
pub fn put_outputs(
    gates: u16,
    v: u16,
    end: usize,
    next: FabricWire,
    rows: &mut [u16],
    outs: &[u16],
) -> Result<(), Fault>
    ensures answered { answer_number result ≡ selection_write_fault gates v (take gates outs.now) next.0 (length rows.old) max_outputs }
    ensures rows { rows.new ≡ outputs_put gates v end next.0 outs.now rows.old }
{
    let mut outputs = [0u16; Plan::MAX_OUTPUTS];
    write_selection_on(gates, v, outs, next, rows, &mut outputs)?;
    let count = usize::from(v).min(Plan::MAX_OUTPUTS);
    let place = end.min(rows.len());
    copy_wires(&outputs[..count], &mut rows[place..]);
    Ok(())
}

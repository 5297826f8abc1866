// The checks that writing P and writing S share: of input wires, and of buffers' lengths. They take all inputs and touch no buffer.
ghost use Rattle.std.specs.Prelude.{◌≡◌};
ghost use Rattle.fault.specs.Number.{answer_number};
ghost use Rattle.block_write_checks.specs.Wires.{wires_fit, unmade_fault, wires_fault, buffers_fault};

use block_rows::row_place;
use elements::{FabricWire, MAX_WIRES};
use fault::Fault;

// 13: an input wire is unmade, or one of the wires to be made would pass 65,535.
#[tactic(auto, unfolding(crate::specs::Wires::wires_fault))]
pub(crate) fn check_wires(inputs: &[u16], next: FabricWire, made: u32) -> Result<(), Fault>
    ensures { answer_number result ≡ wires_fault inputs.now made next.0 }
{
    check_made(inputs, next)?;
    if !wires_fit(made, next) {
        return Err(Fault::Fabric);
    }
    Ok(())
}

// 13: an input wire is unmade.
fn check_made(inputs: &[u16], next: FabricWire) -> Result<(), Fault>
    ensures { answer_number result ≡ unmade_fault inputs.now next.0 }
{
    if !inputs.iter().all(|&wire| u32::from(wire) < next.0) {
        return Err(Fault::Fabric);
    }
    Ok(())
}

// Whether `made` wires can be made from `next` on. Where none is made, any `next` will do.
#[tactic(auto, unfolding(crate::specs::Wires::wires_fit))]
fn wires_fit(made: u32, next: FabricWire) -> bool
    ensures { result ≡ wires_fit made next.0 }
{
    made == 0 || next.0 as usize + made as usize <= MAX_WIRES
}

// 11: `count` rows, or `outs` output wires, do not fit lent buffers of `rows` and `outputs` entries.
#[tactic(auto, unfolding(crate::specs::Wires::buffers_fault, fault::specs::Checks::room_fault))]
pub(crate) fn check_room(count: u32, outs: u32, rows: usize, outputs: usize) -> Result<(), Fault>
    ensures { answer_number result ≡ buffers_fault count outs rows outputs }
{
    if rows < row_place(count) || outputs < outs as usize {
        return Err(Fault::Short);
    }
    Ok(())
}

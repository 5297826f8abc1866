// The refusals of the contact fabric library: document 01's fourteen words and those that document 02 adds, and the place where a file is at fault.
// Every contract above this crate speaks of a refusal through its number.
#![tactic(auto)]

ghost use Rattle.std.specs.Prelude.{◌≡◌};
ghost use Rattle.fault.specs.Number.{fault_number, answer_number};

// The words of the refusal table, in its order.
#[derive(Clone, Copy, PartialEq, Eq)]
pub enum Fault {
    // A plan file below 6 bytes.
    Stub,
    // A number of inputs out of range.
    Inputs,
    // A number of gates out of range.
    Gates,
    // A number of outputs out of range.
    Outputs,
    // A file that ends inside or before a needed field.
    Cut,
    // A map byte out of range.
    Map,
    // An operand that is wire 0 or not below the gate's own wire; in drawn reading wire 0 or above u + k.
    Operand,
    // A gate's table out of range.
    Table,
    // An output that names no gate wire.
    Source,
    // Bytes after the last output.
    Tail,
    // A lent buffer below its stated length.
    Short,
    // An input row of another length, or an entry that is not 0 or 1.
    Contact,
    // A malformed fabric table.
    Fabric,
    // A program of another length, or a spare bit set.
    Program,
    // Drawn gates that each draw from a gate of the same set.
    Ring,
    // A hold count above the inputs or the outputs, or too many intervals.
    Hold,
    // K, or the uses of a wire, that a plan holds and that are not the counted ones.
    Tally,
    // A gate or an output that a plan lacks and an edit names.
    Place,
}

// The byte offset where a file's faulty field begins or would begin, and the fault. The offset stands first: where the one byte of the fault lies over
// a gate in what a reading step hands back, gates go through memory and reading takes twice the time.
#[derive(Clone, Copy, PartialEq, Eq)]
pub struct Refusal {
    pub at: usize,
    pub fault: Fault,
}

// The word's number in the refusal table.
impl From<Fault> for u32 {
    ghost from_gives = { λ fault number. number ≡ fault_number fault };

    fn from(fault: Fault) -> u32 {
        match fault {
            Fault::Stub => 1,
            Fault::Inputs => 2,
            Fault::Gates => 3,
            Fault::Outputs => 4,
            Fault::Cut => 5,
            Fault::Map => 6,
            Fault::Operand => 7,
            Fault::Table => 8,
            Fault::Source => 9,
            Fault::Tail => 10,
            Fault::Short => 11,
            Fault::Contact => 12,
            Fault::Fabric => 13,
            Fault::Program => 14,
            Fault::Ring => 15,
            Fault::Hold => 16,
            Fault::Tally => 17,
            Fault::Place => 18,
        }
    }
}

// 0 for `Ok`, otherwise the refusal's number.
pub fn answer_number(answer: Result<(), Fault>) -> u32
    ensures { result ≡ answer_number answer }
{
    match answer {
        Ok(()) => 0,
        Err(fault) => u32::from(fault),
    }
}

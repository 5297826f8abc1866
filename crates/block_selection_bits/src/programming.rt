// Programming S: the bits that bring each output the input it wants, packed from the front of a lent program, or stored from a given bit on.
// Kept: `program` and `start` are two parameters: each part has its own start, and the program is wanted again behind it.
ghost use Rattle.std.specs.Prelude.{◌≡◌, length};
ghost use Rattle.fault.specs.Number.{answer_number};
ghost use Rattle.block_program_checks.specs.Checks.{selection_program_fault, selection_program_at_fault};
ghost use Rattle.block_selection_bits.specs.ProgramCalls.{selection_program_result, selection_program_at_result};

use crate::program::store_program;
use block_bits::{bit_byte, bit_place, bytes_for, fill_bytes};
use block_program_checks::check_selection;
use block_sizes::selection_count;
use fault::Fault;

// The program of S(m, n) for the wanted inputs, from the front of `program`. Spare bits of its last byte are 0.
#[tactic(auto, using(crate::proofs::SelectionProgramLaws::selection_fault_at_front))]
pub fn program_selection(m: u32, n: u32, wanted: &[u16], program: &mut [u8]) -> Result<(), Fault>
    ensures answered { answer_number result ≡ selection_program_fault m n wanted.now (length program.old) }
    ensures written { program.new ≡ selection_program_result m n wanted.now program.old }
{
    check_selection(m, n, wanted, 0, program.len())?;
    fill_bytes(program, bytes_for(selection_count(m, n)), 0);
    store_program(m, n, wanted, program, 0);
    Ok(())
}

// The program of S(m, n) for the wanted inputs, its bits stored from bit `start` on. No other bit changes. The part of the program that
// begins with that bit's byte is lent on, so that bit positions stay small.
#[tactic(auto, using(crate::proofs::SelectionProgramLaws::begins_within))]
pub fn program_selection_at(
    m: u32,
    n: u32,
    wanted: &[u16],
    program: &mut [u8],
    start: usize,
) -> Result<(), Fault>
    ensures answered { answer_number result ≡ selection_program_at_fault m n wanted.now start (length program.old) }
    ensures written { program.new ≡ selection_program_at_result m n wanted.now start program.old }
{
    check_selection(m, n, wanted, start, program.len())?;
    let byte = bit_byte(start);
    store_program(m, n, wanted, &mut program[byte..], bit_place(start));
    Ok(())
}

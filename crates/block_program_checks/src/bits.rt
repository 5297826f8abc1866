// Check 11 of a lent program. It takes all inputs and touches no buffer.
ghost use Rattle.std.specs.Prelude.{◌≡◌, ◌^◌, ◌<◌};
ghost use Rattle.fault.specs.Number.{answer_number};
ghost use Rattle.block_program_checks.specs.Bits.{bits_at_fault};

use block_bits::{bit_byte, bit_place, bytes_for};
use fault::Fault;

// 11: `count` bits from bit `start` on do not fit a program of `room` bytes. The bytes before that bit's are full, and the others hold what
// stands before it in its own byte, and the bits.
#[tactic(auto, unfolding(crate::specs::Bits::bits_at_fault))]
pub(crate) fn check_bits(count: usize, start: usize, room: usize) -> Result<(), Fault>
    requires { count < 2 ^ 32 }
    ensures { answer_number result ≡ bits_at_fault count start room }
{
    if room < bit_byte(start) + bytes_for(bit_place(start) + count) {
        return Err(Fault::Short);
    }
    Ok(())
}

// One level of P's programming: the bits of its own rows go into the program, and the scratch is left with the mappings of the two halves.
// Kept: `program` and `start` are two parameters: each part has its own start, and the program is wanted again behind it.
ghost use Rattle.std.specs.Prelude.{◌≡◌, ◌≢◌, ◌++◌, ◌+◌, ◌*◌, ◌/◌, ◌^◌, ◌<◌, ◌≤◌, length};
ghost use Rattle.block_elements.specs.Bits.{AreBits};
ghost use Rattle.block_loops.specs.Mappings.{inverse_list, rows_stored, half_list, Levelled};
ghost use Rattle.block_loops.specs.Marking.{Unmarked};
ghost use Rattle.block_loops.specs.Levels.{LevelBuffers};

use crate::mapping::Mapping;
use crate::marking::{Loops, UNMARKED};
use block_bits::store_bits;

// One level for a mapping, from bit `start` on, where each half has `part` rows. `scratch` and `mark` are room to work in.
pub(crate) fn program_level(
    mapping: &Mapping,
    scratch: &mut [u16],
    mark: &mut [u8],
    program: &mut [u8],
    start: usize,
    part: usize,
)
    requires level_buffers { LevelBuffers (length mapping.now.inputs.now) (length scratch.old) (length mark.old) }
    requires last_bound { start + length mapping.now.inputs.now / 2 + part + part + length mapping.now.inputs.now / 2 < 2 ^ 64 }
    ensures { Levelled mapping.now.inputs.now scratch.new start part program.old program.new }
{
    invert(mapping, scratch, mark);
    let loops = Loops {
        inputs: mapping.inputs,
        outputs: scratch,
    };
    loops.mark_sides(mark);
    store_rows(mark, program, start, part);
    let pairs = mapping.inputs.len() / 2;
    half_maps(mapping.inputs, &mark[..pairs], scratch);
}

// The inverse of the mapping, pair by pair, and each output pair unmarked.
fn invert(mapping: &Mapping, inverse: &mut [u16], mark: &mut [u8])
    requires { LevelBuffers (length mapping.now.inputs.now) (length inverse.old) (length mark.old) }
    ensures inverted { inverse.new ≡ inverse_list mapping.now.inputs.now }
    ensures cleared { Unmarked (length mapping.now.inputs.now / 2) mark.new }
{
    let inputs = mapping.inputs;
    for i in 0..inputs.len() / 2 {
        let first = usize::from(inputs[2 * i]);
        let second = usize::from(inputs[2 * i + 1]);
        inverse[first] = (2 * i) as u16;
        inverse[second] = (2 * i + 1) as u16;
        mark[i] = UNMARKED;
    }
}

// The bits of a level's own rows: the input rows' from `start` on, the output rows' behind the two halves. The last pair has no output row.
fn store_rows(mark: &[u8], program: &mut [u8], start: usize, part: usize)
    requires in_bounds { 2 ≤ length mark.now }
    requires mark_bound { start + length mark.now / 2 + part + part + length mark.now / 2 < 2 ^ 64 }
    ensures { program.new ≡ rows_stored program.old start part mark.now }
{
    let pairs = mark.len() / 2;
    let last = pairs - 1;
    store_bits(program, start, &mark[pairs..]);
    store_bits(program, start + pairs + part + part, &mark[..last]);
}

// The mappings that are left to the upper and the lower half, one behind the other: of each output pair the input pairs of the output that
// comes through the upper half, and of the other.
fn half_maps(inputs: &[u16], sides: &[u8], maps: &mut [u16])
    requires are_bits { AreBits sides.now }
    requires pairs { (length inputs.now ≡ 2 * length sides.now) × (length maps.old ≡ 2 * length sides.now) }
    ensures { maps.new ≡ half_list 0 inputs.now sides.now ++ half_list 1 inputs.now sides.now }
{
    let (upper, lower) = maps.split_at_mut(sides.len());
    for (i, &side) in sides.iter().enumerate() {
        let first = inputs[2 * i] / 2;
        let second = inputs[2 * i + 1] / 2;
        upper[i] = of_side(side, first, second);
        lower[i] = of_side(side, second, first);
    }
}

// The one for side 0, or the other.
fn of_side(side: u8, upper: u16, lower: u16) -> u16
    ensures { (side ≡ 0 → result ≡ upper) × (side ≢ 0 → result ≡ lower) }
{
    if side == 0 { upper } else { lower }
}

// P's programming in place: level by level on parts of three arrays, with no array of its own.
ghost use Rattle.std.specs.Prelude.{◌≡◌, ◌+◌, ◌^◌, ◌<◌, ◌≤◌, length};
ghost use Rattle.block_elements.specs.Bits.{store_bits};
ghost use Rattle.block_networks.specs.Permutation.{permutation_count};
ghost use Rattle.block_sizes.specs.Sizes.{level_of, SizeIs};
ghost use Rattle.block_loops.specs.Mappings.{IsPerm};
ghost use Rattle.block_loops.specs.Levels.{BlockBuffers};
ghost use Rattle.block_permutation_bits.specs.ProgramCalls.{mapping_bits};

use crate::four::program_four;
use crate::level::program_level;
use crate::mapping::Mapping;
use block_bits::store_bit;
use block_sizes::permutation_count;

// The program bits of a block for the mapping `perm`, from bit `start` on. `scratch` and `mark` are room to work in, and `perm` is
// used up.
// Kept: three slices and no struct of them: a half takes the first two in each other's place, so a struct would be made anew at each level.
// Kept: `program` and `start` are two parameters: each part has its own start, and the program is wanted again behind it.
pub(crate) fn program_block(
    perm: &mut [u16],
    scratch: &mut [u16],
    mark: &mut [u8],
    program: &mut [u8],
    start: usize,
)
    requires perm { IsPerm perm.old }
    requires block_buffers { BlockBuffers (level_of (length perm.old)) (length perm.old) (length scratch.old) (length mark.old) }
    requires level_bound { start + permutation_count (level_of (length perm.old)) < 2 ^ 32 }
    ensures { program.new ≡ store_bits program.old start (mapping_bits perm.old) }
{
    if 4 < perm.len() {
        program_halves(perm, scratch, mark, program, start);
    } else {
        program_few(&Mapping { inputs: perm }, program, start);
    }
}

// The same for a block above P(4): its own rows, then its halves, which have their mappings in `scratch` and work in `perm`. P(8)'s halves, of
// which there are most, are stored here, with no call.
fn program_halves(
    perm: &mut [u16],
    scratch: &mut [u16],
    mark: &mut [u8],
    program: &mut [u8],
    start: usize,
)
    requires perm { IsPerm perm.old }
    requires block_buffers { BlockBuffers (level_of (length perm.old)) (length perm.old) (length scratch.old) (length mark.old) }
    requires level_bound { start + permutation_count (level_of (length perm.old)) < 2 ^ 32 }
    requires has_halves { 4 < length perm.old }
    ensures { program.new ≡ store_bits program.old start (mapping_bits perm.old) }
{
    let half = perm.len() / 2;
    let part = permutation_count(half as u32);
    let at_upper = start + half;
    let at_lower = at_upper + part;
    program_level(
        &Mapping { inputs: perm },
        scratch,
        mark,
        program,
        start,
        part,
    );
    let (upper, lower) = scratch.split_at_mut(half);
    if 8 < perm.len() {
        let room = &mut perm[..half];
        let marks = &mut mark[..half];
        program_halves(upper, room, marks, program, at_upper);
        program_halves(lower, room, marks, program, at_lower);
    } else {
        program_four(&Mapping { inputs: upper }, program, at_upper);
        program_four(&Mapping { inputs: lower }, program, at_lower);
    }
}

// The program bits of P(4) and below. P(2)'s one row is crossed where its first output takes the second input, and P(1) has no row.
fn program_few(mapping: &Mapping, program: &mut [u8], start: usize)
    requires { SizeIs (length mapping.now.inputs.now) × (length mapping.now.inputs.now ≤ 4) }
    ensures { program.new ≡ store_bits program.old start (mapping_bits mapping.now.inputs.now) }
{
    match mapping.inputs.len() {
        4 => program_four(mapping, program, start),
        2 => store_bit(program, start, mapping.inputs[0] as u8),
        _ => {}
    }
}

// X rows on wires that are numbers: nothing is read, and nothing is tested but where a loop ends.
ghost use Rattle.std.specs.Prelude.{◌≡◌, ◌*◌, ◌%◌, ◌≤◌, length};
ghost use Rattle.fault.specs.Buffers.{over};
ghost use Rattle.elements.specs.Elements.{max_wires};
ghost use Rattle.block_elements.specs.Rows.{X, stride, entries, flat};
ghost use Rattle.block_permutation_rows.specs.Levels.{rising_rows};

use block_rows::{KIND_PLACE, LEFT_PLACE, RIGHT_PLACE, row_place};
use elements::{Kind, MAX_WIRES};

// One X row at the front of a part of the table.
// Kept: beside `put_row`, which tests for room at each row; here the part has it.
pub(crate) fn put_switch(rows: &mut [u16], left: usize, right: usize)
    requires { stride ≤ length rows.old }
    ensures { rows.new ≡ over (entries (X (left % max_wires) (right % max_wires))) rows.old }
{
    rows[KIND_PLACE] = u16::from(Kind::X);
    rows[LEFT_PLACE] = (left % MAX_WIRES) as u16;
    rows[RIGHT_PLACE] = (right % MAX_WIRES) as u16;
}

// `count` X rows from the front of a part of the table on. Row i takes the wires left + step * i and right + step * i.
pub(crate) fn put_rising(rows: &mut [u16], count: u32, left: u32, right: u32, step: u16)
    requires { stride * count ≤ length rows.old }
    ensures { rows.new ≡ over (flat (rising_rows count left right step)) rows.old }
{
    let step = usize::from(step);
    // Kept: `l` and `r` rise by `step`; as `left + step * i` and `right + step * i` writing P took 3 to 5 % longer.
    let mut l = left as usize;
    let mut r = right as usize;
    for i in 0..count {
        put_switch(&mut rows[row_place(i)..], l, r);
        l += step;
        r += step;
    }
}

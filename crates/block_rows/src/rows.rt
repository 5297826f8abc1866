// Rows in the table of 16-bit entries. How many entries a row has and in which order is said here alone.
ghost use Rattle.std.specs.Prelude.{◌≡◌, ℕ, [], ◌∷◌, ◌-◌, ◌*◌, ◌<◌, ◌≤◌, length};
ghost use Rattle.fault.specs.Buffers.{over};
ghost use Rattle.elements.specs.Elements.{kind_number};
ghost use Rattle.lists.specs.Lists.{list_of, Gives};
ghost use Rattle.block_elements.specs.Rows.{stride, flat, row_of};
ghost use Rattle.block_rows.specs.Rows.{row_put, rows_put, pair_rows};

use crate::wires::{entry_at, entry_of};
use elements::{FabricWire, Kind};

// The entries of a row: its kind, its left wire, its right wire.
pub const STRIDE: usize = 3;

// The place of a row's kind among its entries.
pub const KIND_PLACE: usize = 0;

// The place of its left wire.
pub const LEFT_PLACE: usize = 1;

// The place of its right wire.
pub const RIGHT_PLACE: usize = 2;

// The entries that `rows` rows take, which is the place of the row behind them.
pub fn row_place(rows: u32) -> usize
    ensures { result ≡ stride * rows }
{
    STRIDE * rows as usize
}

// One row at the front of a part of the table.
#[tactic(auto, unfolding(crate::specs::Rows::row_put))]
pub fn put_row(rows: &mut [u16], kind: Kind, left: FabricWire, right: FabricWire)
    ensures { rows.new ≡ row_put (kind_number kind) left.0 right.0 rows.old }
{
    if STRIDE <= rows.len() {
        store_row(rows, kind, entry_of(left), entry_of(right));
    }
}

// The entries of a row at the front of a part of the table.
fn store_row(rows: &mut [u16], kind: Kind, left: u16, right: u16)
    requires { stride ≤ length rows.old }
    ensures { rows.new ≡ over (kind_number kind ∷ left ∷ right ∷ []) rows.old }
{
    rows[KIND_PLACE] = u16::from(kind);
    rows[LEFT_PLACE] = left;
    rows[RIGHT_PLACE] = right;
}

// `count` rows of a kind from the front of a part of the table on, if it has room for them. Row i takes the wires at place step * i of two lists.
// Where both lists have the last of these places, nothing is tested in the loop.
pub fn put_pairs(rows: &mut [u16], kind: Kind, count: u32, lefts: &[u16], rights: &[u16], step: u16)
    ensures { rows.new ≡ rows_put (pair_rows kind count lefts.now rights.now step) rows.old }
{
    let last = last_place(count, step);
    let step = usize::from(step);
    if row_place(count) <= rows.len() {
        // Kept: two closures, of which the first tests nothing: most rows of a fabric are written by it.
        if last < lefts.len().min(rights.len()) {
            put_each(rows, kind, count, |i| (lefts[step * i], rights[step * i]));
        } else {
            put_each(rows, kind, count, |i| {
                (entry_at(lefts, step * i), entry_at(rights, step * i))
            });
        }
    }
}

// The last place of a list that `count` rows read, where row i reads place step * i.
fn last_place(count: u32, step: u16) -> usize
    ensures { result ≡ step * (count - 1) }
{
    usize::from(step) * count.saturating_sub(1) as usize
}

// `count` rows of a kind where there is room for them. Row i takes the left and the right wire that the closure gives for i.
fn put_each<F: Fn(usize) -> (u16, u16)>(rows: &mut [u16], kind: Kind, count: u32, wires: F)
    requires room { stride * count ≤ length rows.old }
    requires callable { (i : ℕ) → i < count → F.pre wires i }
    ensures { (f : ℕ → ℕ × ℕ) → Gives (F.post wires) count f
        → rows.new ≡ over (flat (list_of count (λ i. row_of (kind_number kind) (f i).0 (f i).1))) rows.old }
{
    for i in 0..count {
        let (left, right) = wires(i as usize);
        store_row(&mut rows[row_place(i)..], kind, left, right);
    }
}

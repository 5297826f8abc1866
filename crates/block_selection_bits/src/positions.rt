// The positions that the first network gives to the inputs, as the list of wanted inputs of its positions: a wanted input at its head, and
// the idle ones, dummies included, in rising order at the others.
ghost use Rattle.std.specs.Prelude.{◌≡◌, ◌<◌, ◌≤◌, length, get_or};
ghost use Rattle.lists.specs.Lists.{list_of};
ghost use Rattle.block_networks.specs.Wanted.{taker_of, wanted_of};
ghost use Rattle.block_sizes.specs.Sizes.{max_size};
ghost use Rattle.block_selection_bits.specs.Arrays.{PlacesHold, Blank, head_by, HeadsFit, head_input, position_by, Positioned, IdleFrom, NextIdle, PlacedNext};

// The head of each input, in `heads`; and at the head of each wanted one the input, counted from 1, in `list`.
pub(crate) fn place_heads(counts: &[u16], heads: &mut [u16], list: &mut [u16])
    requires places { (length heads.old ≡ length counts.now) × (length list.old ≡ length counts.now) × (length counts.now ≤ max_size) }
    requires heads_fit { HeadsFit (length counts.now) counts.now }
    requires blank { Blank list.old }
    ensures headed { heads.new ≡ list_of (length counts.now) (head_by counts.now) }
    ensures listed { PlacesHold (head_input counts.now (length counts.now)) list.new }
{
    let mut head: u16 = 0;
    for (j, &count) in counts.iter().enumerate() {
        heads[j] = head;
        if 0 < count {
            list[usize::from(head)] = (j + 1) as u16;
        }
        head += count;
    }
}

// The idle inputs, in rising order, where no head is.
pub(crate) fn place_idle(counts: &[u16], list: &mut [u16])
    requires places { (length list.old ≡ length counts.now) × (length counts.now ≤ max_size) }
    requires positioned { Positioned (length counts.now) counts.now }
    requires places_hold { PlacesHold (head_input counts.now (length counts.now)) list.old }
    ensures { list.new ≡ wanted_of (length counts.now) (taker_of (length counts.now) (position_by counts.now (length counts.now))) }
{
    let mut from: usize = 0;
    for p in 0..list.len() {
        from = place_next(counts, list, p, from);
    }
}

// The next idle input from `from` on at position p, unless a head is there. Gives where the idle inputs go on.
fn place_next(counts: &[u16], list: &mut [u16], p: usize, from: usize) -> usize
    requires { (length counts.now ≤ max_size) × (p < length list.old) × (get_or list.old p 0 ≡ 0 → IdleFrom counts.now from) }
    ensures { PlacedNext counts.now p from list.old list.new result }
{
    // Kept: 0 and no `Option` where no input stands yet, since P's call takes the list as it is.
    if list[p] != 0 {
        return from;
    }
    let next = next_idle(counts, from) + 1;
    list[p] = next as u16;
    next
}

// The first idle input from `from` on.
fn next_idle(counts: &[u16], from: usize) -> usize
    requires { IdleFrom counts.now from }
    ensures { NextIdle counts.now from result }
{
    from + counts[from..].iter().position(|&count| count == 0).unwrap()
}

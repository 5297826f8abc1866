// Copying entries of one lent buffer into another.
ghost use Rattle.std.specs.Prelude.{◌≡◌, ◌-◌, min, length, take, drop};
ghost use Rattle.std.proofs.lemmas.List.Edits.{sets};
ghost use Rattle.fault.specs.Buffers.{over};

// The entries of one buffer in the first places of another, as many as it has.
// Kept: a loop and no `copy_from_slice`, which calls memmove for each part, also for an empty one: a run of (1,1,1) takes a third longer, and a unit's
// linker wants one function more.
pub fn copy_entries(from: &[u8], to: &mut [u8])
    ensures front { to.new ≡ over (take (length to.old) from.now) to.old }
    ensures whole { length from.now ≡ length to.old → to.new ≡ from.now }
{
    let count = from.len().min(to.len());
    for i in 0..count {
        to[i] = from[i];
    }
}

// So many entries of a buffer from a place on, stored in another from a place on. What lies past the end of either is left out.
// Kept: this promises what it does for all numbers, where a part of a slice has to be there.
#[tactic(auto, using(crate::proofs::CopyingLaws::none_copied))]
pub fn copy_part(from: &[u8], start: usize, count: usize, to: &mut [u8], at: usize)
    ensures { to.new ≡ sets to.old at (take count (drop start from.now)) }
{
    let n = entries_within(to.len(), at, entries_within(from.len(), start, count));
    if n > 0 {
        copy_entries(&from[start..start + n], &mut to[at..at + n]);
    }
}

// How many of at most so many entries a buffer of this length has from a place on.
// Kept: `min` and `saturating_sub` in one place, for both buffers.
fn entries_within(length: usize, at: usize, most: usize) -> usize
    ensures { result ≡ min most (length - at) }
{
    most.min(length.saturating_sub(at))
}

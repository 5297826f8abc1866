// The positions that the second network gives to the outputs: to an output that wants input j the head of j plus the number of earlier
// outputs that want it, and to an output past the wanted ones its own.
ghost use Rattle.std.specs.Prelude.{◌≡◌, ◌+◌, ◌-◌, ◌<◌, ◌≤◌, length, get_or, set};
ghost use Rattle.block_networks.specs.Wanted.{mapping, wanted_of};
ghost use Rattle.block_networks.specs.Selection.{copy_of};
ghost use Rattle.block_sizes.specs.Sizes.{max_size};
ghost use Rattle.block_selection_bits.specs.Arrays.{Demand, NextCopies};

// The positions of the outputs, counted from 1, in `list`. `heads` has the heads of the wanted inputs, and is used up.
pub(crate) fn list_copies(wanted: &[u16], heads: &mut [u16], list: &mut [u16])
    requires demand { Demand (length list.old) wanted.now × (length heads.old ≡ length list.old) }
    requires next_copies { NextCopies wanted.now 0 heads.old }
    ensures { list.new ≡ wanted_of (length list.old) (copy_of (mapping wanted.now) (length wanted.now)) }
{
    for (o, &input) in wanted.iter().enumerate() {
        list[o] = next_copy(heads, input) + 1;
    }
    for own in wanted.len()..list.len() {
        list[own] = (own + 1) as u16;
    }
}

// The position of the next copy of an input. That of the copy behind it is one more.
fn next_copy(heads: &mut [u16], input: u16) -> u16
    requires { (1 ≤ input) × (input ≤ length heads.old) × (get_or heads.old (input - 1) 0 < max_size) }
    ensures copied { result ≡ get_or heads.old (input - 1) 0 }
    ensures counted { heads.new ≡ set heads.old (input - 1) (result + 1) }
{
    let j = usize::from(input) - 1;
    let p = heads[j];
    heads[j] = p + 1;
    p
}

// Counting the outputs that want each input: document 01's c(j).
ghost use Rattle.std.specs.Prelude.{◌≡◌, length};
ghost use Rattle.block_networks.specs.Wanted.{mapping};
ghost use Rattle.block_networks.specs.Selection.{copies};
ghost use Rattle.block_selection_bits.specs.Arrays.{Demand, PlacesHold, Blank};

// How many outputs want each input, in `counts`.
pub(crate) fn count_wanted(wanted: &[u16], counts: &mut [u16])
    requires demand { Demand (length counts.old) wanted.now }
    requires blank { Blank counts.old }
    ensures { PlacesHold (copies (mapping wanted.now) (length wanted.now)) counts.new }
{
    for &input in wanted {
        counts[usize::from(input) - 1] += 1;
    }
}

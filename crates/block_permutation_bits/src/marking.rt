// The sides of P's rows: which half an output pair's first output comes through, and which an input pair's first input goes to. The loops of
// pairs are walked one after another and marked in place.
ghost use Rattle.std.specs.Prelude.{◌≡◌, ◌/◌, ◌<◌, ◌≤◌, length, get_or};
ghost use Rattle.block_networks.specs.Permutation.{partner};
ghost use Rattle.block_sizes.specs.Sizes.{max_size};
ghost use Rattle.block_loops.specs.Mappings.{Paired, row_sides};
ghost use Rattle.block_loops.specs.Marking.{Unmarked, Leads, Traced};

// The mark of a pair that no walk has reached yet; 0 is the upper half, 1 the lower.
// Kept: marks are bytes and no enum, since `store_bits` packs them as they stand; of an enum they would be copied into bytes first.
pub(crate) const UNMARKED: u8 = 2;

// The input that each output takes, and the output that takes each input, counted from 0. They are the places of pairs, so that walks from the one
// to the other go round in loops.
#[derive(Clone, Copy)]
pub(crate) struct Loops<'a> {
    pub(crate) inputs: &'a [u16],
    pub(crate) outputs: &'a [u16],
    ghost paired: { Paired inputs.now outputs.now },
    ghost some: { 2 ≤ length inputs.now },
    ghost few: { length inputs.now ≤ max_size },
}

impl Loops<'_> {
    // Marks each output pair, and behind them each input pair, with its side: the last output pair's loop first, then upwards from the lowest
    // unmarked pair.
    pub(crate) fn mark_sides(&self, mark: &mut [u8])
        requires mark_len { length mark.old ≡ length self.now.inputs.now }
        requires unmarked { Unmarked (length self.now.inputs.now / 2) mark.old }
        ensures { mark.new ≡ row_sides self.now.inputs.now self.now.outputs.now }
    {
        let pairs = self.inputs.len() / 2;
        self.mark_loop(mark, pairs - 1);
        for i in 0..pairs - 1 {
            if mark[i] == UNMARKED {
                self.mark_loop(mark, i);
            }
        }
    }

    // Marks the loop of output pair i, where that is straight. The walk goes from output to output of the upper half, each with its input, and is
    // back within as many steps as there are outputs.
    fn mark_loop(&self, mark: &mut [u8], i: usize)
        requires mark_len { length mark.old ≡ length self.now.inputs.now }
        requires leads { Leads self.now.inputs.now self.now.outputs.now i }
        ensures { Traced self.now.inputs.now self.now.outputs.now i mark.old mark.new }
    {
        let pairs = self.inputs.len() / 2;
        let start = 2 * i;
        let mut o = start;
        // Kept: a loop and no `successors`: that has no bound, and would read the input a second time.
        loop {
            let input = usize::from(self.inputs[o]);
            mark[o / 2] = (o % 2) as u8;
            mark[pairs + input / 2] = (input % 2) as u8;
            o = self.step(input);
            if o == start {
                return;
            }
        }
    }

    // One step along a loop, from an output's input to the next output of its side: the input's partner, the output that takes it, its partner.
    fn step(&self, input: usize) -> usize
        requires { partner input < length self.now.outputs.now }
        ensures { result ≡ partner (get_or self.now.outputs.now (partner input) 0) }
    {
        partner_of(usize::from(self.outputs[partner_of(input)]))
    }
}

// The other place of a pair.
#[tactic(auto, unfolding(block_networks::specs::Permutation::partner))]
fn partner_of(x: usize) -> usize
    ensures { result ≡ partner x }
{
    x / 2 * 2 + (1 - x % 2)
}

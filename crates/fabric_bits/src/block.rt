// U's programming: by halves, with the selection block's bits and the Y rows' between them. Nothing is held inside the recursion.
ghost use Rattle.std.specs.Prelude.{◌≡◌, ◌+◌, ◌/◌, ◌^◌, ◌<◌, ◌≤◌, length, take, drop};
ghost use Rattle.blocks.specs.Elements.{store_bits};
ghost use Rattle.blocks.specs.Networks.{selection_count, selection_bits};
ghost use Rattle.blocks.specs.Calls.{SelectionPasses};
ghost use Rattle.fabric_universal.specs.Selector.{selection};
ghost use Rattle.fabric_universal.specs.Universal.{universal_takes, universal_bits};
ghost use Rattle.fabric_universal.specs.Fabric.{gate_level};
ghost use Rattle.fabric_lists.specs.GateLists.{gates_listed};
ghost use Rattle.fabric_bits.specs.ProgramParts.{bit_limit, between_bits, BetweenRoom, UniversalProgramRoom};

use blocks::{program_selection_at, selection_count};
use elements::GATE_BITS;
use fabric_lists::{GateList, store_table};

// The bits of U for the gates of the list, a power of two of them, stored from bit `start` on; `wanted` is room to work in. Gives the bit behind
// them.
// Kept: `program` and `start` are two parameters: each part has its own start, which the call before gives, and the program is wanted again behind it.
pub(crate) fn program_universal(
    list: GateList,
    wanted: &mut [u16],
    program: &mut [u8],
    start: u32,
) -> u32
    requires { UniversalProgramRoom list.before (length list.gates.now) (length wanted.old) start (length program.old) }
    ensures behind { result ≡ start + universal_takes selection (gate_level (length list.entry.gates.now)) }
    ensures stored { program.new ≡ store_bits program.old start (universal_bits selection (gates_listed list.entry.before list.entry.gates.now) (gate_level (length list.entry.gates.now)) 0) }
{
    if list.gates.len() == 1 {
        store_table(list.gates[0].table, program, start);
        return start + GATE_BITS;
    }
    let (upper, lower) = halves(list);
    let between = program_universal(upper, wanted, program, start);
    let behind = program_between(list, wanted, program, between);
    program_universal(lower, wanted, program, behind)
}

// The two halves of a list: the wires of the second half's gates follow those of the first's.
fn halves(list: GateList) -> (GateList, GateList)
    requires { list.before + length list.gates.now / 2 < 2 ^ 32 }
    ensures upper { (result.0.before ≡ list.entry.before) × (result.0.gates.now ≡ take (length list.entry.gates.now / 2) list.entry.gates.now) }
    ensures lower { (result.1.before ≡ list.entry.before + length list.entry.gates.now / 2) × (result.1.gates.now ≡ drop (length list.entry.gates.now / 2) list.entry.gates.now) }
{
    let half = list.gates.len() / 2;
    let (upper, lower) = list.gates.split_at(half);
    (
        GateList {
            before: list.before,
            gates: upper,
        },
        GateList {
            before: list.before + half as u32,
            gates: lower,
        },
    )
}

// Between the halves: the bits of S(half, 2 half) for what the lower half's pins want, then those of the Y rows. Gives the bit behind them.
fn program_between(list: GateList, wanted: &mut [u16], program: &mut [u8], start: u32) -> u32
    requires { BetweenRoom (length list.gates.now / 2) (length wanted.old) start (length program.old) }
    ensures behind { result ≡ start + length (between_bits (gates_listed list.entry.before list.entry.gates.now) 0 (length list.entry.gates.now / 2)) }
    ensures stored { program.new ≡ store_bits program.old start (between_bits (gates_listed list.entry.before list.entry.gates.now) 0 (length list.entry.gates.now / 2)) }
{
    let half = (list.gates.len() / 2) as u32;
    list.list_gates(wanted);
    let choices = store_selection(half, 2 * half, wanted, program, start);
    list.store_choices(program, choices);
    choices + 2 * half
}

// The bits of S(m, n) for the first n wanted inputs, stored from bit `start` on. S's call has nothing to refuse. Gives the bit behind them.
#[tactic(auto, using(crate::proofs::UniversalBitsLaws::selection_stored))]
pub(crate) fn store_selection(m: u32, n: u32, wanted: &[u16], program: &mut [u8], start: u32) -> u32
    requires selection_passes { SelectionPasses m n (take n wanted.now) start (length program.old) }
    requires n_bound { start + selection_count m n ≤ bit_limit }
    ensures behind { result ≡ start + selection_count m n }
    ensures stored { program.new ≡ store_bits program.old start (selection_bits m n (take n wanted.now)) }
{
    let _ = program_selection_at(m, n, &wanted[..n as usize], program, start as usize);
    start + selection_count(m, n) as u32
}

// The parts of a fabric: S(u, 2K), U(K) and S(K, v), where K is the smallest power of two not below k. Counts of 16 bits have parts whose
// counts are of 32.
ghost use Rattle.std.specs.Prelude.{◌^◌};
ghost use Rattle.fabric_universal.specs.Selector.{pin_count};
ghost use Rattle.fabric_universal.specs.Fabric.{gate_level};
ghost use Rattle.fabric_sizes.specs.Parts.{PlacesAre, SelectionWithin, SelectionIs, UniversalIs};

use blocks::{selection_count, selection_wires};
use elements::{Counts, GATE_BITS};
use plan::Plan;
use powers::{ceil_log, ceil_power};

// The pins of the largest U of a plan, two for each gate.
pub const MAX_PINS: usize = 2 * Plan::MAX_GATES;

// The program bits that a gate takes above the one bit of another row.
const MORE_GATE_BITS: u32 = GATE_BITS - 1;

// K, the places for k gates: the smallest power of two not below k.
pub fn gate_places(k: u16) -> u32
    ensures { PlacesAre k result }
{
    ceil_power(u32::from(k)) as u32
}

// S(m, 2K), which selects for the pins of U(K).
pub fn pin_counts(m: u16, k: u16) -> Counts
    ensures { SelectionIs m (pin_count (gate_level k)) result }
{
    selection_counts(u32::from(m), 2 * gate_places(k))
}

// U(K).
pub fn universal_counts(k: u16) -> Counts
    ensures { UniversalIs (gate_level k) result }
{
    count_universal(gate_places(k))
}

// S(K, v), whose outputs are the fabric's.
pub fn output_counts(k: u16, v: u16) -> Counts
    ensures { SelectionIs (2 ^ gate_level k) v result }
{
    selection_counts(gate_places(k), u32::from(v))
}

// U(K) from K: K(n² + n) + 2K - 1 rows and K(2n² + 4) - 3 wires, n the logarithm of K; and a bit for each row, and three more for each of the
// K gates.
pub(crate) fn count_universal(places: u32) -> Counts
    requires { PlacesAre places places }
    ensures { UniversalIs (gate_level places) result }
{
    let n = ceil_log(places);
    let rows = places * (n * n + n) + 2 * places - 1;
    Counts {
        rows,
        wires: 2 * (places * (n * n)) + 4 * places - 3,
        bits: rows + MORE_GATE_BITS * places,
    }
}

// S(m, n). Each of its rows takes one bit.
#[tactic(auto, using(crate::proofs::PartsLaws::few_selected))]
pub(crate) fn selection_counts(m: u32, n: u32) -> Counts
    requires { SelectionWithin m n }
    ensures { SelectionIs m n result }
{
    let rows = selection_count(m, n) as u32;
    Counts {
        rows,
        wires: selection_wires(m, n) as u32,
        bits: rows,
    }
}

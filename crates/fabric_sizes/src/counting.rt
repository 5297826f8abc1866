// Counting: the rows, wires and program bits of the fabric of three counts, and the stated lengths that follow from them.
ghost use Rattle.std.specs.Prelude.{◌≡◌};
ghost use Rattle.elements.specs.Elements.{count_outcome};
ghost use Rattle.blocks.specs.Elements.{bytes_for};
ghost use Rattle.fabric_universal.specs.Fabric.{fabric_takes};
ghost use Rattle.fabric_sizes.specs.Counting.{counting, FabricCounts, table_length};
ghost use Rattle.fabric_sizes.specs.Parts.{PlacesAre};

use crate::layout::HEADER;
use crate::parts::{count_universal, gate_places, selection_counts};
use blocks::{bytes_for, row_place};
use elements::Counts;
use fault::Fault;
use plan::PlanCounts;

// The counts of the fabric of u inputs, k gates and v outputs.
// Kept: three numbers and no PlanCounts: the call takes every number, and says which is out of its limits.
pub fn count_fabric(u: u32, k: u32, v: u32) -> Result<Counts, Fault>
    ensures { count_outcome result ≡ counting u k v }
{
    let counts = PlanCounts::new(u, k, v)?;
    Ok(fabric_counts(counts.inputs, counts.gates, counts.outputs))
}

// The counts without the checks, for any u, k and v of 16 bits.
// Kept: three numbers, as below, and no PlanCounts: the promise is for every u, k and v of 16 bits.
pub fn fabric_counts(u: u16, k: u16, v: u16) -> Counts
    ensures { FabricCounts u k v result }
{
    count_parts(u, gate_places(k), v)
}

// The counts from K: those of S(u, 2K), U(K) and S(K, v) added up. The fabric of K gates is that of k.
pub(crate) fn count_parts(u: u16, places: u32, v: u16) -> Counts
    requires { PlacesAre places places }
    ensures { FabricCounts u places v result }
{
    let inputs = u32::from(u);
    let pins = selection_counts(inputs, 2 * places);
    let universal = count_universal(places);
    let outputs = selection_counts(places, u32::from(v));
    Counts {
        rows: pins.rows + universal.rows + outputs.rows,
        wires: 1 + inputs + pins.wires + universal.wires + outputs.wires,
        bits: pins.bits + universal.bits + outputs.bits,
    }
}

// The entries of the table of the fabric of u inputs, k gates and v outputs.
pub fn table_length(u: u16, k: u16, v: u16) -> usize
    ensures { result ≡ table_length u k v }
{
    let counts = fabric_counts(u, k, v);
    HEADER + row_place(counts.rows) + usize::from(v)
}

// The bytes of the programs of the fabric of u inputs, k gates and v outputs.
pub fn program_length(u: u16, k: u16, v: u16) -> usize
    ensures { result ≡ bytes_for (fabric_takes u k v) }
{
    let counts = fabric_counts(u, k, v);
    bytes_for(counts.bits as usize)
}

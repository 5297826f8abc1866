// The sheet of a fabric, document 02, W3: the rows of each kind in S(u, 2K), in U(K), in S(K, v) and in the whole table. They are counted from
// the sizes alone; no table is written.
#![tactic(auto)]

ghost use Rattle.std.specs.Prelude.{◌≡◌};
ghost use Rattle.elements.specs.Elements.{sheet_outcome};
ghost use Rattle.fabric_sheet.specs.Sheet.{sheet_of, kind_counting, added_kinds};
ghost use Rattle.fabric_sheet.specs.Kinds.{kinds_from, HaveKinds, FewKinds};

use elements::{Counts, GATE_BITS, KindCounts, Sheet};
use fabric_sizes::{output_counts, pin_counts, universal_counts};
use fault::Fault;
use plan::PlanCounts;

// The rows by kind of the fabric of u inputs, k gates and v outputs, part by part and in all.
// Kept: three numbers and no PlanCounts: the call takes every number, and says which is out of its limits.
pub fn count_kinds(u: u32, k: u32, v: u32) -> Result<Sheet, Fault>
    ensures { sheet_outcome result ≡ kind_counting u k v }
{
    Ok(sheet_of(PlanCounts::new(u, k, v)?))
}

// The sheet of the fabric of these numbers.
fn sheet_of(counts: PlanCounts) -> Sheet
    ensures { result ≡ sheet_of counts.inputs counts.gates counts.outputs }
{
    let input = kinds_of(pin_counts(counts.inputs, counts.gates));
    let block = kinds_of(universal_counts(counts.gates));
    let output = kinds_of(output_counts(counts.gates, counts.outputs));
    let sum = added(input, block, output);
    Sheet {
        input,
        block,
        output,
        sum,
    }
}

// The kinds of rows of which there are so many, with so many wires and bits: an X makes one wire more than another row, a G takes three bits more.
fn kinds_of(c: Counts) -> KindCounts
    requires { HaveKinds c }
    ensures value { result ≡ kinds_from c }
    ensures few_kinds { FewKinds result }
{
    let x = c.wires - c.rows;
    let g = (c.bits - c.rows) / (GATE_BITS - 1);
    KindCounts {
        x,
        y: c.rows - x - g,
        g,
        total: c.rows,
    }
}

// The rows of three parts together.
fn added(a: KindCounts, b: KindCounts, c: KindCounts) -> KindCounts
    requires few_kinds { FewKinds a }
    requires few_kinds_2 { FewKinds b }
    requires few_kinds_3 { FewKinds c }
    ensures { result ≡ added_kinds a b c }
{
    KindCounts {
        x: a.x + b.x + c.x,
        y: a.y + b.y + c.y,
        g: a.g + b.g + c.g,
        total: a.total + b.total + c.total,
    }
}

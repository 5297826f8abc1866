// S(m, n) as a block of N inputs and N outputs: the first P, the chain, the second P, each in its own stretch of the table. Two lists of
// N wires carry it through: `from` holds what feeds the next P, `to` what the last P gave.
ghost use Rattle.std.specs.Prelude.{◌≡◌, ◌-◌, length};
ghost use Rattle.fault.specs.Buffers.{over};
ghost use Rattle.block_elements.specs.Rows.{flat};
ghost use Rattle.block_networks.specs.Permutation.{permutation_rows, permutation_outs};
ghost use Rattle.block_networks.specs.Selection.{chain_rows, chain_outs, whole_rows, whole_outs};
ghost use Rattle.block_sizes.specs.Sizes.{level_of};
ghost use Rattle.block_write_checks.specs.WriteChecks.{WritePasses};
ghost use Rattle.block_selection_rows.specs.Block.{SelectionPartsAt, BlockWires, BlockRoom, ChainRoom, LinkRoom};

use block_permutation_rows::write_permutation;
use block_rows::{put_pairs, put_wires, row_place};
use block_sizes::permutation_count;
use elements::{FabricWire, Kind};

// Where the chain and the second P begin: the entries of their rows in the block's stretch, and the first wire that they make.
#[derive(Clone, Copy)]
struct SelectionParts {
    chain: usize,
    second: usize,
    chain_next: FabricWire,
    second_next: FabricWire,
}

// The block on the wires of `from`: its rows to the front of the table's part, its output wires to `to`.
pub(crate) fn write_block(next: FabricWire, rows: &mut [u16], from: &mut [u16], to: &mut [u16])
    requires { BlockRoom from.old next.0 (length rows.old) (length to.old) }
    ensures rows_after { rows.new ≡ over (flat (whole_rows (level_of (length from.old)) from.old next.0)) rows.old }
    ensures to_after { to.new ≡ whole_outs (level_of (length from.old)) from.old next.0 }
{
    let SelectionParts {
        chain,
        second,
        chain_next,
        second_next,
    } = selection_parts(from.len() as u32, next);
    write_network(next, rows, from, to);
    write_chain(chain_next, &mut rows[chain..], from, to);
    write_network(second_next, &mut rows[second..], from, to);
}

// A row of P makes two wires, a row of the chain one.
#[tactic(auto, using(crate::proofs::BlockLaws::few_of_one))]
fn selection_parts(size: u32, next: FabricWire) -> SelectionParts
    requires { BlockWires size next.0 }
    ensures { SelectionPartsAt (level_of size) next.0 result }
{
    let count = permutation_count(size) as u32;
    let links = size - 1;
    SelectionParts {
        chain: row_place(count),
        second: row_place(count + links),
        chain_next: next.plus(2 * count),
        second_next: next.plus(2 * count + links),
    }
}

// P on the wires of `from`: its rows to the front of the table's part, its output wires to `to`. P's call has nothing to refuse.
fn write_network(next: FabricWire, rows: &mut [u16], from: &[u16], to: &mut [u16])
    requires passes { WritePasses (length from.now) from.now next.0 (length rows.old) (length to.old) }
    requires places { length to.old ≡ length from.now }
    ensures rows_after { rows.new ≡ over (flat (permutation_rows (level_of (length from.now)) from.now next.0)) rows.old }
    ensures to_after { to.new ≡ permutation_outs (level_of (length from.now)) from.now next.0 }
{
    write_permutation(from.len() as u32, from, next, rows, to).unwrap();
}

// The chain over the wires of `to`: its rows to the front of the table's part, its wires to `from`.
fn write_chain(next: FabricWire, rows: &mut [u16], from: &mut [u16], to: &[u16])
    requires { ChainRoom (length to.now) next.0 (length rows.old) (length from.old) }
    ensures rows_after { rows.new ≡ over (flat (chain_rows (length to.now - 1) to.now next.0)) rows.old }
    ensures from_after { from.new ≡ chain_outs (length to.now) to.now next.0 }
{
    link_wires(next, from, to);
    put_pairs(rows, Kind::Y, to.len() as u32 - 1, from, &to[1..], 1);
}

// The chain's wires: the first of `to`, then those that its rows make.
fn link_wires(next: FabricWire, from: &mut [u16], to: &[u16])
    requires { LinkRoom (length to.now) next.0 (length from.old) }
    ensures { from.new ≡ chain_outs (length to.now) to.now next.0 }
{
    from[0] = to[0];
    let links = from.len() - 1;
    put_wires(&mut from[1..], links, next, 1);
}

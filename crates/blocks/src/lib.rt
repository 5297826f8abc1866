// The door of the block library: writing and programming the permutation network P and the selection network S, with what they promise, and the
// rows, wires and bits that they are made of. It goes to the relay-card maker by itself, with the crates under it. Every call takes all inputs,
// refuses by document 01's numbers in its order, and on a refusal changes no buffer.
#![tactic(auto)]

pub use block_bits::{
    BYTE_BITS, TellsBits, bytes_for, fill_bytes, read_bit, store_bit, store_bits_by, store_field,
};
pub use block_counts::{count_permutation, count_selection};
pub use block_permutation_bits::{program_permutation, program_permutation_at};
pub use block_permutation_rows::write_permutation;
pub use block_rows::{
    LEFT_PLACE, RIGHT_PLACE, STRIDE, copy_wires, put_pairs, put_row, put_wires, row_place, wire_at,
};
pub use block_selection_bits::{program_selection, program_selection_at};
pub use block_selection_rows::write_selection;
pub use block_sizes::{selection_count, selection_wires};

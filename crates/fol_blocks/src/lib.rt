//! The blocks of one region.
//!
//! A `Blocks` stands for a list of blocks in no stated order. Contracts say what each call does to the list, or to a weight summed over it.
//! `IsKept`, which each call keeps, says how the blocks lie: by chunk, each place once, and none with number 0.
//!
//! The crate promises that `number_at` and `set` read and change just the block that they name, and that `move_listed` moves exactly
//! what lies in the chunks of a list. Only `reserve` and what lists blocks need memory; `set` takes some where there is. The lemmas speak of sums
//! over lists of blocks. It serves the contents of a region, which count entities by the same keys of chunks.
#![tactic(auto)]

mod block_list;
mod block_pages;
mod blocks;
mod cells;
mod moves;
mod pages;

pub use blocks::Blocks;
pub use cells::{key_around, key_of};

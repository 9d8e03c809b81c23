//! What the queues and the contents of a region share: the lists of chunks by which they are parted, and the laws of lists with keys.
//!
//! A list has a chunk exactly where the chunk is one of it, and is searched in logarithmic time. A set of chunks is such a list to which chunks come,
//! and which they leave. The lemmas speak of lists whose elements have keys that differ, of lists in strict order of a key, and of the orders of
//! places. It serves the queues and the contents, and the bags and ticks of regions.
#![tactic(auto)]

mod chunk_list;
mod chunk_set;
mod order;
mod rectangle;
mod row;
mod rows;

pub use chunk_list::ChunkList;
pub use chunk_set::ChunkSet;
pub use order::{compare_blocks, compare_chunks, compare_sections};
pub use rectangle::Rectangle;
pub use row::Row;
pub use rows::{count_listed, join, move_listed};

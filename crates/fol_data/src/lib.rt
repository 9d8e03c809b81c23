//! What a region carries while it ticks, waits, joins another region or splits: its counters, its tasks, its blocks and its entities.
//!
//! A `RegionData` stands for a counter of ended ticks, the number of ticks that the region still owes, the waiting tasks with their
//! rests, and a flat map of blocks with the entities that stand. While the region does not tick, the rest of a task is its deadline
//! without the counter.
//!
//! The crate promises that what is moved to another region is exactly what lies on the chunks of a list, that each task keeps its rest
//! by it, and that both counters and both owed numbers stay. Only `reserve` takes memory. It serves the core, and the ticks that the
//! core gives out.
#![tactic(auto)]

mod offset;
mod region_data;
mod size;
mod tick;

pub use region_data::RegionData;
pub use size::Size;
pub use tick::Tick;

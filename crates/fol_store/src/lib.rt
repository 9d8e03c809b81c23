//! Where tasks, blocks and entities lie while no worker has them.
//!
//! A `Store` stands for one flat world, one map of queued tasks with their rests, and the bag of each region with the region's
//! counters. What lies in it is kept in parts: a bag for each region and a spot for each chunk, which `fol_bags` has, and a list of the
//! tasks that came and wait. Moving things between the parts changes nothing of what the store stands for, so running out of memory in
//! the middle of a gathering does no harm.
//!
//! The crate promises that `accept` queues exactly the task, that `gather` makes a bag hold exactly what lies on its chunks and
//! loses nothing elsewhere, that `gain`, `lose`, `unite`, `hand_over` and `succeed` give a bag just the chunks that it has then, or
//! have it gathered anew, that `take` and `put` hand out and take back exactly what lies in a bag, and that `into_rows` lists all
//! that the store holds. A bag that a worker has keeps its chunks, and `gain` and `lose` note those that come and leave meanwhile;
//! once the bag is back, `next_change` gives them one by one, for the bag to follow. Only `new`, `reserve`, `gather`, `settle`,
//! `gain`, `lose`, `unite`, `hand_over` and `into_rows` take memory; `accept` takes some where there is. It serves the core.
#![tactic(auto)]

mod rows;
mod sorting;
mod store;

pub use fol_bags::Taken;
pub use rows::Rows;
pub use store::Store;

//! The tests of the data of regions: lists with keys, tasks, what lies in chunks, one region's data, a tick, and the store, through the
//! calls of `fol_keyed`, `fol_queues`, `fol_chunks`, `fol_data`, `fol_tick` and `fol_store`.
//!
//! They stand in a crate of their own since the tests of a crate are proved with all of its functions once more.
#![tactic(auto)]

#[cfg(test)]
mod chunks;
#[cfg(test)]
mod keyed;
#[cfg(test)]
mod queues;
#[cfg(test)]
mod region_moves;
#[cfg(test)]
mod stores;
#[cfg(test)]
mod ticks;

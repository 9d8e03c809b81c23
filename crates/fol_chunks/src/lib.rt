//! The blocks and entities of one region.
//!
//! A `Chunks` stands for a flat map of blocks, in which a block without a number has number 0, and a flat list of entities whose ids
//! differ. Contracts say what each call does to these two functions, and nothing of how they are kept.
//!
//! The crate promises that `get`, `set`, `find`, `take_entity` and `put_entity` read and change just what they name, that
//! `step_entities` is the movement at the end of a tick, and that what is moved to another value is exactly what lies in the chunks of
//! a list. Only `reserve` and what lists blocks or entities need memory; `set` takes some where there is. Its blocks are those of
//! `fol_blocks`. It serves the data of a region.
//!
//! Entities that have a speed move only when somebody looks at one: where the recorded chunks are a rectangle, a movement is noted at the cost of
//! a look at each chunk, and all that are noted are made at once, by a division for each axis, when an entity is looked for, comes or leaves.
//! Where they are no rectangle, each entity moves at once; chunks that lie near each other are looked up in bits then.
#![tactic(auto)]

mod area;
mod chunks;
mod counted;
mod entities;
mod entity_list;
mod held;
mod lookup;
mod mask;
mod owed;
mod steps;
mod tally;
mod walkers;

pub use chunks::Chunks;

//! The types of the world, its history and its texts, and the definitions that every contract of the other crates cites.
//!
//! A block world has loaded chunks. Chunks are grouped into square sections, and nearby sections into regions, each of which
//! ticks by itself. This crate has no behaviour of its own but small geometry: `specs/` says, without any of the program's
//! tables, what a state of the world is, what each event does to it, which histories are allowed, which of them are those of a
//! script, how the texts of a world and of a script are spelled, and what is printed at the end.
//! docs/MODEL.md says where each definition stands.
#![tactic(auto)]

mod actions;
mod causes;
mod closings;
mod entities;
mod events;
mod grids;
mod lists;
mod openings;
mod packed;
mod places;
mod regions;
mod scripts;
mod tasks;
mod words;

pub use actions::{Action, Nested};
pub use causes::Cause;
pub use closings::{Closing, EntityRow, OwnerRow, RegionRow, TaskRow};
pub use entities::{Entity, Place};
pub use events::{Accept, Entry, Event, Loaded, Unloaded};
pub use grids::{Grid, section_of};
pub use lists::Sequence;
pub use openings::{BlockAt, Opening};
pub use packed::{EventRef, PackedEntry, TickEdge};
pub use places::{
    BlockPos, ChunkPos, MOST_SECTIONS, SectionPos, beside, chunk_of, corner, distance,
};
pub use regions::State;
pub use scripts::{Command, Script};
pub use tasks::{Outcome, Ran, Task, TickLog, Wish};
pub use words::{Cell, Field, Keyword, Reading, TextKind};

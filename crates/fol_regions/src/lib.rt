//! Which regions there are.
//!
//! A [`Regions`] stands for a state of the grid: how many holds each chunk has, which region owns each section, what each region
//! may do, and which region waits to be merged into which. `add`, `remove`, `begin` and `release` are the steps of that state,
//! `unbegin` takes a `begin` back, and `last` says which regions an `add` or a `release` made, ended, merged and split. `touched` says
//! beforehand which ones an event on a chunk may touch. Every value keeps the rules of regions.
//!
//! An event costs what is near it: the regions within the create and merge radius of a chunk, or the released region and those
//! that join it. Dead regions cost nothing. No event takes memory: `new` takes it for 16,384 sections, and `reserve` for events.
//!
//! `fol_region_tables`, on which it stands, keeps who owns, may do and waits for what, and makes each single step. The tests are in
//! `fol_region_tests`.
#![tactic(auto)]

mod add;
mod answers;
mod change;
mod chunks;
mod counts;
mod dead_bounds;
mod near;
mod nearby;
mod regions;
mod release;
mod touched;

pub use answers::{AddAnswer, Begun};
pub use change::{Change, MergePair};
pub use fol_sections::Removed;
pub use regions::Regions;

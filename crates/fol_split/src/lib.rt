//! How a set of sections falls into parts.
//!
//! Two sections are in one part exactly where a list of the given sections leads from one to the other, each within the merge
//! radius of the next. A [`Splitter`] holds the parts that its last call of `parts` found: each of them in order, and the parts
//! in order of their least sections. It takes its memory once, when it is made.
//!
//! The search goes by runs, the longest stretches of sections that stand side by side in one row: the sections of a run are in one
//! part, and those of two runs are where the runs' rows and ends are near. So it costs one look at each section where they are in
//! order already, two copies of them, and for each run a look at all runs where they are few, else for each row within the merge
//! radius a search by halves in the list of the runs.
//!
//! The region table uses it where a region is cleaned: what is left of the region stays one region or becomes several.
#![tactic(auto)]

mod pool;
mod runs;
mod spans;
mod splitter;

pub use splitter::Splitter;

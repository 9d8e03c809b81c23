//! Which chunks are held, and which sections are present.
//!
//! A [`Sections`] stands for a grid and two functions: how many holds each chunk has, and which sections are present. A hold
//! more of a chunk makes the sections within the create radius of the chunk's own present, unless more than 16,384 would be
//! present; a removed hold changes no section; and `drop_dead` takes out those sections of a list that are not within the create
//! radius of any section with a held chunk. A call costs at most the area of the create radius, whatever else is in the table.
//!
//! The present sections stand in pages of 32 side by side in a row. A page whose sections have all left stays, since they mostly come back; the empty
//! pages are thrown out together where `reserve` finds too little room. A section has its number of loaded chunks and the number of sections
//! near it that hold one; the latter is kept at a section's first and last loaded chunk, so that whether a section is dead is one look.
//!
//! The region table stands above it: it says which region owns each present section.
#![tactic(auto)]

mod answers;
mod chunks;
mod drops;
mod listings;
mod missing;
mod packed;
mod pages;
mod places;
mod runs;
mod sections;
mod squares;
mod stretches;
mod turns;
mod walks;

pub use answers::{Added, Removed};
pub use places::Numbers;
pub use sections::{Sections, count_hold, drop_hold};

//! The picture of a report, and the program that draws it as one call.
//!
//! A picture is an SVG text of a closing: one mark for each section with an owner, each loaded chunk, each queued task and each entity
//! that stands at a block, in their places, with the numbers of the columns and rows of sections and a legend. `picture` gives exactly
//! that text, or is out of memory. `run` draws the report in one file over the world in another: what it writes is the picture of a
//! closing over the opening of that world whose report this is, byte for byte, or its ending says why nothing whole was written.
//!
//! From the bottom up: `holds` finds the chunks that are loaded, `layouts` the columns and rows of sections that are drawn, and `places`
//! a point of the page; `marks`, `axes` and `legends` put the elements, `pictures` the whole text, and `endings` tells how a run ended,
//! which `program` has. `fol_report_reader` reads the report. The crate serves the program `fol_map_main`.
#![tactic(auto)]

mod axes;
mod endings;
mod holds;
mod layouts;
mod legends;
mod marks;
mod pictures;
mod places;
mod program;

pub use endings::Ending;
pub use pictures::picture;
pub use program::run;

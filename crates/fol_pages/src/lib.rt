//! Pages of 32 sections side by side in a row: in which page a section lies, where in it, and which sections of a row or a list lie in one.
//!
//! A table that keeps something of each section keeps it by page, so that one look-up finds it for all sections of a page. The
//! tables of sections and of the regions' owners do so; what both need to know of pages stands here, and the table of pages that both keep.
#![tactic(auto)]

mod places;
mod runs;
mod table;

pub use places::{NEAR_PAGES, page_of, place_of};
pub use runs::{run_len, stretch_len};
pub use table::PageTable;

//! The reader of a report, from its head to its last line.
//!
//! `fol_model` says which bytes are the report of a closing. `read_report` gives a closing whose report some bytes are, over the opening
//! that it is given, or the first line that is not as it must be: the head, the count of a part, a row whose numbers are within their
//! types and whose places are within the limits, or the last line. Whether the history is a legal one, and whether the rows are those of
//! the world after it, is not asked. A report tells neither its opening, nor the seats of its entries, nor the speeds of entities on
//! their way: such seats and speeds are 0.
//!
//! From the bottom up: `parts` reads a part of a report, which is a count and so many rows of one kind; `rows` reads the row of a line,
//! of each kind, by the words of `fol_events`; and `reading` puts the parts together. The crate serves the picture of a report.
#![tactic(auto)]

mod parts;
mod reading;
mod rows;

pub use parts::Fault;
pub use reading::read_report;

//! The reader of the event lines of a report.
//!
//! `fol_model` says which words each event has in a report. `read_events` gives the history that the bytes of a report tell, or the first
//! line of its head and its event lines that is not as it must be: it is no line of any event whose numbers are within their types,
//! whose places are within the limits, and whose posts may be asked for. The rest of a report is not read.
//!
//! From the bottom up: `words` cuts a line into words and reads numbers and places, `answers` and `actions` read what an event holds,
//! `heads` the first word of a line, `events` and `ends` a whole event, `lines` one line of a report, and `reading` all of them.
//! Laws say that a line tells one event, a report one history, and one with a fault none. The crate serves the checker of reports.
#![tactic(auto)]

ghost use Rattle.fol_events.specs.Laws.{OneEvent, OneHistory, NoFault, FewEvents};

mod actions;
mod answers;
mod ends;
mod events;
mod faults;
mod heads;
mod lines;
mod numbers;
mod reading;
mod words;

pub use actions::action;
pub use events::read_event;
pub use faults::Fault;
pub use lines::{behind_head, cut_line};
pub use reading::{EventLines, read_events};
pub use words::{Words, is_word};

/// Two events in range with the same words are the same.
pub fn one_event()
    ensures { OneEvent }
{}

/// Bytes begin with the event lines of one history at most, whatever follows them.
pub fn one_history()
    ensures { OneHistory }
{}

/// Bytes with a fault do not begin with the event lines of any history in range.
pub fn no_fault()
    ensures { NoFault }
{}

/// Bytes of at most 16,777,216 begin with the event lines of a history of at most so many events.
pub fn few_events()
    ensures { FewEvents }
{}

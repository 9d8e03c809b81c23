//! The output of a run: the report of a closing, as text and as JSON, and the summary of a made game.
//!
//! A report is made of lines, a line of words. What the words of each event and row are is said in `fol_model`, and so are the
//! three whole texts; each function here gives exactly that text, or is out of memory. `lines` has what all lines share,
//! `events`, `ends`, `actions`, `answers` and `rows` spell one line each, `history` gathers those of its events in a `page`, whose
//! words `row`, whose numbers `digits` and whose seats `stretch` writes, and keeps the `rest` of one that is long. `text` and `json_form` put the
//! lines together, `shares` lets several threads make those of a long history, `whole` makes them while they are written, and `counts` makes the summary.
//!
//! A text, or each share of it, is built in one buffer that the lines are pushed into, so its cost is linear in its length; an [`Unwritten`] report has no
//! such buffer but for its foot. This crate serves the top call, which writes what it gives.
#![tactic(auto)]

mod actions;
mod answers;
mod counts;
mod digits;
mod ends;
mod events;
mod history;
mod json_form;
mod lines;
mod page;
mod rest;
mod row;
mod rows;
mod shares;
mod stretch;
mod tail;
mod text;
mod whole;
mod words;

pub use counts::summary;
pub use json_form::report_json;
pub use shares::{report_in_shares, takes_shares};
pub use text::{foot, report};
pub use whole::Unwritten;

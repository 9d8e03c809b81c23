//! Whether a report is that of a legal history.
//!
//! `check` reads the events of a report, replays them and compares. `fol_events` says what the bytes tell. The events are then replayed
//! on a core, each by the call that would record it, and what the core recorded is compared with what the report says: `replay` has one
//! event, `phases` and `commands` what caller 0 does, `ticks` and `asks` what the workers do, and `whole` a list of events. Last,
//! `verdicts` compares the bytes with the report of the history that was replayed.
//!
//! An event costs what its call on a core costs. The crate serves the command that checks a report.
#![tactic(auto)]

ghost use Rattle.fol_check.specs.Laws.{LegalReports, OneVerdict};

mod asks;
mod commands;
mod phases;
mod replay;
mod same;
mod ticks;
mod verdicts;
mod whole;

pub use verdicts::{Verdict, check};

/// One verdict at most fits a report.
pub fn one_verdict()
    ensures { OneVerdict }
{}

/// A report of a legal history is found legal, whoever recorded its entries, and nothing else is: on a grid within its limits, with a
/// script whose entity numbers have 32 bits, and up to 16,777,216 bytes.
pub fn legal_reports()
    ensures { LegalReports }
{}

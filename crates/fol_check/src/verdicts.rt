//! The check of a report.

ghost use Rattle.std.specs.Prelude.{◌≡◌, ◌≤◌, IfOk, length, nat_eq};
ghost use Rattle.std.specs.List.{common_prefix_len};
ghost use Rattle.fol_events.specs.Told.{IsTold};
ghost use Rattle.fol_check.specs.Verdicts.{Compares, Judges, differing_line};

use crate::whole::{Replayed, replay_events};
use fol_events::{EventLines, read_events};
use fol_model::{Closing, Opening, PackedEntry, Script, Sequence};
use fol_report::report;
use std::alloc::{AllocError, Global};

/// What a check of a report came to.
#[derive(Clone, Copy, Debug, PartialEq, Eq)]
pub enum Verdict {
    /// It is the report of a legal history of the script.
    Legal,
    /// This line, counted from 1, is the first that is not as the head and the event lines of a report must be.
    Text(u64),
    /// The events before the one with this number, counted from 1, are the beginning of a history of the script, and with it they are
    /// not. The number is one more than there are events where they are such a beginning and the last is not Finish.
    Event(u64),
    /// The events are a legal history of the script. Its report is another, and this line, counted from 1, is the first that differs.
    State(u64),
}

/// Whether a report is that of a legal history of the script, which up to 64 workers ran on the world of the opening.
///
/// The verdict is the only one that fits the bytes, by the law `one_verdict`. The only error is out of memory. Time and memory are linear
/// in the length of the report and in what its events change.
pub fn check(
    alloc: Global,
    opening: Opening,
    script: Script,
    bytes: &[u8],
) -> Result<Verdict, AllocError>
    requires { length bytes.now ≤ 16777216 }
    ensures { IfOk result (λ v. Judges opening script bytes.now v) }
{
    match read_events(alloc, bytes)? {
        EventLines::Events(history) => check_history(alloc, opening, script, history, bytes),
        EventLines::Text(line) => Ok(Verdict::Text(line)),
    }
}

/// The verdict on bytes that tell a history.
fn check_history(
    alloc: Global,
    opening: Opening,
    script: Script,
    history: Sequence<PackedEntry>,
    bytes: &[u8],
) -> Result<Verdict, AllocError>
    requires told { IsTold bytes.now history }
    ensures { IfOk result (λ v. Judges opening script bytes.now v) }
{
    match replay_events(alloc, opening, script, history)? {
        Replayed::Whole(closing) => compare(alloc, &closing, bytes),
        Replayed::Stops(place) => Ok(Verdict::Event(place)),
    }
}

/// The verdict on bytes that tell the history of a closing, which is legal.
fn compare(alloc: Global, closing: &Closing, bytes: &[u8]) -> Result<Verdict, AllocError>
    ensures { IfOk result (λ v. Compares closing.now bytes.now v) }
{
    let text = report(alloc, closing)?;
    if bytes == text.as_slice() {
        return Ok(Verdict::Legal);
    }
    Ok(Verdict::State(differing_line(bytes, text.as_slice())))
}

/// The line in which two texts differ first.
fn differing_line(a: &[u8], b: &[u8]) -> u64
    ensures { result ≡ differing_line a.now b.now }
{
    let common = &a[..common_length(a, b)];
    1 + common.iter().filter(|byte| **byte == b'\n').count() as u64
}

/// How many bytes two texts begin with in common.
fn common_length(a: &[u8], b: &[u8]) -> usize
    ensures length { result ≡ common_prefix_len nat_eq a.now b.now }
    ensures within { result ≤ length a.now }
{
    let mut place = 0;
    'bytes: while place < a.len() && place < b.len() && a[place] == b[place] {
        place += 1;
    }
    place
}

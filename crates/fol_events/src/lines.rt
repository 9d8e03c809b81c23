//! One line of a report, with its end.

ghost use Rattle.std.specs.Prelude.{◌≡◌, ◌==◌, not, ℕ, ◌≤◌, List, [], ◌∷◌, ◌++◌, true, codes, decimal, IfOk, OnErr, Err};
ghost use Rattle.std.specs.List.{position};
ghost use Rattle.fol_model.specs.TextLines.{line_of};
ghost use Rattle.fol_model.specs.LineWords.{line};
ghost use Rattle.fol_model.specs.ReportWords.{event_words};
ghost use Rattle.fol_events.specs.declared.faults.Fault.TheVariants.{Unspelled};
ghost use Rattle.fol_events.specs.InRange.{InRange};
ghost use Rattle.fol_events.specs.Cuts.{has_no_feed};
ghost use Rattle.fol_events.specs.Told as told;

use crate::events::read_event;
use crate::faults::Fault;
use crate::words::{Words, is_word};
use fol_model::Event;
use std::alloc::Global;

/// The most event lines of a report.
const MOST_EVENTS: u64 = 16_777_216;

/// Where the first line ends.
fn line_end(bytes: &[u8]) -> Option<usize>
    ensures { result ≡ position (λ b. b == 10) bytes.now }
{
    bytes.iter().position(|b| *b == b'\n')
}

/// The first line without its end, and the bytes behind its end.
pub fn cut_line(bytes: &[u8]) -> Result<(&[u8], &[u8]), Fault>
    ensures found { IfOk result (λ r. (has_no_feed r.0.now ≡ true)
        × (bytes.now ≡ r.0.now ++ 10 ∷ r.1.now)) }
    ensures none { OnErr result (has_no_feed bytes.now ≡ true) }
{
    match line_end(bytes) {
        None => Err(Fault::Unspelled),
        Some(n) => { Ok((&bytes[..n], &bytes[n + 1..])) }
    }
}

/// What follows the head of a report.
pub fn behind_head(bytes: &[u8]) -> Result<&[u8], Fault>
    ensures found { IfOk result (λ r. bytes.now ≡ codes "report 1\n" ++ r.now) }
    ensures none { OnErr result (told.NoHead bytes.now) }
{
    let (line, rest) = cut_line(bytes)?;
    if is_word(line, b"report 1") {
        Ok(rest)
    } else {
        Err(Fault::Unspelled)
    }
}

/// The number of event lines that a line tells.
fn read_count(line: &[u8]) -> Result<u64, Fault>
    ensures found { IfOk result (λ n. (n ≤ 16777216)
        × (line.now ≡ line_of (codes "events" ∷ decimal n ∷ []))) }
    ensures none { OnErr result ((n : ℕ) → n ≤ 16777216
        → line.now ≡ line_of (codes "events" ∷ decimal n ∷ []) → ⊥) }
{
    let mut words = Words::of(line);
    words.pass(b"events")?;
    let count = words.natural(MOST_EVENTS)?;
    words.end()?;
    Ok(count)
}

/// The number of event lines, and what follows the line that tells it.
pub fn count_line(bytes: &[u8]) -> Result<(u64, &[u8]), Fault>
    ensures found { IfOk result (λ r. (r.0 ≤ 16777216)
        × (bytes.now ≡ told.count_line r.0 ++ r.1.now)) }
    ensures none { OnErr result (told.NoCount bytes.now) }
{
    let (line, rest) = cut_line(bytes)?;
    let count = read_count(line)?;
    Ok((count, rest))
}

/// The event of the first line, and what follows that line.
pub fn event_line(alloc: Global, bytes: &[u8]) -> Result<(Event, &[u8]), Fault>
    ensures found { IfOk result (λ r. InRange r.0
        × (bytes.now ≡ line (event_words r.0) ++ r.1.now)) }
    ensures none { result ≡ Err Unspelled → told.NoEvent bytes.now }
{
    let (line, rest) = cut_line(bytes)?;
    let event = read_event(alloc, line)?;
    Ok((event, rest))
}

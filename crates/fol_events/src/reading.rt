//! The event lines of a report.

ghost use Rattle.std.specs.Prelude.{◌≡◌, ◌≤◌, List, [], ◌∷◌, ◌++◌, IfOk, codes};
ghost use Rattle.fol_events.specs.Told.{Tells, Continues, count_line};

use crate::faults::Fault;
use crate::lines::{behind_head, count_line, event_line};
use fol_model::{Entry, PackedEntry, Sequence};
use std::alloc::{AllocError, Global};

/// What the event lines of a report tell.
#[derive(Drop)]
pub enum EventLines {
    /// The history of these entries, each with the number 0 of a seat, since a report does not tell it.
    Events(Sequence<PackedEntry>),
    /// This line, counted from 1, is the first that is not as it must be.
    Text(u64),
}

/// The events of so many lines.
fn read_lines(alloc: Global, count: u64, text: &[u8]) -> Result<EventLines, AllocError>
    requires { count ≤ 16777216 }
    ensures { IfOk result (λ r. Continues count text.now r) }
{
    let mut entries = Vec::new(alloc);
    let mut rest = text;
    for told in 0..count {
        match event_line(alloc, rest) {
            Ok((event, after)) => {
                let entry = PackedEntry::new(alloc, Entry { by: 0, event })?;
                entries.push(entry)?;
                rest = after;
            }
            Err(Fault::Unspelled) => return Ok(EventLines::Text(told + 3)),
            Err(Fault::NoMemory(error)) => return Err(error),
        }
    }
    Ok(EventLines::Events(Sequence::of(entries)))
}

/// The history that the event lines of a report tell, or its first line that is not as it must be.
///
/// Line 1 must be `report 1`, line 2 `events N` with N at most 16,777,216, and the next N lines each the line of an event whose numbers
/// are within their types, whose places are within the limits, and which posts only what may be asked for. A line that is missing or
/// does not end is not as it must be. What follows these lines is not read. Any bytes are taken; the only error is out of memory. Time
/// and memory are linear in the length of the bytes, whatever they tell.
pub fn read_events(alloc: Global, bytes: &[u8]) -> Result<EventLines, AllocError>
    ensures { IfOk result (λ r. Tells bytes.now r) }
{
    let Ok(behind) = behind_head(bytes) else {
        return Ok(EventLines::Text(1));
    };
    let Ok((count, text)) = count_line(behind) else {
        return Ok(EventLines::Text(2));
    };
    read_lines(alloc, count, text)
}

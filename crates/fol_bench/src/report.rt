//! The report of a million ticks in which nothing ran, as text and as JSON: two million lines, about 57 million bytes.

use crate::rate::per_second;
use fol_model::{Closing, Entry, Event, Grid, Opening, PackedEntry, Sequence};
use fol_report::{report, report_json};
use std::alloc::{AllocError, Global};
use std::io;
use std::rt::Clock;
use std::time::Instant;

/// So many ticks are reported.
const TICKS: u64 = 1_000_000;

/// Prints how many bytes a second each form of a report is made at.
pub fn run<R: Clock + Print>(rt: &R, alloc: Global) -> io::Result<()> {
    let closing = quiet_ticks(alloc, TICKS)?;
    let timed = time_reports(rt, alloc, &closing);
    drop(closing);
    timed
}

/// Prints how many bytes a second each form of the report of this closing is made at.
fn time_reports<R: Clock + Print>(rt: &R, alloc: Global, closing: &Closing) -> io::Result<()> {
    let start = Instant::now(rt)?;
    let text = report(alloc, closing)?.len() as u64;
    let rate = per_second(text, start.elapsed(rt)?);
    println!(rt; "report, text: {text} bytes, {rate} a second")?;
    let start = Instant::now(rt)?;
    let form = report_json(alloc, closing)?.len() as u64;
    let rate = per_second(form, start.elapsed(rt)?);
    println!(rt; "report, JSON: {form} bytes, {rate} a second")
}

/// A world with no block and no entity.
pub fn bare_opening(alloc: Global) -> Opening {
    let grid = Grid {
        shift: 0,
        create: 1,
        merge: 1,
        min: 2,
        num: 1,
        den: 6,
    };
    Opening {
        version: 1,
        grid,
        blocks: Sequence::new(alloc),
        entities: Sequence::new(alloc),
    }
}

/// A closing of so many ticks in which nothing ran, with nothing standing at its end.
fn quiet_ticks(alloc: Global, ticks: u64) -> Result<Closing, AllocError> {
    let mut history = Sequence::new(alloc);
    for tick in 0..ticks {
        push_tick(alloc, &mut history, tick)?;
    }
    Ok(Closing {
        opening: bare_opening(alloc),
        history,
        regions: Sequence::new(alloc),
        owners: Sequence::new(alloc),
        tasks: Sequence::new(alloc),
        entities: Sequence::new(alloc),
        blocks: Sequence::new(alloc),
    })
}

/// Puts the begin and the end of a tick behind a history.
fn push_tick(
    alloc: Global,
    history: &mut Sequence<PackedEntry>,
    tick: u64,
) -> Result<(), AllocError> {
    let begin = Event::Begin {
        worker: 1,
        region: tick,
    };
    history.push(entry(alloc, begin)?)?;
    let end = Event::End {
        worker: 1,
        region: tick,
        tick,
        ran: Sequence::new(alloc),
        accepts: Sequence::new(alloc),
    };
    history.push(entry(alloc, end)?)
}

/// The first worker recorded the event.
fn entry(alloc: Global, event: Event) -> Result<PackedEntry, AllocError> {
    PackedEntry::new(alloc, Entry { by: 1, event })
}

//! What came of it all, as far as it is the same at each run.

use crate::ending::Played;
use fol_follow::BookEvent;
use fol_model::{Closing, EventRef, Place};
use fol_view::SeenOwner;
use std::io;

/// Prints what came of it all.
pub fn print<R: Print>(rt: &R, played: &Played) -> io::Result<()> {
    print_world(rt, &played.closing)?;
    println!(rt;
        "letters sent {}, posted {}",
        played.sent,
        played.receipts.len()
    )?;
    print_visits(rt, played)?;
    println!(rt;
        "looks {}, none at an older map: {}",
        played.watched.looks, played.watched.went_on
    )?;
    print_owner(rt, "first", &played.owners[0])?;
    print_owner(rt, "second", &played.owners[1])?;
    print_owner(rt, "third", &played.owners[2])
}

/// The regions, the courier's place, and how much was built.
fn print_world<R: Print>(rt: &R, closing: &Closing) -> io::Result<()> {
    println!(rt;
        "ticks {}, tasks left {}",
        count_ticks(closing),
        closing.tasks.as_slice().len()
    )?;
    print_regions(rt, closing)?;
    print_courier(rt, closing)?;
    println!(rt; "blocks {}", closing.blocks.as_slice().len())
}

/// What each region came to.
fn print_regions<R: Print>(rt: &R, closing: &Closing) -> io::Result<()> {
    for region in closing.regions.as_slice() {
        println!(rt;
            "region {}: ticks {}, sections {}, loaded chunks {}",
            region.id, region.tick, region.sections, region.chunks
        )?;
    }
    Ok(())
}

/// Where the courier is.
fn print_courier<R: Print>(rt: &R, closing: &Closing) -> io::Result<()> {
    for entity in closing.entities.as_slice() {
        match entity.place {
            Place::At(at) => println!(rt; "courier at {} {} {}", at.x, at.y, at.z)?,
            Place::Transit(_) => println!(rt; "courier on the way")?,
        }
    }
    Ok(())
}

/// How many ticks there were. Which region ticked when, and by which worker, differs from run to run.
fn count_ticks(closing: &Closing) -> usize {
    let mut ticks = 0usize;
    for entry in closing.history.as_slice() {
        if let EventRef::End { .. } = entry.event() {
            ticks = ticks.saturating_add(1);
        }
    }
    ticks
}

/// The visits, in the order of the asks.
fn print_visits<R: Print>(rt: &R, played: &Played) -> io::Result<()> {
    for entry in played.visits.history.as_slice() {
        if let BookEvent::Visit { visits, .. } = &entry.event {
            for visit in visits.as_slice() {
                println!(rt;
                    "ask {}: the courier at {} {} {}",
                    visit.number, visit.at.x, visit.at.y, visit.at.z
                )?;
            }
        }
    }
    println!(rt; "asks left {}", played.visits.left.as_slice().len())
}

/// Who owns a town, by the last map.
fn print_owner<R: Print>(rt: &R, town: &str, seen: &SeenOwner) -> io::Result<()> {
    match seen.owner {
        Some(region) => println!(rt; "the {town} town is of region {region}"),
        None => println!(rt; "the {town} town is of no region"),
    }
}

//! Events of a small region in a table that is else empty, or has 900 or 16,000 sections far away.

ghost use Rattle.std.specs.Prelude.{◌≤◌};

use crate::rate::per_second;
use fol_model::{ChunkPos, Grid, SectionPos, State};
use fol_regions::Regions;
use std::alloc::{AllocError, Global};
use std::io;
use std::rt::Clock;
use std::time::Instant;

/// How often each kind of event is timed.
const EVENTS: u32 = 100_000;

/// How many sections a region of one chunk has, where the create radius is 1.
const SECTIONS: u32 = 9;

/// How far apart the regions are that are there besides.
const STEP: u32 = 4;

/// Where the small region lies.
const FAR: i32 = 900_000;

/// So many chunks the loaded chunk of the small region moves on.
const STEPS: i32 = 50_000;

/// More holds of a chunk, and more ids of regions, than this benchmark can make.
const MANY: u64 = 1_000_000_000_000;

/// Prints how many events a second a table of regions takes, by how many sections it has elsewhere.
pub fn run<R: Clock + Print>(rt: &R, alloc: Global) -> io::Result<()> {
    measure(rt, alloc, 0)?;
    measure(rt, alloc, 99)?;
    measure(rt, alloc, 1_777)
}

/// Times the events in a table with so many other regions.
fn measure<R: Clock + Print>(rt: &R, alloc: Global, others: u32) -> io::Result<()>
    requires { others ≤ 10000 }
{
    let Some(grid) = Grid::of(0, 1, 1, 2, 1, 6) else {
        return Ok(());
    };
    let mut regions = Regions::new(alloc, grid)?;
    let timed = time_events(rt, &mut regions, others);
    drop(regions);
    timed
}

/// Times the events of a small region that is added to a table with so many others.
fn time_events<R: Clock + Print>(rt: &R, regions: &mut Regions, others: u32) -> io::Result<()>
    requires { others ≤ 10000 }
{
    fill(regions, others)?;
    let sections = (others + 1) * SECTIONS;
    let home = ChunkPos { x: FAR, z: 0 };
    load(regions, home)?;
    let holds = time_holds(rt, regions, home)?;
    show(rt, sections, "loads and unloads", holds)?;
    let ticks = time_ticks(rt, regions, home)?;
    show(rt, sections, "releases", ticks)?;
    let steps = time_walk(rt, regions)?;
    show(rt, sections, "steps of a loaded chunk", steps)
}

fn show<R: Print>(rt: &R, sections: u32, what: &str, rate: u128) -> io::Result<()> {
    println!(rt; "regions, sections {sections}: {rate} {what} a second")
}

/// Makes so many regions of one chunk each.
fn fill(regions: &mut Regions, others: u32) -> Result<(), AllocError>
    requires { others ≤ 10000 }
{
    for number in 0..others {
        load(regions, chunk_at(number * STEP))?;
    }
    Ok(())
}

/// How many loads and unloads of a loaded chunk a second.
fn time_holds<R: Clock>(rt: &R, regions: &mut Regions, home: ChunkPos) -> io::Result<u128> {
    let start = Instant::now(rt)?;
    hold_often(regions, home)?;
    Ok(per_second(u64::from(EVENTS) * 2, start.elapsed(rt)?))
}

/// How many ticks a second of a region whose sections stay.
fn time_ticks<R: Clock>(rt: &R, regions: &mut Regions, home: ChunkPos) -> io::Result<u128> {
    let start = Instant::now(rt)?;
    tick_often(regions, home)?;
    Ok(per_second(u64::from(EVENTS), start.elapsed(rt)?))
}

/// How many steps of a loaded chunk a second.
fn time_walk<R: Clock>(rt: &R, regions: &mut Regions) -> io::Result<u128> {
    let start = Instant::now(rt)?;
    walk(regions)?;
    Ok(per_second(u64::from(STEPS.unsigned_abs()), start.elapsed(rt)?))
}

/// The chunk of a region that is there besides.
fn chunk_at(x: u32) -> ChunkPos {
    ChunkPos {
        x: (x % 800_000) as i32,
        z: 0,
    }
}

/// Loads a chunk more often, and unloads it as often.
fn hold_often(regions: &mut Regions, c: ChunkPos) -> Result<(), AllocError> {
    for _ in 0..EVENTS {
        load(regions, c)?;
        let _removed = regions.remove(c);
    }
    Ok(())
}

/// Ticks the region of a chunk, whose sections stay.
fn tick_often(regions: &mut Regions, c: ChunkPos) -> Result<(), AllocError> {
    for _ in 0..EVENTS {
        tick(regions, c)?;
    }
    Ok(())
}

/// Moves the loaded chunk of the small region on by one: the next chunk is loaded, the last one unloaded, and a release takes the dead
/// sections away.
fn walk(regions: &mut Regions) -> Result<(), AllocError> {
    for x in FAR..FAR + STEPS {
        load(regions, ChunkPos { x: x + 1, z: 0 })?;
        let _removed = regions.remove(ChunkPos { x, z: 0 });
        tick(regions, ChunkPos { x: x + 1, z: 0 })?;
    }
    Ok(())
}

/// Loads a chunk.
fn load(regions: &mut Regions, c: ChunkPos) -> Result<(), AllocError> {
    regions.reserve(1)?;
    if c.in_range() && regions.holds(c) < MANY && regions.state(MANY).is_none() {
        let _answer = regions.add(c);
    }
    Ok(())
}

/// Begins and releases the tick of the region that owns the section of a chunk, where it is Ready. The shift of the grid is 0.
fn tick(regions: &mut Regions, c: ChunkPos) -> Result<(), AllocError> {
    regions.reserve(1)?;
    let Some(id) = regions.owner(SectionPos { x: c.x, z: c.z }) else {
        return Ok(());
    };
    if let Some(State::Ready) = regions.state(id) {
        let _begun = regions.begin(id);
    }
    if regions.state(MANY).is_some() {
        return Ok(());
    }
    if let Some(State::Ticking) = regions.state(id) {
        regions.release(id);
    }
    Ok(())
}

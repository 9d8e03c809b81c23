//! What no clause says: that memory is found, and that small worlds come out as worked out by hand.
//!
//! A table ends with a call of `drop`, so that what it gives back is proved once, and not again in each test.

use fol_model::{ChunkPos, Grid, State};
use fol_regions::{MergePair, Regions};
use std::alloc::Global;
use std::fmt::Debug;
use std::process::Abort;

/// What was found of a region is what was wanted.
fn same<T: Debug + PartialEq>(rt: &impl Abort, id: u64, found: &T, wanted: &T) {
    assert_eq!(rt; *found, *wanted, "the region {id}");
}

/// Two lists of ids are the same.
fn same_ids(rt: &impl Abort, found: &[u64], wanted: &[u64], what: &str) {
    assert_eq!(rt; *found, *wanted, "{what}");
}

/// No region, on a grid of sections of one chunk with the create radius 1, where a region is cleaned from one dead section in 6 on.
fn table(rt: &impl Abort, alloc: Global) -> Regions {
    let grid = Grid::of(0, 1, 1, 2, 1, 6).expect(rt, "the grid is within the limits");
    Regions::new(alloc, grid).expect(rt, "memory")
}

/// Adds a hold on a chunk with z 0.
fn load(rt: &impl Abort, regions: &mut Regions, x: i32) {
    let c = ChunkPos { x, z: 0 };
    regions.reserve(1).expect(rt, "memory");
    assert!(rt; regions.spare() >= 1 && c.in_range() && regions.holds(c) < 1_000_000);
    assert!(rt; regions.next_id() < 1_000_000);
    regions.add(c);
}

/// Begins a tick.
fn begin(rt: &impl Abort, regions: &mut Regions, id: u64) {
    assert!(rt; 0 < id && id < regions.next_id());
    regions.begin(id);
}

/// Ends a tick.
fn release(rt: &impl Abort, regions: &mut Regions, id: u64) {
    regions.reserve(1).expect(rt, "memory");
    assert!(rt; regions.spare() >= 1 && regions.next_id() < 1_000_000);
    match regions.state(id) {
        Some(State::Ticking) => regions.release(id),
        _ => panic!(rt; "region {id} does not tick"),
    }
}

/// A region has this state, so many sections, and waits for these.
fn region_is(
    rt: &impl Abort,
    regions: &Regions,
    id: u64,
    state: State,
    sections: usize,
    waits_for: &[u64],
) {
    assert!(rt; 0 < id && id < regions.next_id());
    same(rt, id, &regions.state(id), &Some(state));
    same(rt, id, &regions.sections(id).len(), &sections);
    same_ids(rt, regions.waits_for(id), waits_for, "waits for");
}

/// These are the regions that are not Dead.
fn live_are(rt: &impl Abort, alloc: Global, regions: &Regions, ids: &[u64]) {
    let live = regions.live(alloc).expect(rt, "memory");
    same_ids(rt, live.as_slice(), ids, "live");
}

/// The last event made these regions, and ended these.
fn last_is(rt: &impl Abort, regions: &Regions, created: &[u64], dead: &[u64]) {
    same_ids(rt, regions.last().created(), created, "created");
    same_ids(rt, regions.last().dead(), dead, "dead");
}

/// The loaded chunks of a region are these.
fn chunks_are(rt: &impl Abort, alloc: Global, regions: &Regions, id: u64, chunks: &[ChunkPos]) {
    assert!(rt; 0 < id && id < regions.next_id());
    let room = regions.chunk_count(id) as usize;
    let mut listed = Vec::with_capacity(alloc, room).expect(rt, "memory");
    regions.list_chunks(id, &mut listed);
    assert_eq!(rt; *listed.as_slice(), *chunks);
}

/// Loads two chunks that are far apart, and the one between them.
fn load_three(rt: &impl Abort, regions: &mut Regions) {
    load(rt, regions, 0);
    load(rt, regions, 6);
    load(rt, regions, 3);
}

/// The last of three chunks joined the regions of the others.
fn both_are_joined(rt: &impl Abort, regions: &Regions) {
    last_is(rt, regions, &[], &[2]);
    let merges = [MergePair { from: 2, into: 1 }];
    assert_eq!(rt; regions.last().merges(), merges.as_slice());
    region_is(rt, regions, 1, State::Ready, 27, &[]);
}

#[test]
fn a_region_between_two_joins_both(rt: HostRuntime) {
    let mut regions = table(&rt, rt.alloc());
    load_three(&rt, &mut regions);
    both_are_joined(&rt, &regions);
    let chunks = [
        ChunkPos { x: 0, z: 0 },
        ChunkPos { x: 3, z: 0 },
        ChunkPos { x: 6, z: 0 },
    ];
    chunks_are(&rt, rt.alloc(), &regions, 1, &chunks);
    drop(regions);
}

/// Makes a region that waits for two Ticking ones on both its sides.
fn wait_for_two(rt: &impl Abort, regions: &mut Regions) {
    load(rt, regions, 0);
    load(rt, regions, 6);
    begin(rt, regions, 1);
    begin(rt, regions, 2);
    load(rt, regions, 3);
}

/// Ends the ticks of both regions for which the third one waits.
fn end_both(rt: &impl Abort, regions: &mut Regions) {
    release(rt, regions, 2);
    region_is(rt, regions, 2, State::Transient, 18, &[1]);
    release(rt, regions, 1);
    region_is(rt, regions, 1, State::Ready, 27, &[]);
}

/// A copy says what the table says, and both ticks end in it.
fn copy_goes_on(rt: &impl Abort, alloc: Global, regions: &Regions) {
    let mut copy = regions.copy(alloc).expect(rt, "memory");
    last_is(rt, &copy, &[3], &[]);
    end_both(rt, &mut copy);
    live_are(rt, alloc, &copy, &[1]);
    drop(copy);
}

#[test]
fn a_copy_goes_on_by_itself(rt: HostRuntime) {
    let mut regions = table(&rt, rt.alloc());
    wait_for_two(&rt, &mut regions);
    copy_goes_on(&rt, rt.alloc(), &regions);
    region_is(&rt, &regions, 3, State::Transient, 9, &[1, 2]);
    drop(regions);
}

/// Makes a region that falls apart at the end of its tick, since its middle chunk was unloaded.
fn part_in_two(rt: &impl Abort, regions: &mut Regions) {
    load(rt, regions, 0);
    load(rt, regions, 3);
    load(rt, regions, 6);
    regions.remove(ChunkPos { x: 3, z: 0 });
    begin(rt, regions, 1);
    release(rt, regions, 1);
}

/// The first region fell into two parts of one size.
fn parts_are_alike(rt: &impl Abort, regions: &Regions) {
    last_is(rt, regions, &[2, 3], &[1]);
    same_ids(rt, regions.last().parts(), &[2, 3], "parts");
    region_is(rt, regions, 2, State::Ready, 9, &[]);
    region_is(rt, regions, 3, State::Ready, 9, &[]);
}

#[test]
fn a_region_falls_apart(rt: HostRuntime) {
    let mut regions = table(&rt, rt.alloc());
    part_in_two(&rt, &mut regions);
    parts_are_alike(&rt, &regions);
    drop(regions);
}

/// The regions that an event on a chunk with z 0 may touch are these.
fn touched_are(rt: &impl Abort, alloc: Global, regions: &mut Regions, x: i32, ids: &[u64]) {
    let c = ChunkPos { x, z: 0 };
    assert!(rt; c.in_range());
    let touched = regions.touched(alloc, c).expect(rt, "memory");
    assert_eq!(rt; *touched.as_slice(), *ids, "touched at {x}");
}

/// A chunk between two regions touches both, one at the edge of a region that region, a loaded one its own, and one far off none.
fn near_ones_are_touched(rt: &impl Abort, alloc: Global, regions: &mut Regions) {
    touched_are(rt, alloc, regions, 3, &[1, 2]);
    touched_are(rt, alloc, regions, 1, &[1]);
    touched_are(rt, alloc, regions, 4, &[2]);
    touched_are(rt, alloc, regions, 6, &[2]);
    touched_are(rt, alloc, regions, 40, &[]);
}

/// A region that ticks is touched, and so is one that waits for it, but not one that is part of another by then.
fn others_are_touched(rt: &impl Abort, alloc: Global, regions: &mut Regions) {
    begin(rt, regions, 2);
    touched_are(rt, alloc, regions, 3, &[1, 2]);
    load(rt, regions, 3);
    touched_are(rt, alloc, regions, 0, &[1]);
    release(rt, regions, 2);
    touched_are(rt, alloc, regions, 0, &[2]);
}

#[test]
fn an_event_touches_the_regions_near_it(rt: HostRuntime) {
    let mut regions = table(&rt, rt.alloc());
    load(&rt, &mut regions, 0);
    load(&rt, &mut regions, 6);
    near_ones_are_touched(&rt, rt.alloc(), &mut regions);
    others_are_touched(&rt, rt.alloc(), &mut regions);
    drop(regions);
}

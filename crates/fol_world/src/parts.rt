//! A region is over, and its parts begin.

ghost use Rattle.std.specs.Prelude.{◌≡◌, ◌≢◌, ◌+◌, ◌<◌, ◌≤◌, ◌^◌, ℕ, true, nat_eq, length, filter, All, IfOk, IfSome};
ghost use Rattle.std.specs.List.{list_any};
ghost use Rattle.fol_model.specs.ActionStep.{at_id};
ghost use Rattle.fol_model.specs.Outputs.{is_chunk_of};
ghost use Rattle.fol_model.specs.Universe.{all_chunks};
ghost use Rattle.fol_regions.specs.Table.{grid_state};
ghost use Rattle.fol_regions.specs.Answers.{IsGiven};
ghost use Rattle.fol_store.specs.Bag.{no_bag};
ghost use Rattle.fol_store.specs.Relisted.{IsInOrder, Stays};
ghost use Rattle.fol_store.specs.Stock.{bag_of, next_of};
ghost use Rattle.fol_world.specs.Bags.{Follow};
ghost use Rattle.fol_world.specs.Begun.{Gathered};
ghost use Rattle.fol_world.specs.Follows.{Settle};
ghost use Rattle.fol_world.specs.Parts.{IsFreshPart, Leaves, SharesBelow};
ghost use Rattle.fol_world.specs.Released.{AreFresh, HasChunksOf, HasChunksOfAll, is_within, opened_parts, part_bag, parted};
ghost use Rattle.fol_world.specs.Same.{SameThings};

use crate::bags::list_chunks;
use crate::catching_up::has_section;
use fol_model::{ChunkPos, Grid};
use fol_regions::Regions;
use fol_store::Store;
use std::alloc::{AllocError, Global};

/// The chunks of up to so many parts are looked for among those of the region.
const FEW_PARTS: usize = 4;

/// The chunks of parts are looked for among up to so many of the region.
const FEW_CHUNKS: usize = 32;

/// The region is over, and its parts begin with its numbers and with what lies on their chunks.
pub(crate) fn part(
    alloc: Global,
    regions: &Regions,
    grid: &Grid,
    store: &mut Store,
    region: u64,
    parts: &[u64],
)
    requires grid { grid.now ≡ (grid_state regions.now).grid }
    requires given { All (IsGiven (grid_state regions.now)) parts.now }
    requires here { (bag_of store.old region).here ≡ true }
    requires chunks { HasChunksOfAll (grid_state regions.now) parts.now (bag_of store.old region) }
    requires follow { Follow (next_of store.old) parts.now }
    requires slots { length parts.now ≤ store.old.slots }
    ensures bags { Settle (grid_state regions.now) (parted parts.now region (bag_of store.old))
        (bag_of store.new) }
    ensures things { SameThings store.old store.new }
    ensures next { next_of store.new ≡ next_of store.old + length parts.now }
{
    let tick = store.tick(region);
    let owed = store.owed(region);
    open_parts(store, parts, tick, owed);
    share_out(alloc, regions, grid, store, region, parts);
}

/// The parts of a region get bags with its numbers, for which nothing was gathered.
fn open_parts(store: &mut Store, parts: &[u64], tick: u64, owed: u32)
    requires follow { Follow (next_of store.old) parts.now }
    requires slots { length parts.now ≤ store.old.slots }
    requires tick { tick ≤ 2 ^ 62 }
    ensures bags { bag_of store.new ≡ opened_parts tick owed parts.now (bag_of store.old) }
    ensures things { SameThings store.old store.new }
    ensures next { next_of store.new ≡ next_of store.old + length parts.now }
{
    for id in parts {
        open_part(store, *id, tick, owed);
    }
}

/// A part of a region gets a bag.
fn open_part(store: &mut Store, id: u64, tick: u64, owed: u32)
    requires next { id ≡ next_of store.old }
    requires slots { 1 ≤ store.old.slots }
    requires tick { tick ≤ 2 ^ 62 }
    ensures bags { bag_of store.new ≡ at_id (bag_of store.old) id (part_bag tick owed) }
    ensures things { SameThings store.old store.new }
    ensures next { next_of store.new ≡ next_of store.old + 1 }
    ensures slots { store.old.slots ≤ store.new.slots + 1 }
{
    store.open(id, tick, owed);
    store.unsettle(id);
}

/// The region is over, and its parts get what lies on their chunks in its bag: the heir, which is the largest of them, takes over what the
/// others leave.
fn share_out(
    alloc: Global,
    regions: &Regions,
    grid: &Grid,
    store: &mut Store,
    region: u64,
    parts: &[u64],
)
    requires grid { grid.now ≡ (grid_state regions.now).grid }
    requires given { All (IsGiven (grid_state regions.now)) parts.now }
    requires fresh { AreFresh region parts.now (bag_of store.old) }
    requires chunks { HasChunksOfAll (grid_state regions.now) parts.now (bag_of store.old region) }
    ensures bags { Settle (grid_state regions.now) (at_id (bag_of store.old) region no_bag)
        (bag_of store.new) }
    ensures things { SameThings store.old store.new }
    ensures next { next_of store.new ≡ next_of store.old }
{
    match largest(regions, parts) {
        Some(heir) => {
            share_but(alloc, regions, grid, store, region, heir, parts);
            store.succeed(region, heir);
        }
        None => store.close(region),
    }
}

/// One of these regions that has the most sections; `None` only where there is none.
fn largest(regions: &Regions, ids: &[u64]) -> Option<u64>
    requires given { All (IsGiven (grid_state regions.now)) ids.now }
    ensures among { IfSome result (λ id. list_any (nat_eq id) ids.now ≡ true) }
{
    let mut largest = None;
    let mut most = 0;
    for id in ids {
        let size = regions.sections(*id).len();
        if size > most {
            largest = Some(*id);
            most = size;
        }
    }
    largest
}

/// Each part of a region but the heir takes what lies on its chunks out of the region's bag.
fn share_but(
    alloc: Global,
    regions: &Regions,
    grid: &Grid,
    store: &mut Store,
    region: u64,
    heir: u64,
    parts: &[u64],
)
    requires grid { grid.now ≡ (grid_state regions.now).grid }
    requires given { All (IsGiven (grid_state regions.now)) parts.now }
    requires fresh { AreFresh region parts.now (bag_of store.old) }
    requires heir { list_any (nat_eq heir) parts.now ≡ true }
    requires chunks { HasChunksOfAll (grid_state regions.now) parts.now (bag_of store.old region) }
    ensures shares { (n : ℕ) → Follow n parts.now → region < n
        → SharesBelow (grid_state regions.now) region heir parts.now (n + length parts.now)
        (bag_of store.old) (bag_of store.new) }
    ensures things { SameThings store.old store.new }
    ensures next { next_of store.new ≡ next_of store.old }
{
    let few = parts.len() <= FEW_PARTS;
    for id in parts {
        if *id != heir {
            share(alloc, regions, grid, store, region, few, *id);
        }
    }
}

/// A part of a region takes what lies on its chunks out of the region's bag. If memory runs out, both bags have to be gathered.
fn share(
    alloc: Global,
    regions: &Regions,
    grid: &Grid,
    store: &mut Store,
    region: u64,
    few: bool,
    id: u64,
)
    requires grid { grid.now ≡ (grid_state regions.now).grid }
    requires given { IsGiven (grid_state regions.now) id }
    requires here { (bag_of store.old region).here ≡ true }
    requires order { IsInOrder (bag_of store.old region) }
    requires chunks { (bag_of store.old region).listed ≡ true
        → HasChunksOf (grid_state regions.now) (bag_of store.old region).chunks id }
    requires fresh { IsFreshPart region (bag_of store.old) id }
    ensures rest { Stays (bag_of store.old region) (bag_of store.new region) }
    ensures left { Leaves (is_chunk_of (grid_state regions.now) id) (bag_of store.old region)
        (bag_of store.new region) }
    ensures own { Gathered (grid_state regions.now) id (bag_of store.old id)
        (bag_of store.new id) }
    ensures others { (u : ℕ) → u ≢ region → u ≢ id → bag_of store.new u ≡ bag_of store.old u }
    ensures things { SameThings store.old store.new }
    ensures next { next_of store.new ≡ next_of store.old }
{
    regions.keeps_rules();
    let few = few && has_few(store, region);
    match list_part(alloc, regions, grid, store, region, few, id) {
        Ok(chunks) => store.hand_over(region, id, chunks),
        Err(_) => store.unsettle(region),
    }
}

/// Whether the bag of a region is listed, and for few chunks.
fn has_few(store: &Store, region: u64) -> bool
    requires { (bag_of store.now region).here ≡ true }
    ensures { result ≡ true → (bag_of store.now region).listed ≡ true }
{
    match store.chunks(region) {
        Some(chunks) if chunks.len() <= FEW_CHUNKS => store.is_listed(region),
        _ => false,
    }
}

/// The loaded chunks of a part, in order. Where those of the region's bag are few, it goes over these alone.
fn list_part(
    alloc: Global,
    regions: &Regions,
    grid: &Grid,
    store: &Store,
    region: u64,
    few: bool,
    id: u64,
) -> Result<Vec<ChunkPos>, AllocError>
    requires grid { grid.now ≡ (grid_state regions.now).grid }
    requires given { IsGiven (grid_state regions.now) id }
    requires here { (bag_of store.now region).here ≡ true }
    requires chunks { few ≡ true
        → HasChunksOf (grid_state regions.now) (bag_of store.now region).chunks id }
    ensures { IfOk result (λ chunks. chunks.items
        ≡ filter (is_chunk_of (grid_state regions.now) id) all_chunks) }
{
    if few {
        if let Some(chunks) = store.chunks(region) {
            return list_within(alloc, regions, grid, chunks, id);
        }
    }
    list_chunks(alloc, regions, id)
}

/// Those of the chunks that are in sections of a region, in their order.
fn list_within(
    alloc: Global,
    regions: &Regions,
    grid: &Grid,
    chunks: &[ChunkPos],
    id: u64,
) -> Result<Vec<ChunkPos>, AllocError>
    requires grid { grid.now ≡ (grid_state regions.now).grid }
    requires given { 0 < id }
    ensures { IfOk result (λ own. own.items
        ≡ filter (is_within (grid_state regions.now) id) chunks.now) }
{
    let mut own = Vec::with_capacity(alloc, chunks.len())?;
    for c in chunks {
        if has_section(regions, grid, id, *c) {
            own.push_reserved(*c);
        }
    }
    Ok(own)
}

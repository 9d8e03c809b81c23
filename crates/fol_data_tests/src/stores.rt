//! A store of a world with one region, whose bag goes out, comes back, follows chunks, is united and falls apart.

ghost use Rattle.std.specs.Prelude.{◌≡◌, ◌≢◌, ◌≤◌, true, IfOk, None};
ghost use Rattle.fol_model.specs.declared.places.ChunkPos.{ChunkPos};
ghost use Rattle.fol_model.specs.ActionStep.{at_id};
ghost use Rattle.fol_store.specs.Bag.{is_whole, new_bag, no_bag};
ghost use Rattle.fol_bags.specs.Clear.{HasNoTask};
ghost use Rattle.fol_store.specs.Relisted.{IsInOrder};
ghost use Rattle.fol_store.specs.Stock.{bag_of, jobs_of, next_of};

use fol_model::{Action, BlockAt, BlockPos, ChunkPos, Entity, Grid, Opening, Sequence, Task};
use fol_store::{Rows, Store};
use std::alloc::{AllocError, Global};
use std::test::Fail;

/// By place, in two chunks.
const BLOCKS: [BlockAt; 2] = [
    BlockAt {
        at: BlockPos {
            x: -16,
            y: 64,
            z: 5,
        },
        id: 7,
    },
    BlockAt {
        at: BlockPos { x: 3, y: 64, z: 5 },
        id: 9,
    },
];

/// By id, in the same two chunks.
const ENTITIES: [Entity; 2] = [
    Entity {
        id: 4,
        at: BlockPos { x: 0, y: 70, z: 15 },
        vx: 1,
        vz: 0,
    },
    Entity {
        id: 11,
        at: BlockPos { x: -1, y: 70, z: 0 },
        vx: 0,
        vz: -2,
    },
];

/// The chunks of the blocks and entities.
const CHUNKS: [ChunkPos; 2] = [ChunkPos { x: -1, z: 0 }, ChunkPos { x: 0, z: 0 }];

/// A world with these blocks and entities.
fn opening(alloc: Global) -> Result<Opening, AllocError> {
    let grid = Grid {
        shift: 0,
        create: 1,
        merge: 1,
        min: 2,
        num: 1,
        den: 6,
    };
    let blocks = Vec::from_slice(alloc, &BLOCKS)?;
    let entities = Vec::from_slice(alloc, &ENTITIES)?;
    Ok(Opening {
        version: 1,
        grid,
        blocks: Sequence::of(blocks),
        entities: Sequence::of(entities),
    })
}

fn task(number: u64, chunk: ChunkPos) -> Task
    ensures number { result.number ≡ number }
    ensures chunk { result.chunk ≡ chunk }
{
    Task {
        number,
        chunk,
        action: Action::Load(chunk),
    }
}

/// The store of that world.
fn laid(alloc: Global) -> Result<Store, AllocError>
    ensures tasks { IfOk result (λ s. jobs_of s ≡ λ n. None) }
    ensures bags { IfOk result (λ s. bag_of s ≡ λ id. no_bag) }
    ensures next { IfOk result (λ s. next_of s ≡ 1) }
{
    let opening = opening(alloc)?;
    Store::new(alloc, &opening)
}

/// The store of that world, with no task, in which region 1 has a bag with no chunk.
fn world(alloc: Global) -> Result<Store, AllocError>
    ensures tasks { IfOk result (λ s. jobs_of s ≡ λ n. None) }
    ensures bags { IfOk result (λ s. bag_of s ≡ at_id (λ id. no_bag) 1 (new_bag 40 2)) }
    ensures next { IfOk result (λ s. next_of s ≡ 2) }
    ensures spare { IfOk result (λ s. 3 ≤ s.spare) }
    ensures slots { IfOk result (λ s. 2 ≤ s.slots) }
{
    let mut store = laid(alloc)?;
    store.reserve(3, 3)?;
    store.open(1, 40, 2);
    Ok(store)
}

/// Takes a bag out if it is whole; whether it was, with these chunks and this block.
fn takes(store: &mut Store, id: u64, chunks: &[ChunkPos], block: BlockAt) -> bool
    requires here { (bag_of store.old id).here ≡ true }
{
    if !store.is_whole(id) {
        return false;
    }
    let taken = store.take(id);
    match taken.chunks.as_slice() {
        Some(list) => list == chunks && taken.body.chunks.get(block.at) == block.id,
        None => false,
    }
}

/// Settles a bag if it is listed, and takes it out; whether it was, with these chunks and this block.
fn takes_settled(
    store: &mut Store,
    id: u64,
    chunks: &[ChunkPos],
    block: BlockAt,
) -> Result<bool, AllocError>
    requires here { (bag_of store.old id).here ≡ true }
{
    if !store.is_listed(id) {
        return Ok(false);
    }
    store.settle(id)?;
    Ok(takes(store, id, chunks, block))
}

/// Whether the numbers and the rests of the tasks are these.
fn has_rests(rows: &Rows, rests: &[(u64, u32)]) -> bool {
    rows.tasks
        .iter()
        .map(|row| (row.task.number, row.rest))
        .eq(rests.iter().copied())
}

/// Whether what no worker has is this.
fn lists(
    alloc: Global,
    store: Store,
    blocks: &[BlockAt],
    entities: &[Entity],
    rests: &[(u64, u32)],
) -> Result<bool, AllocError> {
    let rows = store.into_rows(alloc)?;
    Ok(
        rows.blocks.as_slice() == blocks
            && rows.entities.as_slice() == entities
            && has_rests(&rows, rests),
    )
}

/// Takes a bag out and puts it back; gives the region's counter.
fn turn(store: &mut Store, id: u64) -> u64
    requires here { (bag_of store.old id).here ≡ true }
    requires whole { is_whole (bag_of store.old id) ≡ true }
{
    let taken = store.take(id);
    let tick = taken.body.tick;
    store.put(id, taken.chunks, taken.body);
    tick
}

/// Has the bag of region 1 turn with both chunks, once a task came after it was gathered.
fn turn_settled(store: &mut Store) -> Result<u64, AllocError>
    requires tasks { jobs_of store.old ≡ λ n. None }
    requires bags { bag_of store.old ≡ at_id (λ id. no_bag) 1 (new_bag 40 2) }
    requires spare { 1 ≤ store.old.spare }
{
    store.gather(1, &CHUNKS)?;
    store.accept(task(2, CHUNKS[0]), 5);
    store.settle(1)?;
    Ok(turn(store, 1))
}

/// What went through a bag is all there, and a task that came after the gathering keeps its rest.
#[test]
fn keeps_rests_through_a_bag(rt: HostRuntime) -> Result<(), Fail> {
    let mut store = world(rt.alloc())?;
    let tick = turn_settled(&mut store)?;
    let is_kept = lists(rt.alloc(), store, &BLOCKS, &ENTITIES, &[(2, 5)])?;
    assert_eq!(rt; tick, 40);
    assert!(rt; is_kept);
    Ok(())
}

/// Takes a bag out and puts it back; meanwhile a chunk comes to its region, and another leaves.
fn turn_while(store: &mut Store, id: u64, more: ChunkPos, less: ChunkPos)
    requires here { (bag_of store.old id).here ≡ true }
    requires whole { is_whole (bag_of store.old id) ≡ true }
    requires order { IsInOrder (bag_of store.old id) }
    ensures here { (bag_of store.new id).here ≡ true }
    ensures order { IsInOrder (bag_of store.new id) }
    ensures tasks { jobs_of store.new ≡ jobs_of store.old }
{
    let taken = store.take(id);
    store.gain(id, more);
    store.lose(id, less);
    store.put(id, taken.chunks, taken.body);
}

/// Has a bag whose region has that chunk alone, on which all tasks are, follow one of the chunks that came or left; gives this one.
fn follow(store: &mut Store, id: u64, only: ChunkPos) -> Option<ChunkPos>
    requires here { (bag_of store.old id).here ≡ true }
    requires order { IsInOrder (bag_of store.old id) }
    requires only { (c : ChunkPos) → c ≢ only → HasNoTask c (jobs_of store.old) }
    ensures here { (bag_of store.new id).here ≡ true }
    ensures order { IsInOrder (bag_of store.new id) }
    ensures tasks { jobs_of store.new ≡ jobs_of store.old }
{
    let c = store.next_change(id)?;
    if c == only {
        store.gain(id, c);
    } else {
        store.lose(id, c);
    }
    Some(c)
}

/// The bag of region 1 turns with the first chunk, while the second comes, with a task on it, and the first leaves; whether it follows
/// these two, and then has what lies on the second.
fn follows(store: &mut Store) -> Result<bool, AllocError>
    requires tasks { jobs_of store.old ≡ λ n. None }
    requires bags { bag_of store.old ≡ at_id (λ id. no_bag) 1 (new_bag 40 2) }
    requires spare { 1 ≤ store.old.spare }
{
    store.accept(task(2, CHUNKS[1]), 5);
    store.gather(1, &CHUNKS[..1])?;
    turn_while(store, 1, CHUNKS[1], CHUNKS[0]);
    let first = follow(store, 1, CHUNKS[1]);
    let second = follow(store, 1, CHUNKS[1]);
    let third = follow(store, 1, CHUNKS[1]);
    let is_followed = first == Some(CHUNKS[0]) && second == Some(CHUNKS[1]) && third.is_none();
    Ok(is_followed && takes_settled(store, 1, &CHUNKS[1..], BLOCKS[1])?)
}

/// What lies on a chunk that comes while the bag is out goes into it, and what lies on one that leaves goes out of it.
#[test]
fn follows_the_chunks_of_a_region(rt: HostRuntime) -> Result<(), Fail> {
    let mut store = world(rt.alloc())?;
    let is_followed = follows(&mut store)?;
    let is_left = lists(rt.alloc(), store, &BLOCKS[..1], &ENTITIES[1..], &[])?;
    assert!(rt; is_followed);
    assert!(rt; is_left);
    Ok(())
}

/// Region 1 has the second chunk, region 2 the first, and each a task; then they are united.
fn unite(store: &mut Store)
    requires tasks { jobs_of store.old ≡ λ n. None }
    requires bags { bag_of store.old ≡ at_id (λ id. no_bag) 1 (new_bag 40 2) }
    requires next { next_of store.old ≡ 2 }
    requires spare { 2 ≤ store.old.spare }
    requires slots { 1 ≤ store.old.slots }
    ensures here { (bag_of store.new 1).here ≡ true }
{
    store.gain(1, CHUNKS[1]);
    store.open(2, 41, 3);
    store.gain(2, CHUNKS[0]);
    store.accept(task(2, CHUNKS[0]), 5);
    store.accept(task(3, CHUNKS[1]), 7);
    store.unite(2, 1);
}

/// What lies on the chunks of two regions goes out with one bag once they are united.
#[test]
fn unites_two_regions(rt: HostRuntime) -> Result<(), Fail> {
    let mut store = world(rt.alloc())?;
    unite(&mut store);
    let is_united = takes(&mut store, 1, &CHUNKS, BLOCKS[0]);
    let is_empty = lists(rt.alloc(), store, &[], &[], &[])?;
    assert!(rt; is_united);
    assert!(rt; is_empty);
    Ok(())
}

/// Region 1 has both chunks and a task on each, and falls apart: region 2 is handed the first chunk, and region 3 takes its place
/// with the second; then a task comes on the first. Whether both bags are listed, and that of region 2 has what lies on its chunk.
fn parts(store: &mut Store, alloc: Global) -> Result<bool, AllocError>
    requires tasks { jobs_of store.old ≡ λ n. None }
    requires bags { bag_of store.old ≡ at_id (λ id. no_bag) 1 (new_bag 40 2) }
    requires next { next_of store.old ≡ 2 }
    requires spare { 3 ≤ store.old.spare }
    requires slots { 2 ≤ store.old.slots }
{
    store.accept(task(2, CHUNKS[0]), 5);
    store.accept(task(3, CHUNKS[1]), 7);
    store.gather(1, &CHUNKS)?;
    store.open(2, 40, 2);
    store.unsettle(2);
    store.open(3, 40, 2);
    store.unsettle(3);
    let west = Vec::from_slice(alloc, &CHUNKS[..1])?;
    store.hand_over(1, 2, west);
    store.succeed(1, 3);
    store.accept(task(4, CHUNKS[0]), 9);
    if !store.is_listed(3) {
        return Ok(false);
    }
    store.settle(3)?;
    takes_settled(store, 2, &CHUNKS[..1], BLOCKS[0])
}

/// A region falls apart: one part is handed its chunk, another takes the region's place, and each has what lies on its chunk.
#[test]
fn parts_a_region(rt: HostRuntime) -> Result<(), Fail> {
    let mut store = world(rt.alloc())?;
    let is_parted = parts(&mut store, rt.alloc())?;
    let is_left = lists(rt.alloc(), store, &BLOCKS[1..], &ENTITIES[..1], &[(3, 7)])?;
    assert!(rt; is_parted);
    assert!(rt; is_left);
    Ok(())
}

//! Blocks and entities that are put in, walk, are listed and are moved.

ghost use Rattle.std.specs.Prelude.{◌≡◌, ◌<◌, ◌≤◌, pos, None, IfOk};
ghost use Rattle.fol_model.specs.ActionStep.{at_block};
ghost use Rattle.fol_chunks.specs.Contents.{flat_of, size_of};

use fol_chunks::Chunks;
use fol_keyed::ChunkSet;
use fol_model::{BlockAt, BlockPos, ChunkPos, Entity};
use std::alloc::{AllocError, Global};
use std::test::Fail;

const CHUNKS: [ChunkPos; 2] = [ChunkPos { x: 0, z: 0 }, ChunkPos { x: 1, z: 0 }];

fn block(x: i32, z: i32) -> BlockPos
    ensures { result ≡ record { x = x; y = pos 64; z = z } }
{
    BlockPos { x, y: 64, z }
}

fn walker(id: u32, x: i32, vx: i32) -> Entity
    ensures { result.id ≡ id }
{
    Entity {
        id,
        at: block(x, 0),
        vx,
        vz: 0,
    }
}

/// Moves the entities on these two chunks.
fn step(chunks: &mut Chunks, alloc: Global) -> Result<(), AllocError> {
    let recorded = vec![in alloc; ChunkPos { x: 0, z: 0 }, ChunkPos { x: 1, z: 0 }]?;
    chunks.step_entities(&ChunkSet::of(alloc, recorded), 1);
    Ok(())
}

/// Makes room and puts an entity in; whether none with its id was there.
fn put(chunks: &mut Chunks, entity: Entity) -> Result<bool, AllocError> {
    chunks.reserve(1)?;
    let there = chunks.take_entity(entity.id);
    chunks.put_entity(entity);
    Ok(there.is_none())
}

/// Whether entity 1 is put in, walks to the border in one step, stays there in the next, and is gone once it is taken out.
fn walks(chunks: &mut Chunks, alloc: Global) -> Result<bool, AllocError> {
    let is_first = put(chunks, walker(1, 15, 16))?;
    step(chunks, alloc)?;
    let crossed = chunks.find(1);
    step(chunks, alloc)?;
    let stayed = chunks.find(1);
    let taken = chunks.take_entity(1);
    let again = chunks.take_entity(1);
    Ok(
        is_first
            && crossed == Some(block(31, 0))
            && stayed == Some(block(31, 0))
            && taken == Some(walker(1, 31, 16))
            && again.is_none()
            && count_entities(alloc, chunks)? == 0,
    )
}

/// An entity crosses the border of a chunk, and stays at the border of the recorded chunks.
#[test]
fn entities_walk_within_recorded_chunks(rt: HostRuntime) -> Result<(), Fail> {
    let mut chunks = Chunks::new(rt.alloc());
    let is_right = walks(&mut chunks, rt.alloc())?;
    assert!(rt; is_right);
    Ok(())
}

/// Whether two entities are put in, of which one has no speed, and are listed by id after a step.
fn walks_beside(chunks: &mut Chunks, alloc: Global) -> Result<bool, AllocError> {
    let is_first = put(chunks, walker(2, 15, 16))?;
    let is_second = put(chunks, walker(1, 5, 0))?;
    step(chunks, alloc)?;
    let list = chunks.entities_by_id(alloc)?;
    let wanted = [walker(1, 5, 0), walker(2, 31, 16)];
    Ok(is_first && is_second && list.as_slice() == wanted.as_slice())
}

/// An entity without a speed stays while another one walks, and both are listed by id.
#[test]
fn entities_without_a_speed_stay(rt: HostRuntime) -> Result<(), Fail> {
    let mut chunks = Chunks::new(rt.alloc());
    let is_right = walks_beside(&mut chunks, rt.alloc())?;
    assert!(rt; is_right);
    Ok(())
}

/// Moves the entities on three chunks that are no rectangle.
fn step_in_corner(chunks: &mut Chunks, alloc: Global) -> Result<(), AllocError> {
    let recorded = vec![in alloc;
        ChunkPos { x: 0, z: 0 },
        ChunkPos { x: 1, z: 0 },
        ChunkPos { x: 0, z: 1 },
    ]?;
    chunks.step_entities(&ChunkSet::of(alloc, recorded), 1);
    Ok(())
}

/// Whether entity 1 walks to the border of the three chunks in one step and stays there in the next.
fn walks_in_corner(chunks: &mut Chunks, alloc: Global) -> Result<bool, AllocError> {
    step_in_corner(chunks, alloc)?;
    let crossed = chunks.find(1);
    step_in_corner(chunks, alloc)?;
    Ok(crossed == Some(block(31, 0)) && chunks.find(1) == Some(block(31, 0)))
}

/// An entity walks within chunks that are no rectangle too.
#[test]
fn entities_walk_within_any_chunks(rt: HostRuntime) -> Result<(), Fail> {
    let mut chunks = with_walker(rt.alloc())?;
    let is_right = walks_in_corner(&mut chunks, rt.alloc())?;
    assert!(rt; is_right);
    Ok(())
}

/// An entity that walks along both axes.
fn roamer(id: u32, at: BlockPos, vx: i32, vz: i32) -> Entity
    ensures { result.id ≡ id }
{
    Entity { id, at, vx, vz }
}

/// Moves the entities on the two chunks so many times.
fn step_often(chunks: &mut Chunks, times: u32, alloc: Global) -> Result<(), AllocError> {
    for _ in 0..times {
        step(chunks, alloc)?;
    }
    Ok(())
}

/// Puts three entities in that walk to three borders.
fn put_roamers(chunks: &mut Chunks) -> Result<(), AllocError> {
    let _ = put(chunks, roamer(1, block(3, 0), 5, 0))?;
    let _ = put(chunks, roamer(2, block(30, 15), -7, -2))?;
    let _ = put(chunks, roamer(3, block(0, 0), 0, 3))?;
    Ok(())
}

/// Whether the entities stand where three steps lead, the first to a block before the border.
fn walks_three_steps(chunks: &mut Chunks, alloc: Global) -> Result<bool, AllocError> {
    step_often(chunks, 3, alloc)?;
    let first = chunks.find(1) == Some(block(18, 0));
    let second = chunks.find(2) == Some(block(9, 9));
    Ok(first && second && chunks.find(3) == Some(block(0, 9)))
}

/// Whether the entities stay where the next step would lead out of the two chunks, and one goes on once a third chunk is recorded.
fn walks_to_the_end(chunks: &mut Chunks, alloc: Global) -> Result<bool, AllocError> {
    step_often(chunks, 100, alloc)?;
    step_in_corner(chunks, alloc)?;
    let list = chunks.entities_by_id(alloc)?;
    let wanted = [
        roamer(1, block(28, 0), 5, 0),
        roamer(2, block(2, 7), -7, -2),
        roamer(3, block(0, 18), 0, 3),
    ];
    Ok(list.as_slice() == wanted.as_slice())
}

/// Entities that nobody looks at for many steps stand where the steps lead.
#[test]
fn entities_walk_unseen(rt: HostRuntime) -> Result<(), Fail> {
    let mut chunks = Chunks::new(rt.alloc());
    put_roamers(&mut chunks)?;
    let is_seen = walks_three_steps(&mut chunks, rt.alloc())?;
    assert!(rt; is_seen);
    let is_right = walks_to_the_end(&mut chunks, rt.alloc())?;
    assert!(rt; is_right);
    Ok(())
}

/// Whether the blocks with a number are these two.
fn lists(
    alloc: Global,
    chunks: &Chunks,
    first: BlockAt,
    second: BlockAt,
) -> Result<bool, AllocError> {
    let mut listed = Vec::new(alloc);
    chunks.add_blocks_to(&mut listed)?;
    Ok(listed.len() == 2 && listed.contains(&first) && listed.contains(&second))
}

/// Whether numbers are read as they are set, replaced and taken away, and listed.
fn sets_and_lists(chunks: &mut Chunks, alloc: Global) -> Result<bool, AllocError> {
    let here = block(5, 0);
    let away = block(-20, 3);
    chunks.reserve(8)?;
    chunks.set(here, 7);
    chunks.set(away, 9);
    chunks.set(here, 8);
    let is_set = chunks.get(here) == 8 && chunks.get(block(5, 1)) == 0;
    let is_listed = lists(
        alloc,
        chunks,
        BlockAt { at: away, id: 9 },
        BlockAt { at: here, id: 8 },
    )?;
    chunks.set(here, 0);
    Ok(is_set && is_listed && chunks.get(here) == 0 && count_blocks(alloc, chunks)? == 1)
}

/// A number is set, replaced and taken away, and the blocks are listed.
#[test]
fn blocks_are_set_and_listed(rt: HostRuntime) -> Result<(), Fail> {
    let mut chunks = Chunks::new(rt.alloc());
    let is_right = sets_and_lists(&mut chunks, rt.alloc())?;
    assert!(rt; is_right);
    Ok(())
}

/// How many blocks have a number.
fn count_blocks(alloc: Global, chunks: &Chunks) -> Result<usize, AllocError> {
    let mut listed = Vec::new(alloc);
    chunks.add_blocks_to(&mut listed)?;
    Ok(listed.len())
}

/// How many entities stand.
fn count_entities(alloc: Global, chunks: &Chunks) -> Result<usize, AllocError> {
    let mut listed = Vec::new(alloc);
    chunks.add_entities_to(&mut listed)?;
    Ok(listed.len())
}

/// Gives 3,000 blocks of 12 chunks the number 9, here and there, two at a time.
fn set_many(chunks: &mut Chunks) -> Result<(), AllocError> {
    for i in 0..1500_u32 {
        chunks.reserve(2)?;
        chunks.set(scattered(2 * i), 9);
        chunks.set(scattered(2 * i + 1), 9);
    }
    Ok(())
}

/// One of 3,001 blocks of 12 chunks.
fn scattered(i: u32) -> BlockPos
    requires { i < 3000 }
{
    let n = i * 37 % 3001;
    block((n % 192) as i32, (n / 192) as i32)
}

/// Whether many blocks have their numbers once they are set, once one of them loses its own, and once all are set again.
fn keeps_many(chunks: &mut Chunks, alloc: Global) -> Result<bool, AllocError> {
    let here = block(5, 0);
    set_many(chunks)?;
    let all = count_blocks(alloc, chunks)?;
    let is_set = chunks.get(here) == 9 && chunks.get(block(84, 15)) == 0;
    chunks.reserve(2)?;
    chunks.set(here, 0);
    let is_taken = chunks.get(here) == 0;
    let others = count_blocks(alloc, chunks)?;
    set_many(chunks)?;
    let again = count_blocks(alloc, chunks)?;
    Ok(is_set && is_taken && all == 3000 && others == 2999 && again == 3000)
}

/// Many blocks keep their numbers, also where one loses its own and gets another.
#[test]
fn many_blocks_are_kept(rt: HostRuntime) -> Result<(), Fail> {
    let mut chunks = Chunks::new(rt.alloc());
    let is_right = keeps_many(&mut chunks, rt.alloc())?;
    assert!(rt; is_right);
    Ok(())
}

/// One of 2,053 blocks of one chunk.
fn within_one(i: u32) -> BlockPos
    requires { i < 2053 }
{
    let n = i * 1_021 % 2_053;
    BlockPos {
        x: (n % 16) as i32,
        y: (n / 256) as i32,
        z: (n / 16 % 16) as i32,
    }
}

/// Sets 2,052 of the blocks of one chunk in no order, each to another number.
fn fill_one(chunks: &mut Chunks) -> Result<(), AllocError> {
    for i in 0..2_052_u32 {
        chunks.reserve(1)?;
        chunks.set(within_one(i), (i + 1) as u16);
    }
    Ok(())
}

/// Takes each third block of them away.
fn clear_thirds(chunks: &mut Chunks) -> Result<(), AllocError> {
    for i in 0..684_u32 {
        chunks.reserve(1)?;
        chunks.set(within_one(3 * i), 0);
    }
    Ok(())
}

/// Whether one of the blocks has its number, and none where it was taken away.
fn is_right(chunks: &Chunks, i: u32, is_cleared: bool) -> bool
    requires { i < 2053 }
{
    let id = if is_cleared && i % 3 == 0 { 0 } else { i + 1 };
    chunks.get(within_one(i)) as u32 == id
}

/// Whether all of the blocks have their numbers, and none where each third was taken away.
fn are_right(chunks: &Chunks, is_cleared: bool) -> bool {
    for i in 0..2_052_u32 {
        if !is_right(chunks, i, is_cleared) {
            return false;
        }
    }
    true
}

/// Whether the blocks of a chunk are all there once they are set, and all but each third once these are taken away.
fn keeps_one_chunk(chunks: &mut Chunks, alloc: Global) -> Result<bool, AllocError> {
    fill_one(chunks)?;
    let is_filled = are_right(chunks, false);
    let all = count_blocks(alloc, chunks)?;
    clear_thirds(chunks)?;
    let is_cleared = are_right(chunks, true);
    let others = count_blocks(alloc, chunks)?;
    Ok(is_filled && is_cleared && all == 2_052 && others == 1_368)
}

/// More blocks of one chunk than fit on a page come in no order, and some of them go.
#[test]
fn a_full_chunk_is_kept(rt: HostRuntime) -> Result<(), Fail> {
    let mut chunks = Chunks::new(rt.alloc());
    let is_right = keeps_one_chunk(&mut chunks, rt.alloc())?;
    assert!(rt; is_right);
    Ok(())
}

/// One block that lies with its chunk, and no entity.
fn with_block(alloc: Global, at: BlockPos, id: u16) -> Result<Chunks, AllocError>
    ensures { IfOk result (λ c. (flat_of c).standing ≡ λ k. None) }
{
    let mut chunks = Chunks::new(alloc);
    chunks.reserve(1)?;
    chunks.set(at, id);
    chunks.reserve(1)?;
    Ok(chunks)
}

/// One entity, and no block.
fn with_walker(alloc: Global) -> Result<Chunks, AllocError>
    ensures { IfOk result (λ c. (flat_of c).blocks ≡ λ b. 0) }
{
    let mut chunks = Chunks::new(alloc);
    chunks.reserve(1)?;
    chunks.put_entity(walker(1, 15, 16));
    Ok(chunks)
}

/// Whether the one block of the first is moved to the second, in which the one entity stays.
fn moves(chunks: &mut Chunks, into: &mut Chunks, alloc: Global) -> Result<bool, AllocError>
    requires standing { (flat_of chunks.old).standing ≡ λ k. None }
    requires blocks { (flat_of into.old).blocks ≡ λ b. 0 }
{
    into.reserve(chunks.size_listed(&CHUNKS))?;
    chunks.move_listed(&CHUNKS, into);
    let left = count_blocks(alloc, chunks)?;
    let entities = count_entities(alloc, into)?;
    Ok(left == 0 && entities == 1 && into.get(block(20, 0)) == 9)
}

/// What lies in a list of chunks is moved to what is there.
#[test]
fn a_list_moves_with_its_chunks(rt: HostRuntime) -> Result<(), Fail> {
    let mut chunks = with_block(rt.alloc(), block(20, 0), 9)?;
    let mut into = with_walker(rt.alloc())?;
    let is_right = moves(&mut chunks, &mut into, rt.alloc())?;
    assert!(rt; is_right);
    Ok(())
}

/// Two blocks, of which the first lies with its chunk and the second is fresh if it lies in another chunk.
fn with_pair(alloc: Global, first: BlockPos, second: BlockPos) -> Result<Chunks, AllocError>
    ensures blocks { IfOk result (λ c.
        (flat_of c).blocks ≡ at_block (at_block (λ b. 0) first 9) second 9) }
    ensures standing { IfOk result (λ c. (flat_of c).standing ≡ λ k. None) }
    ensures size { IfOk result (λ c. size_of c ≤ 2) }
    ensures spare { IfOk result (λ c. 2 ≤ c.spare) }
{
    let mut chunks = Chunks::new(alloc);
    chunks.reserve(1)?;
    chunks.set(first, 9);
    chunks.reserve(3)?;
    chunks.set(second, 9);
    Ok(chunks)
}

/// Whether no block is left here, and four are there, those of the lists of the chunks and fresh ones, before and after room is made.
fn met(chunks: &Chunks, into: &mut Chunks, alloc: Global) -> Result<bool, AllocError> {
    let left = count_blocks(alloc, chunks)?;
    let fresh = count_blocks(alloc, into)?;
    into.reserve(1)?;
    let laid = count_blocks(alloc, into)?;
    Ok(
        (left, fresh, laid) == (0, 4, 4)
            && into.get(block(5, 0)) == 9
            && into.get(block(6, 0)) == 9
            && into.get(block(20, 0)) == 9
            && into.get(block(22, 0)) == 9,
    )
}

/// Blocks of one chunk that come from two regions are all there, those of the list of the chunk and fresh ones.
#[test]
fn blocks_meet_in_their_chunks(rt: HostRuntime) -> Result<(), Fail> {
    let mut chunks = with_pair(rt.alloc(), block(20, 0), block(5, 0))?;
    let mut into = with_pair(rt.alloc(), block(22, 0), block(6, 0))?;
    chunks.move_listed(&CHUNKS, &mut into);
    let is_right = met(&chunks, &mut into, rt.alloc())?;
    assert!(rt; is_right);
    Ok(())
}

//! The movement of entities at the end of a tick.

ghost use Rattle.std.specs.Prelude.{◌≡◌, ◌&&◌, ℤ, pos, vec_len, IsTrue, All, map, IfSome, if◌then◌else◌};
ghost use Rattle.std.specs.Fn.{iterate};
ghost use Rattle.std.specs.Vec.{vec_capacity};
ghost use Rattle.std.specs.List.Sorted.{IsStrictlySortedBy};
ghost use Rattle.fol_model.specs.Geometry.{is_chunk, chunk_of as chunk_around};
ghost use Rattle.fol_keyed.specs.Order.{chunk_cmp};
ghost use Rattle.fol_chunks.specs.Areas.{is_inside};
ghost use Rattle.fol_chunks.specs.Contents.{is_recorded};
ghost use Rattle.fol_chunks.specs.Rows.{stepped};

use crate::area::Area;
use crate::lookup::Lookup;
use crate::mask::Mask;
use fol_keyed::{ChunkList, ChunkSet};
use fol_model::{BlockPos, ChunkPos, Entity, chunk_of};

/// The entity after its movement, where the chunks of its blocks are looked up.
fn walk<L: Lookup>(entity: Entity, recorded: &L) -> Entity
    requires order { IsStrictlySortedBy chunk_cmp (L.listed recorded.now) }
    requires places { All (λ c. IsTrue (is_chunk c)) (L.listed recorded.now) }
    ensures { result ≡ stepped (is_recorded (L.listed recorded.now)) entity }
{
    match (
        entity.at.x.checked_add(entity.vx),
        entity.at.z.checked_add(entity.vz),
    ) {
        (Some(x), Some(z)) => moved_to(
            entity,
            BlockPos {
                x,
                y: entity.at.y,
                z,
            },
            recorded,
        ),
        _ => entity,
    }
}

/// The entity at a block, where its chunk and the block's are recorded.
fn moved_to<L: Lookup>(entity: Entity, at: BlockPos, recorded: &L) -> Entity
    requires { IsStrictlySortedBy chunk_cmp (L.listed recorded.now) }
    ensures { result ≡ (if is_recorded (L.listed recorded.now) (chunk_around entity.at)
        && is_recorded (L.listed recorded.now) (chunk_around at) then record entity { at = at }
        else entity) }
{
    if has_both(recorded, chunk_of(entity.at), chunk_of(at)) {
        Entity { at, ..entity }
    } else {
        entity
    }
}

/// Whether both chunks are recorded. Often they are the same.
fn has_both<L: Lookup>(recorded: &L, here: ChunkPos, there: ChunkPos) -> bool
    requires { IsStrictlySortedBy chunk_cmp (L.listed recorded.now) }
    ensures { result ≡ (is_recorded (L.listed recorded.now) here
        && is_recorded (L.listed recorded.now) there) }
{
    recorded.holds(here) && (here == there || recorded.holds(there))
}

/// Moves every entity of a list, where the chunks of its blocks are looked up.
fn step_on<L: Lookup>(entities: &mut [Entity], recorded: &L)
    requires order { IsStrictlySortedBy chunk_cmp (L.listed recorded.now) }
    requires places { All (λ c. IsTrue (is_chunk c)) (L.listed recorded.now) }
    ensures { entities.new ≡ map (stepped (is_recorded (L.listed recorded.now))) entities.old }
{
    for i in 0..entities.len() {
        entities[i] = walk(entities[i], recorded);
    }
}

/// Moves every entity of a list so many times, where the chunks of its blocks are looked up.
fn walk_on<L: Lookup>(entities: &mut [Entity], recorded: &L, ticks: u32)
    requires order { IsStrictlySortedBy chunk_cmp (L.listed recorded.now) }
    requires places { All (λ c. IsTrue (is_chunk c)) (L.listed recorded.now) }
    ensures { entities.new
        ≡ iterate (map (stepped (is_recorded (L.listed recorded.now)))) ticks entities.old }
{
    for _tick in 0..ticks {
        step_on(entities, recorded);
    }
}

/// Moves every entity of a list so many times, on the chunks of another list. These are looked up in bits, where there are entities enough to pay for them.
fn step_listed(entities: &mut [Entity], chunks: &[ChunkPos], ticks: u32)
    requires order { IsStrictlySortedBy chunk_cmp chunks.now }
    requires places { All (λ c. IsTrue (is_chunk c)) chunks.now }
    ensures { entities.new
        ≡ iterate (map (stepped (is_recorded chunks.now))) ticks entities.old }
{
    match mask_for(entities.len(), chunks) {
        Some(mask) => walk_on(entities, &mask, ticks),
        None => walk_on(entities, &ChunkList::of(chunks), ticks),
    }
}

/// The chunks as bits, where they lie near each other and there are entities enough to pay for the search.
fn mask_for<'a>(entities: usize, chunks: &'a [ChunkPos]) -> Option<Mask<'a>>
    ensures { IfSome result (λ mask. mask.chunks.now ≡ chunks.now) }
{
    if entities < 4 + chunks.len() / 4 {
        return None;
    }
    Mask::of(chunks)
}

/// The area of the chunks, where they are a rectangle, no change of them waits, and there are entities enough to pay for the search.
pub fn area_for(entities: usize, chunks: &ChunkSet) -> Option<Area>
    ensures { IfSome result (λ area. (x z : ℤ)
        → is_recorded chunks.now (chunk_around (record { x = x; y = pos 0; z = z }))
        ≡ is_inside area x z) }
{
    let list = chunks.as_slice()?;
    if entities < list.len() / 4 {
        return None;
    }
    Area::of(list)
}

/// Moves every entity of a list so many times.
pub fn step_all(entities: &mut Vec<Entity>, chunks: &ChunkSet, ticks: u32)
    requires order { IsStrictlySortedBy chunk_cmp chunks.now }
    requires places { All (λ c. IsTrue (is_chunk c)) chunks.now }
    ensures steps { entities.new.items
        ≡ iterate (map (stepped (is_recorded chunks.now))) ticks entities.old.items }
    ensures len { vec_len entities.new ≡ vec_len entities.old }
    ensures capacity { vec_capacity entities.new ≡ vec_capacity entities.old }
{
    match chunks.as_slice() {
        Some(list) => step_listed(entities, list, ticks),
        None => walk_on(entities, chunks, ticks),
    }
}

//! A list of entities in order of id.

ghost use Rattle.std.specs.Prelude.{◌≡◌, ℕ, ◌+◌, ◌<◌, ◌≤◌, ◌++◌, not, length, vec_len, filter, count_by, sum_by, slice_index_or, MatchResult, IsNone, IsTrue, ◌||◌};
ghost use Rattle.std.specs.Option.{option_map, option_len, option_or, option_to_list, is_none};
ghost use Rattle.std.specs.Vec.{vec_capacity};
ghost use Rattle.std.specs.List.Sorted.{IsStrictlySortedBy, IsPartitionPoint, IsPermutation};
ghost use Rattle.std.specs.Ordering.{nat_cmp};
ghost use Rattle.std.specs.declared.cmp.Ordering.TheVariants.{Less, Greater};
ghost use Rattle.fol_model.specs.Geometry.{chunk_of as chunk_around};
ghost use Rattle.fol_model.specs.ActionStep.{at_id, standing_of};
ghost use Rattle.fol_model.specs.World.{standing_in};
ghost use Rattle.fol_keyed.specs.Order.{chunk_cmp};
ghost use Rattle.fol_keyed.specs.Members.{is_listed};
ghost use Rattle.fol_keyed.specs.Options.{option_filter};
ghost use Rattle.fol_chunks.specs.Contents.{entity_of};
ghost use Rattle.fol_chunks.specs.Rows.{by_id};

use fol_keyed::ChunkList;
use fol_model::{BlockPos, ChunkPos, Entity};

/// Where the entity stands in the list, or where it would stand.
pub fn place_of(entities: &[Entity], id: u32) -> Result<usize, usize>
    requires { IsStrictlySortedBy by_id entities.now }
    ensures { MatchResult result (λ i. (i < length entities.now)
        × ((d : Entity) → (slice_index_or entities.now i d).id ≡ id)) (λ i.
        (i ≤ length entities.now) × IsPartitionPoint (λ x. nat_cmp x.id id ≡ Less) (λ x.
        nat_cmp x.id id ≡ Greater) entities.now i) }
{
    entities.binary_search_by(|entity| entity.id.cmp(&id))
}

/// The block at which the entity stands.
pub fn find(entities: &[Entity], id: u32) -> Option<BlockPos>
    requires { IsStrictlySortedBy by_id entities.now }
    ensures { result ≡ option_map (λ s. s.at) (standing_in entities.now id) }
{
    match place_of(entities, id) {
        Ok(i) => Some(entities[i].at),
        Err(_) => None,
    }
}

/// Takes the entity out.
pub fn take(entities: &mut Vec<Entity>, id: u32) -> Option<Entity>
    requires { IsStrictlySortedBy by_id entities.old.items }
    ensures entity { result ≡ option_map (entity_of id) (standing_in entities.old.items id) }
    ensures left { standing_in entities.new.items ≡ at_id (standing_in entities.old.items) id None }
    ensures order { IsStrictlySortedBy by_id entities.new.items }
    ensures sums { (f : Entity → ℕ) → sum_by f entities.new.items + sum_by f (option_to_list result)
        ≡ sum_by f entities.old.items }
    ensures len { vec_len entities.new + option_len result ≡ vec_len entities.old }
    ensures capacity { vec_capacity entities.new ≡ vec_capacity entities.old }
{
    match place_of(entities, id) {
        Ok(i) => Some(entities.remove(i)),
        Err(_) => None,
    }
}

/// Puts an entity in that is not there.
pub fn put(entities: &mut Vec<Entity>, entity: Entity)
    requires order { IsStrictlySortedBy by_id entities.old.items }
    requires room { vec_len entities.old < vec_capacity entities.old }
    requires fresh { IsNone (standing_in entities.old.items entity.id) }
    ensures entity { standing_in entities.new.items
        ≡ at_id (standing_in entities.old.items) entity.id (Some (standing_of entity)) }
    ensures order { IsStrictlySortedBy by_id entities.new.items }
    ensures sums { (f : Entity → ℕ)
        → sum_by f entities.new.items ≡ sum_by f entities.old.items + f entity }
    ensures len { vec_len entities.new ≡ vec_len entities.old + 1 }
    ensures capacity { vec_capacity entities.old ≤ vec_capacity entities.new }
{
    match place_of(entities, entity.id) {
        Ok(_) => unreachable!(),
        Err(i) => match entities.insert(i, entity) {
            Ok(()) => {}
            Err(_) => unreachable!(),
        },
    }
}

/// Moves the entities that lie in the chunks, which stand by z, and then by x, into another list.
pub fn move_listed(entities: &mut Vec<Entity>, chunks: &[ChunkPos], into: &mut Vec<Entity>)
    requires chunks { IsStrictlySortedBy chunk_cmp chunks.now }
    requires order { IsStrictlySortedBy by_id entities.old.items }
    requires into_order { IsStrictlySortedBy by_id into.old.items }
    requires apart { (id : ℕ)
        → IsTrue (is_none (standing_in into.old.items id)
        || is_none (option_filter (λ s. is_listed chunks.now (chunk_around s.at))
        (standing_in entities.old.items id))) }
    requires room { vec_len into.old + count_by (λ (e : Entity).
        is_listed chunks.now (chunk_around e.at)) entities.old.items
        ≤ vec_capacity into.old }
    ensures left { standing_in entities.new.items ≡ λ id.
        option_filter (λ s. not (is_listed chunks.now (chunk_around s.at)))
        (standing_in entities.old.items id) }
    ensures moved { standing_in into.new.items ≡ λ id.
        option_or (standing_in into.old.items id)
        (option_filter (λ s. is_listed chunks.now (chunk_around s.at))
        (standing_in entities.old.items id)) }
    ensures order { IsStrictlySortedBy by_id entities.new.items }
    ensures into_order { IsStrictlySortedBy by_id into.new.items }
    ensures rest { entities.new.items ≡ filter (λ (e : Entity).
        not (is_listed chunks.now (chunk_around e.at))) entities.old.items }
    ensures parts { IsPermutation (into.old.items ++ filter (λ (e : Entity).
        is_listed chunks.now (chunk_around e.at)) entities.old.items) into.new.items }
    ensures len { vec_len entities.new + count_by (λ (e : Entity).
        is_listed chunks.now (chunk_around e.at)) entities.old.items
        ≡ vec_len entities.old }
    ensures into_len { vec_len into.new ≡ vec_len into.old
        + count_by (λ (e : Entity). is_listed chunks.now (chunk_around e.at))
        entities.old.items }
    ensures capacity { vec_capacity entities.old ≤ vec_capacity entities.new }
    ensures into_capacity { vec_capacity into.old ≤ vec_capacity into.new }
{
    fol_keyed::move_listed(entities, &ChunkList::of(chunks), into);
}

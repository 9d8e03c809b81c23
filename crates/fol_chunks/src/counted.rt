//! Entities by id, and how many of them stand in each chunk.

ghost use Rattle.std.specs.Prelude.{◌≡◌, ℕ, ◌+◌, ◌≤◌, ◌<◌, ◌^◌, ◌||◌, not, [], length, count_by, IsTrue, IsNone, OnOk};
ghost use Rattle.std.specs.Option.{option_map, option_len, option_or, is_none};
ghost use Rattle.std.specs.List.Sorted.{IsStrictlySortedBy};
ghost use Rattle.fol_model.specs.Geometry.{chunk_of as chunk_around};
ghost use Rattle.fol_model.specs.ActionStep.{at_id, standing_of};
ghost use Rattle.fol_model.specs.World.{standing_in};
ghost use Rattle.fol_keyed.specs.Order.{chunk_cmp};
ghost use Rattle.fol_keyed.specs.Members.{is_listed};
ghost use Rattle.fol_keyed.specs.Options.{option_filter};
ghost use Rattle.fol_chunks.specs.Contents.{entity_of};
ghost use Rattle.fol_chunks.specs.Rows.{by_id};

use crate::entity_list;
use crate::tally::{self, Tally};
use fol_blocks::key_around;
use fol_model::{ChunkPos, Entity};
use std::alloc::{AllocError, Global};
use std::collections::HashMap;
use std::marker::Model;

/// Entities in order of id, and the number of those in each chunk, so that what stands in some chunks is counted by a look-up a chunk, and
/// chunks in which none stands are left at no other cost. Contracts see them as one list, and how many more there is room for.
#[derive(Drop)]
pub struct Counted {
    entities: Vec<Entity>,
    tally: Tally,
}

impl Model for Counted {
    ghost use Rattle.std.specs.Prelude.{◌-◌, min, vec_len};
    ghost use Rattle.std.specs.Vec.{vec_capacity};
    ghost use Rattle.std.specs.HashMap.{spare as map_spare};
    ghost use Rattle.fol_chunks.specs.Crowds.{Crowd};
    ghost use Rattle.fol_chunks.specs.Tallies.{AreCounted};

    ghost Value = { Crowd };

    ghost view = { λ c. record {
      members = c.entities.items;
      spare = min (vec_capacity c.entities - vec_len c.entities) (map_spare c.tally);
    } };

    ghost invariant = { λ c. AreCounted c.entities.items c.tally.entries };
}

impl Counted {
    /// None. Takes no memory.
    pub fn new(alloc: Global) -> Counted
        ensures { result.members ≡ [] }
    {
        Counted {
            entities: Vec::new(alloc),
            tally: HashMap::new(alloc),
        }
    }

    /// All of them, by id.
    pub fn as_slice(&self) -> &[Entity]
        ensures { result.now ≡ self.now.members }
    {
        &self.entities
    }

    /// How many more entities there is room for.
    pub fn spare(&self) -> usize
        ensures { result ≡ self.now.spare }
    {
        let entities = self.entities.capacity() - self.entities.len();
        entities.min(self.tally.capacity() - self.tally.len())
    }

    /// Makes `spare` at least `n`. The entities stay either way.
    pub fn reserve(&mut self, n: usize) -> Result<(), AllocError>
        ensures same { self.new.members ≡ self.old.members }
        ensures ok { OnOk result (n ≤ self.new.spare) }
        ensures spare { self.old.spare ≤ self.new.spare }
    {
        self.entities.reserve(n)?;
        self.tally.reserve(n)
    }

    /// Takes the entity out, where it is there.
    pub fn take(&mut self, id: u32) -> Option<Entity>
        ensures entity { result ≡ option_map (entity_of id) (standing_in self.old.members id) }
        ensures left { standing_in self.new.members
            ≡ at_id (standing_in self.old.members) id None }
        ensures order { IsStrictlySortedBy by_id self.new.members }
        ensures len { length self.new.members + option_len result ≡ length self.old.members }
        ensures spare { self.old.spare ≤ self.new.spare }
    {
        match entity_list::take(&mut self.entities, id) {
            Some(entity) => {
                tally::lower(&mut self.tally, key_around(entity.at));
                Some(entity)
            }
            None => None,
        }
    }

    /// Puts an entity in that is not there. Takes no memory.
    pub fn put(&mut self, entity: Entity)
        requires spare { 1 ≤ self.old.spare }
        requires fresh { IsNone (standing_in self.old.members entity.id) }
        ensures entity { standing_in self.new.members
            ≡ at_id (standing_in self.old.members) entity.id (Some (standing_of entity)) }
        ensures order { IsStrictlySortedBy by_id self.new.members }
        ensures len { length self.new.members ≡ length self.old.members + 1 }
        ensures spare { self.old.spare ≤ self.new.spare + 1 }
    {
        entity_list::put(&mut self.entities, entity);
        tally::raise(&mut self.tally, key_around(entity.at), 1);
    }

    /// How many of them stand in the chunks, which stand by z, and then by x. Costs a look-up for each chunk.
    pub fn count_listed(&self, chunks: &[ChunkPos]) -> usize
        requires { IsStrictlySortedBy chunk_cmp chunks.now }
        ensures count { result ≡ count_by (λ (e : Entity).
            is_listed chunks.now (chunk_around e.at)) self.now.members }
        ensures few { result < 2 ^ 62 }
    {
        let total = tally::total(&self.tally, chunks);
        prove!(total <= self.as_slice().len());
        total
    }

    /// Moves the entities that stand in the chunks, which stand by z, and then by x. Goes over all entities only where some stand there.
    /// Takes no memory.
    pub fn move_listed(&mut self, chunks: &[ChunkPos], into: &mut Counted)
        requires chunks { IsStrictlySortedBy chunk_cmp chunks.now }
        requires apart { (id : ℕ) → IsTrue (is_none (standing_in into.old.members id)
            || is_none (option_filter (λ s. is_listed chunks.now (chunk_around s.at))
            (standing_in self.old.members id))) }
        requires room { count_by (λ (e : Entity).
            is_listed chunks.now (chunk_around e.at)) self.old.members ≤ into.old.spare }
        ensures left { standing_in self.new.members ≡ λ id.
            option_filter (λ s. not (is_listed chunks.now (chunk_around s.at)))
            (standing_in self.old.members id) }
        ensures moved { standing_in into.new.members ≡ λ id.
            option_or (standing_in into.old.members id)
            (option_filter (λ s. is_listed chunks.now (chunk_around s.at))
            (standing_in self.old.members id)) }
        ensures order { IsStrictlySortedBy by_id self.new.members }
        ensures into_order { IsStrictlySortedBy by_id into.new.members }
        ensures len { length self.new.members + count_by (λ (e : Entity).
            is_listed chunks.now (chunk_around e.at)) self.old.members
            ≡ length self.old.members }
        ensures into_len { length into.new.members ≡ length into.old.members
            + count_by (λ (e : Entity). is_listed chunks.now (chunk_around e.at))
            self.old.members }
        ensures spare { self.old.spare ≤ self.new.spare }
        ensures into_spare { into.old.spare ≤ into.new.spare + count_by (λ (e : Entity).
            is_listed chunks.now (chunk_around e.at)) self.old.members }
    {
        if tally::move_listed(&mut self.tally, chunks, &mut into.tally) > 0 {
            entity_list::move_listed(&mut self.entities, chunks, &mut into.entities);
        }
    }
}

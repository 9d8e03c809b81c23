//! The entities of a region: those that have a speed by themselves, so that a movement costs only these, and the others with their
//! number in each chunk, so that chunks in which none of them stands cost a look-up each.

ghost use Rattle.std.specs.Prelude.{◌≡◌, ℕ, ◌+◌, ◌≤◌, ◌<◌, ◌^◌, ◌++◌, ◌↔◌, ◌||◌, not, [], nat_eq, length, count_by, IsTrue, IsNone, IfOk, OnOk, All};
ghost use Rattle.std.specs.Fn.{iterate};
ghost use Rattle.std.specs.Option.{option_map, option_len, option_or, is_none};
ghost use Rattle.std.specs.List.{IsDistinct};
ghost use Rattle.std.specs.List.Sorted.{IsStrictlySortedBy};
ghost use Rattle.fol_model.specs.Geometry.{is_chunk, chunk_of as chunk_around};
ghost use Rattle.fol_model.specs.ActionStep.{Recorded, at_id, standing_of};
ghost use Rattle.fol_model.specs.FlatTick.{walked};
ghost use Rattle.fol_model.specs.World.{standing_in};
ghost use Rattle.fol_keyed.specs.Order.{chunk_cmp};
ghost use Rattle.fol_keyed.specs.Members.{is_listed};
ghost use Rattle.fol_keyed.specs.Options.{option_filter};
ghost use Rattle.fol_chunks.specs.Contents.{entity_of, is_recorded};
ghost use Rattle.fol_chunks.specs.Rows.{by_id};
ghost use Rattle.fol_chunks.specs.Crowds.{all_walked, is_still, walks};

use crate::counted::Counted;
use crate::entity_list;
use crate::walkers::Walkers;
use fol_keyed::{ChunkSet, join};
use fol_model::{BlockPos, ChunkPos, Entity};
use std::alloc::{AllocError, Global};
use std::marker::Model;

/// Entities of which no two have one id. Contracts see them as one list, and how many more there is room for.
#[derive(Drop)]
pub struct Entities {
    /// Those that have a speed, by id.
    walking: Walkers,
    /// Those that have none.
    still: Counted,
}

impl Model for Entities {
    ghost use Rattle.std.specs.Prelude.{◌++◌, min};
    ghost use Rattle.fol_chunks.specs.Crowds.{Crowd, AreParted};

    ghost Value = { Crowd };

    ghost view = { λ e. record {
      members = e.walking.members ++ e.still.members;
      spare = min e.walking.spare e.still.spare;
    } };

    ghost invariant = { λ e. AreParted e.walking.members e.still.members };
}

impl Entities {
    /// None. Takes no memory.
    pub fn new(alloc: Global) -> Entities
        ensures { result.members ≡ [] }
    {
        Entities {
            walking: Walkers::new(alloc),
            still: Counted::new(alloc),
        }
    }

    /// Whether there is no entity.
    pub fn is_empty(&self) -> bool
        ensures { IsTrue result ↔ (length self.now.members ≡ 0) }
    {
        self.walking.is_empty() && self.still.as_slice().is_empty()
    }

    /// Whether no entity has a speed.
    pub fn is_still(&self) -> bool
        ensures { IsTrue result → (rec : Recorded) (id : ℕ)
            → walked rec (standing_in self.now.members id) ≡ standing_in self.now.members id }
    {
        self.walking.is_empty()
    }

    /// How many entities have a speed.
    pub fn walkers(&self) -> usize
        ensures { result ≡ count_by (λ (e : Entity). walks (standing_of e)) self.now.members }
    {
        self.walking.len()
    }

    /// How many more entities there is room for.
    pub fn spare(&self) -> usize
        ensures { result ≡ self.now.spare }
    {
        let walking = self.walking.spare();
        walking.min(self.still.spare())
    }

    /// Makes `spare` at least `n`, in both lists, since an entity may have a speed or none. The entities stay either way.
    pub fn reserve(&mut self, n: usize) -> Result<(), AllocError>
        ensures same { self.new.members ≡ self.old.members }
        ensures ok { OnOk result (n ≤ self.new.spare) }
        ensures spare { self.old.spare ≤ self.new.spare }
    {
        self.walking.reserve(n)?;
        self.still.reserve(n)
    }

    /// The block at which the entity stands.
    pub fn find(&self, id: u32) -> Option<BlockPos>
        ensures { result ≡ option_map (λ s. s.at) (standing_in self.now.members id) }
    {
        match self.walking.find(id) {
            Some(at) => Some(at),
            None => entity_list::find(self.still.as_slice(), id),
        }
    }

    /// Takes the entity out, where it is there.
    pub fn take(&mut self, id: u32) -> Option<Entity>
        ensures entity { result ≡ option_map (entity_of id) (standing_in self.old.members id) }
        ensures left { standing_in self.new.members
            ≡ at_id (standing_in self.old.members) id None }
        ensures len { length self.new.members + option_len result ≡ length self.old.members }
        ensures spare { self.old.spare ≤ self.new.spare }
    {
        match self.walking.take(id) {
            Some(entity) => Some(entity),
            None => self.still.take(id),
        }
    }

    /// Puts an entity in that is not there. Takes no memory.
    pub fn put(&mut self, entity: Entity)
        requires spare { 1 ≤ self.old.spare }
        requires fresh { IsNone (standing_in self.old.members entity.id) }
        ensures entity { standing_in self.new.members
            ≡ at_id (standing_in self.old.members) entity.id (Some (standing_of entity)) }
        ensures len { length self.new.members ≡ length self.old.members + 1 }
        ensures spare { self.old.spare ≤ self.new.spare + 1 }
    {
        if stands_still(entity) {
            self.still.put(entity);
        } else {
            self.walking.put(entity);
        }
    }

    /// Moves the entities that stand in recorded chunks so many times by their speeds, where they stay in recorded chunks. Costs only those that have a
    /// speed. Takes no memory.
    pub fn step(&mut self, chunks: &ChunkSet, ticks: u32)
        requires order { IsStrictlySortedBy chunk_cmp chunks.now }
        requires places { All (λ c. IsTrue (is_chunk c)) chunks.now }
        ensures moved { standing_in self.new.members
            ≡ iterate (all_walked (is_recorded chunks.now)) ticks (standing_in self.old.members) }
        ensures len { length self.new.members ≡ length self.old.members }
        ensures spare { self.old.spare ≤ self.new.spare }
    {
        self.walking.step(chunks, ticks);
    }

    /// Adds all entities to a list, in no stated order.
    pub fn add_to(&self, list: &mut Vec<Entity>) -> Result<(), AllocError>
        ensures members { OnOk result (list.new.items ≡ list.old.items ++ self.now.members) }
        ensures differ { IsDistinct (λ a b. nat_eq a.id b.id) self.now.members }
    {
        self.walking.add_to(list)?;
        list.extend_from_slice(self.still.as_slice())
    }

    /// A list of all entities, by id.
    pub fn by_id(&self, alloc: Global) -> Result<Vec<Entity>, AllocError>
        ensures standing { IfOk result (λ list.
            standing_in list.items ≡ standing_in self.now.members) }
        ensures order { IfOk result (λ list. IsStrictlySortedBy by_id list.items) }
    {
        let still = self.still.as_slice();
        let mut list = Vec::with_capacity(alloc, self.walking.len() + still.len())?;
        self.walking.add_to(&mut list)?;
        join(&mut list, still);
        Ok(list)
    }

    /// How many entities lie in the chunks, which stand by z, and then by x. Costs those that have a speed, and a look-up for each chunk.
    pub fn count_listed(&self, chunks: &[ChunkPos]) -> usize
        requires { IsStrictlySortedBy chunk_cmp chunks.now }
        ensures count { result ≡ count_by (λ (e : Entity).
            is_listed chunks.now (chunk_around e.at)) self.now.members }
        ensures few { result < 2 ^ 63 }
    {
        self.walking.count_listed(chunks) + self.still.count_listed(chunks)
    }

    /// Moves the entities that lie in the chunks, which stand by z, and then by x. Goes over those that have a speed, and over the others
    /// only where some of them lie there. Takes no memory.
    pub fn move_listed(&mut self, chunks: &[ChunkPos], into: &mut Entities)
        requires order { IsStrictlySortedBy chunk_cmp chunks.now }
        requires apart { (id : ℕ)
            → IsTrue (is_none (standing_in into.old.members id)
            || is_none (option_filter (λ s. is_listed chunks.now (chunk_around s.at))
            (standing_in self.old.members id))) }
        requires room { count_by (λ (e : Entity).
            is_listed chunks.now (chunk_around e.at)) self.old.members ≤ into.old.spare }
        ensures left { standing_in self.new.members ≡ λ id.
            option_filter (λ s. not (is_listed chunks.now (chunk_around s.at)))
            (standing_in self.old.members id) }
        ensures moved { standing_in into.new.members ≡ λ id.
            option_or (standing_in into.old.members id)
            (option_filter (λ s. is_listed chunks.now (chunk_around s.at))
            (standing_in self.old.members id)) }
        ensures len { length self.new.members + count_by (λ (e : Entity).
            is_listed chunks.now (chunk_around e.at)) self.old.members
            ≡ length self.old.members }
        ensures into_len { length into.new.members ≡ length into.old.members
            + count_by (λ (e : Entity). is_listed chunks.now (chunk_around e.at))
            self.old.members }
        ensures spare { self.old.spare ≤ self.new.spare }
        ensures into_spare { into.old.spare ≤ into.new.spare + count_by (λ (e : Entity).
            is_listed chunks.now (chunk_around e.at)) self.old.members }
    {
        self.walking.move_listed(chunks, &mut into.walking);
        self.still.move_listed(chunks, &mut into.still);
    }
}

/// Whether the entity has no speed.
fn stands_still(entity: Entity) -> bool
    ensures { result ≡ is_still (standing_of entity) }
{
    entity.vx == 0 && entity.vz == 0
}

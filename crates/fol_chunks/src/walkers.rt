//! Entities that have a speed, which move only when somebody looks at them.

ghost use Rattle.std.specs.Prelude.{◌≡◌, ℕ, ◌+◌, ◌≤◌, ◌<◌, ◌^◌, ◌++◌, ◌↔◌, ◌||◌, not, [], length, vec_len, map, count_by, IsTrue, IsNone, OnOk, All};
ghost use Rattle.std.specs.Fn.{iterate};
ghost use Rattle.std.specs.Vec.{vec_capacity};
ghost use Rattle.std.specs.Option.{option_map, option_len, option_or, is_none};
ghost use Rattle.std.specs.List.Sorted.{IsStrictlySortedBy};
ghost use Rattle.fol_model.specs.Geometry.{is_chunk, chunk_of as chunk_around};
ghost use Rattle.fol_model.specs.ActionStep.{at_id, standing_of};
ghost use Rattle.fol_model.specs.World.{standing_in};
ghost use Rattle.fol_keyed.specs.Order.{chunk_cmp};
ghost use Rattle.fol_keyed.specs.Members.{is_listed};
ghost use Rattle.fol_keyed.specs.Options.{option_filter};
ghost use Rattle.fol_chunks.specs.Contents.{entity_of, is_recorded};
ghost use Rattle.fol_chunks.specs.Rows.{by_id, stepped};

use crate::owed::Owed;
use crate::{entity_list, steps};
use fol_keyed::{ChunkList, ChunkSet};
use fol_model::{BlockPos, ChunkPos, Entity};
use std::alloc::{AllocError, Global};
use std::marker::Model;

/// Entities in order of id, to each of which the same movements are owed. A movement on chunks that are a rectangle is only noted, and all that are
/// noted are made at once, where an entity is looked at or one comes or leaves. Contracts see the entities after these movements, and how many
/// more there is room for.
#[derive(Drop)]
pub struct Walkers {
    list: Vec<Entity>,
    owed: Owed,
}

impl Model for Walkers {
    ghost use Rattle.std.specs.Prelude.{◌-◌, map, vec_len};
    ghost use Rattle.std.specs.Vec.{vec_capacity};
    ghost use Rattle.std.specs.List.Sorted.{IsStrictlySortedBy};
    ghost use Rattle.fol_chunks.specs.Areas.{paid};
    ghost use Rattle.fol_chunks.specs.Crowds.{Crowd};
    ghost use Rattle.fol_chunks.specs.Rows.{by_id};

    ghost Value = { Crowd };

    ghost view = { λ w. record {
      members = map (paid w.owed) w.list.items;
      spare = vec_capacity w.list - vec_len w.list;
    } };

    ghost invariant = { λ w. IsStrictlySortedBy by_id (map (paid w.owed) w.list.items) };
}

impl Walkers {
    /// None. Takes no memory.
    pub fn new(alloc: Global) -> Walkers
        ensures { result.members ≡ [] }
    {
        Walkers {
            list: Vec::new(alloc),
            owed: Owed::none(),
        }
    }

    /// Whether there is none.
    pub fn is_empty(&self) -> bool
        ensures { IsTrue result ↔ (length self.now.members ≡ 0) }
    {
        self.list.is_empty()
    }

    /// How many there are.
    pub fn len(&self) -> usize
        ensures len { result ≡ length self.now.members }
        ensures few { result < 2 ^ 63 }
    {
        self.list.len()
    }

    /// How many more there is room for.
    pub fn spare(&self) -> usize
        ensures { result ≡ self.now.spare }
    {
        self.list.capacity() - self.list.len()
    }

    /// Makes `spare` at least `n`. The entities stay either way.
    pub fn reserve(&mut self, n: usize) -> Result<(), AllocError>
        ensures same { self.new.members ≡ self.old.members }
        ensures ok { OnOk result (n ≤ self.new.spare) }
        ensures spare { self.old.spare ≤ self.new.spare }
    {
        self.list.reserve(n)
    }

    /// The block at which the entity stands.
    pub fn find(&self, id: u32) -> Option<BlockPos>
        ensures { result ≡ option_map (λ s. s.at) (standing_in self.now.members id) }
    {
        match entity_list::place_of(&self.list, id) {
            Ok(i) => Some(self.owed.pay(self.list[i]).at),
            Err(_) => None,
        }
    }

    /// Takes the entity out, where it is there.
    pub fn take(&mut self, id: u32) -> Option<Entity>
        ensures entity { result ≡ option_map (entity_of id) (standing_in self.old.members id) }
        ensures left { standing_in self.new.members
            ≡ at_id (standing_in self.old.members) id None }
        ensures order { IsStrictlySortedBy by_id self.new.members }
        ensures len { length self.new.members + option_len result ≡ length self.old.members }
        ensures spare { self.old.spare ≤ self.new.spare }
    {
        self.owed.settle(&mut self.list);
        entity_list::take(&mut self.list, id)
    }

    /// Puts an entity in that is not there. Takes no memory.
    pub fn put(&mut self, entity: Entity)
        requires spare { 1 ≤ self.old.spare }
        requires fresh { IsNone (standing_in self.old.members entity.id) }
        ensures entity { standing_in self.new.members
            ≡ at_id (standing_in self.old.members) entity.id (Some (standing_of entity)) }
        ensures order { IsStrictlySortedBy by_id self.new.members }
        ensures len { length self.new.members ≡ length self.old.members + 1 }
        ensures spare { self.old.spare ≤ self.new.spare + 1 }
    {
        self.owed.settle(&mut self.list);
        entity_list::put(&mut self.list, entity);
    }

    /// Moves those that stand in recorded chunks so many times by their speeds, where they stay in recorded chunks. Costs no entity where the chunks are
    /// the rectangle that they were at the last movement, but only a look at each chunk. Takes no memory.
    pub fn step(&mut self, chunks: &ChunkSet, ticks: u32)
        requires order { IsStrictlySortedBy chunk_cmp chunks.now }
        requires places { All (λ c. IsTrue (is_chunk c)) chunks.now }
        ensures moved { self.new.members
            ≡ iterate (map (stepped (is_recorded chunks.now))) ticks self.old.members }
        ensures spare { self.old.spare ≤ self.new.spare }
    {
        match steps::area_for(self.list.len(), chunks) {
            Some(area) => self.owed.add(area, ticks, &mut self.list),
            None => {
                self.owed.settle(&mut self.list);
                steps::step_all(&mut self.list, chunks, ticks);
            }
        }
    }

    /// Adds all to a list, by id.
    pub fn add_to(&self, list: &mut Vec<Entity>) -> Result<(), AllocError>
        ensures members { OnOk result (list.new.items ≡ list.old.items ++ self.now.members) }
        ensures order { IsStrictlySortedBy by_id self.now.members }
        ensures len { OnOk result (vec_len list.new
            ≡ vec_len list.old + length self.now.members) }
        ensures capacity { vec_capacity list.old ≤ vec_capacity list.new }
    {
        self.owed.add_paid(&self.list, list)
    }

    /// How many stand in the chunks, which stand by z, and then by x.
    pub fn count_listed(&self, chunks: &[ChunkPos]) -> usize
        requires { IsStrictlySortedBy chunk_cmp chunks.now }
        ensures count { result ≡ count_by (λ (e : Entity).
            is_listed chunks.now (chunk_around e.at)) self.now.members }
        ensures few { result < 2 ^ 62 }
    {
        let count = self.owed.count_paid(&self.list, &ChunkList::of(chunks));
        prove!(count <= self.list.len());
        count
    }

    /// Moves those that stand in the chunks, which stand by z, and then by x. Takes no memory.
    pub fn move_listed(&mut self, chunks: &[ChunkPos], into: &mut Walkers)
        requires chunks { IsStrictlySortedBy chunk_cmp chunks.now }
        requires apart { (id : ℕ) → IsTrue (is_none (standing_in into.old.members id)
            || is_none (option_filter (λ s. is_listed chunks.now (chunk_around s.at))
            (standing_in self.old.members id))) }
        requires room { count_by (λ (e : Entity).
            is_listed chunks.now (chunk_around e.at)) self.old.members ≤ into.old.spare }
        ensures left { standing_in self.new.members ≡ λ id.
            option_filter (λ s. not (is_listed chunks.now (chunk_around s.at)))
            (standing_in self.old.members id) }
        ensures moved { standing_in into.new.members ≡ λ id.
            option_or (standing_in into.old.members id)
            (option_filter (λ s. is_listed chunks.now (chunk_around s.at))
            (standing_in self.old.members id)) }
        ensures order { IsStrictlySortedBy by_id self.new.members }
        ensures into_order { IsStrictlySortedBy by_id into.new.members }
        ensures len { length self.new.members + count_by (λ (e : Entity).
            is_listed chunks.now (chunk_around e.at)) self.old.members
            ≡ length self.old.members }
        ensures into_len { length into.new.members ≡ length into.old.members
            + count_by (λ (e : Entity). is_listed chunks.now (chunk_around e.at))
            self.old.members }
        ensures spare { self.old.spare ≤ self.new.spare }
        ensures into_spare { into.old.spare ≤ into.new.spare + count_by (λ (e : Entity).
            is_listed chunks.now (chunk_around e.at)) self.old.members }
    {
        self.owed.settle(&mut self.list);
        into.owed.settle(&mut into.list);
        entity_list::move_listed(&mut self.list, chunks, &mut into.list);
    }
}

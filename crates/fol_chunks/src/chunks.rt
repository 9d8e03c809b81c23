//! The blocks and entities of a region.

ghost use Rattle.std.specs.Prelude.{◌≡◌, ◌+◌, ◌<◌, ◌≤◌, ℕ, ◌++◌, ◌↔◌, nat_eq, count_by, IsTrue, IsNone, IfOk, OnOk, All};
ghost use Rattle.std.specs.Fn.{iterate};
ghost use Rattle.std.specs.Option.{option_map, option_len};
ghost use Rattle.std.specs.List.{IsDistinct};
ghost use Rattle.std.specs.List.Sorted.{IsStrictlySortedBy};
ghost use Rattle.fol_model.specs.Geometry.{is_chunk, same_block};
ghost use Rattle.fol_model.specs.ActionStep.{Flat, Recorded, at_block, at_id, standing_of};
ghost use Rattle.fol_model.specs.FlatTick.{moved};
ghost use Rattle.fol_model.specs.World.{standing_in};
ghost use Rattle.fol_keyed.specs.Order.{chunk_cmp};
ghost use Rattle.fol_chunks.specs.Crowds.{walks};
ghost use Rattle.fol_chunks.specs.Rows.{by_id};

use crate::held::Held;
use fol_keyed::ChunkSet;
use fol_model::{BlockAt, BlockPos, ChunkPos, Entity};
use std::alloc::{AllocError, Global};
use std::marker::Model;

/// Blocks and entities. Contracts see them as a map of blocks and the entities that stand, and how many more it can take. What it holds
/// lies behind a pointer, so that a region's data are moved at little cost; with nothing in it, and no room, it has no memory.
#[derive(Drop)]
pub struct Chunks {
    alloc: Global,
    held: Option<Box<Held>>,
}

impl Model for Chunks {
    ghost use Rattle.fol_chunks.specs.Contents.{Contents};
    ghost use Rattle.fol_chunks.specs.Boxed.{contents_in};

    ghost Value = { Contents };

    ghost view = { λ c. contents_in c.held };
}

impl Chunks {
    ghost use Rattle.fol_chunks.specs.Contents.{Contents, flat_of, nothing, size_of, within, outside, joined, Apart, is_recorded, is_listed, size_within, entity_of};

    /// Nothing. Takes no memory.
    pub fn new(alloc: Global) -> Chunks
        ensures nothing { flat_of result ≡ nothing }
        ensures empty { size_of result ≡ 0 }
    {
        Chunks { alloc, held: None }
    }

    /// Whether no block has a number and no entity stands.
    pub fn is_empty(&self) -> bool
        ensures size { IsTrue result ↔ (size_of self.now ≡ 0) }
        ensures nothing { IsTrue result → flat_of self.now ≡ nothing }
    {
        match &self.held {
            Some(held) => held.is_empty(),
            None => true,
        }
    }

    /// Whether no entity has a speed, so that a movement changes nothing.
    pub fn is_still(&self) -> bool
        ensures { IsTrue result → (rec : Recorded)
            → moved rec (flat_of self.now) ≡ flat_of self.now }
    {
        match &self.held {
            Some(held) => held.is_still(),
            None => true,
        }
    }

    /// How many entities have a speed.
    pub fn walkers(&self) -> usize
        ensures { result ≡ count_by (λ (e : Entity). walks (standing_of e)) self.now.entities }
    {
        match &self.held {
            Some(held) => held.walkers(),
            None => 0,
        }
    }

    /// How many more blocks or entities there is room for.
    pub fn spare(&self) -> u64
        ensures { result ≡ self.now.spare }
    {
        match &self.held {
            Some(held) => held.spare(),
            None => 0,
        }
    }

    /// Makes `spare` at least `n`. The contents stay either way.
    pub fn reserve(&mut self, n: u64) -> Result<(), AllocError>
        ensures same { flat_of self.new ≡ flat_of self.old }
        ensures size { size_of self.new ≡ size_of self.old }
        ensures ok { OnOk result (n ≤ self.new.spare) }
        ensures spare { self.old.spare ≤ self.new.spare }
    {
        if n == 0 || n <= self.spare() {
            return Ok(());
        }
        self.take_room(n)
    }

    /// Makes `spare` at least `n`, and has memory for that. The contents stay either way. It stands apart, since most ticks ask for
    /// no room.
    #[inline(never)]
    fn take_room(&mut self, n: u64) -> Result<(), AllocError>
        ensures same { flat_of self.new ≡ flat_of self.old }
        ensures size { size_of self.new ≡ size_of self.old }
        ensures ok { OnOk result (n ≤ self.new.spare) }
        ensures spare { self.old.spare ≤ self.new.spare }
    {
        if self.held.is_none() {
            self.held = Some(Box::new(self.alloc, Held::new(self.alloc))?);
        }
        match &mut self.held {
            Some(held) => held.reserve(n),
            None => unreachable!(),
        }
    }

    /// The number of a block, and 0 where it has none.
    pub fn get(&self, at: BlockPos) -> u16
        ensures { result ≡ (flat_of self.now).blocks at }
    {
        match &self.held {
            Some(held) => held.get(at),
            None => 0,
        }
    }

    /// Adds all blocks with a number above 0 to a list, in no stated order. Fails only when out of memory.
    pub fn add_blocks_to(&self, list: &mut Vec<BlockAt>) -> Result<(), AllocError>
        ensures blocks { OnOk result (list.new.items ≡ list.old.items ++ self.now.blocks) }
        ensures differ { IsDistinct (λ a b. same_block a.at b.at) self.now.blocks }
        ensures none_empty { All (λ x. 0 < x.id) self.now.blocks }
    {
        match &self.held {
            Some(held) => held.add_blocks_to(list),
            None => Ok(()),
        }
    }

    /// Adds all entities to a list, in no stated order. Fails only when out of memory.
    pub fn add_entities_to(&self, list: &mut Vec<Entity>) -> Result<(), AllocError>
        ensures entities { OnOk result (list.new.items ≡ list.old.items ++ self.now.entities) }
        ensures standing { standing_in self.now.entities ≡ (flat_of self.now).standing }
        ensures differ { IsDistinct (λ a b. nat_eq a.id b.id) self.now.entities }
    {
        match &self.held {
            Some(held) => held.add_entities_to(list),
            None => Ok(()),
        }
    }

    /// A list of all entities, by id. Fails only when out of memory.
    pub fn entities_by_id(&self, alloc: Global) -> Result<Vec<Entity>, AllocError>
        ensures standing { IfOk result (λ list.
            standing_in list.items ≡ (flat_of self.now).standing) }
        ensures order { IfOk result (λ list. IsStrictlySortedBy by_id list.items) }
    {
        match &self.held {
            Some(held) => held.entities_by_id(alloc),
            None => Ok(Vec::new(alloc)),
        }
    }

    /// Gives a block a number; 0 takes its number away. Needs no memory; takes some where there is.
    pub fn set(&mut self, at: BlockPos, id: u16)
        requires { 1 ≤ self.old.spare }
        ensures blocks { flat_of self.new
            ≡ record (flat_of self.old) { blocks = at_block (flat_of self.old).blocks at id } }
        ensures size { size_of self.new ≤ size_of self.old + 1 }
        ensures spare { self.old.spare ≤ self.new.spare + 1 }
    {
        match &mut self.held {
            Some(held) => held.set(at, id),
            None => unreachable!(),
        }
    }

    /// The block at which the entity stands.
    pub fn find(&self, id: u32) -> Option<BlockPos>
        ensures { result ≡ option_map (λ s. s.at) ((flat_of self.now).standing id) }
    {
        match &self.held {
            Some(held) => held.find(id),
            None => None,
        }
    }

    /// Takes the entity out, where it is there.
    pub fn take_entity(&mut self, id: u32) -> Option<Entity>
        ensures entity { result ≡ option_map (entity_of id) ((flat_of self.old).standing id) }
        ensures left { flat_of self.new
            ≡ record (flat_of self.old) { standing = at_id (flat_of self.old).standing id None } }
        ensures size { size_of self.new + option_len result ≡ size_of self.old }
        ensures spare { self.old.spare ≤ self.new.spare }
    {
        match &mut self.held {
            Some(held) => held.take_entity(id),
            None => None,
        }
    }

    /// Puts an entity in that is not there. Takes no memory.
    pub fn put_entity(&mut self, e: Entity)
        requires spare { 1 ≤ self.old.spare }
        requires fresh { IsNone ((flat_of self.old).standing e.id) }
        ensures entity { flat_of self.new
            ≡ record (flat_of self.old) {
              standing = at_id (flat_of self.old).standing e.id
                  (Some (standing_of e));
            } }
        ensures size { size_of self.new ≡ size_of self.old + 1 }
        ensures spare { self.old.spare ≤ self.new.spare + 1 }
    {
        match &mut self.held {
            Some(held) => held.put_entity(e),
            None => unreachable!(),
        }
    }

    /// Moves the entities that stand in recorded chunks so many times by their speeds, where they stay in recorded chunks. Takes no memory.
    pub fn step_entities(&mut self, chunks: &ChunkSet, ticks: u32)
        requires order { IsStrictlySortedBy chunk_cmp chunks.now }
        requires places { All (λ c. IsTrue (is_chunk c)) chunks.now }
        ensures moved { flat_of self.new
            ≡ iterate (moved (is_recorded chunks.now)) ticks (flat_of self.old) }
        ensures size { size_of self.new ≡ size_of self.old }
        ensures spare { self.old.spare ≤ self.new.spare }
    {
        match &mut self.held {
            Some(held) => held.step_entities(chunks, ticks),
            None => {}
        }
    }

    /// How many blocks and entities lie in the chunks, which stand by z, and then by x.
    pub fn size_listed(&self, chunks: &[ChunkPos]) -> u64
        requires { IsStrictlySortedBy chunk_cmp chunks.now }
        ensures { result ≡ size_within (is_listed chunks.now) self.now }
    {
        match &self.held {
            Some(held) => held.size_listed(chunks),
            None => 0,
        }
    }

    /// Moves what lies in the chunks, which stand by z, and then by x. Takes no memory.
    pub fn move_listed(&mut self, chunks: &[ChunkPos], into: &mut Chunks)
        requires order { IsStrictlySortedBy chunk_cmp chunks.now }
        requires apart { Apart (flat_of into.old)
            (within (is_listed chunks.now) (flat_of self.old)) }
        requires room { size_within (is_listed chunks.now) self.old ≤ into.old.spare }
        ensures stayed { flat_of self.new ≡ outside (is_listed chunks.now) (flat_of self.old) }
        ensures moved { flat_of into.new
            ≡ joined (flat_of into.old) (within (is_listed chunks.now) (flat_of self.old)) }
        ensures size { size_of self.new + size_within (is_listed chunks.now) self.old
            ≡ size_of self.old }
        ensures into_size { size_of into.new
            ≡ size_of into.old + size_within (is_listed chunks.now) self.old }
        ensures spare { self.old.spare ≤ self.new.spare }
        ensures into_spare { into.old.spare
            ≤ into.new.spare + size_within (is_listed chunks.now) self.old }
    {
        if let Some(held) = &mut self.held {
            match &mut into.held {
                Some(other) => held.move_listed(chunks, other),
                None => held.move_listed(chunks, &mut Held::new(self.alloc)),
            }
        }
    }
}

//! The contents of an opening are laid into the spots of their chunks.

ghost use Rattle.std.specs.Prelude.{◌≡◌, ◌<◌, ◌≤◌, true, false, ℕ, None, map, nat_eq, if◌then◌else◌, length, IsTrue, OnOk, IfOk};
ghost use Rattle.std.specs.List.{list_all};
ghost use Rattle.std.specs.List.Sorted.{IsStrictlySortedBy};
ghost use Rattle.std.specs.Ordering.{nat_cmp};
ghost use Rattle.fol_model.specs.declared.places.BlockPos.{BlockPos};
ghost use Rattle.fol_model.specs.Geometry.{chunk_of as chunk_around, same_block};
ghost use Rattle.fol_model.specs.Universe.{block_cmp};
ghost use Rattle.fol_model.specs.World.{start, block_in, standing_in};
ghost use Rattle.fol_model.specs.ActionStep.{standing_of};
ghost use Rattle.fol_model.specs.OpeningParts.{is_block_at};
ghost use Rattle.fol_store.specs.Bag.{no_bag};
ghost use Rattle.fol_bags.specs.Things.{of_block, of_entity, of_task, some_number};

use crate::store::Store;
use fol_bags::{Bags, Places, spots};
use fol_model::{BlockAt, BlockPos, Entity, Opening, chunk_of};
use std::alloc::{AllocError, Global};

impl Store {
    ghost use Rattle.fol_store.specs.Stock.{Stock, flat_of, jobs_of, bag_of, next_of, place, found};
    ghost use Rattle.fol_store.specs.Laid.{IsBare, AllClosed};

    /// The contents of the opening, no task and no bag. Takes memory.
    pub fn new(alloc: Global, opening: &Opening) -> Result<Store, AllocError>
        ensures contents { IfOk result (λ s. flat_of s ≡ (start opening.now).flat) }
        ensures tasks { IfOk result (λ s. jobs_of s ≡ λ n. None) }
        ensures bags { IfOk result (λ s. bag_of s ≡ λ id. no_bag) }
        ensures next { IfOk result (λ s. next_of s ≡ 1) }
    {
        let mut store = Store::bare(alloc)?;
        store.lay_blocks(opening.blocks.as_slice())?;
        store.lay_entities(opening.entities.as_slice())?;
        Ok(store)
    }

    /// Nothing at all, and one closed bag, so that the first id of a region is 1.
    fn bare(alloc: Global) -> Result<Store, AllocError>
        ensures bare { IfOk result IsBare }
        ensures next { IfOk result (λ s. next_of s ≡ 1) }
    {
        let bags = Bags::closed(alloc)?;
        Ok(Store {
            alloc,
            arrivals: Vec::new(alloc),
            spots: Vec::new(alloc),
            bags,
            places: Places::new(alloc),
        })
    }

    /// Lays blocks into a store that holds nothing. In their order each comes behind those of its spot.
    fn lay_blocks(&mut self, blocks: &[BlockAt]) -> Result<(), AllocError>
        requires order { IsStrictlySortedBy block_cmp (map (λ (b : BlockAt). b.at) blocks.now) }
        requires each { IsTrue (list_all is_block_at blocks.now) }
        requires bare { IsBare self.old }
        ensures blocks { OnOk result ((q : BlockPos)
            → found self.new (of_block q) ≡ some_number (block_in blocks.now q)) }
        ensures entities { OnOk result ((id : ℕ) → found self.new (of_entity id) ≡ None) }
        ensures tasks { OnOk result ((n : ℕ) → found self.new (of_task n) ≡ None) }
        ensures bags { self.new.bags ≡ self.old.bags }
    {
        for block in blocks {
            self.lay_block(block.at, block.id)?;
        }
        Ok(())
    }

    /// Lays a block into the spot of its chunk.
    fn lay_block(&mut self, at: BlockPos, id: u16) -> Result<(), AllocError>
        requires closed { AllClosed self.old }
        requires fresh { found self.old (of_block at) ≡ None }
        requires above { 0 < id }
        ensures blocks { OnOk result ((q : BlockPos)
            → found self.new (of_block q)
            ≡ (if same_block at q then some_number id else found self.old (of_block q))) }
        ensures entities { OnOk result ((n : ℕ)
            → found self.new (of_entity n) ≡ found self.old (of_entity n)) }
        ensures tasks { OnOk result ((n : ℕ)
            → found self.new (of_task n) ≡ found self.old (of_task n)) }
        ensures bags { self.new.bags ≡ self.old.bags }
    {
        match self.spot_of(chunk_of(at)) {
            Ok(i) => self.lay_block_in(i, at, id),
            Err(_) => Err(AllocError),
        }
    }

    /// Lays a block into the spot of its chunk.
    fn lay_block_in(&mut self, i: usize, at: BlockPos, id: u16) -> Result<(), AllocError>
        requires closed { AllClosed self.old }
        requires fresh { found self.old (of_block at) ≡ None }
        requires above { 0 < id }
        requires spot { (place self.old (chunk_around at)).spot ≡ Some i }
        ensures blocks { OnOk result ((q : BlockPos)
            → found self.new (of_block q)
            ≡ (if same_block at q then some_number id else found self.old (of_block q))) }
        ensures entities { OnOk result ((n : ℕ)
            → found self.new (of_entity n) ≡ found self.old (of_entity n)) }
        ensures tasks { OnOk result ((n : ℕ)
            → found self.new (of_task n) ≡ found self.old (of_task n)) }
        ensures bags { self.new.bags ≡ self.old.bags }
    {
        spots::lay_block(&mut self.spots, i, at, id)
    }

    /// Lays entities into a store that holds blocks alone.
    fn lay_entities(&mut self, entities: &[Entity]) -> Result<(), AllocError>
        requires order { IsStrictlySortedBy nat_cmp (map (λ (e : Entity). e.id) entities.now) }
        requires closed { AllClosed self.old }
        requires none { (n : ℕ) → found self.old (of_entity n) ≡ None }
        ensures entities { OnOk result ((n : ℕ)
            → found self.new (of_entity n) ≡ standing_in entities.now n) }
        ensures blocks { OnOk result ((q : BlockPos)
            → found self.new (of_block q) ≡ found self.old (of_block q)) }
        ensures tasks { OnOk result ((n : ℕ)
            → found self.new (of_task n) ≡ found self.old (of_task n)) }
        ensures bags { self.new.bags ≡ self.old.bags }
    {
        for entity in entities {
            self.lay_entity(*entity)?;
        }
        Ok(())
    }

    /// Lays an entity into the spot of its chunk.
    fn lay_entity(&mut self, e: Entity) -> Result<(), AllocError>
        requires closed { AllClosed self.old }
        requires fresh { found self.old (of_entity e.id) ≡ None }
        ensures entities { OnOk result ((n : ℕ)
            → found self.new (of_entity n)
            ≡ (if nat_eq e.id n then Some (standing_of e) else found self.old (of_entity n))) }
        ensures blocks { OnOk result ((q : BlockPos)
            → found self.new (of_block q) ≡ found self.old (of_block q)) }
        ensures tasks { OnOk result ((n : ℕ)
            → found self.new (of_task n) ≡ found self.old (of_task n)) }
        ensures bags { self.new.bags ≡ self.old.bags }
    {
        match self.spot_of(chunk_of(e.at)) {
            Ok(i) => self.lay_entity_in(i, e),
            Err(_) => Err(AllocError),
        }
    }

    /// Lays an entity into the spot of its chunk.
    fn lay_entity_in(&mut self, i: usize, e: Entity) -> Result<(), AllocError>
        requires closed { AllClosed self.old }
        requires fresh { found self.old (of_entity e.id) ≡ None }
        requires spot { (place self.old (chunk_around e.at)).spot ≡ Some i }
        ensures entities { OnOk result ((n : ℕ)
            → found self.new (of_entity n)
            ≡ (if nat_eq e.id n then Some (standing_of e) else found self.old (of_entity n))) }
        ensures blocks { OnOk result ((q : BlockPos)
            → found self.new (of_block q) ≡ found self.old (of_block q)) }
        ensures tasks { OnOk result ((n : ℕ)
            → found self.new (of_task n) ≡ found self.old (of_task n)) }
        ensures bags { self.new.bags ≡ self.old.bags }
    {
        spots::lay_entity(&mut self.spots, i, e)
    }
}

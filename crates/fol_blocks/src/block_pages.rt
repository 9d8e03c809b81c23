//! The blocks of one chunk.

ghost use Rattle.std.specs.Prelude.{◌≡◌, ℕ, ◌+◌, ◌≤◌, ◌<◌, ◌++◌, ◌∷◌, [], true, false, length, sum_by, count_by, vec_len, OnOk, OnErr, IfOk};
ghost use Rattle.std.specs.Vec.{vec_capacity};
ghost use Rattle.std.specs.List.Sorted.{IsStrictlySortedBy};
ghost use Rattle.fol_model.specs.declared.places.BlockPos.{BlockPos};
ghost use Rattle.fol_model.specs.declared.openings.BlockAt.{BlockAt};
ghost use Rattle.fol_model.specs.World.{block_in};
ghost use Rattle.fol_blocks.specs.Order.{by_place};
ghost use Rattle.fol_blocks.specs.Weights.{OneMore, Puts, Clears, stands_at, one_at};

use crate::pages::{self, Spot};
use fol_model::{BlockAt, BlockPos};
use std::alloc::{AllocError, Global};
use std::marker::Model;

/// Blocks in order of place. They lie in pages, so that a block that comes or goes moves those of its page alone.
#[derive(Drop)]
pub struct BlockPages {
    pages: Vec<Vec<BlockAt>>,
    /// How many blocks there are.
    len: usize,
}

impl Model for BlockPages {
    ghost use Rattle.std.specs.Prelude.{◌≡◌, List, length};
    ghost use Rattle.fol_model.specs.declared.openings.BlockAt.{BlockAt};
    ghost use Rattle.fol_blocks.specs.Pages.{ArePages, blocks_on};

    ghost Value = { List BlockAt };

    ghost view = { λ b. blocks_on b.pages.items };

    ghost invariant = { λ b. ArePages b.pages.items × (b.len ≡ length (blocks_on b.pages.items)) };
}

impl BlockPages {
    /// One block.
    pub fn of(alloc: Global, block: BlockAt) -> Result<BlockPages, AllocError>
        ensures { IfOk result (λ b. b ≡ block ∷ []) }
    {
        let mut pages = Vec::with_capacity(alloc, 1)?;
        pages::insert_at(&mut pages, alloc, Spot { page: 0, index: 0 }, block)?;
        Ok(BlockPages { pages, len: 1 })
    }

    /// How many blocks there are.
    pub fn len(&self) -> usize
        ensures { result ≡ length self.now }
    {
        self.len
    }

    /// Whether there is none.
    pub fn is_empty(&self) -> bool
        ensures { result ≡ true → self.now ≡ [] }
    {
        self.len == 0
    }

    /// The number of a block, and 0 where it has none.
    pub fn number_at(&self, at: BlockPos) -> u16
        ensures { result ≡ block_in self.now at }
    {
        pages::number_at(&self.pages, at)
    }

    /// Adds all blocks to a list, in order of place.
    pub fn add_to(&self, list: &mut Vec<BlockAt>) -> Result<(), AllocError>
        ensures { OnOk result (list.new.items ≡ list.old.items ++ self.now) }
    {
        pages::add_to(&self.pages, list)
    }

    /// Lets all blocks join a list in order of place that has room for them. Takes no memory.
    pub fn join_to(&self, list: &mut Vec<BlockAt>)
        requires order { IsStrictlySortedBy by_place list.old.items }
        requires apart { (at : BlockPos) → sum_by (one_at at) list.old.items
            + sum_by (one_at at) self.now ≤ 1 }
        requires room { vec_len list.old + length self.now ≤ vec_capacity list.old }
        ensures order { IsStrictlySortedBy by_place list.new.items }
        ensures joined { (f : BlockAt → ℕ) → sum_by f list.new.items
            ≡ sum_by f list.old.items + sum_by f self.now }
        ensures capacity { vec_capacity list.old ≤ vec_capacity list.new }
    {
        pages::join_to(&self.pages, list);
    }

    /// Gives a block its number where it is there or memory is found for it, and says whether it did. `len` counts one that was not
    /// there.
    pub fn put(&mut self, alloc: Global, block: BlockAt, len: &mut usize) -> bool
        requires counted { length self.old ≤ len.old }
        requires few { len.old < usize.MAX }
        ensures order { IsStrictlySortedBy by_place self.new }
        ensures put { result ≡ true → Puts self.old self.new block }
        ensures absent { result ≡ false → count_by (stands_at block.at) self.old ≡ 0 }
        ensures same { result ≡ false → self.new ≡ self.old }
        ensures counted { len.new + length self.old ≡ len.old + length self.new }
    {
        match pages::search(&self.pages, block.at) {
            Ok(spot) => {
                pages::replace(&mut self.pages, spot, block);
                true
            }
            Err(spot) => match pages::insert_at(&mut self.pages, alloc, spot, block) {
                Ok(()) => {
                    self.len += 1;
                    *len += 1;
                    true
                }
                Err(_) => false,
            },
        }
    }

    /// Adds a block that is not there. The blocks stay where this fails.
    pub fn add(&mut self, alloc: Global, block: BlockAt) -> Result<(), AllocError>
        requires absent { count_by (stands_at block.at) self.old ≡ 0 }
        requires few { length self.old < usize.MAX }
        ensures order { IsStrictlySortedBy by_place self.new }
        ensures ok { OnOk result (OneMore self.old self.new block) }
        ensures err { OnErr result (self.new ≡ self.old) }
    {
        match pages::search(&self.pages, block.at) {
            Ok(_) => unreachable!(),
            Err(spot) => match pages::insert_at(&mut self.pages, alloc, spot, block) {
                Ok(()) => {
                    self.len += 1;
                    Ok(())
                }
                Err(_) => Err(AllocError),
            },
        }
    }

    /// Takes a block out, where it is there. `len` counts it no more. Takes no memory.
    pub fn clear(&mut self, at: BlockPos, len: &mut usize)
        requires counted { length self.old ≤ len.old }
        ensures order { IsStrictlySortedBy by_place self.new }
        ensures cleared { Clears self.old self.new at }
        ensures counted { len.new + length self.old ≡ len.old + length self.new }
    {
        match pages::search(&self.pages, at) {
            Ok(spot) => {
                pages::take_out(&mut self.pages, spot);
                self.len -= 1;
                *len -= 1;
            }
            Err(_) => {}
        }
    }
}

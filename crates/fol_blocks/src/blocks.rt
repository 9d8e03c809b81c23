//! The blocks of a region: those of each chunk by themselves, and the few that came last.

ghost use Rattle.std.specs.Prelude.{◌≡◌, ℕ, ◌+◌, ◌≤◌, ◌<◌, ◌++◌, ◌↔◌, length, [], sum_by, count_by, vec_len, IsTrue, OnOk};
ghost use Rattle.std.specs.Vec.{vec_capacity};
ghost use Rattle.std.specs.List.Sorted.{IsStrictlySortedBy};
ghost use Rattle.fol_model.specs.declared.places.BlockPos.{BlockPos};
ghost use Rattle.fol_model.specs.declared.openings.BlockAt.{BlockAt};
ghost use Rattle.fol_model.specs.ActionStep.{at_block};
ghost use Rattle.fol_model.specs.World.{block_in};
ghost use Rattle.fol_keyed.specs.Order.{chunk_cmp};
ghost use Rattle.fol_blocks.specs.Weights.{SameBlocks, Puts, Clears, Sets, only, one_at, stands_at, lies_in, lies_outside};
ghost use Rattle.fol_blocks.specs.Kept.{blocks_of, room_of, AreLaid, IsKept};

use crate::cells::{self, Cells, key_around};
use crate::{block_list, moves};
use fol_keyed::{ChunkList, count_listed};
use fol_model::{BlockAt, BlockPos, ChunkPos};
use std::alloc::{AllocError, Global};
use std::collections::HashMap;

/// A region takes no more blocks than these.
const MOST_BLOCKS: usize = 1 << 40;

/// Room is made for so many more chunks at once, at most.
const MOST_CELLS: usize = 4096;

/// The blocks of a region, each with a number above 0. They lie by chunk. A block that came when no memory was found for it in its
/// chunk is fresh, and joins those of its chunk when room is made.
#[derive(Drop)]
pub struct Blocks {
    cells: Cells,
    fresh: Vec<BlockAt>,
    /// How many blocks there are in all.
    len: usize,
}

impl Blocks {
    /// None. Takes no memory.
    pub fn new(alloc: Global) -> Blocks
        ensures kept { IsKept result }
        ensures none { blocks_of result ≡ [] }
    {
        Blocks {
            cells: HashMap::new(alloc),
            fresh: Vec::new(alloc),
            len: 0,
        }
    }

    /// Whether there is no block.
    pub fn is_empty(&self) -> bool
        requires { IsKept self.now }
        ensures { IsTrue result ↔ (length (blocks_of self.now) ≡ 0) }
    {
        self.len == 0
    }

    /// How many more blocks there is room for.
    pub fn spare(&self) -> usize
        requires { IsKept self.now }
        ensures { result ≡ room_of self.now }
    {
        let fresh = self.fresh.capacity() - self.fresh.len();
        fresh.min(MOST_BLOCKS - self.len)
    }

    /// Makes `spare` at least `n`. The blocks stay either way. Fails when out of memory, or where there would be more than 2^40 blocks.
    pub fn reserve(&mut self, n: usize) -> Result<(), AllocError>
        requires { IsKept self.old }
        ensures kept { IsKept self.new }
        ensures numbers { block_in (blocks_of self.new) ≡ block_in (blocks_of self.old) }
        ensures len { length (blocks_of self.new) ≡ length (blocks_of self.old) }
        ensures ok { OnOk result (n ≤ room_of self.new) }
        ensures room { room_of self.old ≤ room_of self.new }
    {
        if n > MOST_BLOCKS - self.len {
            return Err(AllocError);
        }
        self.settle()?;
        self.fresh.reserve(n)?;
        self.cells.reserve(n.min(MOST_CELLS))
    }

    /// Lets the fresh blocks join those of their chunks. The blocks stay either way.
    fn settle(&mut self) -> Result<(), AllocError>
        requires { IsKept self.old }
        ensures kept { IsKept self.new }
        ensures same { SameBlocks (blocks_of self.old) (blocks_of self.new) }
        ensures room { room_of self.old ≤ room_of self.new }
        ensures len { self.new.len ≡ self.old.len }
    {
        while !self.fresh.is_empty() {
            self.settle_last()?;
        }
        Ok(())
    }

    /// Lets the last fresh block join those of its chunk.
    fn settle_last(&mut self) -> Result<(), AllocError>
        requires kept { IsKept self.old }
        requires some { 0 < vec_len self.old.fresh }
        ensures kept { IsKept self.new }
        ensures same { SameBlocks (blocks_of self.old) (blocks_of self.new) }
        ensures room { room_of self.old ≤ room_of self.new }
        ensures len { self.new.len ≡ self.old.len }
        ensures fewer { OnOk result (vec_len self.new.fresh < vec_len self.old.fresh) }
    {
        let block = self.fresh[self.fresh.len() - 1];
        let alloc = *self.fresh.allocator();
        cells::add(&mut self.cells, alloc, key_around(block.at), block)?;
        let _ = self.fresh.pop();
        Ok(())
    }

    /// The number of a block, and 0 where it has none.
    pub fn number_at(&self, at: BlockPos) -> u16
        requires { IsKept self.now }
        ensures { result ≡ block_in (blocks_of self.now) at }
    {
        let id = cells::number_at(&self.cells, key_around(at), at);
        if id > 0 {
            return id;
        }
        block_list::number_at(&self.fresh, at)
    }

    /// How many blocks lie in the chunks, which stand by z, and then by x.
    pub fn count_listed(&self, chunks: &[ChunkPos]) -> usize
        requires kept { IsKept self.now }
        requires order { IsStrictlySortedBy chunk_cmp chunks.now }
        ensures count { result ≡ count_by (lies_in chunks.now) (blocks_of self.now) }
        ensures few { result ≤ MOST_BLOCKS }
    {
        cells::count_listed(&self.cells, chunks) + count_listed(&self.fresh, &ChunkList::of(chunks))
    }

    /// Adds all blocks to a list, in no stated order. Fails only when out of memory.
    pub fn add_to(&self, list: &mut Vec<BlockAt>) -> Result<(), AllocError>
        ensures { OnOk result (list.new.items ≡ list.old.items ++ blocks_of self.now) }
    {
        cells::add_to(&self.cells, list)?;
        list.extend_from_slice(&self.fresh)
    }

    /// Gives a block its number; 0 takes its number away. Needs no memory: it takes some for the list of the block's chunk, if there is.
    pub fn set(&mut self, block: BlockAt)
        requires kept { IsKept self.old }
        requires room { 1 ≤ room_of self.old }
        ensures kept { IsKept self.new }
        ensures number { block_in (blocks_of self.new)
            ≡ at_block (block_in (blocks_of self.old)) block.at block.id }
        ensures len { length (blocks_of self.new) ≤ length (blocks_of self.old) + 1 }
        ensures room { room_of self.old ≤ room_of self.new + 1 }
    {
        self.change(block);
    }

    /// Gives a block its number, or takes it out.
    fn change(&mut self, block: BlockAt)
        requires laid { AreLaid self.old }
        requires len { self.old.len ≡ length (blocks_of self.old) }
        requires few { self.old.len < usize.MAX }
        requires room { vec_len self.old.fresh < vec_capacity self.old.fresh }
        ensures laid { AreLaid self.new }
        ensures set { Sets (blocks_of self.old) (blocks_of self.new) block }
        ensures counted { self.new.len + length (blocks_of self.old)
            ≡ self.old.len + length (blocks_of self.new) }
        ensures fresh_len { vec_len self.new.fresh ≤ vec_len self.old.fresh + 1 }
        ensures capacity { vec_capacity self.new.fresh ≡ vec_capacity self.old.fresh }
    {
        if block.id == 0 {
            self.clear(block.at);
        } else {
            self.put(block);
        }
    }

    /// Takes a block out, where it is there.
    fn clear(&mut self, at: BlockPos)
        requires laid { AreLaid self.old }
        requires counted { length (blocks_of self.old) ≤ self.old.len }
        ensures laid { AreLaid self.new }
        ensures cleared { Clears (blocks_of self.old) (blocks_of self.new) at }
        ensures counted { self.new.len + length (blocks_of self.old)
            ≡ self.old.len + length (blocks_of self.new) }
        ensures fresh_len { vec_len self.new.fresh ≤ vec_len self.old.fresh }
        ensures capacity { vec_capacity self.new.fresh ≡ vec_capacity self.old.fresh }
    {
        cells::clear(&mut self.cells, key_around(at), at, &mut self.len);
        block_list::clear(&mut self.fresh, at, &mut self.len);
    }

    /// Gives a block its number.
    fn put(&mut self, block: BlockAt)
        requires laid { AreLaid self.old }
        requires filled { 0 < block.id }
        requires counted { length (blocks_of self.old) ≤ self.old.len }
        requires few { self.old.len < usize.MAX }
        requires room { vec_len self.old.fresh < vec_capacity self.old.fresh }
        ensures laid { AreLaid self.new }
        ensures put { Puts (blocks_of self.old) (blocks_of self.new) block }
        ensures counted { self.new.len + length (blocks_of self.old)
            ≡ self.old.len + length (blocks_of self.new) }
        ensures fresh_len { vec_len self.new.fresh ≤ vec_len self.old.fresh + 1 }
        ensures capacity { vec_capacity self.new.fresh ≡ vec_capacity self.old.fresh }
    {
        if block_list::replace(&mut self.fresh, block) {
            return;
        }
        self.put_settled(block);
    }

    /// Gives a block its number that is not fresh.
    fn put_settled(&mut self, block: BlockAt)
        requires laid { AreLaid self.old }
        requires filled { 0 < block.id }
        requires counted { length (blocks_of self.old) ≤ self.old.len }
        requires few { self.old.len < usize.MAX }
        requires absent { count_by (stands_at block.at) self.old.fresh.items ≡ 0 }
        requires room { vec_len self.old.fresh < vec_capacity self.old.fresh }
        ensures laid { AreLaid self.new }
        ensures put { Puts (blocks_of self.old) (blocks_of self.new) block }
        ensures counted { self.new.len + length (blocks_of self.old)
            ≡ self.old.len + length (blocks_of self.new) }
        ensures fresh_len { vec_len self.new.fresh ≤ vec_len self.old.fresh + 1 }
        ensures capacity { vec_capacity self.new.fresh ≡ vec_capacity self.old.fresh }
    {
        let alloc = *self.fresh.allocator();
        if cells::put(
            &mut self.cells,
            alloc,
            key_around(block.at),
            block,
            &mut self.len,
        ) {
            return;
        }
        let _ = block_list::put(&mut self.fresh, block, &mut self.len);
    }

    /// Moves the blocks that lie in the chunks, which stand by z, and then by x. Takes no memory.
    pub fn move_listed(&mut self, chunks: &[ChunkPos], into: &mut Blocks)
        requires kept { IsKept self.old }
        requires into_kept { IsKept into.old }
        requires order { IsStrictlySortedBy chunk_cmp chunks.now }
        requires apart { (at : BlockPos) → sum_by (one_at at) (blocks_of into.old)
            + sum_by (only (lies_in chunks.now) (one_at at)) (blocks_of self.old) ≤ 1 }
        requires room { count_by (lies_in chunks.now) (blocks_of self.old) ≤ room_of into.old }
        ensures kept { IsKept self.new }
        ensures into_kept { IsKept into.new }
        ensures left { (f : BlockAt → ℕ) → sum_by f (blocks_of self.new)
            ≡ sum_by (only (lies_outside chunks.now) f) (blocks_of self.old) }
        ensures moved { (f : BlockAt → ℕ) → sum_by f (blocks_of into.new)
            ≡ sum_by f (blocks_of into.old)
            + sum_by (only (lies_in chunks.now) f) (blocks_of self.old) }
        ensures room { room_of self.old ≤ room_of self.new }
        ensures into_room { room_of into.old
            ≤ room_of into.new + count_by (lies_in chunks.now) (blocks_of self.old) }
    {
        let moved = moves::move_fresh(&mut self.fresh, chunks, &mut into.fresh)
            + moves::move_cells(&mut self.cells, chunks, &mut into.cells, &mut into.fresh);
        self.len -= moved;
        into.len += moved;
    }
}

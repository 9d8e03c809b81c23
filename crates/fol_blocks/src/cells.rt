//! The blocks of a region by chunk.

ghost use Rattle.std.specs.Prelude.{◌≡◌, ◌+◌, ◌≤◌, ◌<◌, ◌++◌, true, false, None, OnOk, OnErr, length, [], count_by};
ghost use Rattle.std.specs.List.Sorted.{IsStrictlySortedBy};
ghost use Rattle.fol_model.specs.World.{block_in};
ghost use Rattle.fol_keyed.specs.Order.{chunk_cmp};
ghost use Rattle.fol_blocks.specs.Weights.{SameBlocks, OneMore, Puts, Clears, stands_at, lies_in};
ghost use Rattle.fol_blocks.specs.Cells.{AreCells, blocks_in, blocks_at, cell_at, key_at};

use crate::block_pages::BlockPages;
use fol_model::{BlockAt, BlockPos, ChunkPos, chunk_of};
use std::alloc::{AllocError, Global};
use std::collections::HashMap;

/// The blocks of each chunk, in order of place, by the x and the z of the chunk.
pub type Cells = HashMap<(i32, i32), BlockPages>;

/// The key of a chunk: its x and its z.
pub fn key_of(c: ChunkPos) -> (i32, i32)
    ensures { result ≡ (c.x, c.z) }
{
    (c.x, c.z)
}

/// The key of the chunk in which a block lies: the x and the z of the chunk.
pub fn key_around(at: BlockPos) -> (i32, i32)
    ensures { result ≡ key_at at }
{
    key_of(chunk_of(at))
}

/// The number of a block, and 0 where it has none.
pub fn number_at(cells: &Cells, key: (i32, i32), at: BlockPos) -> u16
    requires cells { AreCells cells.now.entries }
    requires key { key ≡ key_at at }
    ensures { result ≡ block_in (blocks_in cells.now.entries) at }
{
    match cells.get(&key) {
        Some(cell) => cell.number_at(at),
        None => 0,
    }
}

/// How many blocks lie in a chunk.
fn count_at(cells: &Cells, key: (i32, i32)) -> usize
    ensures { result ≡ length (blocks_at cells.now.entries key) }
{
    match cells.get(&key) {
        Some(cell) => cell.len(),
        None => 0,
    }
}

/// How many blocks lie in the chunks.
pub fn count_listed(cells: &Cells, chunks: &[ChunkPos]) -> usize
    requires cells { AreCells cells.now.entries }
    requires order { IsStrictlySortedBy chunk_cmp chunks.now }
    requires few { length (blocks_in cells.now.entries) < usize.MAX }
    ensures { result ≡ count_by (lies_in chunks.now) (blocks_in cells.now.entries) }
{
    let mut count = 0;
    for c in chunks {
        count += count_at(cells, key_of(*c));
    }
    count
}

/// Adds all blocks to a list, in no stated order.
pub fn add_to(cells: &Cells, list: &mut Vec<BlockAt>) -> Result<(), AllocError>
    ensures { OnOk result (list.new.items ≡ list.old.items ++ blocks_in cells.now.entries) }
{
    for cell in cells.values() {
        cell.add_to(list)?;
    }
    Ok(())
}

/// Gives a block its number where it is there or memory is found for it in its chunk, and says whether it did. `len` counts one
/// that was not there.
pub fn put(
    cells: &mut Cells,
    alloc: Global,
    key: (i32, i32),
    block: BlockAt,
    len: &mut usize,
) -> bool
    requires cells { AreCells cells.old.entries }
    requires key { key ≡ key_at block.at }
    requires counted { length (blocks_in cells.old.entries) ≤ len.old }
    requires few { len.old < usize.MAX }
    ensures cells { AreCells cells.new.entries }
    ensures put { result ≡ true
        → Puts (blocks_in cells.old.entries) (blocks_in cells.new.entries) block }
    ensures absent { result ≡ false
        → count_by (stands_at block.at) (blocks_in cells.old.entries) ≡ 0 }
    ensures same { result ≡ false
        → SameBlocks (blocks_in cells.old.entries) (blocks_in cells.new.entries) }
    ensures counted { len.new + length (blocks_in cells.old.entries)
        ≡ len.old + length (blocks_in cells.new.entries) }
{
    match cells.get_mut(&key) {
        Some(cell) => cell.put(alloc, block, len),
        None => put_first(cells, alloc, key, block, len),
    }
}

/// Gives the first block of a chunk its number where memory is found for it, and says whether it did. `len` counts it.
fn put_first(
    cells: &mut Cells,
    alloc: Global,
    key: (i32, i32),
    block: BlockAt,
    len: &mut usize,
) -> bool
    requires cells { AreCells cells.old.entries }
    requires key { key ≡ key_at block.at }
    requires few { len.old < usize.MAX }
    requires none { cell_at cells.old.entries key ≡ None }
    ensures cells { AreCells cells.new.entries }
    ensures put { result ≡ true
        → Puts (blocks_in cells.old.entries) (blocks_in cells.new.entries) block }
    ensures same { result ≡ false
        → SameBlocks (blocks_in cells.old.entries) (blocks_in cells.new.entries) }
    ensures counted { len.new + length (blocks_in cells.old.entries)
        ≡ len.old + length (blocks_in cells.new.entries) }
{
    match open(cells, alloc, key, block) {
        Ok(()) => {
            *len += 1;
            true
        }
        Err(_) => false,
    }
}

/// Adds a block that is not there. The blocks stay where this fails.
pub fn add(
    cells: &mut Cells,
    alloc: Global,
    key: (i32, i32),
    block: BlockAt,
) -> Result<(), AllocError>
    requires cells { AreCells cells.old.entries }
    requires key { key ≡ key_at block.at }
    requires few { length (blocks_in cells.old.entries) < usize.MAX }
    requires absent { count_by (stands_at block.at) (blocks_in cells.old.entries) ≡ 0 }
    ensures cells { AreCells cells.new.entries }
    ensures ok { OnOk result (OneMore (blocks_in cells.old.entries)
        (blocks_in cells.new.entries) block) }
    ensures err { OnErr result (SameBlocks (blocks_in cells.old.entries)
        (blocks_in cells.new.entries)) }
{
    match cells.get_mut(&key) {
        Some(cell) => cell.add(alloc, block),
        None => open(cells, alloc, key, block),
    }
}

/// Adds the first block of a chunk.
fn open(cells: &mut Cells, alloc: Global, key: (i32, i32), block: BlockAt) -> Result<(), AllocError>
    requires cells { AreCells cells.old.entries }
    requires key { key ≡ key_at block.at }
    requires absent { cell_at cells.old.entries key ≡ None }
    ensures cells { AreCells cells.new.entries }
    ensures ok { OnOk result (OneMore (blocks_in cells.old.entries)
        (blocks_in cells.new.entries) block) }
    ensures err { OnErr result (SameBlocks (blocks_in cells.old.entries)
        (blocks_in cells.new.entries)) }
{
    let cell = BlockPages::of(alloc, block)?;
    match cells.insert(key, cell) {
        Ok(_) => Ok(()),
        Err(_) => Err(AllocError),
    }
}

/// Takes a block out of the list of its chunk, and says whether the list is empty then. `len` counts it no more.
fn take_out(cells: &mut Cells, key: (i32, i32), at: BlockPos, len: &mut usize) -> bool
    requires cells { AreCells cells.old.entries }
    requires key { key ≡ key_at at }
    requires counted { length (blocks_in cells.old.entries) ≤ len.old }
    ensures cells { AreCells cells.new.entries }
    ensures cleared { Clears (blocks_in cells.old.entries) (blocks_in cells.new.entries) at }
    ensures counted { len.new + length (blocks_in cells.old.entries)
        ≡ len.old + length (blocks_in cells.new.entries) }
    ensures empty { result ≡ true → blocks_at cells.new.entries key ≡ [] }
{
    match cells.get_mut(&key) {
        Some(cell) => {
            cell.clear(at, len);
            cell.is_empty()
        }
        None => false,
    }
}

/// Takes a block out, where it is there. `len` counts it no more. Takes no memory.
pub fn clear(cells: &mut Cells, key: (i32, i32), at: BlockPos, len: &mut usize)
    requires cells { AreCells cells.old.entries }
    requires key { key ≡ key_at at }
    requires counted { length (blocks_in cells.old.entries) ≤ len.old }
    ensures cells { AreCells cells.new.entries }
    ensures cleared { Clears (blocks_in cells.old.entries) (blocks_in cells.new.entries) at }
    ensures counted { len.new + length (blocks_in cells.old.entries)
        ≡ len.old + length (blocks_in cells.new.entries) }
{
    if take_out(cells, key, at, len) {
        let _ = cells.remove(&key);
    }
}

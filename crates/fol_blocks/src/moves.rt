//! What moves from the blocks of one region to those of another.

ghost use Rattle.std.specs.Prelude.{◌≡◌, ℕ, ◌+◌, ◌≤◌, length, sum_by, count_by, vec_len};
ghost use Rattle.std.specs.Vec.{vec_capacity};
ghost use Rattle.std.specs.List.Sorted.{IsStrictlySortedBy};
ghost use Rattle.fol_model.specs.declared.places.BlockPos.{BlockPos};
ghost use Rattle.fol_model.specs.declared.openings.BlockAt.{BlockAt};
ghost use Rattle.fol_keyed.specs.Order.{chunk_cmp};
ghost use Rattle.fol_blocks.specs.Order.{by_place};
ghost use Rattle.fol_blocks.specs.Weights.{only, one_at, lies_in, lies_outside};
ghost use Rattle.fol_blocks.specs.Cells.{AreCells, IsCell, blocks_in, lies_at, is_astray};

use crate::block_pages::BlockPages;
use crate::cells::{Cells, key_of};
use fol_keyed::{ChunkList, move_listed};
use fol_model::{BlockAt, ChunkPos};

/// Moves the fresh blocks that lie in the chunks, and says how many they are.
pub fn move_fresh(fresh: &mut Vec<BlockAt>, chunks: &[ChunkPos], into: &mut Vec<BlockAt>) -> usize
    requires chunks { IsStrictlySortedBy chunk_cmp chunks.now }
    requires order { IsStrictlySortedBy by_place fresh.old.items }
    requires into_order { IsStrictlySortedBy by_place into.old.items }
    requires apart { (at : BlockPos) → sum_by (one_at at) into.old.items
        + sum_by (only (lies_in chunks.now) (one_at at)) fresh.old.items ≤ 1 }
    requires room { vec_len into.old + count_by (lies_in chunks.now) fresh.old.items
        ≤ vec_capacity into.old }
    ensures order { IsStrictlySortedBy by_place fresh.new.items }
    ensures into_order { IsStrictlySortedBy by_place into.new.items }
    ensures left { (f : BlockAt → ℕ) → sum_by f fresh.new.items
        ≡ sum_by (only (lies_outside chunks.now) f) fresh.old.items }
    ensures moved { (f : BlockAt → ℕ) → sum_by f into.new.items
        ≡ sum_by f into.old.items + sum_by (only (lies_in chunks.now) f) fresh.old.items }
    ensures count { result ≡ count_by (lies_in chunks.now) fresh.old.items }
    ensures capacity { vec_capacity fresh.old ≤ vec_capacity fresh.new }
    ensures into_capacity { vec_capacity into.old ≤ vec_capacity into.new }
{
    let before = fresh.len();
    move_listed(fresh, &ChunkList::of(chunks), into);
    before - fresh.len()
}

/// Moves the blocks that lie in the chunks by the lists of their chunks, and says how many they are. Takes no memory.
pub fn move_cells(
    cells: &mut Cells,
    chunks: &[ChunkPos],
    into: &mut Cells,
    fresh: &mut Vec<BlockAt>,
) -> usize
    requires cells { AreCells cells.old.entries }
    requires into_cells { AreCells into.old.entries }
    requires order { IsStrictlySortedBy by_place fresh.old.items }
    requires apart { (at : BlockPos) → sum_by (one_at at) (blocks_in into.old.entries)
        + sum_by (one_at at) fresh.old.items
        + sum_by (only (lies_in chunks.now) (one_at at)) (blocks_in cells.old.entries) ≤ 1 }
    requires room { vec_len fresh.old + count_by (lies_in chunks.now) (blocks_in cells.old.entries)
        ≤ vec_capacity fresh.old }
    ensures cells { AreCells cells.new.entries }
    ensures into_cells { AreCells into.new.entries }
    ensures order { IsStrictlySortedBy by_place fresh.new.items }
    ensures left { (f : BlockAt → ℕ) → sum_by f (blocks_in cells.new.entries)
        ≡ sum_by (only (lies_outside chunks.now) f) (blocks_in cells.old.entries) }
    ensures moved { (f : BlockAt → ℕ) → sum_by f (blocks_in into.new.entries)
        + sum_by f fresh.new.items ≡ sum_by f (blocks_in into.old.entries)
        + sum_by f fresh.old.items
        + sum_by (only (lies_in chunks.now) f) (blocks_in cells.old.entries) }
    ensures count { result ≡ count_by (lies_in chunks.now) (blocks_in cells.old.entries) }
    ensures len { vec_len fresh.new ≤ vec_len fresh.old + result }
    ensures capacity { vec_capacity fresh.old ≤ vec_capacity fresh.new }
{
    let mut moved = 0;
    for c in chunks {
        moved += move_cell(cells, key_of(*c), into, fresh);
    }
    moved
}

/// Moves the list of a chunk, and says how many blocks it has.
fn move_cell(
    cells: &mut Cells,
    key: (i32, i32),
    into: &mut Cells,
    fresh: &mut Vec<BlockAt>,
) -> usize
    requires cells { AreCells cells.old.entries }
    requires into_cells { AreCells into.old.entries }
    requires order { IsStrictlySortedBy by_place fresh.old.items }
    requires apart { (at : BlockPos) → sum_by (one_at at) (blocks_in into.old.entries)
        + sum_by (one_at at) fresh.old.items
        + sum_by (only (lies_at key) (one_at at)) (blocks_in cells.old.entries) ≤ 1 }
    requires room { vec_len fresh.old + count_by (lies_at key) (blocks_in cells.old.entries)
        ≤ vec_capacity fresh.old }
    ensures cells { AreCells cells.new.entries }
    ensures into_cells { AreCells into.new.entries }
    ensures order { IsStrictlySortedBy by_place fresh.new.items }
    ensures left { (f : BlockAt → ℕ) → sum_by f (blocks_in cells.new.entries)
        ≡ sum_by (only (is_astray key) f) (blocks_in cells.old.entries) }
    ensures moved { (f : BlockAt → ℕ) → sum_by f (blocks_in into.new.entries)
        + sum_by f fresh.new.items ≡ sum_by f (blocks_in into.old.entries)
        + sum_by f fresh.old.items
        + sum_by (only (lies_at key) f) (blocks_in cells.old.entries) }
    ensures count { result ≡ count_by (lies_at key) (blocks_in cells.old.entries) }
    ensures len { vec_len fresh.new ≤ vec_len fresh.old + result }
    ensures capacity { vec_capacity fresh.old ≤ vec_capacity fresh.new }
{
    match cells.remove(&key) {
        Some(cell) => take_in(into, fresh, key, cell),
        None => 0,
    }
}

/// Takes the list of a chunk in, and says how many blocks it has. They become fresh where the chunk has a list already, and where
/// there is no room for another list. Takes no memory.
fn take_in(cells: &mut Cells, fresh: &mut Vec<BlockAt>, key: (i32, i32), cell: BlockPages) -> usize
    requires cells { AreCells cells.old.entries }
    requires order { IsStrictlySortedBy by_place fresh.old.items }
    requires cell { IsCell key cell }
    requires apart { (at : BlockPos) → sum_by (one_at at) (blocks_in cells.old.entries)
        + sum_by (one_at at) fresh.old.items + sum_by (one_at at) cell ≤ 1 }
    requires room { vec_len fresh.old + length cell ≤ vec_capacity fresh.old }
    ensures cells { AreCells cells.new.entries }
    ensures order { IsStrictlySortedBy by_place fresh.new.items }
    ensures moved { (f : BlockAt → ℕ) → sum_by f (blocks_in cells.new.entries)
        + sum_by f fresh.new.items ≡ sum_by f (blocks_in cells.old.entries)
        + sum_by f fresh.old.items + sum_by f cell }
    ensures count { result ≡ length cell }
    ensures len { vec_len fresh.new ≤ vec_len fresh.old + length cell }
    ensures capacity { vec_capacity fresh.old ≤ vec_capacity fresh.new }
{
    let moved = cell.len();
    if cells.len() < cells.capacity() && !cells.contains_key(&key) {
        match cells.insert(key, cell) {
            Ok(_) => {}
            Err(_) => unreachable!(),
        }
    } else {
        cell.join_to(fresh);
    }
    moved
}

//! A list of blocks in order of place.

ghost use Rattle.std.specs.Prelude.{◌≡◌, ◌+◌, ◌<◌, ◌≤◌, true, false, vec_len, count_by, MatchResult};
ghost use Rattle.std.specs.Vec.{vec_capacity};
ghost use Rattle.std.specs.List.Sorted.{IsStrictlySortedBy, IsPartitionPoint};
ghost use Rattle.std.specs.declared.cmp.Ordering.TheVariants.{Less, Greater};
ghost use Rattle.fol_model.specs.Universe.{block_cmp};
ghost use Rattle.fol_model.specs.World.{block_in};
ghost use Rattle.fol_blocks.specs.Pages.{Found, Lacking};
ghost use Rattle.fol_blocks.specs.Order.{by_place};
ghost use Rattle.fol_blocks.specs.Weights.{OneMore, Puts, Clears, stands_at};

use fol_keyed::compare_blocks;
use fol_model::{BlockAt, BlockPos};

/// Where the block stands in the list, or where it would stand.
pub fn place_of(blocks: &[BlockAt], at: BlockPos) -> Result<usize, usize>
    requires { IsStrictlySortedBy by_place blocks.now }
    ensures { MatchResult result (Found blocks.now at) (Lacking blocks.now at) }
{
    blocks.binary_search_by(|block| compare_blocks(block.at, at))
}

/// The number of a block, and 0 where it has none.
pub fn number_at(blocks: &[BlockAt], at: BlockPos) -> u16
    requires { IsStrictlySortedBy by_place blocks.now }
    ensures { result ≡ block_in blocks.now at }
{
    match place_of(blocks, at) {
        Ok(i) => blocks[i].id,
        Err(_) => 0,
    }
}

/// Gives a block that is there its number, and says whether it is.
pub fn replace(blocks: &mut Vec<BlockAt>, block: BlockAt) -> bool
    requires { IsStrictlySortedBy by_place blocks.old.items }
    ensures order { IsStrictlySortedBy by_place blocks.new.items }
    ensures put { result ≡ true → Puts blocks.old.items blocks.new.items block }
    ensures absent { result ≡ false → count_by (stands_at block.at) blocks.old.items ≡ 0 }
    ensures same { result ≡ false → blocks.new.items ≡ blocks.old.items }
    ensures len { vec_len blocks.new ≡ vec_len blocks.old }
    ensures capacity { vec_capacity blocks.new ≡ vec_capacity blocks.old }
{
    match place_of(blocks, block.at) {
        Ok(i) => {
            blocks[i] = block;
            true
        }
        Err(_) => false,
    }
}

/// Gives a block its number where it is there or there is room for it, and says whether it did. `len` counts one that was not there.
/// Takes no memory.
pub fn put(blocks: &mut Vec<BlockAt>, block: BlockAt, len: &mut usize) -> bool
    requires order { IsStrictlySortedBy by_place blocks.old.items }
    requires few { len.old < usize.MAX }
    ensures order { IsStrictlySortedBy by_place blocks.new.items }
    ensures put { result ≡ true → Puts blocks.old.items blocks.new.items block }
    ensures absent { result ≡ false → count_by (stands_at block.at) blocks.old.items ≡ 0 }
    ensures same { result ≡ false → blocks.new.items ≡ blocks.old.items }
    ensures room { vec_len blocks.old < vec_capacity blocks.old → result ≡ true }
    ensures len { vec_len blocks.new ≤ vec_len blocks.old + 1 }
    ensures counted { len.new + vec_len blocks.old ≡ len.old + vec_len blocks.new }
    ensures capacity { vec_capacity blocks.new ≡ vec_capacity blocks.old }
{
    match place_of(blocks, block.at) {
        Ok(i) => {
            blocks[i] = block;
            true
        }
        Err(i) => insert_within(blocks, i, block, len),
    }
}

/// Puts a block between others where there is room for it, and says whether there is. `len` counts it. Takes no memory.
fn insert_within(blocks: &mut Vec<BlockAt>, i: usize, block: BlockAt, len: &mut usize) -> bool
    requires few { len.old < usize.MAX }
    requires order { IsStrictlySortedBy by_place blocks.old.items }
    requires place { i ≤ vec_len blocks.old }
    requires absent { IsPartitionPoint (λ x. block_cmp x.at block.at ≡ Less) (λ x.
        block_cmp x.at block.at ≡ Greater) blocks.old.items i }
    ensures order { IsStrictlySortedBy by_place blocks.new.items }
    ensures put { result ≡ true → OneMore blocks.old.items blocks.new.items block }
    ensures same { result ≡ false → blocks.new.items ≡ blocks.old.items }
    ensures room { vec_len blocks.old < vec_capacity blocks.old → result ≡ true }
    ensures len { vec_len blocks.new ≤ vec_len blocks.old + 1 }
    ensures counted { len.new + vec_len blocks.old ≡ len.old + vec_len blocks.new }
    ensures capacity { vec_capacity blocks.new ≡ vec_capacity blocks.old }
{
    if blocks.len() == blocks.capacity() {
        return false;
    }
    match blocks.insert(i, block) {
        Ok(()) => {
            *len += 1;
            true
        }
        Err(_) => unreachable!(),
    }
}

/// Takes a block out, where it is there. `len` counts it no more.
pub fn clear(blocks: &mut Vec<BlockAt>, at: BlockPos, len: &mut usize)
    requires order { IsStrictlySortedBy by_place blocks.old.items }
    requires counted { vec_len blocks.old ≤ len.old }
    ensures order { IsStrictlySortedBy by_place blocks.new.items }
    ensures cleared { Clears blocks.old.items blocks.new.items at }
    ensures len { vec_len blocks.new ≤ vec_len blocks.old }
    ensures counted { len.new + vec_len blocks.old ≡ len.old + vec_len blocks.new }
    ensures capacity { vec_capacity blocks.new ≡ vec_capacity blocks.old }
{
    match place_of(blocks, at) {
        Ok(i) => {
            let _ = blocks.remove(i);
            *len -= 1;
        }
        Err(_) => {}
    }
}

//! Pages of blocks: short lists that, one behind another, are one list in order of place.

ghost use Rattle.std.specs.Prelude.{◌≡◌, ◌-◌, true, false, ℕ, ◌+◌, ◌<◌, ◌≤◌, ◌++◌, ◌∷◌, [], length, vec_len, sum_by, slice_index_or, slice_set, MatchResult, OnOk, OnErr, All};
ghost use Rattle.std.specs.Vec.{vec_capacity};
ghost use Rattle.std.specs.List.{insert, remove};
ghost use Rattle.std.specs.List.Sorted.{IsStrictlySortedBy};
ghost use Rattle.fol_model.specs.declared.places.BlockPos.{BlockPos};
ghost use Rattle.fol_model.specs.declared.openings.BlockAt.{BlockAt};
ghost use Rattle.fol_model.specs.World.{block_in};
ghost use Rattle.fol_blocks.specs.Order.{by_place};
ghost use Rattle.fol_blocks.specs.Weights.{one_at};
ghost use Rattle.fol_blocks.specs.Pages.{ArePages, Found, HasSpot, IsAround, IsPage, Lacking, IsSplit, TakesSpot, blocks_on, place_of as place, starts_by as starts};

use crate::block_list;
use fol_keyed::{compare_blocks, join};
use fol_model::{BlockAt, BlockPos};
use std::alloc::{AllocError, Global};

/// A page has no more blocks than these.
const MOST_IN_PAGE: usize = 256;

/// How many blocks of a full page stay in it where it is split.
const HALF_PAGE: usize = MOST_IN_PAGE / 2;

/// Where a block stands or would stand.
#[derive(Clone, Copy)]
pub struct Spot {
    pub page: usize,
    /// How many blocks of the page stand before it.
    pub index: usize,
}

/// Whether the first block of a page does not stand behind a place.
fn starts_by(page: &[BlockAt], at: BlockPos) -> bool
    ensures { result ≡ starts at page.now }
{
    match page {
        [first, ..] => !compare_blocks(first.at, at).is_gt(),
        [] => true,
    }
}

/// In which page a block stands or would stand, if there are pages.
fn page_around(pages: &[Vec<BlockAt>], at: BlockPos) -> usize
    requires { ArePages pages.now }
    ensures within { result ≤ length pages.now }
    ensures page { 0 < length pages.now → result < length pages.now }
    ensures around { IsAround pages.now at result }
{
    if pages.len() < 2 {
        return 0;
    }
    pages
        .partition_point(|page| starts_by(page, at))
        .saturating_sub(1)
}

/// Where a block stands, or where it would stand.
pub fn search(pages: &[Vec<BlockAt>], at: BlockPos) -> Result<Spot, Spot>
    requires { ArePages pages.now }
    ensures { MatchResult result (λ s. HasSpot pages.now s
        × Found (blocks_on pages.now) at (place pages.now s)) (λ s. TakesSpot pages.now s
        × Lacking (blocks_on pages.now) at (place pages.now s)) }
{
    let page = page_around(pages, at);
    if page == pages.len() {
        return Err(Spot { page, index: 0 });
    }
    match block_list::place_of(&pages[page], at) {
        Ok(index) => Ok(Spot { page, index }),
        Err(index) => Err(Spot { page, index }),
    }
}

/// The number of a block, and 0 where it has none.
pub fn number_at(pages: &[Vec<BlockAt>], at: BlockPos) -> u16
    requires { ArePages pages.now }
    ensures { result ≡ block_in (blocks_on pages.now) at }
{
    match search(pages, at) {
        Ok(spot) => pages[spot.page][spot.index].id,
        Err(_) => 0,
    }
}

/// Adds all blocks to a list, in order of place.
pub fn add_to(pages: &[Vec<BlockAt>], list: &mut Vec<BlockAt>) -> Result<(), AllocError>
    ensures { OnOk result (list.new.items ≡ list.old.items ++ blocks_on pages.now) }
{
    for page in pages {
        list.extend_from_slice(page)?;
    }
    Ok(())
}

/// Lets all blocks join a list in order of place that has room for them. Takes no memory.
pub fn join_to(pages: &[Vec<BlockAt>], list: &mut Vec<BlockAt>)
    requires pages { IsStrictlySortedBy by_place (blocks_on pages.now) }
    requires order { IsStrictlySortedBy by_place list.old.items }
    requires apart { (at : BlockPos) → sum_by (one_at at) list.old.items
        + sum_by (one_at at) (blocks_on pages.now) ≤ 1 }
    requires room { vec_len list.old + length (blocks_on pages.now) ≤ vec_capacity list.old }
    ensures order { IsStrictlySortedBy by_place list.new.items }
    ensures joined { (f : BlockAt → ℕ) → sum_by f list.new.items
        ≡ sum_by f list.old.items + sum_by f (blocks_on pages.now) }
    ensures capacity { vec_capacity list.old ≤ vec_capacity list.new }
{
    for page in pages {
        join(list, page);
    }
}

/// Puts a block in the place of the one that stands at a spot.
pub fn replace(pages: &mut Vec<Vec<BlockAt>>, spot: Spot, block: BlockAt)
    requires spot { HasSpot pages.old.items spot }
    requires sizes { All IsPage pages.old.items }
    ensures blocks { blocks_on pages.new.items
        ≡ slice_set (blocks_on pages.old.items) (place pages.old.items spot) block }
    ensures sizes { All IsPage pages.new.items }
{
    let page = &mut pages[spot.page];
    page[spot.index] = block;
}

/// Takes out the block that stands at a spot. Takes no memory.
pub fn take_out(pages: &mut Vec<Vec<BlockAt>>, spot: Spot)
    requires spot { HasSpot pages.old.items spot }
    requires sizes { All IsPage pages.old.items }
    ensures blocks { blocks_on pages.new.items
        ≡ remove (blocks_on pages.old.items) (place pages.old.items spot) }
    ensures sizes { All IsPage pages.new.items }
{
    if pages[spot.page].len() == 1 {
        let _ = pages.remove(spot.page);
    } else {
        take_within(pages, spot);
    }
}

/// Takes out a block of a page that has others.
fn take_within(pages: &mut Vec<Vec<BlockAt>>, spot: Spot)
    requires spot { HasSpot pages.old.items spot }
    requires sizes { All IsPage pages.old.items }
    requires others { (d : _) → 1 < length (slice_index_or pages.old.items spot.page d).items }
    ensures blocks { blocks_on pages.new.items
        ≡ remove (blocks_on pages.old.items) (place pages.old.items spot) }
    ensures sizes { All IsPage pages.new.items }
{
    let page = &mut pages[spot.page];
    let _ = page.remove(spot.index);
}

/// Puts a block in at a spot. The blocks stay where this fails.
pub fn insert_at(
    pages: &mut Vec<Vec<BlockAt>>,
    alloc: Global,
    spot: Spot,
    block: BlockAt,
) -> Result<(), AllocError>
    requires spot { TakesSpot pages.old.items spot }
    requires sizes { All IsPage pages.old.items }
    ensures ok { OnOk result (blocks_on pages.new.items
        ≡ insert (blocks_on pages.old.items) (place pages.old.items spot) block) }
    ensures err { OnErr result (blocks_on pages.new.items ≡ blocks_on pages.old.items) }
    ensures sizes { All IsPage pages.new.items }
{
    if is_behind_all(pages, spot) {
        return push_page(pages, alloc, block);
    }
    if pages[spot.page].len() < MOST_IN_PAGE {
        return insert_within(pages, spot, block);
    }
    insert_split(pages, spot, block)
}

/// Whether a spot is behind all blocks, where there is no page or the last one is full.
fn is_behind_all(pages: &[Vec<BlockAt>], spot: Spot) -> bool
    requires spot { TakesSpot pages.now spot }
    requires sizes { All IsPage pages.now }
    ensures end { result ≡ true → place pages.now spot ≡ length (blocks_on pages.now) }
    ensures page { result ≡ false → spot.page < length pages.now }
{
    spot.page == pages.len() || (spot.page + 1 == pages.len() && spot.index == MOST_IN_PAGE)
}

/// Puts a block in behind all others, in a page of its own. The blocks stay where this fails.
fn push_page(pages: &mut Vec<Vec<BlockAt>>, alloc: Global, block: BlockAt) -> Result<(), AllocError>
    requires { All IsPage pages.old.items }
    ensures ok { OnOk result (blocks_on pages.new.items
        ≡ blocks_on pages.old.items ++ block ∷ []) }
    ensures err { OnErr result (blocks_on pages.new.items ≡ blocks_on pages.old.items) }
    ensures sizes { All IsPage pages.new.items }
{
    let mut page = Vec::new(alloc);
    page.push(block)?;
    match pages.push(page) {
        Ok(()) => Ok(()),
        Err(_) => Err(AllocError),
    }
}

/// Puts a block in at a spot of a page that is not full. The blocks stay where this fails.
fn insert_within(
    pages: &mut Vec<Vec<BlockAt>>,
    spot: Spot,
    block: BlockAt,
) -> Result<(), AllocError>
    requires page { spot.page < vec_len pages.old }
    requires index { (d : _) → spot.index
        ≤ length (slice_index_or pages.old.items spot.page d).items }
    requires room { (d : _) → length (slice_index_or pages.old.items spot.page d).items
        < MOST_IN_PAGE }
    requires sizes { All IsPage pages.old.items }
    ensures ok { OnOk result (blocks_on pages.new.items
        ≡ insert (blocks_on pages.old.items) (place pages.old.items spot) block) }
    ensures err { OnErr result (blocks_on pages.new.items ≡ blocks_on pages.old.items) }
    ensures sizes { All IsPage pages.new.items }
{
    let page = &mut pages[spot.page];
    match page.insert(spot.index, block) {
        Ok(()) => Ok(()),
        Err(_) => Err(AllocError),
    }
}

/// Puts a block in at a spot of a full page, which is split for it. The blocks stay where this fails.
fn insert_split(pages: &mut Vec<Vec<BlockAt>>, spot: Spot, block: BlockAt) -> Result<(), AllocError>
    requires page { spot.page < vec_len pages.old }
    requires index { spot.index ≤ MOST_IN_PAGE }
    requires full { (d : _) → length (slice_index_or pages.old.items spot.page d).items
        ≡ MOST_IN_PAGE }
    requires sizes { All IsPage pages.old.items }
    ensures ok { OnOk result (blocks_on pages.new.items
        ≡ insert (blocks_on pages.old.items) (place pages.old.items spot) block) }
    ensures err { OnErr result (blocks_on pages.new.items ≡ blocks_on pages.old.items) }
    ensures sizes { All IsPage pages.new.items }
{
    split(pages, spot.page)?;
    insert_within(pages, split_spot(spot), block)
}

/// Where a spot of a full page is once the page is split.
fn split_spot(spot: Spot) -> Spot
    requires few { spot.index ≤ MOST_IN_PAGE }
    requires page { spot.page < usize.MAX }
    ensures front { spot.index ≤ HALF_PAGE → result ≡ spot }
    ensures back { HALF_PAGE < spot.index → result
        ≡ record { page = spot.page + 1; index = spot.index - HALF_PAGE } }
{
    if spot.index <= HALF_PAGE {
        spot
    } else {
        Spot {
            page: spot.page + 1,
            index: spot.index - HALF_PAGE,
        }
    }
}

/// Splits a full page in two halves. The pages stay where this fails.
fn split(pages: &mut Vec<Vec<BlockAt>>, i: usize) -> Result<(), AllocError>
    requires page { i < vec_len pages.old }
    requires full { (d : _) → length (slice_index_or pages.old.items i d).items ≡ MOST_IN_PAGE }
    requires sizes { All IsPage pages.old.items }
    ensures ok { OnOk result (IsSplit pages.old.items pages.new.items i) }
    ensures blocks { blocks_on pages.new.items ≡ blocks_on pages.old.items }
    ensures sizes { All IsPage pages.new.items }
{
    pages.reserve(1)?;
    let page = &mut pages[i];
    let back = page.split_off(HALF_PAGE)?;
    match pages.insert(i + 1, back) {
        Ok(()) => Ok(()),
        Err(_) => unreachable!(),
    }
}

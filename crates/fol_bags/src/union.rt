//! The chunks of a set and of a list together.

ghost use Rattle.std.specs.Prelude.{◌≡◌, true, false, OnOk, OnErr};
ghost use Rattle.std.specs.List.Sorted.{IsStrictlySortedBy};
ghost use Rattle.fol_model.specs.declared.places.ChunkPos.{ChunkPos};
ghost use Rattle.fol_chunks.specs.Contents.{is_recorded};
ghost use Rattle.fol_chunks.specs.Order.{chunk_cmp};
ghost use Rattle.fol_bags.specs.Unions.{IsPartOfUnion, IsUnion};

use fol_keyed::{ChunkSet, compare_chunks};
use fol_model::ChunkPos;
use std::alloc::{AllocError, Global};

/// Chunks that come are few up to so many.
const FEW: usize = 16;

/// They are few too where a set has so many times as many.
const MANY: usize = 8;

/// The chunks of a list come to a set that has none of them. Where they are few beside it, each finds its place, and the set is not gone over; else both
/// become one list. If memory runs out, some of them may have come, and no chunk is lost.
pub fn widen_all(alloc: Global, set: &mut ChunkSet, others: &[ChunkPos]) -> Result<(), AllocError>
    requires order { IsStrictlySortedBy chunk_cmp set.old }
    requires others_order { IsStrictlySortedBy chunk_cmp others.now }
    requires apart { (q : ChunkPos) → is_recorded others.now q ≡ true
        → is_recorded set.old q ≡ false }
    ensures ok { OnOk result (IsUnion set.old others.now set.new) }
    ensures err { OnErr result (IsPartOfUnion set.old others.now set.new) }
{
    set.settle_many();
    set.settle_for(others.len());
    if are_few(set, others.len()) {
        widen_each(set, others)
    } else {
        merge(alloc, set, others)
    }
}

/// Whether so many chunks are few beside those of a set.
fn are_few(set: &ChunkSet, coming: usize) -> bool {
    if coming <= FEW {
        return true;
    }
    match set.as_slice() {
        Some(chunks) => coming < chunks.len() / MANY,
        // Where changes still wait after `settle_for`, the set has more than four times as many.
        None => true,
    }
}

/// The chunks of a list come to a set one by one. If memory runs out, some of them may have come, and no chunk is lost.
fn widen_each(set: &mut ChunkSet, others: &[ChunkPos]) -> Result<(), AllocError>
    requires { IsStrictlySortedBy chunk_cmp set.old }
    ensures ok { OnOk result (IsUnion set.old others.now set.new) }
    ensures err { OnErr result (IsPartOfUnion set.old others.now set.new) }
{
    for c in others {
        set.widen(*c)?;
    }
    Ok(())
}

/// The chunks of a set and those of a list become one list. If memory runs out, the set stays.
fn merge(alloc: Global, set: &mut ChunkSet, others: &[ChunkPos]) -> Result<(), AllocError>
    requires order { IsStrictlySortedBy chunk_cmp set.old }
    requires others_order { IsStrictlySortedBy chunk_cmp others.now }
    requires apart { (q : ChunkPos) → is_recorded others.now q ≡ true
        → is_recorded set.old q ≡ false }
    ensures ok { OnOk result (IsUnion set.old others.now set.new) }
    ensures err { OnErr result (set.new ≡ set.old) }
{
    let mut list = set.copy(alloc)?;
    list.extend_from_slice(others)?;
    // Both lists are in order: the sort only merges two runs.
    list.sort_by(|a, b| compare_chunks(*a, *b))?;
    set.put(list);
    Ok(())
}

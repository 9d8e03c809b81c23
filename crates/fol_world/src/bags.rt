//! The bags of the store follow the regions.

ghost use Rattle.std.specs.Prelude.{◌≡◌, ℕ, ◌+◌, ◌≤◌, ◌^◌, length, true, filter, IfOk};
ghost use Rattle.std.specs.List.{AllByRecursion};
ghost use Rattle.fol_model.specs.Universe.{all_chunks};
ghost use Rattle.fol_model.specs.Outputs.{is_chunk_of};
ghost use Rattle.fol_regions.specs.Table.{grid_state};
ghost use Rattle.fol_regions.specs.Answers.{IsGiven};
ghost use Rattle.fol_store.specs.Stock.{bag_of, flat_of, jobs_of, next_of};
ghost use Rattle.fol_world.specs.Bags.{AreInOrder, CanJoin, Follow, Joins, opened_bags, owing_bags};
ghost use Rattle.fol_world.specs.Same.{SameThings};

use fol_model::ChunkPos;
use fol_regions::{MergePair, Regions};
use fol_store::Store;
use std::alloc::{AllocError, Global};

/// Each region of the pairs joins the other one, which then owes the greater number, and whose bag may be listed for the chunks of both.
pub(crate) fn join(store: &mut Store, merges: &[MergePair])
    requires can { CanJoin merges.now (bag_of store.old) }
    requires order { AreInOrder (bag_of store.old) }
    ensures bags { Joins merges.now (bag_of store.old) (bag_of store.new) }
    ensures things { SameThings store.old store.new }
    ensures next { next_of store.new ≡ next_of store.old }
    ensures spare { store.old.spare ≤ store.new.spare }
    ensures slots { store.old.slots ≤ store.new.slots }
{
    for pair in merges {
        store.unite(pair.from, pair.into);
    }
}

/// New regions get bags with these numbers.
pub(crate) fn open_all(store: &mut Store, ids: &[u64], tick: u64, owed: u32)
    requires follow { Follow (next_of store.old) ids.now }
    requires slots { length ids.now ≤ store.old.slots }
    requires tick { tick ≤ 2 ^ 62 }
    ensures bags { bag_of store.new ≡ opened_bags tick owed ids.now (bag_of store.old) }
    ensures things { SameThings store.old store.new }
    ensures next { next_of store.new ≡ next_of store.old + length ids.now }
    ensures spare { store.new.spare ≡ store.old.spare }
    ensures slots { store.old.slots ≤ store.new.slots + length ids.now }
{
    for id in ids {
        store.open(*id, tick, owed);
    }
}

/// Each of these regions owes `n`.
pub fn set_owed(store: &mut Store, ids: &[u64], n: u32)
    requires here { AllByRecursion (λ r. (bag_of store.old r).here ≡ true) ids.now }
    ensures bags { bag_of store.new ≡ owing_bags n ids.now (bag_of store.old) }
    ensures things { SameThings store.old store.new }
    ensures next { next_of store.new ≡ next_of store.old }
    ensures spare { store.new.spare ≡ store.old.spare }
{
    for id in ids {
        store.set_owed(*id, n);
    }
}

/// The loaded chunks of a region, in order.
pub(crate) fn list_chunks(
    alloc: Global,
    regions: &Regions,
    id: u64,
) -> Result<Vec<ChunkPos>, AllocError>
    requires { IsGiven (grid_state regions.now) id }
    ensures { IfOk result (λ chunks. chunks.items
        ≡ filter (is_chunk_of (grid_state regions.now) id) all_chunks) }
{
    let mut chunks = Vec::with_capacity(alloc, regions.chunk_count(id) as usize)?;
    regions.list_chunks(id, &mut chunks);
    Ok(chunks)
}

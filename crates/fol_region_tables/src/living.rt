//! A rising list of ids, into which ids come, and which forgets those of Dead regions where they are many.

ghost use Rattle.std.specs.Prelude.{◌≡◌, ℕ, ◌<◌, ◌≤◌, ◌∷◌, true, false, count_by, filter, is_some, length, nat_eq, slice_index_or};
ghost use Rattle.std.specs.Vec.{vec_capacity};
ghost use Rattle.std.specs.List.{list_any};
ghost use Rattle.std.specs.List.Sorted.{IsNonDecreasingBy, IsPermutation};
ghost use Rattle.fol_region_tables.specs.SlotKeys.{AreKeys, AreLiving, has_slot, table_of};

use crate::slots::{Region, has_slot};
use slab::Slab;

/// So many ids of Dead regions are never too many.
const FEW: usize = 64;

/// Puts an id into a rising list, unless it is there. The list has room for it, and no memory is taken.
///
/// An id above all others, as a new one is, comes to the end, and no place is looked for.
pub fn put_id(ids: &mut Vec<u64>, id: u64)
    requires rising { IsNonDecreasingBy (λ x. x) ids.old.items }
    requires room { length ids.old.items < vec_capacity ids.old }
    ensures rising { IsNonDecreasingBy (λ x. x) ids.new.items }
    ensures there { list_any (nat_eq id) ids.old.items ≡ true → ids.new.items ≡ ids.old.items }
    ensures put { list_any (nat_eq id) ids.old.items ≡ false
        → IsPermutation (id ∷ ids.old.items) ids.new.items }
    ensures capacity { vec_capacity ids.old ≤ vec_capacity ids.new }
{
    if is_above_all(ids, id) {
        ids.push_reserved(id);
        return;
    }
    match ids.binary_search(&id) {
        Ok(_) => {}
        Err(place) => {
            let _ = ids.insert(place, id);
        }
    }
}

/// Whether an id is above all of a rising list.
fn is_above_all(ids: &[u64], id: u64) -> bool
    requires { IsNonDecreasingBy (λ x. x) ids.now }
    ensures { result ≡ true → (k : ℕ) → k < length ids.now → slice_index_or ids.now k 0 < id }
{
    if ids.is_empty() {
        return true;
    }
    ids[ids.len() - 1] < id
}

/// Takes the ids of Dead regions out of a list. If there are none, no region is looked up.
pub fn keep_living(ids: &mut Vec<u64>, regions: &Slab<Region>, keys: &[u32])
    requires keys { AreKeys regions.now.slots regions.now.capacity keys.now }
    requires count { count_by (has_slot (table_of regions.now)) ids.old.items
        ≡ count_by is_some regions.now.slots }
    ensures kept { ids.new.items ≡ filter (has_slot (table_of regions.now)) ids.old.items }
    ensures capacity { vec_capacity ids.new ≡ vec_capacity ids.old }
{
    if ids.len() > regions.len() {
        ids.retain(|id| has_slot(regions, keys, *id));
    }
}

/// Takes the ids of Dead regions out of a list where they are at least as many as the others, and not few.
pub fn forget_gone(ids: &mut Vec<u64>, regions: &Slab<Region>, keys: &[u32])
    requires keys { AreKeys regions.now.slots regions.now.capacity keys.now }
    requires living { AreLiving (table_of regions.now) ids.old.items (vec_capacity ids.old) }
    ensures { AreLiving (table_of regions.now) ids.new.items (vec_capacity ids.new) }
{
    let gone = ids.len() - regions.len();
    if gone >= FEW && gone >= regions.len() {
        keep_living(ids, regions, keys);
    }
}

/// Makes room for one more id in a list, where some slot is free. Takes no memory.
pub fn make_room(ids: &mut Vec<u64>, regions: &Slab<Region>, keys: &[u32])
    requires keys { AreKeys regions.now.slots regions.now.capacity keys.now }
    requires living { AreLiving (table_of regions.now) ids.old.items (vec_capacity ids.old) }
    requires free { count_by is_some regions.now.slots < regions.now.capacity }
    ensures living { AreLiving (table_of regions.now) ids.new.items (vec_capacity ids.new) }
    ensures room { length ids.new.items < vec_capacity ids.new }
{
    if ids.len() == ids.capacity() {
        keep_living(ids, regions, keys);
    }
}

//! The regions that are not Dead, by id.

ghost use Rattle.std.specs.Prelude.{◌≡◌, ◌≢◌, ℕ, ◌<◌, ◌≤◌, nat_eq, nat_lt, if◌then◌else◌, Some, None, cond, IfOk, count_by, is_some, vec_len};
ghost use Rattle.std.specs.Vec.{vec_capacity};
ghost use Rattle.std.specs.List.{list_any};
ghost use Rattle.std.specs.List.Sorted.{IsStrictlySortedBy};
ghost use Rattle.std.specs.Ordering.{nat_cmp};
ghost use Rattle.fol_model.specs.declared.regions.State.TheVariants.{Dead};
ghost use Rattle.fol_model.specs.GridState.{with_state};
ghost use Rattle.fol_region_tables.specs.SlotKeys.{AreKeys, AreLiving, has_slot, key_at, table_of};
ghost use Rattle.fol_region_tables.specs.Slots.{has_id, region_at, slot_of, slot_state, state_in};

use crate::living::{forget_gone, keep_living, make_room, put_id};
use fol_model::{MOST_SECTIONS, State};
use slab::Slab;
use std::alloc::{AllocError, Global};
use std::marker::Model;

/// What a key says that does not know the slot of its region: all slots are looked through then.
const UNKNOWN: u32 = u32::MAX;

/// A region that is not Dead.
#[derive(Clone, Copy, Drop)]
pub struct Region {
    /// Its id, 1 and up.
    pub id: u64,
    /// What it may do.
    pub state: State,
}

/// A slot for each region that is not Dead. A Dead region costs its key alone.
#[derive(Drop)]
pub struct Slots {
    regions: Slab<Region>,
    /// By id: the slot of the region. A key counts only where the slot's region has the id, so those of Dead regions stay.
    keys: Vec<u32>,
    /// The ids of the regions, rising, and among them some of Dead regions, taken out once they are as many. There is memory for twice the slots.
    living: Vec<u64>,
}

impl Model for Slots {
    ghost use Rattle.fol_region_tables.specs.Slots.{SlotTable};

    ghost Value = { SlotTable };

    ghost use Rattle.std.specs.Vec.{vec_capacity};
    ghost use Rattle.fol_region_tables.specs.SlotKeys.{AreKeys, AreLiving, table_of};

    ghost view = { λ s. table_of s.regions };

    ghost invariant = { λ s. AreKeys s.regions.slots s.regions.capacity s.keys.items × AreLiving (table_of s.regions) s.living.items (vec_capacity s.living) };
}

impl Slots {
    ghost use Rattle.fol_region_tables.specs.declared.slots.Region.{Region};
    ghost use Rattle.fol_region_tables.specs.Slots.{SlotTable, has_id, region_at, slot_of, slot_state};

    /// No region. Takes the memory for 16,384 regions.
    pub fn new(alloc: Global) -> Result<Slots, AllocError>
        ensures none { IfOk result (λ v. (id : ℕ) → slot_of v id ≡ v.room) }
        ensures room { IfOk result (λ v. MOST_SECTIONS ≤ v.room) }
    {
        let regions = Slab::with_capacity(alloc, MOST_SECTIONS)?;
        let living = Vec::with_capacity(alloc, regions.capacity().saturating_mul(2))?;
        Ok(Slots {
            regions,
            keys: Vec::new(alloc),
            living,
        })
    }

    /// The same regions in the same slots, in memory of their own. There may be more slots.
    pub fn copy(&self, alloc: Global) -> Result<Slots, AllocError>
        ensures regions { IfOk result (λ v. v.regions ≡ self.now.regions) }
        ensures room { IfOk result (λ v. self.now.room ≤ v.room) }
    {
        let mut regions = self.regions.clone()?;
        regions.reserve(self.regions.capacity() - self.regions.len())?;
        let mut keys = Vec::with_capacity(alloc, self.keys.capacity())?;
        keys.extend_from_slice(&self.keys)?;
        let mut living = Vec::with_capacity(alloc, regions.capacity().saturating_mul(2))?;
        living.extend_from_slice(&self.living)?;
        Ok(Slots {
            regions,
            keys,
            living,
        })
    }

    /// Takes memory for the keys of all ids below this. Without it a region is found too, but more slowly.
    pub fn reserve_keys(&mut self, ids: usize) -> Result<(), AllocError>
        ensures { self.new ≡ self.old }
    {
        if ids > self.keys.capacity() {
            self.keys.reserve(ids - self.keys.len())?;
        }
        Ok(())
    }

    /// How many slots there are.
    pub fn room(&self) -> usize
        ensures room { result ≡ self.now.room }
        ensures most { MOST_SECTIONS ≤ result }
    {
        self.regions.capacity()
    }

    /// The region in a slot has just that slot.
    pub fn keeps_slots(&self)
        ensures own { (k : ℕ) (r : Region) → region_at self.now k ≡ Some r
            → slot_of self.now r.id ≡ k }
        ensures within { (k : ℕ) (r : Region) → region_at self.now k ≡ Some r → k < self.now.room }
    {
        let _keys = &self.keys;
    }

    /// The slot of a region, or `room` where it has none.
    pub fn find(&self, id: u64) -> usize
        ensures { result ≡ slot_of self.now id }
    {
        find_slot(&self.regions, &self.keys, id)
    }

    /// The state of a region; Dead where it has no slot.
    pub fn state(&self, id: u64) -> State
        ensures { result ≡ slot_state self.now id }
    {
        find_state(&self.regions, &self.keys, id)
    }

    /// The ids of the regions that have a slot, rising. Goes over these and at most as many others or 64, and takes memory for them.
    pub fn ids(&self, alloc: Global) -> Result<Vec<u64>, AllocError>
        ensures rising { IfOk result (λ ids. IsStrictlySortedBy nat_cmp ids.items) }
        ensures members { IfOk result (λ ids. (id : ℕ)
            → list_any (nat_eq id) ids.items ≡ nat_lt (slot_of self.now id) self.now.room) }
    {
        let mut ids = Vec::with_capacity(alloc, self.living.len())?;
        ids.extend_from_slice(&self.living)?;
        keep_living(&mut ids, &self.regions, &self.keys);
        Ok(ids)
    }

    /// Changes the state of a region that has a slot.
    pub fn set_state(&mut self, id: u64, state: State)
        requires { slot_of self.old id < self.old.room }
        ensures slots { slot_of self.new ≡ slot_of self.old }
        ensures states { slot_state self.new ≡ with_state (slot_state self.old) id state }
        ensures room { self.new.room ≡ self.old.room }
    {
        let slot = self.find(id);
        if let Some(region) = self.regions.get_mut(slot) {
            region.state = state;
        }
    }

    /// Gives a slot to a region that has none, and returns which. Takes no memory.
    pub fn insert(&mut self, id: u64, state: State) -> usize
        requires none { slot_of self.old id ≡ self.old.room }
        requires some_free { count_by is_some self.old.regions < self.old.room }
        ensures slots { slot_of self.new
            ≡ (λ q. if nat_eq id q then result else slot_of self.old q) }
        ensures states { slot_state self.new ≡ with_state (slot_state self.old) id state }
        ensures room { self.new.room ≡ self.old.room }
        ensures within { result < self.old.room }
        ensures fresh { (q : ℕ) → slot_of self.old q ≢ result }
    {
        make_room(&mut self.living, &self.regions, &self.keys);
        let slot = self.regions.insert_reserved(Region { id, state });
        put_key(&mut self.keys, id, slot);
        put_id(&mut self.living, id);
        slot
    }

    /// Takes the slot of a region back, if it has one: the region is Dead.
    pub fn remove(&mut self, id: u64)
        ensures slots { slot_of self.new
            ≡ (λ q. if nat_eq id q then self.old.room else slot_of self.old q) }
        ensures states { slot_state self.new ≡ with_state (slot_state self.old) id Dead }
        ensures room { self.new.room ≡ self.old.room }
    {
        let slot = self.find(id);
        if self.regions.try_remove(slot).is_some() {
            forget_gone(&mut self.living, &self.regions, &self.keys);
        }
    }
}

/// The slot of a region, or `room` where it has none.
fn find_slot(regions: &Slab<Region>, keys: &[u32], id: u64) -> usize
    requires { AreKeys regions.now.slots regions.now.capacity keys.now }
    ensures { result ≡ slot_of (table_of regions.now) id }
{
    let key = key_of(keys, id);
    if key == UNKNOWN {
        return look_for(regions, keys, id);
    }
    let slot = key as usize;
    if has(regions, slot, id) {
        slot
    } else {
        regions.capacity()
    }
}

/// The state of a region; Dead where it has no slot. Its slot is looked up once.
fn find_state(regions: &Slab<Region>, keys: &[u32], id: u64) -> State
    requires { AreKeys regions.now.slots regions.now.capacity keys.now }
    ensures { result ≡ slot_state (table_of regions.now) id }
{
    let key = key_of(keys, id);
    if key == UNKNOWN {
        return state_at(regions, look_for(regions, keys, id));
    }
    match regions.get(key as usize) {
        Some(region) => {
            if region.id == id {
                region.state
            } else {
                State::Dead
            }
        }
        None => State::Dead,
    }
}

/// The state of the region in a slot; Dead where it has none.
fn state_at(regions: &Slab<Region>, slot: usize) -> State
    ensures { result ≡ state_in (region_at (table_of regions.now) slot) }
{
    match regions.get(slot) {
        Some(region) => region.state,
        None => State::Dead,
    }
}

/// The slot of a region, or `room` where it has none. Goes over the slots.
#[cold]
#[inline(never)]
fn look_for(regions: &Slab<Region>, keys: &[u32], id: u64) -> usize
    requires { AreKeys regions.now.slots regions.now.capacity keys.now }
    ensures { result ≡ slot_of (table_of regions.now) id }
{
    let room = regions.capacity();
    for slot in 0..room {
        if has(regions, slot, id) {
            return slot;
        }
    }
    room
}

/// Whether a region has a slot.
pub fn has_slot(regions: &Slab<Region>, keys: &[u32], id: u64) -> bool
    requires { AreKeys regions.now.slots regions.now.capacity keys.now }
    ensures { result ≡ has_slot (table_of regions.now) id }
{
    find_slot(regions, keys, id) < regions.capacity()
}

/// Whether the region in a slot has this id.
fn has(regions: &Slab<Region>, slot: usize, id: u64) -> bool
    ensures { result ≡ has_id id (region_at (table_of regions.now) slot) }
{
    match regions.get(slot) {
        Some(region) => region.id == id,
        None => false,
    }
}

/// The key of an id.
fn key_of(keys: &[u32], id: u64) -> u32
    ensures { result ≡ key_at keys.now id }
{
    if id < keys.len() as u64 {
        keys[id as usize]
    } else {
        UNKNOWN
    }
}

/// The key that leads to a slot, if there is one.
fn key_for(slot: usize) -> u32
    ensures { result ≢ UNKNOWN → result ≡ slot }
{
    if slot < UNKNOWN as usize {
        slot as u32
    } else {
        UNKNOWN
    }
}

/// Makes the key of an id lead to a slot, where there is memory for the key. Takes no memory.
fn put_key(keys: &mut Vec<u32>, id: u64, slot: usize)
    ensures here { key_at keys.new.items id ≢ UNKNOWN → key_at keys.new.items id ≡ slot }
    ensures others { (q : ℕ) → q ≢ id → key_at keys.new.items q ≡ key_at keys.old.items q }
{
    if id < keys.capacity() as u64 {
        let at = id as usize;
        make_keys(keys, at);
        keys[at] = key_for(slot);
    }
}

/// Makes keys up to that of an id, for which there is memory.
fn make_keys(keys: &mut Vec<u32>, id: usize)
    requires { id < vec_capacity keys.old }
    ensures there { id < vec_len keys.new }
    ensures same { (q : ℕ) → key_at keys.new.items q ≡ key_at keys.old.items q }
{
    if id >= keys.len() {
        let _ = keys.resize(id + 1, UNKNOWN);
    }
}

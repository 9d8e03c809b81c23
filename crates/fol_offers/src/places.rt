//! Which region's tick lies in which slot.

ghost use Rattle.std.specs.Prelude.{◌≡◌, ◌<◌, ◌≤◌, ◌≢◌, ℕ, length, set, replicate, IfOk, IfSome, IsTrue, OnErr, OnOk, vec_capacity};
ghost use Rattle.std.specs.Option.{is_none};
ghost use Rattle.fol_offers.specs.Places.{AreFree, slot_in};

use std::alloc::{AllocError, Global};
use std::marker::Model;

/// The region of each slot, or 0 for a slot that is not in use. No region has two slots.
#[derive(Drop)]
pub(crate) struct Places {
    regions: Vec<u64>,
    /// The slot of each region that has one, by the region's id. A region past the end has none.
    slots: Vec<Option<u32>>,
    /// The slots that are not in use, with room for all.
    free: Vec<u32>,
}

impl Model for Places {
    ghost use Rattle.std.specs.Prelude.{ℕ, List, ◌≤◌, length, vec_capacity};
    ghost use Rattle.fol_offers.specs.Places.{AreFree, AreMatched};

    ghost Value = { List ℕ };

    ghost view = { λ p. p.regions.items };

    ghost invariant = { λ p. AreMatched p.regions.items p.slots.items
        × AreFree p.regions.items p.free.items
        × (length p.regions.items ≤ vec_capacity p.free) };
}

impl Places {
    ghost use Rattle.fol_offers.specs.Places.{region_at};

    /// So many slots, none of which is in use. Fails only when out of memory.
    pub(crate) fn new(alloc: Global, count: u32) -> Result<Places, AllocError>
        ensures { IfOk result (λ p. p ≡ replicate count 0) }
    {
        let free = all_slots(alloc, count)?;
        let regions = vec![in alloc; 0u64; count as usize]?;
        Ok(Places {
            regions,
            slots: Vec::new(alloc),
            free,
        })
    }

    /// The slot of a region; `None` exactly where it has none.
    pub(crate) fn slot_of(&self, region: u64) -> Option<u32>
        requires { 0 < region }
        ensures some { IfSome result (λ i. (i < length self.now)
            × (region_at self.now i ≡ region)) }
        ensures none { IsTrue (is_none result) → (i : ℕ) → region_at self.now i ≢ region }
    {
        match self.slots.get(region as usize) {
            Some(slot) => *slot,
            None => None,
        }
    }

    /// The region of each slot, and 0 for one that is not in use.
    pub(crate) fn regions(&self) -> &[u64]
        ensures { result.now ≡ self.now }
    {
        self.regions.as_slice()
    }

    /// Gives a slot that is not in use to a region that has none, and returns it. Fails when out of memory, and where each slot is in
    /// use; then nothing has changed.
    pub(crate) fn put(&mut self, region: u64) -> Result<u32, AllocError>
        requires id { 0 < region }
        requires fresh { (i : ℕ) → region_at self.old i ≢ region }
        ensures free { IfOk result (λ i. (i < length self.old) × (region_at self.old i ≡ 0)) }
        ensures placed { IfOk result (λ i. self.new ≡ set self.old i region) }
        ensures err { OnErr result (self.new ≡ self.old) }
    {
        let Some(slot) = self.free.last().copied() else {
            return Err(AllocError);
        };
        make_room(&mut self.slots, region)?;
        self.slots[region as usize] = Some(slot);
        let _ = self.free.pop();
        self.regions[slot as usize] = region;
        Ok(slot)
    }

    /// A slot that was in use is so no more. Takes no memory.
    pub(crate) fn clear(&mut self, slot: u32)
        requires { 0 < region_at self.old slot }
        ensures { self.new ≡ set self.old slot 0 }
    {
        let i = slot as usize;
        let region = self.regions[i];
        self.slots[region as usize] = None;
        self.regions[i] = 0;
        self.free.push_reserved(slot);
    }
}

/// Makes the list long enough for the slot of this region; the regions that are new to it have none.
fn make_room(slots: &mut Vec<Option<u32>>, region: u64) -> Result<(), AllocError>
    ensures same { (r : ℕ) → slot_in slots.new.items r ≡ slot_in slots.old.items r }
    ensures room { OnOk result (region < length slots.new.items) }
{
    while slots.len() <= region as usize {
        slots.push(None)?;
    }
    Ok(())
}

/// So many slots, the last one first.
fn all_slots(alloc: Global, count: u32) -> Result<Vec<u32>, AllocError>
    ensures free { IfOk result (λ slots. AreFree (replicate count 0) slots.items) }
    ensures room { IfOk result (λ slots. count ≤ vec_capacity slots) }
{
    let mut slots = Vec::with_capacity(alloc, count as usize)?;
    for i in 0..count {
        slots.push_reserved(count - 1 - i);
    }
    Ok(slots)
}

//! The bags by region.

ghost use Rattle.std.specs.Prelude.{◌≡◌, ◌+◌, ◌<◌, ◌≤◌, true, false, ℕ, nat_eq, if◌then◌else◌, [], ◌∷◌, ◌++◌, length, vec_len, IfOk, OnOk, IfSome, IsTrue};
ghost use Rattle.std.specs.Option.{is_none};
ghost use Rattle.fol_bags.specs.Slots.{no_slot, slot_in, is_open, SetsSlot};
ghost use Rattle.fol_bags.specs.Moves.{SameThings};
ghost use Rattle.fol_bags.specs.Things.{Key, no_data, things, IsTimely};

use crate::kept::Kept;
use crate::slot::Slot;
use std::alloc::{AllocError, Global};
use std::marker::Model;
use std::mem;

/// How many bags that are given back are used again, at most; others go back to the allocator.
const MOST_RETURNED: usize = 64;

/// The bag of each region by its id, and the memory for bags that are yet to be opened. A region that is over, and in whose bag nothing
/// lies any more, has no more than a pointer here.
#[derive(Drop)]
pub struct Bags {
    kept: Vec<Kept>,
    /// The memory for the bags that were asked for. `reserve` fills it up.
    pool: Vec<Box<Slot>>,
    /// Bags that were given back, which are used again first: each may have some room for what lies in one.
    returned: Vec<Box<Slot>>,
}

impl Model for Bags {
    ghost use Rattle.std.specs.Prelude.{◌-◌, min, vec_len};
    ghost use Rattle.std.specs.Vec.{vec_capacity};
    ghost use Rattle.fol_bags.specs.Slots.{BagRows};

    ghost Value = { BagRows };

    ghost view = { λ b. record { items = b.kept.items; free = min (vec_capacity b.kept - vec_len b.kept) (vec_len b.pool) } };
}

impl Bags {
    ghost use Rattle.std.specs.Borrow.{sem};
    ghost use Rattle.fol_bags.specs.BagLends.{LendsSlot, LendsSlotIf};
    ghost use Rattle.fol_bags.specs.Slots.{BagRows};

    /// The bags of no region: none, for an id that no region has.
    pub fn closed(alloc: Global) -> Result<Bags, AllocError>
        ensures { IfOk result (λ bags. bags.items ≡ no_slot ∷ []) }
    {
        let mut kept = Vec::new(alloc);
        kept.push(Kept::nothing())?;
        Ok(Bags {
            kept,
            pool: Vec::new(alloc),
            returned: Vec::with_capacity(alloc, MOST_RETURNED)?,
        })
    }

    /// How many more bags can be opened without taking memory.
    pub fn free(&self) -> usize
        ensures { result ≡ self.now.free }
    {
        (self.kept.capacity() - self.kept.len()).min(self.pool.len())
    }

    /// Makes `free` at least `n`. Takes memory; the bags stay either way.
    pub fn reserve(&mut self, alloc: Global, n: usize) -> Result<(), AllocError>
        ensures ok { OnOk result (n ≤ self.new.free) }
        ensures items { self.new.items ≡ self.old.items }
        ensures free { self.old.free ≤ self.new.free }
    {
        self.kept.reserve(n)?;
        fill(alloc, &mut self.pool, n)
    }

    /// Adds an empty bag with these counters.
    pub fn open(&mut self, alloc: Global, tick: u64, owed: u32)
        requires { 1 ≤ self.old.free }
        ensures body { SameThings (record no_data { tick = tick; owed = owed })
            (slot_in self.new.items (length self.old.items)).body }
        ensures tasks { (slot_in self.new.items (length self.old.items)).body.queues.tasks ≡ [] }
        ensures slots { (u : ℕ) → slot_in self.new.items u
            ≡ (if nat_eq (length self.old.items) u
            then record no_slot {
              body = (slot_in self.new.items (length self.old.items)).body;
              here = true;
              listed = true;
              calm = true;
            }
            else slot_in self.old.items u) }
        ensures len { length self.new.items ≡ length self.old.items + 1 }
        ensures free { self.old.free ≤ self.new.free + 1 }
    {
        let unused = match self.returned.pop() {
            Some(slot) => Some(slot),
            None => self.pool.pop(),
        };
        match unused {
            Some(mut slot) => {
                slot.reopen(alloc, tick, owed);
                self.kept.push_reserved(Kept::of(slot));
            }
            None => unreachable!(),
        }
    }

    /// The bag of a region, to be looked at.
    pub fn slot(&self, id: usize) -> &Slot
        requires { is_open (slot_in self.now.items id) ≡ true }
        ensures { result.now ≡ slot_in self.now.items id }
    {
        match self.get(id) {
            Some(slot) => slot,
            None => unreachable!(),
        }
    }

    /// The bag of a region, or of one that is over and in whose bag something may lie, to be looked at.
    pub fn get(&self, id: usize) -> Option<&Slot>
        requires { id < length self.now.items }
        ensures some { IfSome result (λ r. r.now ≡ slot_in self.now.items id) }
        ensures none { IsTrue (is_none result) → slot_in self.now.items id ≡ no_slot }
    {
        self.kept[id].get()
    }

    /// Lends the bag of a region. When the loan ends, it is what was written, and all other bags are as before.
    pub fn slot_mut(&mut self, id: usize) -> &mut Slot
        requires { is_open (slot_in self.old.items id) ≡ true }
        ensures* writes_back { sem 𝓛 (LendsSlot self.entry id result) }
        ensures value { result.now ≡ slot_in self.old.items id }
    {
        match self.get_mut(id) {
            Some(slot) => slot,
            None => unreachable!(),
        }
    }

    /// Lends the bag of a region, or of one that is over and in whose bag something may lie.
    pub fn get_mut(&mut self, id: usize) -> Option<&mut Slot>
        requires { id < length self.old.items }
        ensures* writes_back { sem 𝓛 (LendsSlotIf self.entry id result) }
        ensures some { IfSome result (λ r. r.now ≡ slot_in self.old.items id) }
        ensures none { IsTrue (is_none result) → slot_in self.old.items id ≡ no_slot }
    {
        self.kept[id].get_mut()
    }

    /// Takes a bag out, so that another can be changed beside it.
    pub fn lift(&mut self, id: usize) -> Kept
        requires { id < length self.old.items }
        ensures kept { result ≡ slot_in self.old.items id }
        ensures sets { SetsSlot id no_slot self.old self.new }
    {
        mem::replace(&mut self.kept[id], Kept::nothing())
    }

    /// Puts a bag in place of the one that the id has.
    pub fn lay(&mut self, id: usize, kept: Kept)
        requires { id < length self.old.items }
        ensures sets { SetsSlot id kept self.old self.new }
    {
        self.kept[id] = kept;
    }

    /// Gives back the memory of a bag that no region has any more, where nothing lies in it. The next bag that opens may have it.
    pub fn release(&mut self, id: usize)
        requires there { id < length self.old.items }
        requires list { (slot_in self.old.items id).taken ≡ false
            → (slot_in self.old.items id).list ≡ (slot_in self.old.items id).chunks }
        ensures things { (k : Key) → things (slot_in self.new.items id).body k
            ≡ things (slot_in self.old.items id).body k }
        ensures timely { IsTimely (slot_in self.old.items id).body
            → IsTimely (slot_in self.new.items id).body }
        ensures here { (slot_in self.old.items id).here ≡ true
            → (slot_in self.new.items id).body ≡ (slot_in self.old.items id).body }
        ensures sets { SetsSlot id
            (record (slot_in self.old.items id) { body = (slot_in self.new.items id).body })
            self.old self.new }
    {
        let over = self.kept[id].take_over();
        keep(&mut self.returned, over);
    }

    /// Each of them, by region.
    pub fn into_kept(self) -> Vec<Kept>
        ensures { result.items ≡ self.items }
    {
        self.kept
    }
}

/// Keeps a bag that was given back, if there is one, where there is room for it.
fn keep(returned: &mut Vec<Box<Slot>>, over: Option<Box<Slot>>)
    ensures { vec_len returned.old ≤ vec_len returned.new }
{
    if let Some(slot) = over {
        if returned.len() < returned.capacity() {
            returned.push_reserved(slot);
        }
    }
}

/// Makes the pool hold at least `n`. It loses none if memory runs out.
fn fill(alloc: Global, pool: &mut Vec<Box<Slot>>, n: usize) -> Result<(), AllocError>
    ensures ok { OnOk result (n ≤ vec_len pool.new) }
    ensures more { vec_len pool.old ≤ vec_len pool.new }
{
    while pool.len() < n {
        let slot = Box::new(alloc, Slot::opened(alloc, 0, 0))?;
        pool.push(slot)?;
    }
    Ok(())
}

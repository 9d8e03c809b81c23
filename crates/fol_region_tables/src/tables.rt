//! The tables of the regions, and their steps.

ghost use Rattle.std.specs.Prelude.{◌≡◌, ◌≢◌, ℕ, ◌+◌, ◌<◌, ◌≤◌, ◌^◌, true, false, IsTrue, [], length, filter, nat_abs, nat_eq, nat_lt, pos, ◌+ℤ◌, slice_index_or, if◌then◌else◌, IfOk, OnOk};
ghost use Rattle.std.specs.Int.{int_rem_euclid};
ghost use Rattle.fol_lists.specs.Numbered.{total};
ghost use Rattle.fol_model.specs.declared.places.SectionPos.{SectionPos};
ghost use Rattle.fol_model.specs.declared.regions.State.TheVariants.{Ready};
ghost use Rattle.fol_model.specs.Universe.{all_sections, count_sections, numbers_below};
ghost use Rattle.fol_region_tables.specs.Links.{first_id};
ghost use Rattle.fol_model.specs.Geometry.{is_among};
ghost use Rattle.fol_pages.specs.Pages.{LieIn};

use crate::links::Links;
use crate::owners::Owners;
use crate::rows::Rows;
use crate::slots::Slots;
use fol_model::{MOST_SECTIONS, SectionPos, State};
use std::alloc::{AllocError, Global};
use std::marker::Model;

/// Which region owns each section, what each region may do, and which region waits for which.
///
/// Contracts see a `Book`: its words `owner_of`, `state_of` and `waits_of` are the functions that it stands for, and `rows_of`,
/// `ahead_of` and `behind_of` the lists of a region.
#[derive(Drop)]
pub struct Tables {
    /// The region of each present section.
    pub(crate) owners: Owners,
    /// The slot of each region.
    pub(crate) slots: Slots,
    /// By slot: the sections of the region.
    pub(crate) rows: Rows,
    /// By slot: the regions that the region waits for.
    pub(crate) ahead: Links,
    /// By slot: the regions that wait for the region.
    pub(crate) behind: Links,
    /// The next id.
    pub(crate) next: u64,
}

impl Model for Tables {
    ghost use Rattle.fol_region_tables.specs.Book.{Book, IsBook};

    ghost Value = { Book };

    ghost view = { λ s. record { owned = s.owners.pages; free = s.owners.free; slots = s.slots; rows = s.rows; ahead = s.ahead; behind = s.behind; next = s.next } };

    ghost invariant = { λ s. IsBook (record { owned = s.owners.pages; free = s.owners.free; slots = s.slots; rows = s.rows; ahead = s.ahead; behind = s.behind; next = s.next }) };
}

impl Tables {
    ghost use Rattle.fol_region_tables.specs.Book.{Book, IsBook, owner_of, state_of, waits_of, is_live, rows_of, ahead_of, behind_of, SetsState, SetsPair, Merges, Gives, Makes, IsAlike, KeepsRoom, HandsOn, HandsOne};

    /// No region. Takes the memory for 16,384 sections.
    pub fn new(alloc: Global) -> Result<Tables, AllocError>
        ensures owner { IfOk result (λ b. (s : SectionPos) → owner_of b s ≡ 0) }
        ensures live { IfOk result (λ b. (r : ℕ) → is_live b r ≡ false) }
        ensures next { IfOk result (λ b. b.next ≡ 1) }
    {
        let slots = Slots::new(alloc)?;
        let numbers = slots.room();
        Ok(Tables {
            owners: Owners::new(alloc),
            slots,
            rows: Rows::new(alloc, numbers)?,
            ahead: Links::new(alloc, numbers)?,
            behind: Links::new(alloc, numbers)?,
            next: 1,
        })
    }

    /// The same tables with the same room, in memory of their own.
    pub fn copy(&self, alloc: Global) -> Result<Tables, AllocError>
        ensures same { IfOk result (IsAlike self.now) }
        ensures free { IfOk result (λ b. self.now.free ≤ b.free) }
        ensures ahead { IfOk result (λ b. (total b.ahead ≡ total self.now.ahead)
            × (b.ahead.room ≡ self.now.ahead.room)) }
        ensures behind { IfOk result (λ b. (total b.behind ≡ total self.now.behind)
            × (b.behind.room ≡ self.now.behind.room)) }
    {
        self.slots.keeps_slots();
        let slots = self.slots.copy(alloc)?;
        let numbers = slots.room();
        Ok(Tables {
            owners: self.owners.copy()?,
            slots,
            rows: self.rows.copy(alloc, numbers)?,
            ahead: self.ahead.copy(alloc, numbers)?,
            behind: self.behind.copy(alloc, numbers)?,
            next: self.next,
        })
    }

    /// What the lists of the tables keep.
    pub fn keeps_lists(&self)
        ensures { IsBook self.now }
    {
        let _next = &self.next;
    }

    /// The region of a section, or 0 where the section is not present.
    pub fn owner(&self, s: SectionPos) -> u64
        ensures { result ≡ owner_of self.now s }
    {
        self.owners.owner(s)
    }

    /// The regions of so many sections side by side in one page, from one on; fewer where the others have none.
    pub fn run(&self, s: SectionPos, len: u32) -> &[u64]
        requires { nat_abs (int_rem_euclid s.x (pos 32)) + len ≤ 32 }
        ensures owners { (i : ℕ) → i < len → slice_index_or result.now i 0
            ≡ owner_of self.now (record { x = s.x +ℤ pos i; z = s.z }) }
        ensures few { length result.now ≤ len }
    {
        self.owners.run(s, len)
    }

    /// The state of a region; Dead where it has no slot.
    pub fn state(&self, id: u64) -> State
        ensures { result ≡ state_of self.now id }
    {
        self.slots.state(id)
    }

    /// The regions that have a slot, rising.
    pub fn live(&self, alloc: Global) -> Result<Vec<u64>, AllocError>
        ensures { IfOk result (λ ids. ids.items
            ≡ filter (is_live self.now) (numbers_below self.now.next)) }
    {
        self.slots.ids(alloc)
    }

    /// The sections of a region, in order; none where it has no slot.
    pub fn sections(&self, id: u64) -> &[SectionPos]
        ensures { result.now ≡ rows_of self.now id }
    {
        let slot = self.slots.find(id);
        if slot < self.slots.room() {
            self.rows.get(slot)
        } else {
            &[]
        }
    }

    /// The regions that a region waits for, rising.
    pub fn waits_for(&self, id: u64) -> &[u64]
        ensures { result.now ≡ ahead_of self.now id }
    {
        let slot = self.slots.find(id);
        if slot < self.slots.room() {
            self.ahead.get(slot)
        } else {
            &[]
        }
    }

    /// The regions that wait for a region, rising.
    pub fn waiting(&self, id: u64) -> &[u64]
        ensures { result.now ≡ behind_of self.now id }
    {
        let slot = self.slots.find(id);
        if slot < self.slots.room() {
            self.behind.get(slot)
        } else {
            &[]
        }
    }

    /// How many sections a region has, if no region waits for it; 0 where one does, and where it has no slot.
    pub fn size_alone(&self, id: u64) -> usize
        ensures { result ≡ (if nat_eq (length (behind_of self.now id)) 0
            then length (rows_of self.now id) else 0) }
    {
        let slot = self.slots.find(id);
        if slot < self.slots.room() && self.behind.get(slot).is_empty() {
            self.rows.get(slot).len()
        } else {
            0
        }
    }

    /// Changes the state of a region that has a slot.
    pub fn set_state(&mut self, id: u64, state: State)
        requires { is_live self.old id ≡ true }
        ensures { SetsState self.old self.new id state }
    {
        self.slots.set_state(id, state);
    }

    /// A region waits for another one from now on.
    pub fn pair(&mut self, id: u64, other: u64)
        requires region { is_live self.old id ≡ true }
        requires other { is_live self.old other ≡ true }
        requires room { (total self.old.ahead < self.old.ahead.room)
            × (total self.old.behind < self.old.behind.room) }
        ensures pair { SetsPair self.old self.new id other true }
        ensures free { self.new.free ≡ self.old.free }
        ensures ahead { (total self.new.ahead ≤ total self.old.ahead + 1)
            × (self.new.ahead.room ≡ self.old.ahead.room) }
        ensures behind { (total self.new.behind ≤ total self.old.behind + 1)
            × (self.new.behind.room ≡ self.old.behind.room) }
    {
        let slot = self.slots.find(id);
        let to = self.slots.find(other);
        self.ahead.insert(slot, other);
        self.behind.insert(to, id);
    }

    /// A region does not wait for another one any more.
    pub fn part(&mut self, id: u64, other: u64)
        requires region { is_live self.old id ≡ true }
        requires other { is_live self.old other ≡ true }
        requires pair { waits_of self.old id other ≡ true }
        ensures pair { SetsPair self.old self.new id other false }
        ensures free { self.new.free ≡ self.old.free }
        ensures ahead { (total self.new.ahead + 1 ≤ total self.old.ahead)
            × (self.new.ahead.room ≡ self.old.ahead.room) }
        ensures behind { (total self.new.behind + 1 ≤ total self.old.behind)
            × (self.new.behind.room ≡ self.old.behind.room) }
    {
        let slot = self.slots.find(id);
        let to = self.slots.find(other);
        self.ahead.remove(slot, other);
        self.behind.remove(to, id);
    }

    /// Makes a region part of another one: sections and pairs go over. No region waits for the one that ends.
    pub fn merge(&mut self, id: u64, into: u64)
        requires region { is_live self.old id ≡ true }
        requires into { is_live self.old into ≡ true }
        requires apart { id ≢ into }
        requires last { (r : ℕ) → waits_of self.old r id ≡ false }
        requires awake { waits_of self.old into into ≡ false }
        ensures { Merges self.old self.new id into }
    {
        self.hand_on(id, into);
        let slot = self.slots.find(id);
        let to = self.slots.find(into);
        self.owners.give_all(self.rows.get(slot), into);
        self.rows.join(to, slot);
        self.slots.remove(id);
    }

    /// A region waits in place of another one from now on, but not for itself.
    fn hand_on(&mut self, id: u64, into: u64)
        requires region { is_live self.old id ≡ true }
        requires into { is_live self.old into ≡ true }
        requires apart { id ≢ into }
        requires awake { waits_of self.old into into ≡ false }
        ensures { HandsOn self.old self.new id into }
    {
        while let Some(other) = first_of(self.waits_for(id)) {
            self.keeps_lists();
            self.hand_one(id, into, other);
        }
    }

    /// A region waits for a third one in place of another one, but not for itself.
    fn hand_one(&mut self, id: u64, into: u64, other: u64)
        requires region { is_live self.old id ≡ true }
        requires into { is_live self.old into ≡ true }
        requires apart { id ≢ into }
        requires pair { waits_of self.old id other ≡ true }
        ensures { HandsOne self.old self.new id into other }
    {
        self.keeps_lists();
        self.part(id, other);
        if other != into {
            self.pair(into, other);
        }
    }

    /// Gives sections that have no owner to a region.
    pub fn give(&mut self, id: u64, sections: &[SectionPos])
        requires region { is_live self.old id ≡ true }
        requires absent { (s : SectionPos) → is_among sections.now s ≡ true
            → owner_of self.old s ≡ 0 }
        requires row { sections.now ≡ filter (is_among sections.now) all_sections }
        requires few { count_sections (λ s. nat_lt 0 (owner_of self.old s)) + length sections.now
            ≤ MOST_SECTIONS }
        requires room { LieIn (is_among sections.now) self.old.free }
        ensures gives { Gives self.old self.new sections.now id }
        ensures pairs { (self.new.ahead ≡ self.old.ahead) × (self.new.behind ≡ self.old.behind) }
    {
        let slot = self.slots.find(id);
        self.rows.unite(slot, sections);
        self.owners.give_all(sections, id);
    }

    /// Makes a region with the next id, which has sections that have no owner, and returns its id.
    pub fn make(&mut self, sections: &[SectionPos], state: State) -> u64
        requires some { 0 < length sections.now }
        requires absent { (s : SectionPos) → is_among sections.now s ≡ true
            → owner_of self.old s ≡ 0 }
        requires row { sections.now ≡ filter (is_among sections.now) all_sections }
        requires few { count_sections (λ s. nat_lt 0 (owner_of self.old s)) + length sections.now
            ≤ MOST_SECTIONS }
        requires room { LieIn (is_among sections.now) self.old.free }
        requires few_ids { self.old.next < 2 ^ 63 }
        ensures id { result ≡ self.old.next }
        ensures makes { Makes self.old self.new sections.now state }
        ensures pairs { (self.new.ahead ≡ self.old.ahead) × (self.new.behind ≡ self.old.behind) }
    {
        self.slots.keeps_slots();
        let id = self.next;
        let slot = self.slots.insert(id, state);
        self.rows.put(slot, sections);
        self.owners.give_all(sections, id);
        self.next += 1;
        id
    }
}

/// The first id of a list.
fn first_of(ids: &[u64]) -> Option<u64>
    ensures { result ≡ first_id ids.now }
{
    if ids.is_empty() { None } else { Some(ids[0]) }
}

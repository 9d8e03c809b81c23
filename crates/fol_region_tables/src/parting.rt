//! How a region loses sections, ends or falls into parts.

ghost use Rattle.std.specs.Prelude.{◌≡◌, ◌≢◌, ℕ, ◌<◌, ◌≤◌, ◌^◌, not, true, [], length, filter, nat_eq, nat_lt, OnOk};
ghost use Rattle.fol_lists.specs.Numbered.{total};
ghost use Rattle.fol_model.specs.declared.places.SectionPos.{SectionPos};
ghost use Rattle.fol_model.specs.declared.regions.State.TheVariants.{Dead};
ghost use Rattle.fol_model.specs.Universe.{count_sections};
ghost use Rattle.fol_model.specs.Geometry.{is_among};

use crate::tables::Tables;
use fol_model::{MOST_SECTIONS, SectionPos, State};
use fol_split::Splitter;
use std::alloc::AllocError;

impl Tables {
    ghost use Rattle.fol_region_tables.specs.Book.{HasRoomFor, IsAlike, is_live, owner_of, state_of, rows_of, ahead_of, behind_of};
    ghost use Rattle.fol_region_tables.specs.Parted.{Keeps, Ends, Splits, AreRows};

    /// The id that the next new region gets.
    pub fn next_id(&self) -> u64
        ensures { result ≡ self.now.next }
    {
        self.next
    }

    /// Whether a region waits for another one.
    pub fn is_waiting(&self, id: u64) -> bool
        ensures { result ≡ not (nat_eq (length (ahead_of self.now id)) 0) }
    {
        !self.waits_for(id).is_empty()
    }

    /// A region that is not Dead has a slot.
    pub fn keeps_states(&self)
        ensures { (r : ℕ) → state_of self.now r ≢ Dead → is_live self.now r ≡ true }
    {
        self.slots.keeps_slots();
    }

    /// Makes room for so many pages of sections, pairs and ids more. What the tables say stays either way.
    pub fn reserve(&mut self, pages: usize, pairs: usize, ids: usize) -> Result<(), AllocError>
        ensures same { IsAlike self.old self.new }
        ensures ok { OnOk result (HasRoomFor self.new pages pairs) }
        ensures free { self.old.free ≤ self.new.free }
        ensures ahead { (total self.new.ahead ≡ total self.old.ahead)
            × (self.old.ahead.room ≤ self.new.ahead.room) }
        ensures behind { (total self.new.behind ≡ total self.old.behind)
            × (self.old.behind.room ≤ self.new.behind.room) }
    {
        self.slots
            .reserve_keys((self.next as usize).saturating_add(ids))?;
        self.owners.reserve(pages)?;
        self.ahead.reserve(pairs)?;
        self.behind.reserve(pairs)
    }

    /// Leaves a region those of its sections that are in `living`. The others, which are in `dead`, have no owner any more.
    pub fn keep(&mut self, id: u64, living: &[SectionPos], dead: &[SectionPos])
        requires region { is_live self.old id ≡ true }
        requires some { 0 < length living.now }
        requires few { count_sections (λ s. nat_lt 0 (owner_of self.old s)) ≤ MOST_SECTIONS }
        requires dead { (s : SectionPos) → is_among dead.now s ≡ true → owner_of self.old s ≡ id }
        requires living { living.now ≡ filter (λ s. not (is_among dead.now s))
            (rows_of self.old id) }
        ensures { Keeps self.old self.new id living.now }
    {
        let slot = self.slots.find(id);
        self.owners.take_all_out(dead);
        self.rows.put(slot, living);
    }

    /// Ends a region that stands in no pair: its sections have no owner any more.
    pub fn end(&mut self, id: u64)
        requires region { is_live self.old id ≡ true }
        requires first { ahead_of self.old id ≡ [] }
        requires last { behind_of self.old id ≡ [] }
        ensures { Ends self.old self.new id }
    {
        let slot = self.slots.find(id);
        self.owners.take_all_out(self.rows.get(slot));
        self.rows.clear(slot);
        self.slots.remove(id);
    }

    /// Ends a region that stands in no pair, and makes each part of its sections a Ready region with the next id.
    pub fn split(&mut self, id: u64, parts: &Splitter)
        requires region { is_live self.old id ≡ true }
        requires first { ahead_of self.old id ≡ [] }
        requires last { behind_of self.old id ≡ [] }
        requires parts { AreRows (rows_of self.old id) parts.now }
        requires few { count_sections (λ s. nat_lt 0 (owner_of self.old s)) ≤ MOST_SECTIONS }
        requires few_ids { self.old.next < 2 ^ 62 }
        ensures { Splits self.old self.new id parts.now }
    {
        let slot = self.slots.find(id);
        self.rows.clear(slot);
        self.slots.remove(id);
        for i in 0..parts.count() {
            let part = parts.part(i);
            self.slots.keeps_slots();
            self.owners.give_all(part, self.next);
            let slot = self.slots.insert(self.next, State::Ready);
            self.rows.put(slot, part);
            self.next += 1;
        }
    }
}

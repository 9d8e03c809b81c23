//! The region of each present section.

ghost use Rattle.std.specs.Prelude.{◌≡◌, ℕ, ◌+◌, ◌<◌, ◌≤◌, IfOk, OnOk, nat_abs, pos, ◌+ℤ◌, length, if◌then◌else◌, slice_index_or};
ghost use Rattle.std.specs.Int.{int_rem_euclid};
ghost use Rattle.fol_model.specs.declared.places.SectionPos.{SectionPos};
ghost use Rattle.fol_model.specs.Geometry.{is_among};
ghost use Rattle.fol_pages.specs.Pages.{LieIn};

use crate::pages::{Pages, give_all, make_room, owner, run, take_all_out};
use fol_model::SectionPos;
use fol_pages::PageTable;
use std::alloc::{AllocError, Global};
use std::marker::Model;

/// The region of each section that has one, in pages. A page of which no section has a region any more stays until `reserve` finds too little room.
#[derive(Drop)]
pub struct Owners {
    pages: Pages,
}

impl Model for Owners {
    ghost use Rattle.fol_region_tables.specs.Owners.{Owned};

    ghost Value = { Owned };

    ghost view = { λ s. record { pages = s.pages.entries; free = s.pages.spare } };
}

impl Owners {
    ghost use Rattle.fol_region_tables.specs.Owners.{is_new, owner_in};

    /// No section has a region. Takes no memory.
    pub fn new(alloc: Global) -> Owners
        ensures { (s : SectionPos) → owner_in result.pages s ≡ 0 }
    {
        Owners {
            pages: PageTable::new(alloc),
        }
    }

    /// The region of a section, or 0 where it has none.
    pub fn owner(&self, s: SectionPos) -> u64
        ensures { result ≡ owner_in self.now.pages s }
    {
        owner(&self.pages, s)
    }

    /// The regions of so many sections side by side in one page, from one on; fewer where the others have none.
    pub fn run(&self, s: SectionPos, len: u32) -> &[u64]
        requires { nat_abs (int_rem_euclid s.x (pos 32)) + len ≤ 32 }
        ensures owners { (i : ℕ) → i < len → slice_index_or result.now i 0
            ≡ owner_in self.now.pages (record { x = s.x +ℤ pos i; z = s.z }) }
        ensures few { length result.now ≤ len }
    {
        run(&self.pages, s, len)
    }

    /// Gives the sections of a list to a region. Takes no memory.
    pub fn give_all(&mut self, sections: &[SectionPos], id: u64)
        requires room { LieIn (is_new (owner_in self.old.pages) sections.now) self.old.free }
        ensures owner { (q : SectionPos) → owner_in self.new.pages q
            ≡ (if is_among sections.now q then id else owner_in self.old.pages q) }
        ensures room { (n : ℕ) → LieIn (is_new (owner_in self.old.pages) sections.now) n
            → self.old.free ≤ self.new.free + n }
    {
        give_all(&mut self.pages, sections, id);
    }

    /// Takes the regions of the sections of a list.
    pub fn take_all_out(&mut self, sections: &[SectionPos])
        ensures owner { (q : SectionPos) → owner_in self.new.pages q
            ≡ (if is_among sections.now q then 0 else owner_in self.old.pages q) }
        ensures room { self.old.free ≤ self.new.free }
    {
        take_all_out(&mut self.pages, sections);
    }

    /// Makes room for so many pages more. The regions stay either way.
    pub fn reserve(&mut self, pages: usize) -> Result<(), AllocError>
        ensures owner { (q : SectionPos) → owner_in self.new.pages q ≡ owner_in self.old.pages q }
        ensures ok { OnOk result (pages ≤ self.new.free) }
        ensures room { self.old.free ≤ self.new.free }
    {
        make_room(&mut self.pages, pages)
    }

    /// The same regions with the same room, in memory of their own.
    pub fn copy(&self) -> Result<Owners, AllocError>
        ensures owner { IfOk result (λ v. (q : SectionPos) → owner_in v.pages q
            ≡ owner_in self.now.pages q) }
        ensures room { IfOk result (λ v. self.now.free ≤ v.free) }
    {
        let mut pages = self.pages.clone()?;
        pages.reserve(self.pages.capacity() - self.pages.len())?;
        Ok(Owners { pages })
    }
}

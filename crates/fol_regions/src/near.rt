//! The regions near a section.

ghost use Rattle.std.specs.Prelude.{◌≡◌, ◌+◌, ◌<◌, ◌≤◌, ◌++◌, [], length, IfOk, List, filter, nat_abs, nat_lt, pos};
ghost use Rattle.std.specs.Int.{int_rem_euclid};
ghost use Rattle.std.specs.List.{count_by};
ghost use Rattle.fol_model.specs.declared.places.SectionPos.{SectionPos};
ghost use Rattle.fol_model.specs.Universe.{numbers_below};
ghost use Rattle.fol_region_tables.specs.Book.{owner_of};
ghost use Rattle.fol_sections.specs.Rows.{row_of as run_of, section_at};
ghost use Rattle.fol_regions.specs.Near.{row_of, regions_of, is_close, noted};

use fol_model::{SectionPos, beside, corner};
use fol_pages::run_len;
use fol_region_tables::Tables;
use std::alloc::{AllocError, Global};
use std::marker::Model;

/// The most regions near a chunk: each has a section within the create and the merge radius of the chunk's own.
pub const MOST_NEAR: usize = 625;

/// The regions near a section, and the memory in which they are found. Contracts see their ids, rising.
#[derive(Drop)]
pub struct NearRegions {
    ids: Vec<u64>,
}

impl Model for NearRegions {
    ghost use Rattle.std.specs.Prelude.{ℕ, ◌≤◌, List};
    ghost use Rattle.std.specs.List.Sorted.{IsStrictlyIncreasing};
    ghost use Rattle.std.specs.Vec.{vec_capacity};

    ghost Value = { List ℕ };

    ghost view = { λ n. n.ids.items };

    ghost invariant = { λ n. (625 ≤ vec_capacity n.ids) × IsStrictlyIncreasing n.ids.items };
}

impl NearRegions {
    /// None yet. Takes the memory for as many as there can be.
    pub fn new(alloc: Global) -> Result<NearRegions, AllocError>
        ensures { IfOk result (λ n. n ≡ []) }
    {
        Ok(NearRegions {
            ids: Vec::with_capacity(alloc, MOST_NEAR)?,
        })
    }

    /// Their ids, rising.
    pub fn ids(&self) -> &[u64]
        ensures { result.now ≡ self.now }
    {
        self.ids.as_slice()
    }

    /// Finds the regions with a section within a radius, in order of id. Takes no memory.
    pub fn find(&mut self, tables: &Tables, home: SectionPos, reach: u8)
        requires home { (nat_abs home.x ≤ 1000008) × (nat_abs home.z ≤ 1000008) }
        requires reach { reach ≤ 12 }
        ensures near { self.new ≡ filter (is_close (owner_of tables.now) home reach)
            (numbers_below tables.now.next) }
        ensures few { length self.new ≤ 625 }
    {
        tables.keeps_lists();
        self.clear();
        let first = corner(home, reach);
        let side = 2 * reach as u32 + 1;
        for row in 0..side {
            find_row(tables, self, first, row, side);
        }
    }

    /// Forgets them.
    fn clear(&mut self)
        ensures { self.new ≡ [] }
    {
        self.ids.clear();
    }

    /// Adds an id in order, unless it is 0 or there.
    fn note(&mut self, id: u64)
        requires { length self.old < 625 }
        ensures noted { self.new ≡ noted id self.old }
        ensures few { length self.new ≤ length self.old + 1 }
    {
        if id == 0 || self.ids.contains(&id) {
            return;
        }
        let place = count_below(&self.ids, id);
        let _ = self.ids.insert(place, id);
    }
}

/// How many of some ids are below one.
fn count_below(ids: &[u64], id: u64) -> usize
    ensures { result ≡ count_by (λ k. nat_lt k id) ids.now }
{
    let mut count = 0;
    for k in ids {
        if *k < id {
            count += 1;
        }
    }
    count
}

/// Adds the regions of `n` sections in a row.
fn find_row(tables: &Tables, near: &mut NearRegions, first: SectionPos, row: u32, n: u32)
    requires first { (nat_abs first.x ≤ 1000020) × (nat_abs first.z ≤ 1000020) }
    requires counts { (row ≤ 25) × (n ≤ 25) }
    requires few { length near.old + n ≤ 625 }
    ensures near { (before : List SectionPos)
        → near.old ≡ regions_of (owner_of tables.now) tables.now.next before
        → near.new ≡ regions_of (owner_of tables.now) tables.now.next
        (before ++ row_of first row n) }
    ensures few { length near.new ≤ length near.old + n }
{
    let mut i = 0;
    while i < n {
        let s = beside(first, i, row);
        let len = run_len(s.x, n - i);
        find_run(tables, near, s, len);
        i += len;
    }
}

/// Adds the regions of so many sections side by side in one page, from one on. Neighbours mostly have the same one.
fn find_run(tables: &Tables, near: &mut NearRegions, s: SectionPos, len: u32)
    requires run { nat_abs (int_rem_euclid s.x (pos 32)) + len ≤ 32 }
    requires few { length near.old + len ≤ 625 }
    ensures near { (before : List SectionPos)
        → near.old ≡ regions_of (owner_of tables.now) tables.now.next before
        → near.new ≡ regions_of (owner_of tables.now) tables.now.next
        (before ++ run_of section_at s.x s.z len) }
    ensures few { length near.new ≤ length near.old + len }
{
    tables.keeps_lists();
    let ids = tables.run(s, len);
    let mut last = 0;
    for id in ids {
        if *id != last {
            near.note(*id);
            last = *id;
        }
    }
}

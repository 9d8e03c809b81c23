//! How many dead sections each region has at most.

ghost use Rattle.std.specs.Prelude.{◌≡◌, ℕ, ◌+◌, ◌<◌, ◌≤◌, ◌&&◌, true, nat_abs, nat_eq, nat_lt, if◌then◌else◌, count_by, min, pos, ◌+ℤ◌, IfOk, List, length, slice_index_or};
ghost use Rattle.std.specs.Int.{int_rem_euclid};
ghost use Rattle.std.specs.Vec.{vec_capacity};
ghost use Rattle.fol_model.specs.declared.places.SectionPos.{SectionPos};
ghost use Rattle.fol_region_tables.specs.Book.{owner_of};
ghost use Rattle.fol_regions.specs.Added.{is_id};
ghost use Rattle.fol_regions.specs.Changes.{into};
ghost use Rattle.fol_regions.specs.DeadBounds.{most_in, place};

use crate::MergePair;
use fol_model::{MOST_SECTIONS, SectionPos};
use fol_pages::run_len;
use fol_region_tables::Tables;
use std::alloc::{AllocError, Global};
use std::marker::Model;

/// A number that is known of a region.
#[derive(Clone, Copy, Drop)]
pub struct Known {
    /// The region's id.
    pub id: u64,
    /// What its dead sections are at most.
    pub most: u32,
}

/// A number for each region, which its dead sections are at most; 16,384 where no less is known.
///
/// A release of a region with few dead sections looks at none of them. Contracts see what is known, of which `most_in` makes a number for each region.
#[derive(Drop)]
pub struct DeadBounds {
    /// By the id modulo 16,384: what is known of the region. Of two regions with the same place only one is known, and nothing of a region
    /// whose place lies past the end. There is memory for all places.
    known: Vec<Known>,
}

impl Model for DeadBounds {
    ghost use Rattle.std.specs.Prelude.{◌≤◌, List};
    ghost use Rattle.std.specs.Vec.{vec_capacity};
    ghost use Rattle.fol_model.specs.declared.places.TheConstants.{MOST_SECTIONS};
    ghost use Rattle.fol_regions.specs.declared.dead_bounds.Known.{Known};

    ghost Value = { List Known };

    ghost view = { λ s. s.known.items };

    ghost invariant = { λ s. MOST_SECTIONS ≤ vec_capacity s.known };
}

impl DeadBounds {
    /// Nothing is known. Takes the memory for 16,384 regions, and writes none of it.
    pub fn new(alloc: Global) -> Result<DeadBounds, AllocError>
        ensures { IfOk result (λ most. (r : ℕ) → most_in most r ≡ MOST_SECTIONS) }
    {
        Ok(DeadBounds {
            known: Vec::with_capacity(alloc, MOST_SECTIONS)?,
        })
    }

    /// The number of a region.
    pub fn most(&self, id: u64) -> u32
        ensures { result ≡ most_in self.now id }
    {
        let at = place(id);
        if at >= self.known.len() {
            return MOST_SECTIONS as u32;
        }
        let known = self.known[at];
        if known.id == id {
            known.most
        } else {
            MOST_SECTIONS as u32
        }
    }

    /// Notes a number of a region. Less is known of another region with the same place from then on.
    pub fn set(&mut self, id: u64, most: u32)
        ensures { (r : ℕ) → min MOST_SECTIONS (if nat_eq id r then most else most_in self.old r)
            ≤ most_in self.new r }
    {
        let at = place(id);
        if at < self.known.len() {
            self.known[at] = Known { id, most };
        } else {
            add(&mut self.known, id, most);
        }
    }

    /// Notes sections that are dead since, each for its region. Takes no memory.
    pub fn note_died(&mut self, tables: &Tables, died: &[SectionPos])
        ensures { (r : ℕ) → 0 < r → min MOST_SECTIONS (most_in self.old r
            + count_by (λ s. nat_eq (owner_of tables.now s) r) died.now) ≤ most_in self.new r }
    {
        note_list(&mut self.known, tables, died);
    }
}

/// Notes a number of a region, with rows before it of which nothing is known where its place lies past the end. Takes no memory.
fn add(known: &mut Vec<Known>, id: u64, most: u32)
    requires { MOST_SECTIONS ≤ vec_capacity known.old }
    ensures noted { (r : ℕ) → min MOST_SECTIONS
        (if nat_eq id r then most else most_in known.old.items r) ≤ most_in known.new.items r }
    ensures capacity { vec_capacity known.old ≤ vec_capacity known.new }
{
    let at = place(id);
    let nothing = Known {
        id: 0,
        most: MOST_SECTIONS as u32,
    };
    while known.len() <= at {
        known.push_reserved(nothing);
    }
    known[at] = Known { id, most };
}

/// Notes each section of a list for its region. Sections that stand side by side in one page share one look-up.
fn note_list(known: &mut [Known], tables: &Tables, list: &[SectionPos])
    ensures { (r : ℕ) → 0 < r → min MOST_SECTIONS (most_in known.old r
        + count_by (λ s. nat_eq (owner_of tables.now s) r) list.now) ≤ most_in known.new r }
{
    let mut rest = list;
    while !rest.is_empty() {
        let (part, after) = rest.split_at(side_len(rest));
        note_run(known, tables.run(part[0], part.len() as u32));
        rest = after;
    }
}

/// Notes a section of each of these regions. Those that stand side by side are mostly the same, and are noted together.
fn note_run(known: &mut [Known], ids: &[u64])
    requires { length ids.now ≤ 32 }
    ensures { (r : ℕ) → min MOST_SECTIONS (most_in known.old r
        + count_by (λ id. nat_eq id r) ids.now) ≤ most_in known.new r }
{
    let mut rest = ids;
    while !rest.is_empty() {
        let (same, others) = rest.split_at(same_len(rest));
        raise(known, same[0], same.len() as u32);
        rest = others;
    }
}

/// How many ids at the head of a list are the same.
fn same_len(ids: &[u64]) -> usize
    requires { 0 < length ids.now }
    ensures some { 0 < result }
    ensures few { result ≤ length ids.now }
    ensures same { (k d : ℕ) → k < result → slice_index_or ids.now k d
        ≡ slice_index_or ids.now 0 d }
{
    let first = ids[0];
    for i in 1..ids.len() {
        if ids[i] != first {
            return i;
        }
    }
    ids.len()
}

/// Whether a section stands that many columns behind another one in its row.
fn is_beside(first: SectionPos, columns: usize, s: SectionPos) -> bool
    requires { columns ≤ 32 }
    ensures { result ≡ true → s ≡ record { x = first.x +ℤ pos columns; z = first.z } }
{
    s.z == first.z && s.x as i64 == first.x as i64 + columns as i64
}

/// How many sections at the head of a list stand side by side in one page.
fn side_len(list: &[SectionPos]) -> usize
    requires { 0 < length list.now }
    ensures some { 0 < result }
    ensures few { result ≤ length list.now }
    ensures side { (k : ℕ) (d : SectionPos) → k < result → slice_index_or list.now k d
        ≡ record {
          x = (slice_index_or list.now 0 d).x +ℤ pos k;
          z = (slice_index_or list.now 0 d).z;
        } }
    ensures run { (d : SectionPos)
        → nat_abs (int_rem_euclid (slice_index_or list.now 0 d).x (pos 32)) + result ≤ 32 }
{
    let first = list[0];
    let most = run_len(first.x, list.len().min(32) as u32) as usize;
    for i in 1..most {
        if !is_beside(first, i, list[i]) {
            return i;
        }
    }
    most
}

/// A region has so many dead sections more.
fn raise(known: &mut [Known], id: u64, more: u32)
    requires { more ≤ 32 }
    ensures { (r : ℕ) → min MOST_SECTIONS (most_in known.old r
        + (if nat_eq id r then more else 0)) ≤ most_in known.new r }
{
    let at = place(id);
    if at >= known.len() {
        return;
    }
    let before = known[at];
    if before.id == id {
        known[at] = Known {
            id,
            most: raised(before.most, more),
        };
    }
}

/// Where the number of a region is.
fn place(id: u64) -> usize
    ensures at { result ≡ place id }
    ensures few { result < MOST_SECTIONS }
{
    (id % MOST_SECTIONS as u64) as usize
}

/// So many more, but no more than 16,384.
fn raised(most: u32, more: u32) -> u32
    requires { more ≤ 32 }
    ensures { result ≡ min MOST_SECTIONS (most + more) }
{
    let limit = MOST_SECTIONS as u32;
    if most < limit {
        limit.min(most + more)
    } else {
        limit
    }
}

/// Nothing is known any more of the region that others became part of, if there is one.
pub fn forget_joined(bounds: &mut DeadBounds, merges: &[MergePair])
    ensures { (t : ℕ) (us : List ℕ) → merges.now ≡ into t us → (r : ℕ)
        → min MOST_SECTIONS (if (nat_eq t r && nat_lt 0 (length us)) then MOST_SECTIONS
        else most_in bounds.old r) ≤ most_in bounds.new r }
{
    if !merges.is_empty() {
        bounds.set(merges[0].into, MOST_SECTIONS as u32);
    }
}

/// New regions have no dead section.
pub fn note_created(bounds: &mut DeadBounds, ids: &[u64])
    ensures { (r : ℕ) → (if is_id ids.now r then 0 else min MOST_SECTIONS (most_in bounds.old r))
        ≤ most_in bounds.new r }
{
    for id in ids {
        bounds.set(*id, 0);
    }
}

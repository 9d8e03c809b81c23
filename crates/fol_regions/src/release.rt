//! The end of a tick: the regions that wait join, dead sections leave, and what is left falls into parts.

ghost use Rattle.std.specs.Prelude.{◌≡◌, ◌≢◌, ℕ, ◌+◌, ◌*◌, ◌<◌, ◌≤◌, ◌^◌, not, ◌||◌, ◌&&◌, true, false, IfOk, IsTrue, [], ◌++◌, length, filter, nat_eq, nat_le, nat_lt};
ghost use Rattle.std.specs.List.{All, IsDistinct, range_with_len};
ghost use Rattle.std.specs.Vec.{vec_capacity};
ghost use Rattle.fol_model.specs.declared.places.SectionPos.{SectionPos};
ghost use Rattle.fol_model.specs.declared.regions.State.TheVariants.{Ticking};
ghost use Rattle.fol_model.specs.Geometry.{same_section, is_among};
ghost use Rattle.fol_model.specs.GridNumbers.{IsGrid};
ghost use Rattle.fol_model.specs.Release.{release};
ghost use Rattle.fol_model.specs.Rules.{Rules};
ghost use Rattle.fol_model.specs.Universe.{count_sections};
ghost use Rattle.fol_sections.specs.Table.{holds_of, in_margin_of, presence_of};
ghost use Rattle.fol_region_tables.specs.Book.{owner_of, waits_of, is_live, rows_of, ahead_of, behind_of, KeepsRoom};
ghost use Rattle.fol_regions.specs.Changes.{into, nothing, release_change};
ghost use Rattle.fol_regions.specs.DeadBounds.{dead_count};
ghost use Rattle.fol_regions.specs.Released.{Cleans, Joins, with_parts};
ghost use Rattle.fol_split.specs.Parts.{ArePartsOf};

use crate::change::Change;
use fol_model::{Grid, MOST_SECTIONS, SectionPos, State};
use fol_region_tables::Tables;
use fol_sections::Sections;
use fol_split::Splitter;
use std::alloc::{AllocError, Global};
use std::marker::Model;

/// The memory in which a release works.
#[derive(Drop)]
pub struct Releaser {
    /// The regions that join.
    ids: Vec<u64>,
    cleaner: Cleaner,
}

impl Model for Releaser {
    ghost use Rattle.fol_model.specs.declared.places.TheConstants.{MOST_SECTIONS};
    ghost use Rattle.std.specs.Prelude.{ℕ, ◌≤◌};
    ghost use Rattle.std.specs.Vec.{vec_capacity};

    ghost Value = { ℕ };

    ghost view = { λ r. 0 };

    ghost invariant = { λ r. (MOST_SECTIONS ≤ vec_capacity r.ids) × (MOST_SECTIONS ≤ vec_capacity r.cleaner.living) × (MOST_SECTIONS ≤ vec_capacity r.cleaner.dead) };
}

impl Releaser {
    ghost use Rattle.fol_regions.specs.Released.{IsPresence, grid_of};

    /// Takes the memory for 16,384 sections.
    pub fn new(alloc: Global) -> Result<Releaser, AllocError> {
        Ok(Releaser {
            ids: Vec::with_capacity(alloc, MOST_SECTIONS)?,
            cleaner: Cleaner::new(alloc)?,
        })
    }

    /// Ends the tick of a Ticking region, which has at most `most` dead sections, and returns how many it has at most from then on;
    /// 16,384 where no less is known. Takes no memory.
    ///
    /// A region that nothing joins, and that has few dead sections, rests: none of its sections is looked at.
    pub fn release(
        &mut self,
        grid: Grid,
        tables: &mut Tables,
        sections: &mut Sections,
        change: &mut Change,
        id: u64,
        most: u32,
    ) -> u32
        requires grid { grid ≡ sections.old.grid }
        requires rules { Rules (grid_of sections.old tables.old) }
        requires presence { IsPresence sections.old tables.old }
        requires ticks { (grid_of sections.old tables.old).state id ≡ Ticking }
        requires few_ids { tables.old.next < 2 ^ 62 }
        requires dead { dead_count (grid_of sections.old tables.old) id ≤ most }
        ensures dead { result < MOST_SECTIONS → dead_count (grid_of sections.new tables.new) id
            ≤ result }
        ensures state { grid_of sections.new tables.new
            ≡ release (grid_of sections.old tables.old) id }
        ensures change { change.new ≡ release_change (grid_of sections.old tables.old) id }
        ensures presence { IsPresence sections.new tables.new }
        ensures rooms { KeepsRoom tables.old tables.new }
        ensures spare { sections.new.spare ≡ sections.old.spare }
        ensures grid { sections.new.grid ≡ sections.old.grid }
        ensures filled { sections.new.filled ≡ sections.old.filled }
    {
        tables.keeps_lists();
        tables.keeps_states();
        change.clear();
        if can_rest(grid, tables.size_alone(id), most) {
            tables.set_state(id, State::Ready);
            return most;
        }
        list_waiting(tables, id, &mut self.ids);
        join_all(tables, change, &self.ids, id);
        tables.keeps_lists();
        if tables.is_waiting(id) {
            tables.set_state(id, State::Transient);
            return MOST_SECTIONS as u32;
        }
        self.cleaner.sort_out(sections, tables.sections(id));
        let dead = self.cleaner.dead.len();
        let size = self.cleaner.living.len() + dead;
        if must_clean(grid, self.ids.len(), size, dead) {
            self.cleaner.clean(tables, sections, change, grid.merge, id);
            0
        } else {
            tables.set_state(id, State::Ready);
            dead as u32
        }
    }
}

/// Puts the regions that wait for a region into a list with room for them.
fn list_waiting(tables: &Tables, id: u64, ids: &mut Vec<u64>)
    requires { length (behind_of tables.now id) ≤ vec_capacity ids.old }
    ensures ids { ids.new.items ≡ behind_of tables.now id }
    ensures room { vec_capacity ids.old ≤ vec_capacity ids.new }
{
    ids.clear();
    let _ = ids.extend_from_slice(tables.waiting(id));
}

/// Makes the regions that wait for a region part of it.
fn join_all(tables: &mut Tables, change: &mut Change, ids: &[u64], id: u64)
    requires region { is_live tables.old id ≡ true }
    requires ids { ids.now ≡ behind_of tables.old id }
    requires alone { (r : ℕ) → waits_of tables.old id r ≡ false }
    requires last { (u r : ℕ) → waits_of tables.old u id ≡ true → waits_of tables.old r u ≡ false }
    requires few { count_sections (λ s. nat_lt 0 (owner_of tables.old s)) ≤ MOST_SECTIONS }
    requires nothing { change.old ≡ nothing }
    ensures joins { Joins tables.old tables.new id ids.now }
    ensures change { change.new ≡ record {
      created = [];
      dead = ids.now;
      merges = into id ids.now;
      parts = [];
    } }
{
    tables.keeps_lists();
    for u in ids {
        tables.merge(*u, id);
        change.merge(*u, id);
    }
}

/// The sections of a released region, and the memory in which it falls into parts.
#[derive(Drop)]
struct Cleaner {
    splitter: Splitter,
    /// The sections of the region that are in a margin.
    living: Vec<SectionPos>,
    /// The other ones.
    dead: Vec<SectionPos>,
}

impl Cleaner {
    /// Takes the memory for 16,384 sections.
    fn new(alloc: Global) -> Result<Cleaner, AllocError>
        ensures living { IfOk result (λ c. MOST_SECTIONS ≤ vec_capacity c.living) }
        ensures dead { IfOk result (λ c. MOST_SECTIONS ≤ vec_capacity c.dead) }
    {
        Ok(Cleaner {
            living: Vec::with_capacity(alloc, MOST_SECTIONS)?,
            dead: Vec::with_capacity(alloc, MOST_SECTIONS)?,
            splitter: Splitter::new(alloc)?,
        })
    }

    /// Puts the sections of a region that are in a margin into one list, and the others into another.
    fn sort_out(&mut self, sections: &Sections, row: &[SectionPos])
        requires living_room { length row.now ≤ vec_capacity self.old.living }
        requires dead_room { length row.now ≤ vec_capacity self.old.dead }
        ensures living { self.new.living.items ≡ filter (in_margin_of sections.now) row.now }
        ensures dead { self.new.dead.items
            ≡ filter (λ s. not (in_margin_of sections.now s)) row.now }
        ensures living_room { vec_capacity self.old.living ≤ vec_capacity self.new.living }
        ensures dead_room { vec_capacity self.old.dead ≤ vec_capacity self.new.dead }
    {
        self.living.clear();
        self.dead.clear();
        sections.sort_dead(row, &mut self.living, &mut self.dead);
    }

    /// Leaves a region its living sections, as one region or as several; its dead ones are no longer present.
    fn clean(
        &mut self,
        tables: &mut Tables,
        sections: &mut Sections,
        change: &mut Change,
        merge: u8,
        id: u64,
    )
        requires region { is_live tables.old id ≡ true }
        requires first { ahead_of tables.old id ≡ [] }
        requires last { behind_of tables.old id ≡ [] }
        requires dead { (s : SectionPos) → is_among self.old.dead.items s ≡ true
            → owner_of tables.old s ≡ id }
        requires living { self.old.living.items
            ≡ filter (λ s. not (is_among self.old.dead.items s)) (rows_of tables.old id) }
        requires few { count_sections (λ s. nat_lt 0 (owner_of tables.old s)) ≤ MOST_SECTIONS }
        requires few_ids { tables.old.next < 2 ^ 62 }
        requires merge { (1 ≤ merge) × (merge ≤ 4) }
        requires room { (change.old.created ≡ []) × (change.old.parts ≡ [])
            × (length change.old.dead < 16385) }
        requires present { All (λ s. IsTrue (presence_of sections.old s)) self.old.dead.items }
        requires distinct { IsDistinct same_section self.old.dead.items }
        ensures parts { ArePartsOf self.old.living.items merge self.new.splitter }
        ensures tables { Cleans tables.old tables.new id self.old.living.items self.new.splitter }
        ensures change { change.new ≡ with_parts change.old id tables.old.next self.new.splitter }
        ensures presence { presence_of sections.new
            ≡ (λ s. presence_of sections.old s
            && not (is_among self.old.dead.items s && not (in_margin_of sections.old s))) }
        ensures holds { holds_of sections.new ≡ holds_of sections.old }
        ensures grid { sections.new.grid ≡ sections.old.grid }
        ensures filled { sections.new.filled ≡ sections.old.filled }
        ensures spare { sections.new.spare ≡ sections.old.spare }
        ensures living_room { vec_capacity self.new.living ≡ vec_capacity self.old.living }
        ensures dead_room { vec_capacity self.new.dead ≡ vec_capacity self.old.dead }
    {
        settle(
            &mut self.splitter,
            tables,
            change,
            merge,
            id,
            &self.living,
            &self.dead,
        );
        sections.drop_dead(&mut self.dead);
    }
}

/// Whether a region is cleaned that so many regions joined, and that has so many sections, of which so many are dead.
fn must_clean(grid: Grid, joined: usize, size: usize, dead: usize) -> bool
    requires size { size ≤ MOST_SECTIONS }
    requires dead { dead ≤ MOST_SECTIONS }
    ensures { result
        ≡ (not (nat_eq joined 0)
        || (nat_eq dead size
        || (nat_le grid.min size && nat_le (size * grid.num) (dead * grid.den)))) }
{
    joined != 0 || dead == size || is_worn(grid, size, dead)
}

/// Whether a region of this size that no other joins is not cleaned, whichever of at most `most` of its sections are dead.
pub fn can_rest(grid: Grid, size: usize, most: u32) -> bool
    requires { size ≤ MOST_SECTIONS }
    ensures { result
        ≡ (nat_lt most size
        && not (nat_le grid.min size && nat_le (size * grid.num) (most * grid.den))) }
{
    (most as usize) < size && !is_worn(grid, size, most as usize)
}

/// Whether a region of this size is cleaned where so many of its sections are dead.
fn is_worn(grid: Grid, size: usize, dead: usize) -> bool
    requires size { size ≤ MOST_SECTIONS }
    requires dead { dead ≤ MOST_SECTIONS }
    ensures { result ≡ (nat_le grid.min size && nat_le (size * grid.num) (dead * grid.den)) }
{
    size >= grid.min as usize && size * grid.num as usize <= dead * grid.den as usize
}

/// Notes the ids of the parts of a split.
fn note_parts(change: &mut Change, first: u64, count: u32)
    requires count { length change.old.created + count ≤ 16385 }
    requires parts { length change.old.parts + count ≤ 16385 }
    requires few { first < 2 ^ 62 }
    ensures { change.new
        ≡ record change.old {
          created = change.old.created ++ range_with_len first count;
          parts = change.old.parts ++ range_with_len first count;
        } }
{
    for i in 0..count {
        change.part(first + i as u64);
    }
}

/// Leaves a region its living sections, as one region or as several.
fn settle(
    splitter: &mut Splitter,
    tables: &mut Tables,
    change: &mut Change,
    merge: u8,
    id: u64,
    living: &[SectionPos],
    dead: &[SectionPos],
)
    requires region { is_live tables.old id ≡ true }
    requires first { ahead_of tables.old id ≡ [] }
    requires last { behind_of tables.old id ≡ [] }
    requires dead { (s : SectionPos) → is_among dead.now s ≡ true → owner_of tables.old s ≡ id }
    requires living { living.now ≡ filter (λ s. not (is_among dead.now s)) (rows_of tables.old id) }
    requires few { count_sections (λ s. nat_lt 0 (owner_of tables.old s)) ≤ MOST_SECTIONS }
    requires few_ids { tables.old.next < 2 ^ 62 }
    requires merge { (1 ≤ merge) × (merge ≤ 4) }
    requires room { (change.old.created ≡ []) × (change.old.parts ≡ [])
        × (length change.old.dead < 16385) }
    ensures parts { ArePartsOf living.now merge splitter.new }
    ensures tables { Cleans tables.old tables.new id living.now splitter.new }
    ensures change { change.new ≡ with_parts change.old id tables.old.next splitter.new }
{
    tables.keeps_lists();
    let first = tables.next_id();
    splitter.parts(living, merge);
    let count = splitter.count();
    if count == 0 {
        tables.end(id);
        change.end(id);
    } else if count == 1 {
        tables.keep(id, living, dead);
        tables.set_state(id, State::Ready);
    } else {
        tables.keep(id, living, dead);
        tables.keeps_lists();
        tables.split(id, splitter);
        change.end(id);
        note_parts(change, first, count);
    }
}

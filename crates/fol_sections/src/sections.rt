//! A table of holds and present sections.

ghost use Rattle.std.specs.Prelude.{◌≡◌, ◌≢◌, ℤ, ◌+◌, ◌-◌, ◌*◌, ◌<◌, ◌≤◌, ◌^◌, not, ◌&&◌, ◌||◌, false, None, IsTrue, IfOk, OnOk, true, [], ◌++◌, length, nat_eq, nat_lt, cond, Some, nat_abs, sum_by, flat_map, if◌then◌else◌};
ghost use Rattle.std.specs.List.{All, IsDistinct, count_by, filter};
ghost use Rattle.std.specs.Vec.{vec_capacity};
ghost use Rattle.std.specs.HashMap.{spare as room_of};
ghost use Rattle.fol_model.specs.declared.places.ChunkPos.{ChunkPos};
ghost use Rattle.fol_model.specs.declared.places.SectionPos.{SectionPos};
ghost use Rattle.fol_sections.specs.Places.{count_at};
ghost use Rattle.fol_sections.specs.Pages.{InNear, chunks_at, counts_at, is_here, near_at, no_counts};
ghost use Rattle.fol_sections.specs.Turns.{fall, rise};
ghost use Rattle.fol_model.specs.Geometry.{is_chunk, is_within, same_section, section_of as home_of, is_among};
ghost use Rattle.fol_model.specs.GridState.{at_chunk};
ghost use Rattle.fol_model.specs.Universe.{square};

use crate::drops::drop_list;
use crate::listings::list_all;
use crate::missing::{count_missing, find_excess};
use crate::pages::{self, Pages, is_present, loaded, make_room, near};
use crate::places::{self, Numbers, number};
use crate::squares::{empty_square, fill_around};
use crate::stretches::{count_list, split_list};
use crate::turns::Turn;
use crate::{Added, Removed};
use fol_model::{ChunkPos, Grid, MOST_SECTIONS, SectionPos, section_of};
use fol_pages::{NEAR_PAGES, PageTable};
use std::alloc::{AllocError, Global};
use std::collections::HashMap;
use std::marker::Model;

/// The most sections within a create radius of a section, which is at most 8.
const AREA: usize = 289;

/// Which chunks are held, how often, and which sections are present.
///
/// Contracts see a `Table`: its words `holds_of` and `presence_of` are the two functions that the table stands for.
#[derive(Drop)]
pub struct Sections {
    grid: Grid,
    /// The holds of each chunk that has one.
    holds: Numbers,
    /// The present sections, with the numbers that are kept of them.
    pages: Pages,
    /// How many sections are present.
    count: u32,
    /// What the last `add` made.
    filled: Vec<SectionPos>,
    /// What the last `remove` left dead.
    died: Vec<SectionPos>,
    /// How many calls of `add` there is memory for.
    spare: u32,
}

impl Model for Sections {
    ghost use Rattle.fol_sections.specs.Table.{Table};

    ghost Value = { Table };

    ghost use Rattle.std.specs.HashMap.{spare as room_of};
    ghost use Rattle.std.specs.Vec.{vec_capacity};
    ghost use Rattle.fol_sections.specs.Kept.{held_in, present_in, IsKept, HasRoom};

    ghost view = { λ s. record { grid = s.grid; held = held_in s.holds.entries; present = present_in s.pages.entries; filled = s.filled.items; died = s.died.items; spare = s.spare } };

    ghost invariant = { λ s. IsKept s.grid s.holds.entries s.pages.entries s.count × HasRoom s.spare (room_of s.holds) s.pages.spare (vec_capacity s.filled) (vec_capacity s.died) };
}

impl Sections {
    ghost use Rattle.fol_model.specs.Universe.{all_chunks};
    ghost use Rattle.fol_sections.specs.Table.{Table, holds_of, presence_of, neighbours_of, in_margin_of, present_count, is_full_for, is_loaded_chunk_of, loaded_count, missing_count, added, removed, Adds, IsSame, IsEmpty, is_missing};

    /// Nothing is held and no section is present. The memory for pages comes with `reserve`.
    pub fn new(alloc: Global, grid: Grid) -> Result<Sections, AllocError>
        ensures grid { IfOk result (λ t. t.grid ≡ grid) }
        ensures empty { IfOk result IsEmpty }
    {
        let _create = grid.create;
        Ok(Sections {
            grid,
            holds: HashMap::new(alloc),
            pages: PageTable::new(alloc),
            count: 0,
            filled: Vec::with_capacity(alloc, AREA)?,
            died: Vec::with_capacity(alloc, AREA)?,
            spare: 0,
        })
    }

    /// How many calls of `add` there is memory for.
    pub fn spare(&self) -> u32
        ensures { result ≡ self.now.spare }
    {
        self.spare
    }

    /// The sections that the last call of `add` made, by `(z, x)`.
    pub fn filled(&self) -> &[SectionPos]
        ensures { result.now ≡ self.now.filled }
    {
        self.filled.as_slice()
    }

    /// The sections that the last call of `remove` left dead, by `(z, x)`: present ones, near which it took the last section with a
    /// loaded chunk. None where it left a loaded chunk in the section of its chunk, or where an `add` came since.
    ///
    /// A section is dead where it is within the create radius of no section that holds a loaded chunk.
    pub fn died(&self) -> &[SectionPos]
        ensures { result.now ≡ self.now.died }
    {
        self.died.as_slice()
    }

    /// How many holds a chunk has.
    pub fn holds(&self, c: ChunkPos) -> u64
        ensures { result ≡ holds_of self.now c }
    {
        number(&self.holds, c.x, c.z).unwrap_or(0)
    }

    /// Whether a section is present.
    pub fn is_present(&self, s: SectionPos) -> bool
        ensures { result ≡ presence_of self.now s }
    {
        is_present(&self.pages, s)
    }

    /// How many sections are present.
    pub fn count(&self) -> u32
        ensures { result ≡ present_count self.now }
    {
        self.count
    }

    /// How many sections that hold a loaded chunk are within the create radius of a present section.
    pub fn neighbours(&self, s: SectionPos) -> u32
        requires { IsTrue (presence_of self.now s) }
        ensures { result ≡ neighbours_of self.now s }
    {
        near(&self.pages, s)
    }

    /// Adds the dead ones of a list of sections to one list, and the others to another. The lists have room for them, and no memory
    /// is taken.
    ///
    /// A section is dead where it is within the create radius of no section that holds a loaded chunk.
    pub fn sort_dead(
        &self,
        list: &[SectionPos],
        living: &mut Vec<SectionPos>,
        dead: &mut Vec<SectionPos>,
    )
        requires living_room { length living.old.items + length list.now
            ≤ vec_capacity living.old }
        requires dead_room { length dead.old.items + length list.now ≤ vec_capacity dead.old }
        ensures living { living.new.items ≡ living.old.items
            ++ filter (in_margin_of self.now) list.now }
        ensures dead { dead.new.items ≡ dead.old.items
            ++ filter (λ s. not (in_margin_of self.now s)) list.now }
        ensures living_room { vec_capacity living.new ≡ vec_capacity living.old }
        ensures dead_room { vec_capacity dead.new ≡ vec_capacity dead.old }
    {
        split_list(&self.pages, list, living, dead);
    }

    /// How many loaded chunks a section has, at most 1,024; 0 for one that is not present.
    pub fn loaded_in(&self, s: SectionPos) -> u64
        ensures value { result ≡ loaded_count self.now s }
        ensures few { result ≤ 1024 }
    {
        loaded(&self.pages, s)
    }

    /// How many loaded chunks the sections of a list hold, at most 1,024 each.
    pub fn loaded_among(&self, list: &[SectionPos]) -> u64
        requires { length list.now ≤ MOST_SECTIONS }
        ensures value { result ≡ sum_by (loaded_count self.now) list.now }
        ensures few { result ≤ 1024 * length list.now }
    {
        count_list(&self.pages, list)
    }

    /// Adds the loaded chunks of the sections of a list to another list, section by section, and by `(z, x)` in each. The list has
    /// room for them, and no memory is taken.
    pub fn chunks_among(&self, list: &[SectionPos], out: &mut Vec<ChunkPos>)
        requires room { length out.old.items + sum_by (loaded_count self.now) list.now
            ≤ vec_capacity out.old }
        ensures chunks { out.new.items ≡ out.old.items
            ++ flat_map (λ s. filter (is_loaded_chunk_of self.now s) all_chunks) list.now }
        ensures capacity { vec_capacity out.new ≡ vec_capacity out.old }
    {
        list_all(&self.pages, &self.holds, &self.grid, list, out);
    }

    /// Makes `spare` at least `n`. Takes memory; what the table stands for stays either way.
    pub fn reserve(&mut self, n: u32) -> Result<(), AllocError>
        ensures ok { OnOk result (n ≤ self.new.spare) }
        ensures same { IsSame self.old self.new }
        ensures filled { self.new.filled ≡ self.old.filled }
        ensures died { self.new.died ≡ self.old.died }
        ensures spare { self.old.spare ≤ self.new.spare }
    {
        if n > self.spare {
            self.holds.reserve(n as usize)?;
            make_room(&mut self.pages, n as usize * NEAR_PAGES)?;
            self.spare = n;
        }
        Ok(())
    }

    /// Adds a hold on a chunk, which is within the limits and has fewer than 2^62 holds. `spare` is at least 1.
    ///
    /// The answer is `Full` exactly where the present sections and the missing ones that the chunk needs are more than 16,384;
    /// then nothing changes. Else the missing ones are present now, and one spare is used. Takes no memory.
    ///
    /// If the chunk has a hold, no section is looked up; if another chunk of its section has, its section alone is. Else all within the create
    /// radius are.
    pub fn add(&mut self, c: ChunkPos) -> Added
        requires spare { 1 ≤ self.old.spare }
        requires in_range { IsTrue (is_chunk c) }
        requires few { holds_of self.old c < 2 ^ 62 }
        ensures answer { result ≡ added self.old c }
        ensures full { IsTrue (is_full_for self.old c) → IsSame self.old self.new
            × (self.new.filled ≡ []) × (self.new.spare ≡ self.old.spare) }
        ensures room { is_full_for self.old c ≡ false → Adds self.old self.new c }
        ensures died { self.new.died ≡ [] }
        ensures grid { self.new.grid ≡ self.old.grid }
    {
        self.filled.clear();
        self.died.clear();
        if hold_again(&mut self.holds, c) {
            self.spare -= 1;
            return Added::Counted;
        }
        let home = section_of(&self.grid, c);
        let radius = create_radius(&self.grid);
        let present = self.count;
        if let Some(wanted) = find_excess(&self.pages, present, home, radius) {
            return Added::Full { present, wanted };
        }
        hold_first(&mut self.holds, c);
        add_chunk(&mut self.pages, &mut self.filled, home, radius);
        let wanted = self.filled.len() as u32;
        self.count += wanted;
        self.spare -= 1;
        if wanted == 0 {
            Added::Counted
        } else {
            Added::Filled
        }
    }

    /// Adds a hold on a chunk that has one, and fewer than 2^62, and says whether it has. No section is looked up, and none changes. Takes
    /// no memory.
    pub fn add_again(&mut self, c: ChunkPos) -> bool
        requires { holds_of self.old c < 2 ^ 62 }
        ensures held { result ≡ nat_lt 0 (holds_of self.old c) }
        ensures added { result ≡ true
            → holds_of self.new ≡ at_chunk (holds_of self.old) c (holds_of self.old c + 1) }
        ensures none { result ≡ false → holds_of self.new ≡ holds_of self.old }
        ensures presence { presence_of self.new ≡ presence_of self.old }
        ensures stays { (self.new.grid ≡ self.old.grid) × (self.new.filled ≡ self.old.filled)
            × (self.new.died ≡ self.old.died) × (self.new.spare ≡ self.old.spare) }
    {
        hold_again(&mut self.holds, c)
    }

    /// Whether an `add` of a chunk within the limits would make sections present now: the chunk needs missing ones, and there is room
    /// for them. Takes no memory, and looks where `add` does.
    pub fn will_fill(&self, c: ChunkPos) -> bool
        requires { IsTrue (is_chunk c) }
        ensures { result
            ≡ (not (is_full_for self.now c) && not (nat_eq (missing_count self.now c) 0)) }
    {
        let home = section_of(&self.grid, c);
        let wanted = count_missing(&self.pages, home, create_radius(&self.grid));
        wanted > 0 && self.count + wanted <= MOST_SECTIONS as u32
    }

    /// Removes a hold on a chunk. No section changes; what is dead since is in `died`. Takes no memory.
    pub fn remove(&mut self, c: ChunkPos) -> Removed
        ensures answer { result ≡ removed self.old c }
        ensures holds { holds_of self.new
            ≡ at_chunk (holds_of self.old) c (holds_of self.old c - 1) }
        ensures presence { presence_of self.new ≡ presence_of self.old }
        ensures died { result ≡ Removed.Gone → self.new.died
            ≡ filter (λ q. presence_of self.new q && not (in_margin_of self.new q))
            (square (home_of self.old.grid c) self.old.grid.create) }
        ensures none_died { result ≢ Removed.Gone → self.new.died ≡ [] }
        ensures stays { (self.new.grid ≡ self.old.grid) × (self.new.filled ≡ self.old.filled)
            × (self.new.spare ≡ self.old.spare) }
    {
        self.died.clear();
        let count = drop_hold(&mut self.holds, c);
        if count == 1 {
            let home = section_of(&self.grid, c);
            drop_chunk(
                &mut self.pages,
                &mut self.died,
                home,
                create_radius(&self.grid),
            );
        }
        answer_for(count)
    }

    /// Takes the dead ones out of the table and out of a list of distinct present sections; the rest of the list stays in order.
    ///
    /// A section is dead where it is within the create radius of no section that holds a loaded chunk. Takes no memory.
    pub fn drop_dead(&mut self, list: &mut Vec<SectionPos>)
        requires present { All (λ s. IsTrue (presence_of self.old s)) list.old.items }
        requires distinct { IsDistinct same_section list.old.items }
        ensures list { list.new.items ≡ filter (in_margin_of self.old) list.old.items }
        ensures room { vec_capacity list.new ≡ vec_capacity list.old }
        ensures presence { presence_of self.new
            ≡ (λ s. presence_of self.old s
            && not (is_among list.old.items s && not (in_margin_of self.old s))) }
        ensures holds { holds_of self.new ≡ holds_of self.old }
        ensures stays { (self.new.grid ≡ self.old.grid) × (self.new.filled ≡ self.old.filled)
            × (self.new.died ≡ self.old.died) × (self.new.spare ≡ self.old.spare) }
    {
        let dropped = drop_list(&mut self.pages, list);
        self.count -= dropped as u32;
        keep_present(list, &self.pages, dropped);
    }

    /// The same table, with at least the same spare. Takes memory.
    pub fn copy(&self, alloc: Global) -> Result<Sections, AllocError>
        ensures same { IfOk result (IsSame self.now) }
        ensures filled { IfOk result (λ t. t.filled ≡ self.now.filled) }
        ensures died { IfOk result (λ t. t.died ≡ self.now.died) }
        ensures spare { IfOk result (λ t. self.now.spare ≤ t.spare) }
    {
        let mut holds = self.holds.clone()?;
        holds.reserve(self.spare as usize)?;
        let mut pages = self.pages.clone()?;
        pages.reserve(self.spare as usize * NEAR_PAGES)?;
        let filled = with_area(alloc, &self.filled)?;
        let died = with_area(alloc, &self.died)?;
        Ok(Sections {
            grid: self.grid,
            holds,
            pages,
            count: self.count,
            filled,
            died,
            spare: self.spare,
        })
    }
}

/// A copy of a list of sections, with room for all within a create radius.
fn with_area(alloc: Global, list: &[SectionPos]) -> Result<Vec<SectionPos>, AllocError>
    ensures items { IfOk result (λ v. v.items ≡ list.now) }
    ensures room { IfOk result (λ v. 289 ≤ vec_capacity v) }
{
    let mut copy = Vec::with_capacity(alloc, AREA)?;
    copy.extend_from_slice(list)?;
    Ok(copy)
}

/// Keeps those sections of a list that are present, where so many of them are not. If none is, no page is looked up.
fn keep_present(list: &mut Vec<SectionPos>, pages: &Pages, missing: usize)
    requires missing { count_by (is_here pages.now.entries) list.old.items + missing
        ≡ length list.old.items }
    ensures list { list.new.items ≡ filter (is_here pages.now.entries) list.old.items }
    ensures room { vec_capacity list.new ≡ vec_capacity list.old }
{
    if missing == list.len() {
        list.clear();
    } else if missing > 0 {
        list.retain(|s| is_present(pages, *s));
    }
}

/// What removing a hold comes to on a chunk that had so many.
fn answer_for(count: u64) -> Removed
    ensures { result ≡ (if nat_eq count 0 then Removed.NotLoaded
        else (if nat_eq count 1 then Removed.Gone else Removed.Lowered)) }
{
    if count == 0 {
        Removed::NotLoaded
    } else if count == 1 {
        Removed::Gone
    } else {
        Removed::Lowered
    }
}

/// How far the margin reaches round a loaded chunk's section.
fn create_radius(grid: &Grid) -> u8
    ensures { result ≡ grid.now.create }
{
    grid.create
}

/// Adds a hold on a chunk in a table of such counts, and gives the count before. Takes no memory.
pub fn count_hold(holds: &mut Numbers, c: ChunkPos) -> u64
    requires room { 1 ≤ room_of holds.old }
    requires few { count_at holds.old.entries c < 2 ^ 62 }
    ensures before { result ≡ count_at holds.old.entries c }
    ensures counts { (q : ChunkPos) → count_at holds.new.entries q
        ≡ at_chunk (count_at holds.old.entries) c (count_at holds.old.entries c + 1) q }
    ensures room { room_of holds.old ≤ room_of holds.new + 1 }
{
    places::raise(holds, c.x, c.z)
}

/// Adds a hold on a chunk that has one already; else nothing changes. Says whether it has. Takes no memory.
fn hold_again(holds: &mut Numbers, c: ChunkPos) -> bool
    requires few { count_at holds.old.entries c < 2 ^ 62 }
    ensures again { result ≡ nat_lt 0 (count_at holds.old.entries c) }
    ensures counts { result ≡ true → (q : ChunkPos) → count_at holds.new.entries q
        ≡ at_chunk (count_at holds.old.entries) c (count_at holds.old.entries c + 1) q }
    ensures stays { result ≡ false → holds.new.entries ≡ holds.old.entries }
    ensures room { room_of holds.new ≡ room_of holds.old }
{
    places::raise_again(holds, c.x, c.z)
}

/// Adds the first hold on a chunk.
fn hold_first(holds: &mut Numbers, c: ChunkPos)
    requires room { 1 ≤ room_of holds.old }
    ensures counts { (q : ChunkPos) → count_at holds.new.entries q
        ≡ at_chunk (count_at holds.old.entries) c 1 q }
    ensures room { room_of holds.old ≤ room_of holds.new + 1 }
{
    places::put(holds, c.x, c.z, 1);
}

/// Removes a hold on a chunk in a table of such counts, and gives the count before; a count of 0 stays. Takes no memory.
pub fn drop_hold(holds: &mut Numbers, c: ChunkPos) -> u64
    ensures before { result ≡ count_at holds.old.entries c }
    ensures counts { (q : ChunkPos) → count_at holds.new.entries q
        ≡ at_chunk (count_at holds.old.entries) c (count_at holds.old.entries c - 1) q }
    ensures room { room_of holds.old ≤ room_of holds.new }
{
    let count = places::lower(holds, c.x, c.z);
    if count == 1 {
        places::take_out(holds, c.x, c.z);
    }
    count
}

/// Changes the number of loaded chunks of a present section by one, and gives the number after.
fn count_chunk(pages: &mut Pages, home: SectionPos, turn: Turn) -> u16
    requires here { IsTrue (is_here pages.old.entries home) }
    requires low { fall turn 1 ≤ chunks_at pages.old.entries home }
    requires high { chunks_at pages.old.entries home ≤ 1024 }
    ensures after { result ≡ chunks_at pages.new.entries home }
    ensures chunks { (s : SectionPos) → chunks_at pages.new.entries s
        + fall turn (cond (same_section home s) 1 0)
        ≡ chunks_at pages.old.entries s + rise turn (cond (same_section home s) 1 0) }
    ensures here { (s : SectionPos) → is_here pages.new.entries s ≡ is_here pages.old.entries s }
    ensures near { (s : SectionPos) → near_at pages.new.entries s ≡ near_at pages.old.entries s }
    ensures room { pages.new.spare ≡ pages.old.spare }
{
    pages::count(pages, home, turn)
}

/// Counts a loaded chunk more of a section. The missing sections within the radius are made present, and listed.
fn add_chunk(pages: &mut Pages, filled: &mut Vec<SectionPos>, home: SectionPos, radius: u8)
    requires near { (nat_abs home.x ≤ 1000008) × (nat_abs home.z ≤ 1000008) }
    requires few { radius ≤ 8 }
    requires around { 0 < chunks_at pages.old.entries home → (s : SectionPos)
        → IsTrue (is_within home radius s) → IsTrue (is_here pages.old.entries s) }
    requires chunks_high { chunks_at pages.old.entries home ≤ 1024 }
    requires near_high { (s : SectionPos) → near_at pages.old.entries s ≤ 289 }
    requires room { 34 ≤ pages.old.spare }
    requires none { filled.old.items ≡ [] }
    requires space { 289 ≤ vec_capacity filled.old }
    ensures chunks { (s : SectionPos) → chunks_at pages.new.entries s
        ≡ cond (same_section home s) 1 0 + chunks_at pages.old.entries s }
    ensures near { (s : SectionPos) → near_at pages.new.entries s
        ≡ near_at pages.old.entries s + cond (nat_eq (chunks_at pages.old.entries home) 0
        && is_within home radius s) 1 0 }
    ensures here { (s : SectionPos) → is_here pages.new.entries s
        ≡ (is_here pages.old.entries s || is_within home radius s) }
    ensures room { pages.old.spare ≤ pages.new.spare + 34 }
    ensures filled { filled.new.items ≡ filter (λ q. not (is_here pages.old.entries q))
        (square home radius) }
    ensures few { length filled.new.items ≤ 289 }
    ensures space { vec_capacity filled.old ≤ vec_capacity filled.new }
{
    fill_around(pages, filled, home, radius);
    let _ = count_chunk(pages, home, Turn::Filled);
}

/// Counts a loaded chunk less of a section that has one, and round which all are present, and finds those of them that are dead since.
fn drop_chunk(pages: &mut Pages, died: &mut Vec<SectionPos>, home: SectionPos, radius: u8)
    requires near { (nat_abs home.x ≤ 1000008) × (nat_abs home.z ≤ 1000008) }
    requires few { radius ≤ 8 }
    requires here { (s : SectionPos) → IsTrue (is_within home radius s)
        → IsTrue (is_here pages.old.entries s) }
    requires some { 0 < chunks_at pages.old.entries home }
    requires chunks_high { chunks_at pages.old.entries home ≤ 1024 }
    requires near_low { (s : SectionPos)
        → cond (is_within home radius s) 1 0 ≤ near_at pages.old.entries s }
    requires none { died.old.items ≡ [] }
    requires space { 289 ≤ vec_capacity died.old }
    ensures chunks { (s : SectionPos) → chunks_at pages.old.entries s
        ≡ cond (same_section home s) 1 0 + chunks_at pages.new.entries s }
    ensures near { (s : SectionPos) → near_at pages.old.entries s
        ≡ near_at pages.new.entries s + cond (nat_eq (chunks_at pages.old.entries home) 1
        && is_within home radius s) 1 0 }
    ensures here { (s : SectionPos) → is_here pages.new.entries s ≡ is_here pages.old.entries s }
    ensures room { pages.new.spare ≡ pages.old.spare }
    ensures died { died.new.items ≡ filter (λ q. nat_eq (near_at pages.new.entries q) 0)
        (square home radius) }
    ensures space { vec_capacity died.old ≤ vec_capacity died.new }
{
    if count_chunk(pages, home, Turn::Emptied) == 0 {
        empty_square(pages, died, home, radius);
    }
}

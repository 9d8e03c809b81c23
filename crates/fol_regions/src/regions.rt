//! The region table.

ghost use Rattle.std.specs.Prelude.{◌≡◌, ℕ, ◌+◌, ◌≤◌, ◌<◌, ◌^◌, not, ◌&&◌, nat_eq, nat_lt, IsTrue, IfOk, OnOk, None, true, false, [], filter, count_by};
ghost use Rattle.std.specs.Vec.{vec_capacity};
ghost use Rattle.fol_model.specs.declared.regions.State.TheVariants.{Ready, Ticking};
ghost use Rattle.fol_model.specs.Geometry.{is_chunk, is_section};
ghost use Rattle.fol_model.specs.GridState.{empty, is_dead, present_count};
ghost use Rattle.fol_model.specs.Universe.{all_sections, all_chunks, numbers_below};
ghost use Rattle.fol_model.specs.Add.{add};
ghost use Rattle.fol_model.specs.Begin.{begin};
ghost use Rattle.fol_model.specs.Counters.{owed_after_release, tick_after_release};
ghost use Rattle.fol_model.specs.Drop.{drop_hold};
ghost use Rattle.fol_model.specs.Release.{release};
ghost use Rattle.fol_model.specs.Rules.{Rules};
ghost use Rattle.fol_model.specs.Outputs.{is_chunk_of, chunk_count};
ghost use Rattle.fol_regions.specs.Changes.{add_change, nothing, release_change};
ghost use Rattle.fol_regions.specs.DeadBounds.{most_in};
ghost use Rattle.fol_regions.specs.Touched.{is_touched};
ghost use Rattle.fol_regions.specs.declared.answers.AddAnswer.TheVariants.{Counted};
ghost use Rattle.fol_regions.specs.Answers.{IsGiven, add_answer, remove_answer, begin_answer, begun_state, some_id, state_answer, unbegun};

use crate::add::hold;
use crate::chunks::list_chunks;
use crate::counts::count_chunks;
use crate::dead_bounds::{DeadBounds, forget_joined, note_created};
use crate::near::MOST_NEAR;
use crate::nearby::Nearby;
use crate::release::{Releaser, can_rest};
use crate::touched::list_touched;
use crate::{AddAnswer, Begun, Change};
use fol_model::{ChunkPos, Grid, MOST_SECTIONS, SectionPos, State};
use fol_pages::NEAR_PAGES;
use fol_region_tables::Tables;
use fol_sections::{Removed, Sections};
use std::alloc::{AllocError, Global};
use std::marker::Model;

/// The most regions that one event makes: each is a part of a split, and has the sections of a margin to itself.
const MOST_MADE: usize = 1_820;

/// For how many events memory is taken at once, so that most calls of `reserve` find it there.
const EVENTS_AHEAD: u32 = 16;

/// The region table. Contracts see a `Table`, whose word `grid_state` is the state of the grid that it stands for.
#[derive(Drop)]
pub struct Regions {
    grid: Grid,
    sections: Sections,
    tables: Tables,
    releaser: Releaser,
    near: Nearby,
    change: Change,
    /// How many dead sections each region has at most.
    dead: DeadBounds,
    /// How many events there is memory for.
    spare: u32,
}

impl Model for Regions {
    ghost use Rattle.fol_regions.specs.DeadBounds.{BoundsDead, most_in};
    ghost use Rattle.fol_regions.specs.Kept.{IsKept};
    ghost use Rattle.fol_regions.specs.Nearby.{StillStands};
    ghost use Rattle.fol_regions.specs.Released.{grid_of};
    ghost use Rattle.fol_regions.specs.Table.{Table};
    ghost use Rattle.std.specs.Prelude.{◌+◌};

    ghost Value = { Table };

    ghost view = { λ s. record { sections = s.sections; book = s.tables; last = s.change; spare = s.spare } };

    ghost invariant = { λ s. IsKept s.grid s.sections s.tables s.spare × BoundsDead (grid_of s.sections s.tables) (most_in s.dead)
        × StillStands s.near s.tables (s.grid.create + s.grid.merge) };
}

impl Regions {
    ghost use Rattle.fol_regions.specs.Kept.{IsKept};
    ghost use Rattle.fol_regions.specs.Released.{grid_of};
    ghost use Rattle.fol_regions.specs.Table.{Table, grid_state};

    /// No region and no section, and nothing changed yet. Takes the memory for 16,384 sections.
    pub fn new(alloc: Global, grid: Grid) -> Result<Regions, AllocError>
        ensures empty { IfOk result (λ t. grid_state t ≡ empty grid) }
        ensures last { IfOk result (λ t. t.last ≡ nothing) }
    {
        let _create = grid.create;
        let sections = Sections::new(alloc, grid)?;
        let change = Change::new(alloc)?;
        let tables = Tables::new(alloc)?;
        tables.keeps_lists();
        tables.keeps_states();
        Regions::of_parts(alloc, grid, sections, tables, change, 0)
    }

    /// The same table, with the same last change and memory for as many events, in memory of its own.
    pub fn copy(&self, alloc: Global) -> Result<Regions, AllocError>
        ensures state { IfOk result (λ t. grid_state t ≡ grid_state self.now) }
        ensures last { IfOk result (λ t. t.last ≡ self.now.last) }
        ensures spare { IfOk result (λ t. self.now.spare ≤ t.spare) }
    {
        let sections = self.sections.copy(alloc)?;
        let change = self.change.copy(alloc)?;
        let tables = self.tables.copy(alloc)?;
        Regions::of_parts(alloc, self.grid, sections, tables, change, self.spare)
    }

    /// The table of these sections and regions, with the memory in which its calls work.
    fn of_parts(
        alloc: Global,
        grid: Grid,
        sections: Sections,
        tables: Tables,
        change: Change,
        spare: u32,
    ) -> Result<Regions, AllocError>
        requires { IsKept grid sections tables spare }
        ensures state { IfOk result (λ t. grid_state t ≡ grid_of sections tables) }
        ensures last { IfOk result (λ t. t.last ≡ change) }
        ensures spare { IfOk result (λ t. t.spare ≡ spare) }
    {
        let (near, dead, releaser) = working_memory(alloc)?;
        Ok(Regions {
            grid,
            sections,
            tables,
            releaser,
            near,
            change,
            dead,
            spare,
        })
    }

    /// Makes `spare` at least `n`. Takes memory; what the table stands for stays either way.
    pub fn reserve(&mut self, n: u32) -> Result<(), AllocError>
        ensures ok { OnOk result (n ≤ self.new.spare) }
        ensures state { grid_state self.new ≡ grid_state self.old }
        ensures last { self.new.last ≡ self.old.last }
        ensures spare { self.old.spare ≤ self.new.spare }
    {
        if n <= self.spare {
            return Ok(());
        }
        self.make_room(n.max(EVENTS_AHEAD))
    }

    /// Makes `spare` `n`, which is not less than it is.
    fn make_room(&mut self, n: u32) -> Result<(), AllocError>
        requires more { self.old.spare ≤ n }
        ensures ok { OnOk result (self.new.spare ≡ n) }
        ensures state { grid_state self.new ≡ grid_state self.old }
        ensures last { self.new.last ≡ self.old.last }
        ensures spare { self.old.spare ≤ self.new.spare }
    {
        self.sections.reserve(n)?;
        let events = n as usize;
        self.tables.reserve(NEAR_PAGES * events, MOST_NEAR * events, MOST_MADE * events)?;
        self.spare = n;
        Ok(())
    }

    /// How many calls of `add` and `release` there is memory for.
    pub fn spare(&self) -> u32
        ensures { result ≡ self.now.spare }
    {
        self.spare
    }

    /// How many sections are present.
    pub fn present_count(&self) -> u32
        ensures { result ≡ present_count (grid_state self.now) }
    {
        self.sections.count()
    }

    /// Adds a hold on a chunk, which has at most 2^62 holds; `spare` is at least 1. Takes no memory.
    pub fn add(&mut self, c: ChunkPos) -> AddAnswer
        requires spare { 1 ≤ self.old.spare }
        requires in_range { IsTrue (is_chunk c) }
        requires few { (grid_state self.old).holds c < 2 ^ 62 }
        requires few_ids { (grid_state self.old).next < 2 ^ 62 }
        ensures state { grid_state self.new ≡ add (grid_state self.old) c }
        ensures answer { result ≡ add_answer (grid_state self.old) c }
        ensures last { self.new.last ≡ add_change (grid_state self.old) c }
        ensures spare { self.old.spare ≤ self.new.spare + 1 }
    {
        self.spare -= 1;
        let answer = hold(
            &mut self.sections,
            &mut self.tables,
            &mut self.near,
            &mut self.change,
            &self.grid,
            c,
        );
        self.near.forget();
        forget_joined(&mut self.dead, self.change.merges());
        note_created(&mut self.dead, self.change.created());
        answer
    }

    /// Adds a hold on a chunk that has one, and says whether it has: then this is all that `add` does of it, and it answers `Counted`. No
    /// region changes, nor does what the last change was. Takes no memory.
    pub fn add_again(&mut self, c: ChunkPos) -> bool
        requires few { (grid_state self.old).holds c < 2 ^ 62 }
        ensures held { result ≡ nat_lt 0 ((grid_state self.old).holds c) }
        ensures added { result ≡ true → grid_state self.new ≡ add (grid_state self.old) c }
        ensures counted { result ≡ true → add_answer (grid_state self.old) c ≡ Counted }
        ensures none { result ≡ false → grid_state self.new ≡ grid_state self.old }
        ensures stays { (self.new.last ≡ self.old.last) × (self.new.spare ≡ self.old.spare) }
    {
        self.sections.add_again(c)
    }

    /// Removes a hold on a chunk. No section and no region changes. Takes no memory.
    pub fn remove(&mut self, c: ChunkPos) -> Removed
        ensures state { grid_state self.new ≡ drop_hold (grid_state self.old) c }
        ensures answer { result ≡ remove_answer (grid_state self.old) c }
        ensures last { self.new.last ≡ self.old.last }
        ensures spare { self.new.spare ≡ self.old.spare }
    {
        let answer = self.sections.remove(c);
        self.dead.note_died(&self.tables, self.sections.died());
        answer
    }

    /// Begins the tick of a region that was given out, where it is Ready. Takes no memory.
    pub fn begin(&mut self, id: u64) -> Begun
        requires given { IsGiven (grid_state self.old) id }
        ensures answer { result ≡ begin_answer (grid_state self.old) id }
        ensures state { grid_state self.new ≡ begun_state (grid_state self.old) id }
        ensures last { self.new.last ≡ self.old.last }
        ensures spare { self.new.spare ≡ self.old.spare }
    {
        let state = self.tables.state(id);
        match state {
            State::Ready => {
                self.tables.keeps_states();
                self.tables.set_state(id, State::Ticking);
                Begun::Begun
            }
            _ => Begun::NotReady(state),
        }
    }

    /// Takes a `begin` back: a Ticking region is Ready again, which the rules allow where no region waits for it. Takes no memory.
    pub fn unbegin(&mut self, id: u64)
        requires ticks { (grid_state self.old).state id ≡ Ticking }
        requires rules { Rules (unbegun (grid_state self.old) id) }
        ensures state { grid_state self.new ≡ unbegun (grid_state self.old) id }
        ensures last { self.new.last ≡ self.old.last }
        ensures spare { self.new.spare ≡ self.old.spare }
    {
        self.tables.keeps_states();
        self.tables.set_state(id, State::Ready);
    }

    /// Ends the tick of a Ticking region; `spare` is at least 1. Takes no memory.
    pub fn release(&mut self, id: u64)
        requires ticks { (grid_state self.old).state id ≡ Ticking }
        requires spare { 1 ≤ self.old.spare }
        requires few_ids { (grid_state self.old).next < 2 ^ 62 }
        ensures state { grid_state self.new ≡ release (grid_state self.old) id }
        ensures last { self.new.last ≡ release_change (grid_state self.old) id }
        ensures spare { self.old.spare ≤ self.new.spare + 1 }
    {
        self.near.forget();
        let most = self.dead.most(id);
        let left = self.releaser.release(
            self.grid,
            &mut self.tables,
            &mut self.sections,
            &mut self.change,
            id,
            most,
        );
        self.dead.set(id, left);
        note_created(&mut self.dead, self.change.created());
    }

    /// Whether the end of the next tick of a region changes nothing in the regions, as far as is known without a look at its sections.
    pub fn will_rest(&self, id: u64) -> bool
        requires given { IsGiven (grid_state self.now) id }
        ensures state { IsTrue result → (grid_state self.now).state id ≡ Ready
            → release (begin (grid_state self.now) id) id ≡ grid_state self.now }
        ensures ticks { IsTrue result → (grid_state self.now).state id ≡ Ready
            → (tick : ℕ → ℕ) (r : ℕ)
            → tick_after_release (begin (grid_state self.now) id) id tick r ≡ tick r }
        ensures owed { IsTrue result → (grid_state self.now).state id ≡ Ready
            → (owed : ℕ → ℕ) (r : ℕ)
            → owed_after_release (begin (grid_state self.now) id) id owed r ≡ owed r }
    {
        self.tables.keeps_lists();
        let size = self.tables.sections(id).len();
        can_rest(self.grid, size, self.dead.most(id))
    }

    /// What the last `add` or `release` changed; nothing after Counted and Full.
    pub fn last(&self) -> &Change
        ensures { result.now ≡ self.now.last }
    {
        &self.change
    }

    /// The region that owns a section within the limits; `None` exactly where the section is not present.
    pub fn owner(&self, s: SectionPos) -> Option<u64>
        ensures { result ≡ some_id ((grid_state self.now).owner s) }
    {
        let id = self.tables.owner(s);
        if id == 0 { None } else { Some(id) }
    }

    /// The state of a region; `None` exactly where the id was never given out.
    pub fn state(&self, id: u64) -> Option<State>
        ensures { result ≡ state_answer (grid_state self.now) id }
    {
        if id == 0 {
            return None;
        }
        if id < self.tables.next_id() {
            Some(self.tables.state(id))
        } else {
            None
        }
    }

    /// The id that the next new region gets: the ids below it were given out.
    pub fn next_id(&self) -> u64
        ensures { result ≡ (grid_state self.now).next }
    {
        self.tables.next_id()
    }

    /// The regions that are not Dead, rising. Goes over these alone, and takes memory for them.
    pub fn live(&self, alloc: Global) -> Result<Vec<u64>, AllocError>
        ensures { IfOk result (λ ids. ids.items
            ≡ filter (λ r. not (is_dead ((grid_state self.now).state r)))
            (numbers_below (grid_state self.now).next)) }
    {
        self.tables.keeps_lists();
        self.tables.keeps_states();
        self.tables.live(alloc)
    }

    /// The regions that an event on a chunk may touch, rising, whether they are Transient, Ready or Ticking: the one that owns its section
    /// and, where an `add` of the chunk now would make sections present, those near it. Looks where `add` does, never at all regions, and
    /// keeps what it found for an `add` that follows. Takes memory for the list alone.
    pub fn touched(&mut self, alloc: Global, c: ChunkPos) -> Result<Vec<u64>, AllocError>
        requires in_range { IsTrue (is_chunk c) }
        ensures same { self.new ≡ self.old }
        ensures listed { IfOk result (λ ids. ids.items ≡ filter (is_touched (grid_state self.old) c)
            (numbers_below (grid_state self.old).next)) }
    {
        list_touched(
            alloc,
            &self.grid,
            &self.sections,
            &self.tables,
            &mut self.near,
            c,
        )
    }

    /// The Ticking regions that a region waits for, rising.
    pub fn waits_for(&self, id: u64) -> &[u64]
        requires given { IsGiven (grid_state self.now) id }
        ensures { result.now ≡ filter (λ t. (grid_state self.now).waits id t)
            (numbers_below (grid_state self.now).next) }
    {
        self.tables.keeps_lists();
        self.tables.waits_for(id)
    }

    /// The sections of a region, by `(z, x)`; none where it is Dead.
    pub fn sections(&self, id: u64) -> &[SectionPos]
        requires given { IsGiven (grid_state self.now) id }
        ensures { result.now ≡ filter (λ s. nat_eq ((grid_state self.now).owner s) id)
            all_sections }
    {
        self.tables.keeps_lists();
        self.tables.sections(id)
    }

    /// How many loaded chunks a region has: at most 1,024 in each of at most 16,384 sections.
    pub fn chunk_count(&self, id: u64) -> u64
        requires given { IsGiven (grid_state self.now) id }
        ensures value { result ≡ chunk_count (grid_state self.now) id }
        ensures few { result < 2 ^ 32 }
    {
        self.tables.keeps_lists();
        count_chunks(&self.sections, self.tables.sections(id))
    }

    /// Puts the loaded chunks of a region into an empty list with room for them, by `(z, x)`. Takes no memory.
    pub fn list_chunks(&self, id: u64, out: &mut Vec<ChunkPos>)
        requires given { IsGiven (grid_state self.now) id }
        requires empty { out.old.items ≡ [] }
        requires room { chunk_count (grid_state self.now) id ≤ vec_capacity out.old }
        ensures chunks { out.new.items ≡ filter (is_chunk_of (grid_state self.now) id) all_chunks }
        ensures capacity { vec_capacity out.new ≡ vec_capacity out.old }
    {
        self.tables.keeps_lists();
        list_chunks(&self.sections, self.tables.sections(id), out);
    }

    /// How many holds a chunk has.
    pub fn holds(&self, c: ChunkPos) -> u64
        ensures { result ≡ (grid_state self.now).holds c }
    {
        self.sections.holds(c)
    }

    /// The state of the grid keeps the region rules.
    pub fn keeps_rules(&self)
        ensures { Rules (grid_state self.now) }
    {
        let _spare = &self.spare;
    }
}

/// The memory in which the calls of a table work; nothing is known of dead sections.
fn working_memory(alloc: Global) -> Result<(Nearby, DeadBounds, Releaser), AllocError>
    ensures near { IfOk result (λ memory. memory.0.home ≡ None) }
    ensures dead { IfOk result (λ memory. (r : ℕ) → most_in memory.1 r ≡ MOST_SECTIONS) }
{
    Ok((
        Nearby::new(alloc)?,
        DeadBounds::new(alloc)?,
        Releaser::new(alloc)?,
    ))
}

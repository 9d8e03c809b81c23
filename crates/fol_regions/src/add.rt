//! What the missing sections of an added hold do to the regions.

ghost use Rattle.std.specs.Prelude.{◌≡◌, ◌≢◌, ℕ, ◌+◌, ◌<◌, ◌≤◌, ◌^◌, true, false, not, ◌&&◌, ◌||◌, IsTrue, [], ◌∷◌, length, filter, nat_eq, nat_lt, if◌then◌else◌};
ghost use Rattle.std.specs.List.{list_any};
ghost use Rattle.std.specs.List.Sorted.{IsStrictlySortedBy};
ghost use Rattle.std.specs.Ordering.{nat_cmp};
ghost use Rattle.fol_lists.specs.Numbered.{total};
ghost use Rattle.fol_model.specs.declared.places.SectionPos.{SectionPos};
ghost use Rattle.fol_model.specs.declared.regions.State.TheVariants.{Ready, Ticking, Transient};
ghost use Rattle.fol_model.specs.GridState.{is_ticking};
ghost use Rattle.fol_model.specs.Add.{add, extended, is_wanted, target};
ghost use Rattle.fol_model.specs.Geometry.{is_chunk, is_among};
ghost use Rattle.fol_model.specs.GridNumbers.{IsGrid};
ghost use Rattle.fol_model.specs.Rules.{Rules};
ghost use Rattle.fol_model.specs.Universe.{all_sections, count_sections, numbers_below};
ghost use Rattle.fol_pages.specs.Pages.{LieIn};
ghost use Rattle.fol_regions.specs.Added.{IsChoice, Gathers, Grows, Waits, bare, calm_size, extended_change, gathered, is_calm, is_drawn, is_id};
ghost use Rattle.fol_regions.specs.Answers.{add_answer};
ghost use Rattle.fol_regions.specs.Changes.{add_change, into, nothing};
ghost use Rattle.fol_regions.specs.Nearby.{StillStands};
ghost use Rattle.fol_regions.specs.Released.{IsPresence, grid_of};
ghost use Rattle.fol_region_tables.specs.Book.{owner_of, ahead_of, HasRoomFor, SetsState};
ghost use Rattle.fol_region_tables.specs.Book.{is_live, state_of, waits_of};

use crate::nearby::Nearby;
use crate::{AddAnswer, Change};
use fol_model::{ChunkPos, Grid, MOST_SECTIONS, SectionPos, State, section_of};
use fol_region_tables::Tables;
use fol_sections::{Added, Sections};

/// How many sections a region has that does not tick; 0 where it ticks.
fn calm_size(tables: &Tables, id: u64) -> usize
    ensures { result ≡ calm_size tables.now id }
{
    match tables.state(id) {
        State::Ticking => 0,
        _ => tables.sections(id).len(),
    }
}

/// Whether a region with so many sections comes before the best so far.
fn is_better(id: u64, size: usize, best: u64, most: usize) -> bool
    ensures { result ≡ (nat_lt most size || (nat_eq size most && nat_lt id best)) }
{
    size > most || (size == most && id < best)
}

/// The largest of the regions that do not tick, the lowest id of several; 0 where all tick.
fn choose(tables: &Tables, near: &[u64]) -> u64
    requires { (r : ℕ) → is_id near.now r ≡ true → 0 < r }
    ensures { IsChoice (calm_size tables.now) near.now result (if nat_eq result 0 then 0
        else calm_size tables.now result) }
{
    let mut best = 0;
    let mut most = 0;
    for id in near {
        let size = calm_size(tables, *id);
        if is_better(*id, size, best, most) {
            best = *id;
            most = size;
        }
    }
    best
}

/// Whether a region is to become part of the target.
fn is_drawn(tables: &Tables, id: u64, target: u64) -> bool
    ensures { result ≡ is_drawn tables.now target id }
{
    match tables.state(id) {
        State::Ticking => false,
        _ => id != target,
    }
}

/// Merges the near regions that do not tick into the target, in order of id.
fn take_in(tables: &mut Tables, near: &[u64], target: u64, change: &mut Change)
    requires live { (r : ℕ) → is_id near.now r ≡ true → is_live tables.old r ≡ true }
    requires target { is_live tables.old target ≡ true }
    requires calm { is_ticking (state_of tables.old target) ≡ false }
    requires awaited { (u v : ℕ) → waits_of tables.old u v ≡ true
        → is_ticking (state_of tables.old v) ≡ true }
    requires rising { IsStrictlySortedBy nat_cmp near.now }
    requires dead { length change.old.dead + length near.now ≤ 16385 }
    requires merges { length change.old.merges + length near.now ≤ 16385 }
    ensures gathers { Gathers tables.old tables.new target (is_drawn tables.old target) near.now }
    ensures change { change.new ≡ gathered change.old target (is_drawn tables.old target) near.now }
{
    for id in near {
        if is_drawn(tables, *id, target) {
            tables.merge(*id, target);
            change.merge(*id, target);
        }
    }
}

/// The target waits for the near regions that tick.
fn pair_near(tables: &mut Tables, near: &[u64], target: u64)
    requires live { (r : ℕ) → is_id near.now r ≡ true → is_ticking (state_of tables.old r) ≡ true
        → is_live tables.old r ≡ true }
    requires target { is_live tables.old target ≡ true }
    requires room { (total tables.old.ahead + length near.now ≤ tables.old.ahead.room)
        × (total tables.old.behind + length near.now ≤ tables.old.behind.room) }
    ensures { Waits tables.old tables.new target near.now }
{
    for id in near {
        if is_ticking(tables, *id) {
            tables.pair(target, *id);
        }
    }
}

/// Whether a region ticks.
fn is_ticking(tables: &Tables, id: u64) -> bool
    ensures { result ≡ is_ticking (state_of tables.now id) }
{
    match tables.state(id) {
        State::Ticking => true,
        _ => false,
    }
}

/// Gives sections to the largest near region that does not tick, the others of which become part of it, or to a new region.
fn grow(tables: &mut Tables, near: &[u64], change: &mut Change, sections: &[SectionPos]) -> u64
    requires near { (r : ℕ) → is_id near.now r ≡ true → (0 < r) × (is_live tables.old r ≡ true) }
    requires rising { IsStrictlySortedBy nat_cmp near.now }
    requires near_few { length near.now ≤ 625 }
    requires awaited { (u v : ℕ) → waits_of tables.old u v ≡ true
        → is_ticking (state_of tables.old v) ≡ true }
    requires lives { (r : ℕ) → is_ticking (state_of tables.old r) ≡ true
        → is_live tables.old r ≡ true }
    requires some { 0 < length sections.now }
    requires absent { (s : SectionPos) → is_among sections.now s ≡ true
        → owner_of tables.old s ≡ 0 }
    requires row { sections.now ≡ filter (is_among sections.now) all_sections }
    requires few { count_sections (λ s. nat_lt 0 (owner_of tables.old s)) + length sections.now
        ≤ MOST_SECTIONS }
    requires room { LieIn (is_among sections.now) tables.old.free }
    requires few_ids { tables.old.next < 2 ^ 63 }
    requires none { change.old ≡ nothing }
    ensures grows { Grows tables.old tables.new near.now sections.now result }
    ensures change { change.new ≡ record {
      created = if nat_eq result tables.old.next
          then (tables.old.next ∷ []) else [];
      dead = filter (is_drawn tables.old result) near.now;
      merges = into result (filter (is_drawn tables.old result) near.now);
      parts = [];
    } }
{
    tables.keeps_lists();
    let best = choose(tables, near);
    if best == 0 {
        let id = tables.make(sections, State::Ready);
        change.create(id);
        id
    } else {
        take_in(tables, near, best, change);
        tables.give(best, sections);
        best
    }
}

/// The target is Ready where it waits for none, and else Transient.
fn settle(tables: &mut Tables, target: u64)
    requires { is_live tables.old target ≡ true }
    ensures { SetsState tables.old tables.new target
        (if nat_eq (length (ahead_of tables.old target)) 0 then Ready else Transient) }
{
    let waits = tables.waits_for(target).len();
    let state = settled(waits);
    tables.set_state(target, state);
}

/// The state of a region that waits for so many.
fn settled(waits: usize) -> State
    ensures { result ≡ (if nat_eq waits 0 then Ready else Transient) }
{
    if waits == 0 {
        State::Ready
    } else {
        State::Transient
    }
}

/// What an added hold on a chunk that wants sections does to the regions: the sections that it wants go to the largest near region
/// that does not tick, or to a new one, the other near regions that do not tick become part of that, and it waits for those that do.
pub fn extend(
    tables: &mut Tables,
    near: &mut Nearby,
    change: &mut Change,
    grid: &Grid,
    c: ChunkPos,
    wanted: &[SectionPos],
)
    requires rules { Rules (bare grid.now tables.old) }
    requires numbers { IsGrid grid.now }
    requires in_range { IsTrue (is_chunk c) }
    requires wanted { wanted.now ≡ filter (is_wanted (bare grid.now tables.old) c) all_sections }
    requires some { 0 < length wanted.now }
    requires few { count_sections (λ s. nat_lt 0 (owner_of tables.old s)) + length wanted.now
        ≤ MOST_SECTIONS }
    requires few_ids { tables.old.next < 2 ^ 63 }
    requires free { 34 ≤ tables.old.free }
    requires ahead { total tables.old.ahead + 625 ≤ tables.old.ahead.room }
    requires behind { total tables.old.behind + 625 ≤ tables.old.behind.room }
    requires none { change.old ≡ nothing }
    requires stands { StillStands near.old tables.old (grid.now.create + grid.now.merge) }
    ensures owner { owner_of tables.new ≡ (extended (bare grid.now tables.old) c).owner }
    ensures state { state_of tables.new ≡ (extended (bare grid.now tables.old) c).state }
    ensures waits { waits_of tables.new ≡ (extended (bare grid.now tables.old) c).waits }
    ensures next { tables.new.next ≡ (extended (bare grid.now tables.old) c).next }
    ensures change { change.new ≡ extended_change (bare grid.now tables.old) c }
    ensures free { tables.old.free ≤ tables.new.free + 34 }
    ensures ahead { (total tables.new.ahead ≤ total tables.old.ahead + 625)
        × (tables.new.ahead.room ≡ tables.old.ahead.room) }
    ensures behind { (total tables.new.behind ≤ total tables.old.behind + 625)
        × (tables.new.behind.room ≡ tables.old.behind.room) }
{
    tables.keeps_lists();
    near.find(tables, section_of(grid, c), reach(grid));
    let target = grow(tables, near.ids(), change, wanted);
    pair_near(tables, near.ids(), target);
    tables.keeps_lists();
    settle(tables, target);
}

/// How far an added hold reaches: the create and the merge radius.
pub fn reach(grid: &Grid) -> u8
    requires { IsGrid grid.now }
    ensures { result ≡ grid.now.create + grid.now.merge }
{
    grid.create + grid.merge
}

/// Adds a hold on a chunk in both tables, and says in `change` what that did to the regions.
pub fn hold(
    sections: &mut Sections,
    tables: &mut Tables,
    near: &mut Nearby,
    change: &mut Change,
    grid: &Grid,
    c: ChunkPos,
) -> AddAnswer
    requires presence { IsPresence sections.old tables.old }
    requires rules { Rules (grid_of sections.old tables.old) }
    requires same { grid.now ≡ sections.old.grid }
    requires numbers { IsGrid sections.old.grid }
    requires in_range { IsTrue (is_chunk c) }
    requires few { (grid_of sections.old tables.old).holds c < 2 ^ 62 }
    requires few_ids { (grid_of sections.old tables.old).next < 2 ^ 62 }
    requires spare { 1 ≤ sections.old.spare }
    requires room { HasRoomFor tables.old 34 625 }
    requires stands { StillStands near.old tables.old (grid.now.create + grid.now.merge) }
    ensures state { grid_of sections.new tables.new ≡ add (grid_of sections.old tables.old) c }
    ensures answer { result ≡ add_answer (grid_of sections.old tables.old) c }
    ensures change { change.new ≡ add_change (grid_of sections.old tables.old) c }
    ensures presence { IsPresence sections.new tables.new }
    ensures spare { sections.old.spare ≤ sections.new.spare + 1 }
    ensures grid { sections.new.grid ≡ sections.old.grid }
    ensures free { tables.old.free ≤ tables.new.free + 34 }
    ensures ahead { (total tables.new.ahead ≤ total tables.old.ahead + 625)
        × (tables.new.ahead.room ≡ tables.old.ahead.room) }
    ensures behind { (total tables.new.behind ≤ total tables.old.behind + 625)
        × (tables.new.behind.room ≡ tables.old.behind.room) }
{
    change.clear();
    match sections.add(c) {
        Added::Full { present, wanted } => AddAnswer::Full { present, wanted },
        Added::Counted => AddAnswer::Counted,
        Added::Filled => {
            extend(tables, near, change, grid, c, sections.filled());
            AddAnswer::Changed
        }
    }
}

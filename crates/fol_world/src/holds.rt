//! Tickets of chunks.

ghost use Rattle.std.specs.Prelude.{◌≡◌, ℕ, true, false, ◌+◌, ◌≤◌, ◌<◌, ◌++◌, vec_len, vec_capacity, length, nat_eq, if◌then◌else◌};
ghost use Rattle.fol_model.specs.declared.places.ChunkPos.{ChunkPos};
ghost use Rattle.fol_model.specs.Geometry.{section_of as section_around};
ghost use Rattle.fol_model.specs.Add.{is_full};
ghost use Rattle.fol_model.specs.Drop.{drop_hold as drop};
ghost use Rattle.fol_sections.specs.Places.{count_at};
ghost use Rattle.fol_regions.specs.Table.{grid_state};
ghost use Rattle.fol_regions.specs.Answers.{add_answer};
ghost use Rattle.fol_regions.specs.Changes.{add_change};
ghost use Rattle.fol_store.specs.Bag.{Bag};
ghost use Rattle.fol_bags.specs.Clear.{HasNoTask};
ghost use Rattle.fol_store.specs.Stock.{bag_of, jobs_of, next_of};
ghost use Rattle.fol_world.specs.Agenda.{GrowsBy};
ghost use Rattle.fol_world.specs.Bags.{unsettled_at};
ghost use Rattle.fol_world.specs.Follows.{CanDrop, CanFollow, CanGain, CanHold, CanLose, CanSettle, ChangesTo, Drops, Holds, IsKnown, Narrows, Settle, Widens, changed_bags, followed, load_answer_in, losing, target_in, tickets_after};
ghost use Rattle.fol_world.specs.Posts.{LeavesRoom};
ghost use Rattle.fol_world.specs.Same.{SameThings};

use crate::agenda::tidy;
use crate::bags::{join, open_all};
use crate::tables::Tables;
use fol_model::{ChunkPos, Loaded, SectionPos, Unloaded, section_of};
use fol_regions::{AddAnswer, MergePair, Regions, Removed};
use fol_sections::{count_hold, drop_hold};
use fol_store::Store;

/// Adds a ticket, where the chunk can be held.
pub fn loaded(tables: &mut Tables, c: ChunkPos) -> Loaded
    requires { CanHold tables.old c }
    ensures answer { result ≡ load_answer_in (grid_state tables.old.regions) c }
    ensures held { Holds tables.old tables.new c }
    ensures tickets { (q : ChunkPos) → count_at tables.new.tickets.entries q
        ≡ tickets_after (is_full (grid_state tables.old.regions) c)
        (count_at tables.old.tickets.entries) c q }
    ensures stack { GrowsBy 1 tables.old.agenda tables.new.agenda }
{
    match hold(tables, c) {
        AddAnswer::Full { present, wanted } => Loaded::Full { present, wanted },
        AddAnswer::Counted | AddAnswer::Changed => {
            count_hold(&mut tables.tickets, c);
            Loaded::Counted
        }
    }
}

/// Takes a ticket, where the chunk has one. With its last hold the chunk's region loses the chunk.
pub fn unloaded(tables: &mut Tables, c: ChunkPos) -> Unloaded
    requires known { IsKnown (bag_of tables.old.store)
        ((grid_state tables.old.regions).owner (section_around tables.old.grid c)) }
    requires near { CanLose (grid_state tables.old.regions) c
        ((grid_state tables.old.regions).owner (section_around tables.old.grid c))
        (bag_of tables.old.store) }
    requires no_task { CanDrop (grid_state tables.old.regions) (count_at tables.old.tickets.entries)
        (jobs_of tables.old.store) c }
    ensures answer { result ≡ (if nat_eq (count_at tables.old.tickets.entries c) 0
        then Unloaded.NoTicket else Unloaded.Lowered) }
    ensures done { Drops tables.old tables.new c
        (nat_eq (count_at tables.old.tickets.entries c) 0) }
    ensures stack { tables.new.agenda ≡ tables.old.agenda }
{
    if drop_hold(&mut tables.tickets, c) == 0 {
        return Unloaded::NoTicket;
    }
    let home = section_of(&tables.grid, c);
    lower(&mut tables.regions, &mut tables.store, home, c);
    Unloaded::Lowered
}

/// Takes a hold from a chunk of a section. With the last hold the region of the section has a chunk less.
fn lower(regions: &mut Regions, store: &mut Store, home: SectionPos, c: ChunkPos)
    requires known { IsKnown (bag_of store.old) ((grid_state regions.old).owner home) }
    requires near { CanLose (grid_state regions.old) c ((grid_state regions.old).owner home)
        (bag_of store.old) }
    requires no_task { nat_eq ((grid_state regions.old).holds c) 1 ≡ true
        → HasNoTask c (jobs_of store.old) }
    ensures regions { grid_state regions.new ≡ drop (grid_state regions.old) c }
    ensures bags { Settle (grid_state regions.new)
        (unsettled_at (losing home (grid_state regions.old) c) (bag_of store.old))
        (bag_of store.new) }
    ensures things { SameThings store.old store.new }
    ensures next { next_of store.new ≡ next_of store.old }
{
    match regions.remove(c) {
        Removed::Gone => lose_chunk(regions, store, home, c),
        Removed::Lowered => {}
        Removed::NotLoaded => {}
    }
}

/// The region of the section, if there is one, has the chunk less.
fn lose_chunk(regions: &Regions, store: &mut Store, s: SectionPos, c: ChunkPos)
    requires known { IsKnown (bag_of store.old) ((grid_state regions.now).owner s) }
    requires near { 0 < (grid_state regions.now).owner s
        → Narrows (grid_state regions.now) c ((grid_state regions.now).owner s)
        (bag_of store.old ((grid_state regions.now).owner s)) }
    requires no_task { HasNoTask c (jobs_of store.old) }
    ensures bags { Settle (grid_state regions.now)
        (unsettled_at ((grid_state regions.now).owner s) (bag_of store.old)) (bag_of store.new) }
    ensures things { SameThings store.old store.new }
    ensures next { next_of store.new ≡ next_of store.old }
{
    match regions.owner(s) {
        Some(id) => store.lose(id, c),
        None => {}
    }
}

/// Adds a hold on a chunk, and lets bags and stack follow.
#[tactic(auto, unfolding(crate::specs::Follows::gaining))]
pub(crate) fn hold(tables: &mut Tables, c: ChunkPos) -> AddAnswer
    requires { CanHold tables.old c }
    ensures answer { result ≡ add_answer (grid_state tables.old.regions) c }
    ensures held { Holds tables.old tables.new c }
    ensures tickets { tables.new.tickets ≡ tables.old.tickets }
    ensures left { LeavesRoom tables.old tables.new
        (length (add_change (grid_state tables.old.regions) c).created) }
{
    tables.regions.keeps_rules();
    if tables.regions.add_again(c) {
        return AddAnswer::Counted;
    }
    let answer = tables.regions.add(c);
    let home = section_of(&tables.grid, c);
    follow(&tables.regions, &mut tables.store, home, c, answer);
    add_target(&mut tables.agenda, tables.regions.last().merges());
    tidy(&mut tables.agenda, &tables.regions, &tables.store);
    answer
}

/// The bags follow the last change of the regions, whose chunk was not held before: the region of the section has a chunk more.
fn follow(regions: &Regions, store: &mut Store, s: SectionPos, c: ChunkPos, answer: AddAnswer)
    requires can { CanFollow store.old regions.now.last }
    requires settles { (h : ℕ → Bag) → ChangesTo regions.now.last (bag_of store.old) h
        → CanSettle false answer (grid_state regions.now) c ((grid_state regions.now).owner s)
        (changed_bags regions.now.last (bag_of store.old)) h }
    ensures bags { Settle (grid_state regions.now)
        (followed ((grid_state regions.now).owner s) regions.now.last
        (bag_of store.old)) (bag_of store.new) }
    ensures things { SameThings store.old store.new }
    ensures next { next_of store.new ≡ next_of store.old + length regions.now.last.created }
    ensures spare { store.old.spare ≤ store.new.spare }
    ensures slots { store.old.slots ≤ store.new.slots + length regions.now.last.created }
{
    change_bags(regions, store);
    gain_chunk(regions, store, s, c, answer);
}

/// The new regions of the last change get bags, and then some join.
fn change_bags(regions: &Regions, store: &mut Store)
    requires { CanFollow store.old regions.now.last }
    ensures bags { ChangesTo regions.now.last (bag_of store.old) (bag_of store.new) }
    ensures things { SameThings store.old store.new }
    ensures next { next_of store.new ≡ next_of store.old + length regions.now.last.created }
    ensures spare { store.old.spare ≤ store.new.spare }
    ensures slots { store.old.slots ≤ store.new.slots + length regions.now.last.created }
{
    let change = regions.last();
    open_all(store, change.created(), 0, 0);
    join(store, change.merges());
}

/// Where the hold was added, the region of the section, if there is one, has the chunk more.
fn gain_chunk(regions: &Regions, store: &mut Store, s: SectionPos, c: ChunkPos, answer: AddAnswer)
    requires known { IsKnown (bag_of store.old) ((grid_state regions.now).owner s) }
    requires near { CanGain answer (grid_state regions.now) c ((grid_state regions.now).owner s)
        (bag_of store.old ((grid_state regions.now).owner s)) }
    ensures bags { Settle (grid_state regions.now)
        (unsettled_at ((grid_state regions.now).owner s) (bag_of store.old)) (bag_of store.new) }
    ensures things { SameThings store.old store.new }
    ensures next { next_of store.new ≡ next_of store.old }
    ensures spare { store.new.spare ≡ store.old.spare }
    ensures slots { store.new.slots ≡ store.old.slots }
{
    match answer {
        AddAnswer::Counted | AddAnswer::Changed => gain_owner(regions, store, s, c),
        AddAnswer::Full {
            present: _,
            wanted: _,
        } => {}
    }
}

/// The region of the section, if there is one, has the chunk more.
fn gain_owner(regions: &Regions, store: &mut Store, s: SectionPos, c: ChunkPos)
    requires known { IsKnown (bag_of store.old) ((grid_state regions.now).owner s) }
    requires near { 0 < (grid_state regions.now).owner s
        → Widens (grid_state regions.now) c ((grid_state regions.now).owner s)
        (bag_of store.old ((grid_state regions.now).owner s)) }
    ensures bags { Settle (grid_state regions.now)
        (unsettled_at ((grid_state regions.now).owner s) (bag_of store.old)) (bag_of store.new) }
    ensures things { SameThings store.old store.new }
    ensures next { next_of store.new ≡ next_of store.old }
    ensures spare { store.new.spare ≡ store.old.spare }
    ensures slots { store.new.slots ≡ store.old.slots }
{
    match regions.owner(s) {
        Some(id) => store.gain(id, c),
        None => {}
    }
}

/// The region that others joined may owe a tick now.
fn add_target(agenda: &mut Vec<u64>, merges: &[MergePair])
    requires room { vec_len agenda.old < vec_capacity agenda.old }
    ensures items { agenda.new.items ≡ agenda.old.items ++ target_in merges.now }
    ensures len { vec_len agenda.new ≤ vec_len agenda.old + 1 }
    ensures capacity { vec_capacity agenda.new ≡ vec_capacity agenda.old }
{
    match merges.first() {
        Some(pair) => agenda.push_reserved(pair.into),
        None => {}
    }
}

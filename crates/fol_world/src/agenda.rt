//! The stack of regions that may owe a tick.

ghost use Rattle.std.specs.Prelude.{◌≡◌, ◌+◌, ◌<◌, ◌≤◌, ◌++◌, ◌∷◌, ◌&&◌, nat_lt, true, false, [], find, vec_len, vec_capacity};
ghost use Rattle.fol_model.specs.GridState.{is_ready};
ghost use Rattle.fol_regions.specs.Table.{grid_state};
ghost use Rattle.fol_store.specs.Stock.{bag_of};
ghost use Rattle.fol_world.specs.Agenda.{Covers, GrowsBy, IsAgenda, IsTop, HaveBags, is_busy_in, owes as owes_tick};

use crate::tables::Tables;
use fol_model::State;
use fol_regions::Regions;
use fol_store::Store;

/// Whether a region is Ready and owes a tick.
pub fn owes(regions: &Regions, store: &Store, id: u64) -> bool
    requires bags { HaveBags (grid_state regions.now) (bag_of store.now) }
    ensures { result ≡ owes_tick (grid_state regions.now) (bag_of store.now) id }
{
    regions.keeps_rules();
    match regions.state(id) {
        Some(state) => owes_in(state, store, id),
        None => false,
    }
}

/// Whether a region that is in this state is Ready and owes a tick.
fn owes_in(state: State, store: &Store, id: u64) -> bool
    requires { is_ready state ≡ true → (bag_of store.now id).here ≡ true }
    ensures { result ≡ (is_ready state && nat_lt 0 (bag_of store.now id).owed) }
{
    match state {
        State::Ready => store.owed(id) > 0,
        _ => false,
    }
}

/// Takes regions off the top until it owes a tick.
pub(crate) fn tidy(agenda: &mut Vec<u64>, regions: &Regions, store: &Store)
    requires bags { HaveBags (grid_state regions.now) (bag_of store.now) }
    requires covers { Covers agenda.old.items (grid_state regions.now) (bag_of store.now) }
    ensures agenda { IsAgenda agenda.new.items (grid_state regions.now) (bag_of store.now) }
    ensures len { vec_len agenda.new ≤ vec_len agenda.old }
    ensures capacity { vec_capacity agenda.new ≡ vec_capacity agenda.old }
{
    while let Some(id) = agenda.last().copied() {
        if owes(regions, store, id) {
            return;
        }
        let _ = agenda.pop();
    }
}

/// Takes a region that is not Ready off the top, if it is there, and then regions until the top owes a tick.
pub(crate) fn tidy_without(agenda: &mut Vec<u64>, regions: &Regions, store: &Store, id: u64)
    requires state { is_ready ((grid_state regions.now).state id) ≡ false }
    requires bags { HaveBags (grid_state regions.now) (bag_of store.now) }
    requires covers { Covers agenda.old.items (grid_state regions.now) (bag_of store.now) }
    ensures agenda { IsAgenda agenda.new.items (grid_state regions.now) (bag_of store.now) }
    ensures len { vec_len agenda.new ≤ vec_len agenda.old }
    ensures capacity { vec_capacity agenda.new ≡ vec_capacity agenda.old }
    ensures top { IsTop agenda.old.items id → vec_len agenda.new < vec_len agenda.old }
{
    if agenda.last().copied() == Some(id) {
        let _ = agenda.pop();
    }
    tidy(agenda, regions, store);
}

/// Puts a region that is in this state on top, and takes regions off until the top owes a tick.
pub fn add(agenda: &mut Vec<u64>, regions: &Regions, store: &Store, id: u64, state: State)
    requires state { state ≡ (grid_state regions.now).state id }
    requires room { vec_len agenda.old < vec_capacity agenda.old }
    requires bags { HaveBags (grid_state regions.now) (bag_of store.now) }
    requires covers { Covers (agenda.old.items ++ id ∷ []) (grid_state regions.now)
        (bag_of store.now) }
    ensures agenda { IsAgenda agenda.new.items (grid_state regions.now) (bag_of store.now) }
    ensures stack { GrowsBy 1 agenda.old agenda.new }
    ensures top { owes_tick (grid_state regions.now) (bag_of store.now) id ≡ true
        → IsTop agenda.new.items id }
{
    let is_owing = owes_in(state, store, id);
    agenda.push_reserved(id);
    if !is_owing {
        tidy(agenda, regions, store);
    }
}

/// The first region of a list that ticks, or is Ready and owes a tick.
pub fn first_busy(tables: &Tables, live: &[u64]) -> Option<u64>
    requires bags { HaveBags (grid_state tables.now.regions) (bag_of tables.now.store) }
    ensures { result ≡ find (is_busy_in (grid_state tables.now.regions) (bag_of tables.now.store))
        live.now }
{
    live.iter().copied().find(|id| is_busy(tables, *id))
}

/// Whether a region ticks, or is Ready and owes a tick.
fn is_busy(tables: &Tables, id: u64) -> bool
    requires bags { HaveBags (grid_state tables.now.regions) (bag_of tables.now.store) }
    ensures { result ≡ is_busy_in (grid_state tables.now.regions) (bag_of tables.now.store) id }
{
    tables.regions.keeps_rules();
    match tables.regions.state(id) {
        Some(State::Ticking) => true,
        _ => owes(&tables.regions, &tables.store, id),
    }
}

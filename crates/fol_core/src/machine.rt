//! The core.

ghost use Rattle.std.specs.Prelude.{ℕ, ◌≡◌, ◌+◌, ◌≤◌, ◌<◌, ◌^◌, [], ◌∷◌, ◌++◌, length, vec_len, vec_capacity, IfOk, OnOk, OnErr, IfSome, IfNone, Some, true, false};
ghost use Rattle.fol_model.specs.Run.{Run};
ghost use Rattle.fol_core.specs.Meaning.{Records, Stays, is_prepared, world_of};
ghost use Rattle.fol_core.specs.Ahead.{NonePrepared};
ghost use Rattle.fol_core.specs.Answers.{is_free, some_id, state_result};
ghost use Rattle.fol_core.specs.First.{AreFirst, untouched};
ghost use Rattle.fol_model.specs.GridState.{empty};
ghost use Rattle.fol_regions.specs.Table.{grid_state};

use crate::entries::{Answers, EventBox};
use crate::marks::Marks;
use fol_model::{Grid, Opening, PackedEntry, SectionPos, State, Task};
use fol_regions::Regions;
use fol_store::Store;
use fol_world::agenda::owes;
use fol_world::tables::{Course, Tables};
use std::alloc::{AllocError, Global};
use std::collections::HashMap;
use std::marker::Model;

/// The world before any event.
const UNTOUCHED: Course = Course {
    next_job: 1,
    in_phase: false,
    sum: 0,
    stopped: false,
    finished: false,
    size: 0,
};

/// Memory that was taken for what comes next.
#[derive(Drop)]
pub(crate) enum Room {
    /// For the next Begin of a region, with a list for the due tasks.
    Begin { id: u64, due: Vec<Task> },
    /// For an End with so many wishes, with a list for the answers, and for its event.
    End { wishes: usize, accepts: Answers },
}

/// A world and its history, which is a run of its opening.
///
/// The history grows by one entry at each call that records one; it is never changed otherwise. A region is prepared from `prepare` to
/// `learn` or `withdraw`: its tick is out, and no Begin of it is recorded. In the tables it ticks already.
#[derive(Drop)]
pub struct Core {
    pub(crate) opening: Opening,
    pub(crate) history: Vec<PackedEntry>,
    pub(crate) tables: Tables,
    /// The prepared regions.
    pub(crate) marks: Marks,
    pub(crate) room: Option<Room>,
    /// Memory for the next event that needs a pointer.
    pub(crate) left: Option<EventBox>,
    pub(crate) alloc: Global,
}

impl Model for Core {
    ghost use Rattle.std.specs.Prelude.{length};
    ghost use Rattle.fol_core.specs.Meaning.{Meaning, mark, mark_count};

    ghost Value = { Meaning };

    ghost use Rattle.fol_core.specs.Ahead.{StandsAhead};
    ghost use Rattle.fol_core.specs.Room.{room_of, AgendaRoom, EntryRoom, HasRoom};

    ghost view = { λ s. record {
      opening = s.opening;
      history = s.history.items;
      prepared = s.marks;
      room = room_of s.room;
    } };

    ghost invariant = { λ s. StandsAhead s.opening s.history.items (mark s.marks) s.tables
        × HasRoom s.room s.tables s.history (mark_count s.marks) (length s.marks)
        × EntryRoom s.tables.course s.history (mark_count s.marks)
        × AgendaRoom s.tables.agenda (mark_count s.marks) };
}

impl Core {
    /// The world of an opening, before any event. Fails only when out of memory.
    pub fn start(alloc: Global, opening: Opening) -> Result<Core, AllocError>
        ensures opening { IfOk result (λ core. core.opening ≡ opening) }
        ensures empty { IfOk result (λ core. core.history ≡ []) }
        ensures none { IfOk result (λ core. NonePrepared core) }
    {
        let mut history = Vec::new(alloc);
        match first_tables(alloc, &opening, &mut history) {
            Ok(tables) => Ok(Core {
                opening,
                history,
                tables,
                marks: Marks::new(alloc),
                room: None,
                left: None,
                alloc,
            }),
            Err(_) => {
                drop(history);
                drop(opening);
                Err(AllocError)
            }
        }
    }

    /// The ticks of all phases so far.
    pub fn phase_ticks(&self) -> u32
        ensures { result ≡ (world_of self.now).sum }
    {
        self.tables.course.sum
    }

    /// A Ready region that owes a tick and is not prepared, which is `first` where that is one; `None` exactly where there is none. Which
    /// other one is free.
    pub fn next_owing(&self, first: u64) -> Option<u64>
        ensures first { is_free self.now first ≡ true → result ≡ Some first }
        ensures some { IfSome result (λ r. is_free self.now r ≡ true) }
        ensures none { IfNone result ((r : ℕ) → 0 < r → r < (world_of self.now).grid.next
            → is_free self.now r ≡ false) }
    {
        if owes(&self.tables.regions, &self.tables.store, first) {
            return Some(first);
        }
        self.tables.agenda.last().copied()
    }

    /// The entries so far. They are a run of the opening.
    pub fn history(&self) -> &[PackedEntry]
        ensures entries { result.now ≡ self.now.history }
        ensures run { Run self.now.opening self.now.history }
    {
        self.history.as_slice()
    }

    /// The region that owns a section; `None` exactly where the section is not present.
    pub fn owner(&self, s: SectionPos) -> Option<u64>
        ensures { result ≡ some_id ((world_of self.now).grid.owner s) }
    {
        self.tables.regions.owner(s)
    }

    /// Whether a region is prepared: its tick is out, and no Begin of it is recorded.
    pub fn is_prepared(&self, id: u64) -> bool
        ensures { result ≡ is_prepared self.now id }
    {
        self.marks.has(id)
    }

    /// The state of a region; `None` exactly where the id was not given out.
    pub fn state(&self, id: u64) -> Option<State>
        ensures { result ≡ state_result (world_of self.now) id }
    {
        if self.marks.has(id) {
            return Some(State::Ready);
        }
        self.tables.regions.state(id)
    }
}

/// The tables before any event. Takes the memory for a Stop, too.
fn first_tables(
    alloc: Global,
    opening: &Opening,
    history: &mut Vec<PackedEntry>,
) -> Result<Tables, AllocError>
    ensures entries { history.new.items ≡ history.old.items }
    ensures room { OnOk result (vec_len history.new < vec_capacity history.new) }
    ensures first { IfOk result (AreFirst opening.now) }
{
    history.reserve(1)?;
    let store = Store::new(alloc, opening)?;
    with_regions(alloc, opening.grid, store)
}

/// The tables before any event, with what lies in the store.
fn with_regions(alloc: Global, grid: Grid, store: Store) -> Result<Tables, AllocError>
    ensures grid { IfOk result (λ t. t.grid ≡ grid) }
    ensures regions { IfOk result (λ t. grid_state t.regions ≡ empty grid) }
    ensures store { IfOk result (λ t. t.store ≡ store) }
    ensures tickets { IfOk result (λ t. t.tickets.entries ≡ []) }
    ensures agenda { IfOk result (λ t. t.agenda.items ≡ []) }
    ensures course { IfOk result (λ t. t.course ≡ untouched) }
{
    match Regions::new(alloc, grid) {
        Ok(regions) => Ok(Tables {
            grid,
            regions,
            store,
            tickets: HashMap::new(alloc),
            agenda: Vec::new(alloc),
            course: UNTOUCHED,
        }),
        Err(_) => {
            drop(store);
            Err(AllocError)
        }
    }
}

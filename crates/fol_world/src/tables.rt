//! The tables that stand for the world after a history.

ghost use Rattle.std.specs.Prelude.{ℤ, ◌≡◌, ◌+◌, ◌≤◌, ◌<◌, ◌^◌, ◌||◌, OnOk, vec_len, vec_capacity};
ghost use Rattle.std.specs.HashMap.{spare as room_of};
ghost use Rattle.fol_sections.specs.Places.{number_at};
ghost use Rattle.fol_world.specs.Same.{SameStock, SameTables};
ghost use Rattle.fol_world.specs.Grown.{HasGrown};

use fol_model::{Grid, PackedEntry};
use fol_regions::Regions;
use fol_sections::Numbers;
use fol_store::Store;
use std::alloc::AllocError;

/// How many entries and answers of Ends a history may have, but for a Stop.
pub const MOST: u64 = 1 << 50;

/// How far the world has come.
#[derive(Clone, Copy)]
pub struct Course {
    /// The number of the next task.
    pub next_job: u64,
    pub in_phase: bool,
    /// The ticks of all phases.
    pub sum: u32,
    pub stopped: bool,
    pub finished: bool,
    /// How many entries the history has, and answers that its Ends list.
    pub size: u64,
}

impl Course {
    /// Whether Finish or Stop stands in the history.
    pub fn is_over(&self) -> bool
        ensures { result ≡ (self.now.finished || self.now.stopped) }
    {
        self.finished || self.stopped
    }
}

/// The world after a history.
#[derive(Drop)]
pub struct Tables {
    pub grid: Grid,
    /// Sections, regions and holds.
    pub regions: Regions,
    /// What no worker has in its hands.
    pub store: Store,
    /// The tickets of the chunks.
    pub tickets: Numbers,
    /// A stack of regions: each that is Ready and owes a tick is in it, and its top is such a one.
    pub agenda: Vec<u64>,
    pub course: Course,
}

/// Takes the memory for an entry, for a Stop after it, and for the Begins of so many prepared regions.
pub fn grow_history(
    history: &mut Vec<PackedEntry>,
    course: &Course,
    early: u64,
) -> Result<(), AllocError>
    requires few { early < 2 ^ 63 }
    ensures entries { history.new.items ≡ history.old.items }
    ensures len { vec_len history.new ≡ vec_len history.old }
    ensures capacity { vec_capacity history.old ≤ vec_capacity history.new }
    ensures room { OnOk result (vec_len history.new + 2 + early ≤ vec_capacity history.new) }
    ensures size { OnOk result (course.now.size < 2 ^ 50) }
{
    history.reserve(2 + early as usize)?;
    if course.size >= MOST {
        return Err(AllocError);
    }
    Ok(())
}

/// Takes the memory for an entry with one hold added, for so many tasks, for a Stop after it, and for the Begins of so many prepared
/// regions or their places in the stack.
pub fn grow(
    tables: &mut Tables,
    history: &mut Vec<PackedEntry>,
    tasks: u64,
    early: u64,
) -> Result<(), AllocError>
    requires few { early < 2 ^ 63 }
    ensures same { SameTables tables.old tables.new }
    ensures entries { history.new.items ≡ history.old.items }
    ensures len { vec_len history.new ≡ vec_len history.old }
    ensures capacity { vec_capacity history.old ≤ vec_capacity history.new }
    ensures ok { OnOk result (HasGrown tables.new history.new tasks early) }
{
    grow_history(history, &tables.course, early)?;
    tables.regions.reserve(1)?;
    tables.store.reserve(tasks, 1)?;
    tables.tickets.reserve(1)?;
    tables.agenda.reserve(1 + early as usize)?;
    Ok(())
}

/// Takes the memory for so many tasks and bags, where there is less.
pub fn grow_store(store: &mut Store, tasks: u64, bags: u64) -> Result<(), AllocError>
    ensures same { SameStock store.old store.new }
    ensures tasks { OnOk result (tasks ≤ store.new.spare) }
    ensures bags { OnOk result (bags ≤ store.new.slots) }
{
    if tasks <= store.spare() && bags <= store.slots() {
        return Ok(());
    }
    store.reserve(tasks, bags)
}

/// Takes the memory for one chunk more with tickets, where there is none.
pub fn grow_tickets(tickets: &mut Numbers) -> Result<(), AllocError>
    ensures same { (x z : ℤ)
        → number_at tickets.new.entries x z ≡ number_at tickets.old.entries x z }
    ensures ok { OnOk result (1 ≤ room_of tickets.new) }
{
    if tickets.len() < tickets.capacity() {
        return Ok(());
    }
    tickets.reserve(1)
}

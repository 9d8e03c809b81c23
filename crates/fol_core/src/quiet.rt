//! Quiet ticks: no task is due in them, few entities walk, and their release changes nothing.

ghost use Rattle.std.specs.Prelude.{◌≡◌, ◌+◌, ◌*◌, ◌≤◌, ◌<◌, ◌^◌, ◌++◌, OnOk, vec_len, vec_capacity};
ghost use Rattle.fol_core.specs.Meaning.{Stays, world_of};
ghost use Rattle.fol_core.specs.Quiet.{Passes, quiet_ticks as ticks_by};

use crate::machine::Core;
use fol_model::{Event, PackedEntry, Sequence};
use fol_world::begins::settle_next;
use fol_world::quiet::{pass_ticks, quiet_ticks};
use fol_world::tables::{Course, MOST};
use std::alloc::{AllocError, Global};

impl Core {
    /// Begins and ends quiet ticks of one region, one after another: as long as the region is Ready and owes a tick, no task is due in it,
    /// only a few of its entities have a speed and its release changes nothing, but at most `most`, and none after Finish or Stop. Returns
    /// how many. It records the Begin and the End of each, by this worker, and nothing else; the entities move by their speeds. It may be
    /// fewer than there are: a tick of which this would take long to tell, or for which no memory is found, is left to `begin`.
    pub fn pass(&mut self, worker: u32, id: u64, most: u32) -> u32
        ensures few { result ≤ most }
        ensures passed { Passes self.old self.new worker id result }
    {
        self.settle_next(id);
        let mut passed = 0;
        'rounds: while passed < most {
            let more = self.pass_some(worker, id, most - passed);
            passed += more;
            if more == 0 {
                return passed;
            }
        }
        passed
    }

    /// Makes the bag of a region whole, where it owes a tick, so that what happens in that tick can be told. If memory runs out, the bag may
    /// stay as it is.
    fn settle_next(&mut self, id: u64)
        ensures { Stays self.old self.new }
    {
        let tables = &mut self.tables;
        self.room = None;
        settle_next(self.alloc, &tables.regions, &mut tables.store, id);
    }

    /// Begins and ends some such ticks at once, where there are any, and memory for them. Returns how many.
    fn pass_some(&mut self, worker: u32, id: u64, most: u32) -> u32
        ensures few { result ≤ most }
        ensures passed { Passes self.old self.new worker id result }
        ensures counter { (world_of self.new).tick id ≡ (world_of self.old).tick id + result }
    {
        let tables = &mut self.tables;
        if tables.course.is_over() {
            return 0;
        }
        let ticks = quiet_ticks(&tables.regions, &tables.store, id, most);
        if ticks == 0 {
            return 0;
        }
        self.room = None;
        match grow_ticks(&mut self.history, &tables.course, ticks, self.marks.count()) {
            Ok(()) => {}
            Err(_) => return 0,
        }
        let before = pass_ticks(tables, id, ticks);
        record_ticks(self.alloc, &mut self.history, worker, id, before, ticks);
        tables.course.size += 2 * ticks as u64;
        ticks
    }
}

/// Takes the memory for the Begins and the Ends of so many ticks, for a Stop after them, and for the Begins of so many prepared regions.
fn grow_ticks(
    history: &mut Vec<PackedEntry>,
    course: &Course,
    ticks: u32,
    early: u64,
) -> Result<(), AllocError>
    requires few { early < 2 ^ 63 }
    ensures entries { history.new.items ≡ history.old.items }
    ensures len { vec_len history.new ≡ vec_len history.old }
    ensures capacity { vec_capacity history.old ≤ vec_capacity history.new }
    ensures room { OnOk result (vec_len history.new + 2 * ticks + 1 + early
        ≤ vec_capacity history.new) }
    ensures size { OnOk result (course.now.size + 2 * ticks ≤ 2 ^ 50) }
{
    let entries = 2 * ticks as u64;
    history.reserve((entries + 1 + early) as usize)?;
    if course.size > MOST - entries {
        return Err(AllocError);
    }
    Ok(())
}

/// Adds the Begins and the Ends of so many ticks in which no task ran to a history that has room for them. The counter of the region was
/// `before` before the first.
fn record_ticks(
    alloc: Global,
    history: &mut Vec<PackedEntry>,
    worker: u32,
    id: u64,
    before: u64,
    ticks: u32,
)
    requires room { vec_len history.old + 2 * ticks ≤ vec_capacity history.old }
    requires early { before + ticks ≤ 2 ^ 62 }
    ensures entries { history.new.items ≡ history.old.items ++ ticks_by worker id before ticks }
    ensures len { vec_len history.new ≡ vec_len history.old + 2 * ticks }
    ensures capacity { vec_capacity history.new ≡ vec_capacity history.old }
{
    for i in 0..ticks {
        let begin = Event::Begin { worker, region: id };
        history.push_reserved(PackedEntry::light(worker, begin));
        let end = Event::End {
            worker,
            region: id,
            tick: before + i as u64 + 1,
            ran: Sequence::new(alloc),
            accepts: Sequence::new(alloc),
        };
        history.push_reserved(PackedEntry::light(worker, end));
    }
}

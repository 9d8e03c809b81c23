//! The release of a region: a finished tick comes back.

ghost use Rattle.std.specs.Prelude.{◌≡◌, ◌+◌, ◌≤◌, ◌<◌, ◌^◌, [], length, IfOk, IfErr, IfSome, IsOk, IsSome, OnOk, OnErr, vec_len, vec_capacity};
ghost use Rattle.fol_model.specs.End.{run_down};
ghost use Rattle.fol_laws.specs.LateBegin.{wishes_touch};
ghost use Rattle.fol_core.specs.Ahead.{Spares};
ghost use Rattle.fol_regions.specs.Table.{grid_state};
ghost use Rattle.fol_world.specs.AtEnd.{end_event};
ghost use Rattle.fol_core.specs.Meaning.{ForEnd, Records, Stays, world_of};
ghost use Rattle.fol_core.specs.Room.{HasGrownToEnd, HasEndRoom, room_of};
ghost use Rattle.fol_world.specs.MostParts.{parts_at_most as most_parts};
ghost use Rattle.fol_world.specs.Same.{SameTables};
ghost use Rattle.fol_core.specs.Ticks.{IsOut, IsReadyToRelease, SameTick};

use crate::entries::{Answers, EventBox, record_in};
use crate::machine::{Core, Room};
use fol_data::Tick;
use fol_model::{MOST_SECTIONS, PackedEntry};
use fol_regions::Regions;
use fol_world::ends::end_tick;
use fol_world::tables::{MOST, Tables, grow_store, grow_tickets};
use std::alloc::{AllocError, Global};

/// How many sections a hold adds at most: those of a square with 17 a side.
const SQUARE: u64 = 289;

/// How many sections a part of a region has at least.
const LEAST: u64 = 9;

/// How many wishes a tick may have, so that the regions that they make can be counted.
const WISHES: u64 = u32::MAX as u64;

impl Core {
    /// Takes the memory for the End of a tick that was given out and that is finished: the core's, and that of the tick itself, which is the
    /// same tick then. It is ready to be released, until the next call that changes the core. If memory runs out, nothing has changed,
    /// but an earlier readiness may be lost.
    pub fn reserve_release(&mut self, alloc: Global, tick: &mut Tick) -> Result<(), AllocError>
        requires out { IsOut self.old tick.old }
        ensures ready { OnOk result (IsReadyToRelease self.new tick.new) }
        ensures same { SameTick tick.old tick.new }
        ensures stays { Stays self.old self.new }
    {
        self.room = None;
        let early = self.marks.count();
        let accepts = grow_to_end(
            alloc,
            &mut self.tables,
            &mut self.history,
            tick,
            early,
            &mut self.left,
        )?;
        let wishes = tick.log.wishes.len();
        self.room = Some(Room::End { wishes, accepts });
        Ok(())
    }

    /// Ends a tick that was given out and that is finished; its wishes touch no prepared region. Returns the new length of the history.
    /// It takes memory, but not where the tick is ready to be released, by `reserve_release`. If memory runs out, the tick is handed back,
    /// and nothing has changed, but a readiness may be lost.
    pub fn release(&mut self, alloc: Global, tick: Tick) -> Result<u64, Tick>
        requires out { IsOut self.old tick }
        requires spares { Spares self.old (wishes_touch
            (run_down (world_of self.old) tick.region tick.log.ran) tick.log.wishes) }
        ensures ready { IsReadyToRelease self.old tick → IsOk result }
        ensures length { IfOk result (λ n. n ≡ length self.new.history) }
        ensures recorded { OnOk result (Records self.old self.new tick.worker
            (end_event (world_of self.old) tick.worker tick.region tick.log.ran)) }
        ensures back { IfErr result (λ t. SameTick tick t) }
        ensures refused { OnErr result (Stays self.old self.new) }
    {
        let mut tick = tick;
        match self.end(alloc, &mut tick) {
            Ok(length) => Ok(length),
            Err(_) => Err(tick),
        }
    }

    /// Ends a tick that was given out and that is finished, as `release` does, but in its place: where that is recorded, nothing is left
    /// in the tick that is worth keeping but the memory of its lists. It takes memory, but not where the tick is ready to be released, by
    /// `reserve_release`. If memory runs out, the tick is the same, and nothing has changed, but a readiness may be lost.
    pub fn end(&mut self, alloc: Global, tick: &mut Tick) -> Result<u64, AllocError>
        requires out { IsOut self.old tick.old }
        requires spares { Spares self.old (wishes_touch
            (run_down (world_of self.old) tick.old.region tick.old.log.ran) tick.old.log.wishes) }
        ensures ready { IsReadyToRelease self.old tick.old → IsOk result }
        ensures length { IfOk result (λ n. n ≡ length self.new.history) }
        ensures recorded { OnOk result (Records self.old self.new tick.old.worker
            (end_event (world_of self.old) tick.old.worker tick.old.region tick.old.log.ran)) }
        ensures same { OnErr result (SameTick tick.old tick.new) }
        ensures refused { OnErr result (Stays self.old self.new) }
    {
        let room = self.room.take();
        let early = self.marks.count();
        match memory_to_end(
            alloc,
            room,
            &mut self.tables,
            &mut self.history,
            tick,
            early,
            &mut self.left,
        ) {
            Err(_) => Err(AllocError),
            Ok(answers) => {
                let (accepts, memory) = answers.into_parts();
                let asked = tick.log.wishes.len() as u64;
                let worker = tick.worker;
                let event = end_tick(alloc, &mut self.tables, tick, accepts);
                record_in(
                    &mut self.history,
                    &mut self.tables.course,
                    worker,
                    event,
                    memory,
                    &mut self.left,
                );
                self.tables.course.size += asked;
                Ok(self.history.len() as u64)
            }
        }
    }
}

/// The memory for the End of a tick: what was taken before, where it is for this End, and else as `grow_to_end` takes it.
fn memory_to_end(
    alloc: Global,
    room: Option<Room>,
    tables: &mut Tables,
    history: &mut Vec<PackedEntry>,
    tick: &mut Tick,
    early: u64,
    left: &mut Option<EventBox>,
) -> Result<Answers, AllocError>
    requires few { early < 2 ^ 63 }
    requires there { HasEndRoom room tables.old history.old early }
    ensures same { SameTables tables.old tables.new }
    ensures tick { SameTick tick.old tick.new }
    ensures entries { history.new.items ≡ history.old.items }
    ensures len { vec_len history.new ≡ vec_len history.old }
    ensures capacity { vec_capacity history.old ≤ vec_capacity history.new }
    ensures ok { IfOk result (λ accepts.
        HasGrownToEnd tables.new history.new tick.new accepts early) }
    ensures ready { room_of room ≡ ForEnd (length tick.old.log.wishes)
        → length tick.old.log.wishes ≤ tick.old.body.chunks.spare → IsOk result }
{
    match answers_for(room, tick) {
        Some(accepts) => Ok(accepts),
        None => grow_to_end(alloc, tables, history, tick, early, left),
    }
}

/// The list for the answers of the End of a tick, where memory was taken for that, and the tick can take in as many things as it has
/// wishes.
fn answers_for(room: Option<Room>, tick: &Tick) -> Option<Answers>
    ensures own { IfSome result (λ accepts.
        room ≡ Some (Room.End (length tick.now.log.wishes) accepts)) }
    ensures things { IsSome result → length tick.now.log.wishes ≤ tick.now.body.chunks.spare }
    ensures ready { room_of room ≡ ForEnd (length tick.now.log.wishes)
        → length tick.now.log.wishes ≤ tick.now.body.chunks.spare → IsSome result }
{
    let asked = tick.log.wishes.len();
    match room {
        Some(Room::End { wishes, accepts }) => {
            if wishes == asked && asked as u64 <= tick.body.chunks.spare() {
                Some(accepts)
            } else {
                None
            }
        }
        _ => None,
    }
}

/// Takes the memory for the End of a tick, for a Stop after it, and for the Begins of so many prepared regions: that of the entries, of
/// what its wishes make, and of the parts into which its region can fall.
fn grow_to_end(
    alloc: Global,
    tables: &mut Tables,
    history: &mut Vec<PackedEntry>,
    tick: &mut Tick,
    early: u64,
    left: &mut Option<EventBox>,
) -> Result<Answers, AllocError>
    requires few { early < 2 ^ 63 }
    ensures same { SameTables tables.old tables.new }
    ensures tick { SameTick tick.old tick.new }
    ensures entries { history.new.items ≡ history.old.items }
    ensures len { vec_len history.new ≡ vec_len history.old }
    ensures capacity { vec_capacity history.old ≤ vec_capacity history.new }
    ensures ok { IfOk result (λ accepts.
        HasGrownToEnd tables.new history.new tick.new accepts early) }
{
    let asked = tick.log.wishes.len();
    if asked as u64 >= WISHES
        || tables.course.size >= MOST
        || asked as u64 >= MOST - tables.course.size
    {
        return Err(AllocError);
    }
    history.reserve(2 + early as usize)?;
    let accepts = Answers::with_capacity(alloc, left, asked)?;
    tables.regions.reserve(asked as u32 + 1)?;
    let parts = parts_at_most(&tables.regions, asked as u32);
    grow_store(&mut tables.store, asked as u64, asked as u64 + parts)?;
    grow_tickets(&mut tables.tickets)?;
    tables
        .agenda
        .reserve(asked + parts as usize + early as usize)?;
    if asked as u64 > tick.body.chunks.spare() {
        tick.body.chunks.reserve(asked as u64)?;
    }
    Ok(accepts)
}

/// How many parts the release of a region makes at most, after so many more holds.
fn parts_at_most(regions: &Regions, holds: u32) -> u64
    ensures few { result ≤ 1820 }
    ensures parts { result ≡ most_parts (grid_state regions.now) holds }
{
    let sections = regions.present_count() as u64 + SQUARE * holds as u64;
    sections.min(MOST_SECTIONS as u64) / LEAST
}

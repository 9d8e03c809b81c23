//! Begins of ticks.

ghost use Rattle.std.specs.Prelude.{◌≡◌, false, OnOk};
ghost use Rattle.fol_core.specs.Answers.{Begins, IsGiven};
ghost use Rattle.fol_core.specs.Room.{IsDueList, IsForBegin, room_of};
ghost use Rattle.fol_core.specs.Meaning.{IsReadyToBegin, Stays, is_prepared, world_of};

use crate::BeginAnswer;
use crate::entries::record;
use crate::machine::{Core, Room};
use fol_model::{Event, State, Task};
use fol_world::begins::{blank, due_list, hand_out};
use fol_world::tables::grow_history;
use std::alloc::{AllocError, Global};

impl Core {
    /// Takes the memory for a Begin of this region. The region is then ready to begin, until the next call that changes the core.
    /// If memory runs out, nothing has changed, but an earlier readiness may be lost.
    pub fn reserve(&mut self, alloc: Global, id: u64) -> Result<(), AllocError>
        requires given { IsGiven (world_of self.old) id }
        ensures ready { OnOk result (IsReadyToBegin self.new id) }
        ensures same { Stays self.old self.new }
    {
        self.reserve_with(alloc, id, Vec::new(alloc))
    }

    /// The same with this list for the due tasks, whatever is in it: where it has room for them, none is taken for them.
    pub fn reserve_with(
        &mut self,
        alloc: Global,
        id: u64,
        list: Vec<Task>,
    ) -> Result<(), AllocError>
        requires given { IsGiven (world_of self.old) id }
        ensures ready { OnOk result (IsReadyToBegin self.new id) }
        ensures same { Stays self.old self.new }
    {
        self.room = None;
        grow_history(&mut self.history, &self.tables.course, self.marks.count())?;
        self.marks.make_room(id)?;
        self.tables.agenda.reserve(1 + self.marks.count() as usize)?;
        let due = due_list(
            alloc,
            &self.tables.regions,
            &mut self.tables.store,
            id,
            list,
        )?;
        self.room = Some(Room::Begin { id, due });
        Ok(())
    }

    /// Begins the tick of a region that is not prepared and is ready to begin, by `reserve`. Over exactly where Finish or Stop stands in
    /// the history; else NotReady exactly where its state is not Ready; else NotOwing exactly where it owes no tick. Only Got is
    /// recorded. A refusal changes nothing, any readiness included. Takes no memory.
    pub fn begin(&mut self, by: u32, worker: u32, id: u64) -> BeginAnswer
        requires ready { IsReadyToBegin self.old id }
        requires free { is_prepared self.old id ≡ false }
        ensures { Begins self.old self.new by worker id result }
    {
        if self.tables.course.is_over() {
            return BeginAnswer::Over;
        }
        match self.tables.regions.state(id) {
            Some(State::Ready) => {}
            Some(state) => return BeginAnswer::NotReady(state),
            None => unreachable!(),
        }
        if self.tables.store.owed(id) == 0 {
            return BeginAnswer::NotOwing;
        }
        let begun = self.history.as_slice().len() as u64;
        let room = due_room(self.room.take());
        let mut tick = blank(self.alloc);
        hand_out(self.alloc, &mut self.tables, id, room, &mut tick);
        tick.worker = worker;
        tick.begun = begun;
        let event = Event::Begin { worker, region: id };
        record(&mut self.history, &mut self.tables.course, by, event);
        BeginAnswer::Got(tick)
    }
}

/// The memory for the due tasks that was taken for a Begin.
pub(crate) fn due_room(room: Option<Room>) -> Vec<Task>
    requires { IsForBegin (room_of room) }
    ensures { IsDueList room result }
{
    match room {
        Some(Room::Begin { id: _, due }) => due,
        Some(Room::End { .. }) => unreachable!(),
        None => unreachable!(),
    }
}

//! A task comes to the data of a region, or to what lies in a spot.

ghost use Rattle.std.specs.Prelude.{◌≡◌, ◌≤◌, None, OnOk};
ghost use Rattle.fol_data.specs.Rests.{IsInTime};
ghost use Rattle.fol_bags.specs.Moves.{SameThings, Queues};
ghost use Rattle.fol_bags.specs.Things.{things, of_task, IsTimely};

use fol_data::{RegionData, Size};
use fol_queues::Dated;
use std::alloc::AllocError;

/// Makes room for one task.
pub fn make_room(room: &mut RegionData) -> Result<(), AllocError>
    requires timely { IsTimely room.old }
    ensures same { SameThings room.old room.new }
    ensures timely { IsTimely room.new }
    ensures room { OnOk result (1 ≤ room.new.queues.spare) }
{
    room.reserve(Size {
        tasks: 1,
        things: 0,
    })
}

/// Queues a task with its deadline as its rest.
pub fn queue(room: &mut RegionData, dated: Dated)
    requires timely { IsTimely room.old }
    requires room { 1 ≤ room.old.queues.spare }
    requires fresh { things room.old (of_task dated.task.number) ≡ None }
    requires in_time { IsInTime 0 dated }
    ensures queued { Queues dated room.old room.new }
    ensures timely { IsTimely room.new }
{
    let Dated { task, deadline } = dated;
    let tick = room.tick;
    room.queues.accept(task, deadline as u32, tick);
}

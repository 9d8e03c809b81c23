//! A tick that comes back before anything of it ran.

ghost use Rattle.std.specs.Prelude.{◌≡◌, ◌+◌, ◌≤◌, ◌<◌, ◌^◌, [], length, vec_len, vec_capacity};
ghost use Rattle.fol_model.specs.FlatTick.{Rising};
ghost use Rattle.fol_queues.specs.Waiting.{dated};
ghost use Rattle.fol_core.specs.Undone.{MayBeUndone, Undoes};

use fol_data::{RegionData, Tick};
use fol_keyed::ChunkSet;
use fol_model::{Sequence, State, Task};
use fol_queues::Queues;
use fol_world::agenda::add;
use fol_world::ends::bring_back;
use fol_world::tables::Tables;
use std::alloc::Global;
use std::mem;

/// What a tick has, of which nothing ran, lies in the store again as it lay there before its Begin. Its region is Ready and owes the tick.
/// Returns the list of the due tasks, emptied. Takes no memory.
pub(crate) fn undo(alloc: Global, tables: &mut Tables, tick: &mut Tick) -> Vec<Task>
    requires { MayBeUndone tables.old tick.old }
    ensures undone { Undoes tables.old tables.new tick.old }
    ensures empty { result.items ≡ [] }
{
    let region = tick.region;
    let chunks = mem::replace(&mut tick.chunks, ChunkSet::new(alloc));
    let due = mem::replace(&mut tick.due, Sequence::new(alloc));
    let mut body = mem::replace(&mut tick.body, RegionData::new(alloc));
    body.owed += 1;
    let due = body.queues.give_back(due.into_vec(), body.tick);
    bring_back(tables, region, chunks, body);
    tables.regions.unbegin(region);
    add(
        &mut tables.agenda,
        &tables.regions,
        &tables.store,
        region,
        State::Ready,
    );
    due
}

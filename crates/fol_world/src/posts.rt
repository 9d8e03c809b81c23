//! A task more on a chunk that is held for it.

ghost use Rattle.std.specs.Prelude.{ℕ, ◌≡◌, ◌+◌, ◌≤◌, ◌<◌, ◌^◌, IsNone, IsTrue};
ghost use Rattle.fol_model.specs.Limits.{is_delay};
ghost use Rattle.fol_model.specs.Add.{is_full};
ghost use Rattle.fol_model.specs.ActionStep.{at_id};
ghost use Rattle.fol_model.specs.Job.{queued};
ghost use Rattle.fol_store.specs.Bag.{Stirred};
ghost use Rattle.fol_regions.specs.Table.{grid_state};
ghost use Rattle.fol_store.specs.Stock.{bag_of, flat_of, jobs_of, next_of};
ghost use Rattle.fol_world.specs.Agenda.{GrowsBy};
ghost use Rattle.fol_world.specs.Follows.{CanHold, PostsUnless, accept_in};
ghost use Rattle.fol_world.specs.Posts.{CanQueue, Queues};

use crate::holds::hold;
use crate::tables::Tables;
use fol_model::{Accept, Action, ChunkPos, Task};
use fol_regions::AddAnswer;

/// Accepts a task, where its chunk can be held.
pub fn posted(tables: &mut Tables, c: ChunkPos, delay: u32, action: Action) -> Accept
    requires can { CanHold tables.old c }
    requires spare { 1 ≤ tables.old.store.spare }
    requires fresh { IsNone (jobs_of tables.old.store tables.old.course.next_job) }
    requires few { tables.old.course.next_job < 2 ^ 62 }
    requires delay { IsTrue (is_delay delay) }
    ensures answer { result ≡ accept_in (grid_state tables.old.regions) tables.old.course.next_job
        c }
    ensures done { PostsUnless (is_full (grid_state tables.old.regions) c) tables.old tables.new c
        delay action }
    ensures stack { GrowsBy 1 tables.old.agenda tables.new.agenda }
{
    match hold(tables, c) {
        AddAnswer::Full { present, wanted } => Accept::Full { present, wanted },
        AddAnswer::Counted | AddAnswer::Changed => accepted(tables, c, delay, action),
    }
}

/// Queues a task under the next number, on a chunk that is held.
fn accepted(tables: &mut Tables, c: ChunkPos, delay: u32, action: Action) -> Accept
    requires spare { 1 ≤ tables.old.store.spare }
    requires fresh { IsNone (jobs_of tables.old.store tables.old.course.next_job) }
    requires few { tables.old.course.next_job < 2 ^ 62 }
    requires delay { IsTrue (is_delay delay) }
    ensures answer { result ≡ Accept.Posted tables.old.course.next_job }
    ensures bags { (r : ℕ) → Stirred c (bag_of tables.old.store r) (bag_of tables.new.store r) }
    ensures flat { flat_of tables.new.store ≡ flat_of tables.old.store }
    ensures jobs { jobs_of tables.new.store
        ≡ at_id (jobs_of tables.old.store) tables.old.course.next_job
        (Some (queued c delay action)) }
    ensures next { next_of tables.new.store ≡ next_of tables.old.store }
    ensures others { (tables.new.grid ≡ tables.old.grid) × (tables.new.regions ≡ tables.old.regions)
        × (tables.new.tickets ≡ tables.old.tickets) × (tables.new.agenda ≡ tables.old.agenda) }
    ensures course { tables.new.course
        ≡ record tables.old.course { next_job = tables.old.course.next_job + 1 } }
{
    Accept::Posted(queue(tables, c, delay, action))
}

/// Queues the next task, which is due in the `delay`-th tick that its chunk's region begins from now on. Returns its number.
pub(crate) fn queue(tables: &mut Tables, chunk: ChunkPos, delay: u32, action: Action) -> u64
    requires { CanQueue tables.old delay }
    ensures number { result ≡ tables.old.course.next_job }
    ensures queued { Queues tables.old tables.new chunk delay action }
{
    let number = tables.course.next_job;
    tables.course.next_job += 1;
    let task = Task {
        number,
        chunk,
        action,
    };
    tables.store.accept(task, delay);
    number
}

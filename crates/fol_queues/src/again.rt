//! Tasks that came back from a tick before one of them ran. They wait with one deadline.

ghost use Rattle.std.specs.Prelude.{◌≡◌, ◌+◌, ◌++◌, ◌≤◌, ℕ, [], count_by, length, map, vec_len};
ghost use Rattle.std.specs.List.Sorted.{IsPermutation};
ghost use Rattle.std.specs.Vec.{vec_capacity};
ghost use Rattle.std.specs.BinaryHeap.{IsHeap};
ghost use Rattle.fol_queues.specs.Waiting.{is_due, lies_listed};
ghost use Rattle.fol_queues.specs.Again.{dated_at, with_again};
ghost use Rattle.fol_queues.specs.Turn.{by_turn};

use crate::{Dated, heap};
use fol_keyed::ChunkList;
use fol_model::Task;

/// How many of them are due: all or none.
pub fn count_due(again: &[Task], deadline: u64, now: u64) -> u64
    ensures { result ≡ count_by (is_due now) (map (dated_at deadline) again.now) }
{
    if deadline <= now {
        again.len() as u64
    } else {
        0
    }
}

/// How many of them are on the chunks of the list, whatever their deadline.
pub fn count_listed(again: &[Task], list: &ChunkList) -> u64
    ensures { (deadline : ℕ) → result
        ≡ count_by (lies_listed list.now.chunks.now) (map (dated_at deadline) again.now) }
{
    again.iter().filter(|task| list.has(task.chunk)).count() as u64
}

/// Moves them into a heap of tasks that has room for them, where each waits with this deadline.
pub fn put_back(tasks: &mut Vec<Dated>, again: &mut Vec<Task>, deadline: u64)
    requires room { vec_len tasks.old + length again.old.items ≤ vec_capacity tasks.old }
    requires order { IsHeap by_turn tasks.old.items }
    ensures none { again.new.items ≡ [] }
    ensures back { IsPermutation (with_again tasks.old.items again.old.items deadline)
        tasks.new.items }
    ensures order { IsHeap by_turn tasks.new.items }
    ensures capacity { vec_capacity tasks.new ≡ vec_capacity tasks.old }
{
    while let Some(task) = again.pop() {
        heap::push(tasks, Dated { task, deadline });
    }
}

/// Moves them behind the tasks in a list that has room for them.
pub fn move_into(again: &mut Vec<Task>, out: &mut Vec<Task>)
    requires { length out.old.items + length again.old.items ≤ vec_capacity out.old }
    ensures none { again.new.items ≡ [] }
    ensures all { out.new.items ≡ out.old.items ++ again.old.items }
    ensures capacity { vec_capacity out.old ≤ vec_capacity out.new }
{
    let _moved = out.append(again);
}

/// The tasks, and behind them those that came back, each with this deadline.
pub fn joined(tasks: Vec<Dated>, again: Vec<Task>, deadline: u64) -> Vec<Dated>
    requires { vec_len tasks + length again.items ≤ vec_capacity tasks }
    ensures { result.items ≡ with_again tasks.items again.items deadline }
{
    let mut joined = tasks;
    for task in again {
        joined.push_reserved(Dated { task, deadline });
    }
    joined
}

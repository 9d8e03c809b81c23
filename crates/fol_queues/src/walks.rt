//! Walks over the tasks of a queue.

ghost use Rattle.std.specs.Prelude.{◌≡◌, ◌+◌, ◌<◌, ◌≤◌, ℕ, ℤ, pos, nat_abs, ◌+ℤ◌, ◌≤ℤ◌, ◌^◌, List, [], All, IsTrue, count_by, length, slice_index_or, vec_len};
ghost use Rattle.std.specs.Vec.{vec_capacity};
ghost use Rattle.std.specs.BinaryHeap.{IsHeap};
ghost use Rattle.fol_model.specs.FlatTick.{Rising};
ghost use Rattle.fol_queues.specs.Waiting.{is_due, lies_listed, raised, IsRaisable};
ghost use Rattle.fol_queues.specs.Again.{with_again};
ghost use Rattle.fol_queues.specs.Parted.{MovedInto, DueParted, IsTakingDue};
ghost use Rattle.fol_queues.specs.declared.dated.Dated.{Dated};
ghost use Rattle.fol_queues.specs.Turn.{by_turn, IsQueue};

use crate::{Dated, again, due, heap};
use fol_keyed::ChunkList;
use fol_model::Task;
use std::mem;

/// How many of the tasks are on the chunks of the list.
pub fn count_listed(tasks: &[Dated], list: &ChunkList) -> u64
    ensures { result ≡ count_by (lies_listed list.now.chunks.now) tasks.now }
{
    tasks
        .iter()
        .filter(|task| list.has(task.task.chunk))
        .count() as u64
}

/// Moves the due tasks into `out`, in order of number, where those that came back wait with this deadline. What stays is a heap. Where just these
/// are due the lists change places, and nothing is sorted.
pub fn take_due(
    tasks: &mut Vec<Dated>,
    again: &mut Vec<Task>,
    deadline: u64,
    now: u64,
    out: &mut Vec<Task>,
)
    requires empty { out.old.items ≡ [] }
    requires room { count_by (is_due now) (with_again tasks.old.items again.old.items deadline)
        ≤ vec_capacity out.old }
    requires queue { IsQueue tasks.old.items again.old.items deadline (vec_capacity tasks.old) }
    ensures none { again.new.items ≡ [] }
    ensures parted { DueParted now (with_again tasks.old.items again.old.items deadline)
        tasks.new.items out.new.items }
    ensures rising { Rising out.new.items }
    ensures order { IsHeap by_turn tasks.new.items }
    ensures capacity { vec_capacity tasks.new ≡ vec_capacity tasks.old }
{
    if deadline <= now && !due::is_any_due(tasks, now) {
        mem::swap(again, out);
    } else {
        move_again(tasks, again, deadline, now, out);
        move_due(tasks, now, out);
        out.sort_unstable_by_key(|task| task.number);
    }
}

/// Moves those that came back into `out` where they are due, and else into the heap.
fn move_again(
    tasks: &mut Vec<Dated>,
    again: &mut Vec<Task>,
    deadline: u64,
    now: u64,
    out: &mut Vec<Task>,
)
    requires empty { out.old.items ≡ [] }
    requires room { count_by (is_due now) (with_again tasks.old.items again.old.items deadline)
        ≤ vec_capacity out.old }
    requires queue { IsQueue tasks.old.items again.old.items deadline (vec_capacity tasks.old) }
    ensures none { again.new.items ≡ [] }
    ensures taking { IsTakingDue now (with_again tasks.old.items again.old.items deadline)
        tasks.new.items out.new.items }
    ensures order { IsHeap by_turn tasks.new.items }
    ensures capacity { vec_capacity tasks.new ≡ vec_capacity tasks.old }
    ensures out_capacity { vec_capacity out.old ≤ vec_capacity out.new }
{
    if deadline <= now {
        again::move_into(again, out);
    } else {
        again::put_back(tasks, again, deadline);
    }
}

/// Moves the due tasks of a heap behind those in `out`, those that are due first before the others.
fn move_due(tasks: &mut Vec<Dated>, now: u64, out: &mut Vec<Task>)
    requires room { length out.old.items + count_by (is_due now) tasks.old.items
        ≤ vec_capacity out.old }
    requires order { IsHeap by_turn tasks.old.items }
    ensures parted { (xs : List Dated) → IsTakingDue now xs tasks.old.items out.old.items
        → DueParted now xs tasks.new.items out.new.items }
    ensures order { IsHeap by_turn tasks.new.items }
    ensures capacity { vec_capacity tasks.new ≡ vec_capacity tasks.old }
{
    while !tasks.is_empty() && tasks[0].deadline <= now {
        let Dated { task, deadline: _ } = heap::take_first(tasks);
        out.push_reserved(task);
    }
}

/// Moves the tasks on the chunks of the list behind those of another queue, each with its deadline moved by the offset. What stays is a heap no
/// more.
pub fn move_listed(tasks: &mut Vec<Dated>, list: &ChunkList, into: &mut Vec<Dated>, offset: i64)
    requires room { vec_len into.old + count_by (lies_listed list.now.chunks.now) tasks.old.items
        ≤ vec_capacity into.old }
    requires deadlines { All (λ d. IsTrue (lies_listed list.now.chunks.now d)
        → IsRaisable offset d) tasks.old.items }
    ensures moved { MovedInto (lies_listed list.now.chunks.now) (raised offset) tasks.old.items
        tasks.new.items into.old.items into.new.items }
    ensures first { (k : ℕ) (d : Dated) → k < length into.old.items
        → slice_index_or into.new.items k d ≡ slice_index_or into.old.items k d }
    ensures capacity { vec_capacity tasks.new ≡ vec_capacity tasks.old }
    ensures into_capacity { vec_capacity into.new ≡ vec_capacity into.old }
{
    let mut i = 0;
    while i < tasks.len() {
        if list.has(tasks[i].task.chunk) {
            let task = tasks.swap_remove(i);
            into.push_reserved(raised(task, offset));
        } else {
            i += 1;
        }
    }
}

/// The task with its deadline moved by the offset.
fn raised(task: Dated, offset: i64) -> Dated
    requires { IsRaisable offset task }
    ensures { result ≡ raised offset task }
{
    let Dated { task, deadline } = task;
    Dated {
        task,
        deadline: raised_deadline(deadline, offset),
    }
}

/// The deadline moved by the offset.
fn raised_deadline(deadline: u64, offset: i64) -> u64
    requires low { pos 1 ≤ℤ (pos deadline +ℤ offset) }
    requires high { (pos deadline +ℤ offset) ≤ℤ pos (2 ^ 63) }
    ensures { result ≡ nat_abs (pos deadline +ℤ offset) }
{
    if offset < 0 {
        deadline - offset.unsigned_abs()
    } else {
        deadline + offset.unsigned_abs()
    }
}

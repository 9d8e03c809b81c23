//! A heap of tasks: a list in which no task is due before its parent. The parent of the task at `i` is at `(i - 1) / 2`.

ghost use Rattle.std.specs.Prelude.{◌≡◌, ◌+◌, ◌*◌, ◌<◌, ◌≤◌, ◌∷◌, [], ◌++◌, length, vec_len, slice_index_or};
ghost use Rattle.std.specs.Vec.{vec_capacity};
ghost use Rattle.std.specs.BinaryHeap.{IsHeap};
ghost use Rattle.std.specs.BinaryHeap.Sift.{ComparesAt, IsGreaterChild, RestoresHeap, SiftsUp, SiftsDown};
ghost use Rattle.std.specs.List.Sorted.{IsPermutation};
ghost use Rattle.fol_queues.specs.Turn.{by_turn};

use crate::Dated;

/// Puts a task in, for which there is room.
pub fn push(tasks: &mut Vec<Dated>, task: Dated)
    requires room { vec_len tasks.old < vec_capacity tasks.old }
    requires order { IsHeap by_turn tasks.old.items }
    ensures same { IsPermutation (tasks.old.items ++ task ∷ []) tasks.new.items }
    ensures order { IsHeap by_turn tasks.new.items }
    ensures len { vec_len tasks.new ≡ vec_len tasks.old + 1 }
    ensures capacity { vec_capacity tasks.new ≡ vec_capacity tasks.old }
{
    let at = tasks.len();
    tasks.push_reserved(task);
    rise(tasks, at);
}

/// Takes the first task out, before which none is due.
pub fn take_first(tasks: &mut Vec<Dated>) -> Dated
    requires some { 0 < vec_len tasks.old }
    requires order { IsHeap by_turn tasks.old.items }
    ensures first { result ≡ slice_index_or tasks.old.items 0 result }
    ensures same { IsPermutation tasks.old.items (result ∷ tasks.new.items) }
    ensures order { IsHeap by_turn tasks.new.items }
    ensures len { vec_len tasks.new + 1 ≡ vec_len tasks.old }
    ensures capacity { vec_capacity tasks.new ≡ vec_capacity tasks.old }
{
    let first = tasks.swap_remove(0);
    sink(tasks, 0);
    first
}

/// Makes a heap of the tasks.
pub fn build(tasks: &mut [Dated])
    ensures same { IsPermutation tasks.old tasks.new }
    ensures order { IsHeap by_turn tasks.new }
{
    let mut at = tasks.len() / 2;
    while 0 < at {
        at -= 1;
        sink(tasks, at);
    }
}

/// Makes a heap of the tasks, of which the first `ordered` are one.
pub fn restore(tasks: &mut [Dated], ordered: usize)
    requires bound { ordered ≤ length tasks.old }
    ensures same { IsPermutation tasks.old tasks.new }
    ensures order { RestoresHeap by_turn tasks.old 0 ordered tasks.new }
{
    for at in ordered..tasks.len() {
        rise(tasks, at);
    }
}

/// Moves the task at `start` up, until its parent is not due later.
fn rise(tasks: &mut [Dated], start: usize)
    requires { start < length tasks.old }
    ensures same { IsPermutation tasks.old tasks.new }
    ensures rises { SiftsUp by_turn tasks.old start tasks.new }
{
    let mut at = start;
    while 0 < at {
        let parent = (at - 1) / 2;
        if !is_later(tasks, parent, at) {
            return;
        }
        tasks.swap(parent, at);
        at = parent;
    }
}

/// Moves the task at `start` down, until no child is due before it.
fn sink(tasks: &mut [Dated], start: usize)
    ensures same { IsPermutation tasks.old tasks.new }
    ensures sinks { SiftsDown by_turn tasks.old start (length tasks.old) tasks.new }
{
    let mut at = start;
    while at < tasks.len() / 2 {
        let child = first_child(tasks, at);
        if !is_later(tasks, at, child) {
            return;
        }
        tasks.swap(at, child);
        at = child;
    }
}

/// The child that is due first.
fn first_child(tasks: &[Dated], at: usize) -> usize
    requires { 2 * at + 1 < length tasks.now }
    ensures bound { (result < length tasks.now) × (at * 2 + 1 ≤ result) × (result ≤ at * 2 + 2) }
    ensures best { IsGreaterChild by_turn tasks.now at result (length tasks.now) }
{
    let left = 2 * at + 1;
    if tasks.len() <= left + 1 {
        return left;
    }
    let is_left = is_later(tasks, left + 1, left);
    left + !is_left as usize
}

/// Whether the task at `a` is due later than the one at `b`.
fn is_later(tasks: &[Dated], a: usize, b: usize) -> bool
    requires a { a < length tasks.now }
    requires b { b < length tasks.now }
    ensures { ComparesAt by_turn tasks.now a b result }
{
    tasks[b].deadline < tasks[a].deadline
}

//! A queue of tasks with deadlines.

ghost use Rattle.std.specs.Prelude.{◌≡◌, ◌+◌, ◌^◌, ◌≤◌, ◌||◌, not, Bool, IsTrue, ◌↔◌, ℕ, List, [], length, count_by, nat_lt, OnOk, vec_len, IsNone};
ghost use Rattle.std.specs.List.Sorted.{IsStrictlySortedBy};
ghost use Rattle.std.specs.Option.{option_map, option_or, is_none, is_some, ForSome};
ghost use Rattle.std.specs.Vec.{vec_capacity};
ghost use Rattle.fol_model.specs.ActionStep.{at_id};
ghost use Rattle.fol_model.specs.FlatTick.{Rising};
ghost use Rattle.fol_keyed.specs.Order.{chunk_cmp};

use crate::{Dated, again, due, heap, walks};
use fol_keyed::ChunkList;
use fol_model::{ChunkPos, Task};
use std::alloc::{AllocError, Global};
use std::marker::Model;
use std::mem;

/// The tasks that wait for the ticks of one region. Contracts see the tasks by number, and how many more it can accept.
#[derive(Drop)]
pub struct Queues {
    /// A heap by deadline, with room for those that came back.
    tasks: Vec<Dated>,
    /// The due tasks of a tick that came back before one of them ran, by number.
    again: Vec<Task>,
    /// Those that came back wait with it.
    deadline: u64,
}

impl Model for Queues {
    ghost use Rattle.std.specs.Prelude.{◌+◌, ◌-◌, vec_len};
    ghost use Rattle.std.specs.Vec.{vec_capacity};
    ghost use Rattle.fol_queues.specs.Waiting.{Waiting};
    ghost use Rattle.fol_queues.specs.Again.{with_again};
    ghost use Rattle.fol_queues.specs.Turn.{IsQueue};

    ghost Value = { Waiting };

    ghost view = { λ q. record {
      tasks = with_again q.tasks.items q.again.items q.deadline;
      spare = vec_capacity q.tasks - (vec_len q.tasks + vec_len q.again);
    } };

    ghost invariant = { λ q. IsQueue q.tasks.items q.again.items q.deadline (vec_capacity q.tasks) };
}

impl Queues {
    ghost use Rattle.fol_queues.specs.Waiting.{Waiting, dated, task_in, len_of, is_due, due_count, lies_listed, count_listed, raised, IsRaisable, option_filter};
    ghost use Rattle.fol_queues.specs.Distinct.{Distinct};
    ghost use Rattle.fol_queues.specs.Again.{AreNew, queued_again};

    /// No task. Takes no memory.
    pub fn new(alloc: Global) -> Queues
        ensures none { dated result ≡ λ n. None }
        ensures empty { result.tasks ≡ [] }
    {
        Queues {
            tasks: Vec::new(alloc),
            again: Vec::new(alloc),
            deadline: 0,
        }
    }

    /// Whether no task waits.
    pub fn is_empty(&self) -> bool
        ensures { IsTrue result ↔ (self.now.tasks ≡ []) }
    {
        self.tasks.is_empty() && self.again.is_empty()
    }

    /// How many tasks wait.
    pub fn len(&self) -> u64
        ensures { result ≡ len_of self.now }
    {
        (self.tasks.len() + self.again.len()) as u64
    }

    /// Makes `spare` at least `n`. The tasks stay either way.
    pub fn reserve(&mut self, n: u64) -> Result<(), AllocError>
        ensures tasks { self.new.tasks ≡ self.old.tasks }
        ensures ok { OnOk result (n ≤ self.new.spare) }
        ensures spare { self.old.spare ≤ self.new.spare }
    {
        self.tasks
            .reserve(self.again.len().saturating_add(n as usize))
    }

    /// Adds a task that is due in the `delay`-th tick begun from now on, where the region has begun `begun` ticks so far.
    pub fn accept(&mut self, task: Task, delay: u32, begun: u64)
        requires spare { 1 ≤ self.old.spare }
        requires fresh { IsNone (dated self.old task.number) }
        requires delay { delay ≤ 1000000 }
        requires begun { begun ≤ 2 ^ 62 }
        ensures tasks { dated self.new ≡ at_id (dated self.old) task.number
            (Some (record { task = task; deadline = begun + delay })) }
        ensures len { len_of self.new ≡ len_of self.old + 1 }
        ensures spare { self.old.spare ≤ self.new.spare + 1 }
    {
        let deadline = begun + delay as u64;
        heap::push(&mut self.tasks, Dated { task, deadline });
    }

    /// How many tasks have their deadline at `now` or before.
    pub fn count_due(&self, now: u64) -> u64
        ensures { result ≡ due_count now self.now }
    {
        due::count_due(&self.tasks, now) + again::count_due(&self.again, self.deadline, now)
    }

    /// Whether a task has its deadline at `now` or before. Looks at the first task of the heap.
    pub fn is_any_due(&self, now: u64) -> bool
        ensures { result ≡ nat_lt 0 (due_count now self.now) }
    {
        again::count_due(&self.again, self.deadline, now) > 0 || due::is_any_due(&self.tasks, now)
    }

    /// Moves the tasks whose deadline is at most `now` into `out`, in order of number. Takes no memory, and the room that they had is
    /// free for as many others.
    pub fn take_due(&mut self, now: u64, out: &mut Vec<Task>)
        requires empty { out.old.items ≡ [] }
        requires room { due_count now self.old ≤ vec_capacity out.old }
        ensures left { dated self.new ≡ λ n.
            option_filter (λ d. not (is_due now d)) (dated self.old n) }
        ensures taken { task_in out.new.items ≡ λ n.
            option_map (λ d. d.task) (option_filter (is_due now) (dated self.old n)) }
        ensures order { Rising out.new.items }
        ensures len { len_of self.new + length out.new.items ≡ len_of self.old }
        ensures count { length out.new.items ≡ due_count now self.old }
        ensures spare { self.old.spare + length out.new.items ≤ self.new.spare }
    {
        walks::take_due(&mut self.tasks, &mut self.again, self.deadline, now, out);
    }

    /// Lets the due tasks of a tick of which none ran wait for the next tick of the region again, which has begun `begun` ticks then. Returns
    /// an empty list. Takes no memory, and sorts nothing: they mostly go out again as they came.
    pub fn give_back(&mut self, due: Vec<Task>, begun: u64) -> Vec<Task>
        requires spare { length due.items ≤ self.old.spare }
        requires begun { begun ≤ 2 ^ 62 }
        requires order { Rising due.items }
        requires fresh { AreNew due.items (dated self.old) }
        ensures tasks { dated self.new ≡ queued_again (begun + 1) due.items (dated self.old) }
        ensures len { len_of self.new ≡ len_of self.old + length due.items }
        ensures spare { self.old.spare ≤ self.new.spare + length due.items }
        ensures empty { result.items ≡ [] }
    {
        let mut due = due;
        again::put_back(&mut self.tasks, &mut self.again, self.deadline);
        self.deadline = begun + 1;
        mem::swap(&mut self.again, &mut due);
        due
    }

    /// Moves the tasks on the chunks into another queue, each with its deadline moved by the offset. The chunks stand by z, and then
    /// by x. Takes no memory.
    pub fn move_listed(&mut self, chunks: &[ChunkPos], into: &mut Queues, offset: i64)
        requires order { IsStrictlySortedBy chunk_cmp chunks.now }
        requires apart { (n : ℕ)
            → IsTrue (is_none (dated into.old n)
            || is_none (option_filter (lies_listed chunks.now) (dated self.old n))) }
        requires room { count_listed chunks.now self.old ≤ into.old.spare }
        requires deadlines { (n : ℕ)
            → ForSome (option_filter (lies_listed chunks.now) (dated self.old n))
            (IsRaisable offset) }
        ensures stayed { dated self.new ≡ λ n.
            option_filter (λ d. not (lies_listed chunks.now d)) (dated self.old n) }
        ensures moved { dated into.new ≡ λ n.
            option_or (dated into.old n)
            (option_map (raised offset) (option_filter (lies_listed chunks.now)
            (dated self.old n))) }
        ensures len { len_of self.new + count_listed chunks.now self.old ≡ len_of self.old }
        ensures into_len { len_of into.new ≡ len_of into.old + count_listed chunks.now self.old }
        ensures spare { self.old.spare ≤ self.new.spare }
        ensures into_spare { into.old.spare ≤ into.new.spare + count_listed chunks.now self.old }
    {
        let list = ChunkList::of(chunks);
        again::put_back(&mut self.tasks, &mut self.again, self.deadline);
        again::put_back(&mut into.tasks, &mut into.again, into.deadline);
        let ordered = into.tasks.len();
        walks::move_listed(&mut self.tasks, &list, &mut into.tasks, offset);
        heap::build(&mut self.tasks);
        heap::restore(&mut into.tasks, ordered);
    }

    /// How many tasks are on the chunks, which stand by z, and then by x.
    pub fn count_listed(&self, chunks: &[ChunkPos]) -> u64
        requires { IsStrictlySortedBy chunk_cmp chunks.now }
        ensures { result ≡ count_listed chunks.now self.now }
    {
        let list = ChunkList::of(chunks);
        walks::count_listed(&self.tasks, &list) + again::count_listed(&self.again, &list)
    }

    /// All tasks with their deadlines, in no stated order.
    pub fn into_tasks(self) -> Vec<Dated>
        ensures tasks { result.items ≡ self.tasks }
        ensures distinct { Distinct result.items }
    {
        again::joined(self.tasks, self.again, self.deadline)
    }
}

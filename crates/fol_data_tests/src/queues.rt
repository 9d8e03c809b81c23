//! Tasks that wait, are taken when they are due, and move with their chunks.

ghost use Rattle.std.specs.Prelude.{◌≡◌, ◌+◌, ◌^◌, ◌≤◌, [], not, length, IfOk};
ghost use Rattle.std.specs.Option.{option_map};
ghost use Rattle.fol_model.specs.FlatTick.{Rising};
ghost use Rattle.fol_queues.specs.Waiting.{dated, is_due, option_filter, task_in};

use fol_model::{Action, BlockPos, ChunkPos, Task};
use fol_queues::Queues;
use std::alloc::{AllocError, Global};

fn task(number: u64, x: i32) -> Task
    ensures { result.number ≡ number }
{
    Task {
        number,
        chunk: ChunkPos { x, z: 0 },
        action: Action::Set {
            at: BlockPos { x: 0, y: 0, z: 0 },
            id: 1,
        },
    }
}

/// Tasks with these delays, numbered from 1, where no tick has begun.
fn queue_of(alloc: Global, delays: &[u8]) -> Result<Queues, AllocError> {
    let mut queues = Queues::new(alloc);
    for i in 0..delays.len() {
        queues.reserve(1)?;
        queues.accept(task(i as u64 + 1, 0), u32::from(delays[i]), 0);
    }
    Ok(queues)
}

/// Whether just the tasks with these numbers are taken at `now`, in this order.
fn takes(
    alloc: Global,
    queues: &mut Queues,
    now: u64,
    numbers: &[u64],
) -> Result<bool, AllocError> {
    let room = queues.count_due(now);
    let mut out = Vec::with_capacity(alloc, room as usize)?;
    queues.take_due(now, &mut out);
    Ok(
        out.iter()
            .map(|task| task.number)
            .eq(numbers.iter().copied()),
    )
}

/// Whether each of these tasks is taken at the first of three times at which it is due.
fn takes_once(alloc: Global, queues: &mut Queues) -> Result<bool, AllocError> {
    let is_early = takes(alloc, queues, 0, &[])?;
    let count = queues.count_due(3);
    let is_due = takes(alloc, queues, 3, &[2, 4, 5, 7])?;
    let is_over = takes(alloc, queues, 3, &[])?;
    let is_late = takes(alloc, queues, 9, &[1, 3, 6])?;
    Ok(count == 4 && is_early && is_due && is_over && is_late)
}

/// Nothing is taken before it is due, what is due is taken once, and in order of number.
#[test]
fn takes_what_is_due(rt: HostRuntime) -> Result<(), AllocError> {
    let mut queues = queue_of(rt.alloc(), &[5, 3, 9, 1, 3, 7, 2])?;
    let is_right = takes_once(rt.alloc(), &mut queues)?;
    let left = queues.into_tasks().len();
    assert!(rt; is_right);
    assert_eq!(rt; left, 0);
    Ok(())
}

/// The tasks that are due at `now`.
fn due_at(alloc: Global, queues: &mut Queues, now: u64) -> Result<Vec<Task>, AllocError>
    ensures left { IfOk result (λ ts. dated queues.new ≡ λ n.
        option_filter (λ d. not (is_due now d)) (dated queues.old n)) }
    ensures taken { IfOk result (λ ts. task_in ts.items ≡ λ n.
        option_map (λ d. d.task) (option_filter (is_due now) (dated queues.old n))) }
    ensures order { IfOk result (λ ts. Rising ts.items) }
    ensures spare { IfOk result (λ ts. queues.old.spare + length ts.items ≤ queues.new.spare) }
{
    let room = queues.count_due(now);
    let mut out = Vec::with_capacity(alloc, room as usize)?;
    queues.take_due(now, &mut out);
    Ok(out)
}

/// Takes the tasks that are due, and gives them back. How many there were.
fn calls_back(alloc: Global, queues: &mut Queues, begun: u64) -> Result<usize, AllocError>
    requires { begun ≤ 2 ^ 62 }
{
    let due = due_at(alloc, queues, begun + 1)?;
    let count = due.len();
    let list = queues.give_back(due, begun);
    Ok(count + list.len())
}

/// Whether tasks that come back wait for the next tick, more than once, and go out with those that are due besides.
fn comes_again(alloc: Global, queues: &mut Queues) -> Result<bool, AllocError> {
    let first = calls_back(alloc, queues, 2)?;
    let again = calls_back(alloc, queues, 2)?;
    let count = queues.count_due(3);
    let is_early = takes(alloc, queues, 2, &[])?;
    let more = calls_back(alloc, queues, 4)?;
    let is_due = takes(alloc, queues, 5, &[1, 2, 4, 5, 7])?;
    let is_late = takes(alloc, queues, 9, &[3, 6])?;
    Ok(first == 4 && again == 4 && count == 4 && more == 5 && is_early && is_due && is_late)
}

/// What comes back is taken again, in order of number.
#[test]
fn takes_what_came_back(rt: HostRuntime) -> Result<(), AllocError> {
    let mut queues = queue_of(rt.alloc(), &[5, 3, 9, 1, 3, 7, 2])?;
    let is_right = comes_again(rt.alloc(), &mut queues)?;
    let left = queues.into_tasks().len();
    assert!(rt; is_right);
    assert_eq!(rt; left, 0);
    Ok(())
}

/// Whether the tasks of two ticks that come back one after the other wait each for its own.
fn come_back_apart(alloc: Global, queues: &mut Queues) -> Result<bool, AllocError> {
    let first = due_at(alloc, queues, 1)?;
    let second = due_at(alloc, queues, 3)?;
    let list = queues.give_back(first, 0);
    let other = queues.give_back(second, 3);
    let count = list.len() + other.len();
    let is_first = takes(alloc, queues, 3, &[4])?;
    let is_second = takes(alloc, queues, 4, &[2, 5, 7])?;
    Ok(count == 0 && is_first && is_second)
}

/// Two lists that come back do not mix.
#[test]
fn two_come_back(rt: HostRuntime) -> Result<(), AllocError> {
    let mut queues = queue_of(rt.alloc(), &[5, 3, 9, 1, 3, 7, 2])?;
    let is_right = come_back_apart(rt.alloc(), &mut queues)?;
    let left = queues.into_tasks().len();
    assert!(rt; is_right);
    assert_eq!(rt; left, 3);
    Ok(())
}

/// Whether a task that is accepted beside one that came back goes out with it.
fn goes_out_with(alloc: Global, queues: &mut Queues) -> Result<bool, AllocError>
    requires { queues.old.tasks ≡ [] }
{
    queues.reserve(1)?;
    queues.accept(task(2, 0), 1, 0);
    let due = due_at(alloc, queues, 1)?;
    let list = queues.give_back(due, 0);
    queues.reserve(1)?;
    queues.accept(task(1, 0), 1, 0);
    let is_due = takes(alloc, queues, 1, &[1, 2])?;
    Ok(is_due && list.is_empty())
}

/// Whether a task that came back moves with its chunk, by an offset of 6: due at 3, it is due at 9.
fn moves_back(alloc: Global, queues: &mut Queues, into: &mut Queues) -> Result<bool, AllocError>
    requires here { queues.old.tasks ≡ [] }
    requires there { into.old.tasks ≡ [] }
{
    let chunks = [ChunkPos { x: 4, z: 0 }];
    queues.reserve(1)?;
    queues.accept(task(1, 4), 3, 0);
    let due = due_at(alloc, queues, 3)?;
    let list = queues.give_back(due, 2);
    into.reserve(queues.count_listed(&chunks))?;
    queues.move_listed(&chunks, into, 6);
    let is_early = takes(alloc, into, 8, &[])?;
    let is_due = takes(alloc, into, 9, &[1])?;
    Ok(is_early && is_due && list.is_empty())
}

/// What came back goes out with what came since, and moves with its chunk.
#[test]
fn what_came_back_is_a_task_as_before(rt: HostRuntime) -> Result<(), AllocError> {
    let mut first = Queues::new(rt.alloc());
    let mut queues = Queues::new(rt.alloc());
    let mut into = Queues::new(rt.alloc());
    let is_out = goes_out_with(rt.alloc(), &mut first)?;
    let is_moved = moves_back(rt.alloc(), &mut queues, &mut into)?;
    let left = queues.into_tasks().len();
    assert!(rt; is_out && is_moved && left == 0);
    Ok(())
}

/// All tasks come out with their deadlines.
#[test]
fn gives_all_tasks(rt: HostRuntime) -> Result<(), AllocError> {
    let tasks = queue_of(rt.alloc(), &[5, 3, 9])?.into_tasks();
    let is_right = tasks.len() == 3
        && tasks
            .iter()
            .any(|task| task.task.number == 2 && task.deadline == 3);
    assert!(rt; is_right);
    Ok(())
}

/// Whether a task that is due at 3 moves with its chunk, by an offset of 6, and is due at 9.
fn moves(alloc: Global, queues: &mut Queues, into: &mut Queues) -> Result<bool, AllocError>
    requires here { queues.old.tasks ≡ [] }
    requires there { into.old.tasks ≡ [] }
{
    let chunks = [ChunkPos { x: 4, z: 0 }];
    queues.reserve(1)?;
    queues.accept(task(1, 4), 3, 0);
    into.reserve(queues.count_listed(&chunks))?;
    queues.move_listed(&chunks, into, 6);
    let is_early = takes(alloc, into, 8, &[])?;
    let is_due = takes(alloc, into, 9, &[1])?;
    Ok(is_early && is_due)
}

/// A task goes with its chunk, and its deadline moves by the offset: due at 3 becomes due at 9.
#[test]
fn moves_a_list(rt: HostRuntime) -> Result<(), AllocError> {
    let mut queues = Queues::new(rt.alloc());
    let mut into = Queues::new(rt.alloc());
    let is_right = moves(rt.alloc(), &mut queues, &mut into)?;
    let left = queues.into_tasks().len();
    assert!(rt; is_right && left == 0);
    Ok(())
}

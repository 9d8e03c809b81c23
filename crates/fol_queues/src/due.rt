//! Which tasks of a heap are due.

ghost use Rattle.std.specs.Prelude.{◌≡◌, count_by, nat_lt};
ghost use Rattle.std.specs.BinaryHeap.{IsHeap};
ghost use Rattle.fol_queues.specs.Waiting.{is_due};
ghost use Rattle.fol_queues.specs.Turn.{by_turn};
ghost use Rattle.fol_queues.specs.Below.{passing_below};

use crate::Dated;

/// The levels of a heap are fewer.
const LEVELS: u32 = 64;

/// Whether one of the tasks is due.
pub fn is_any_due(tasks: &[Dated], now: u64) -> bool
    requires { IsHeap by_turn tasks.now }
    ensures { result ≡ nat_lt 0 (count_by (is_due now) tasks.now) }
{
    if tasks.is_empty() {
        return false;
    }
    tasks[0].deadline <= now
}

/// How many of the tasks are due.
pub fn count_due(tasks: &[Dated], now: u64) -> u64
    requires { IsHeap by_turn tasks.now }
    ensures { result ≡ count_by (is_due now) tasks.now }
{
    if tasks.is_empty() || tasks[0].deadline > now {
        return 0;
    }
    count_below(tasks, now, 0, LEVELS)
}

/// How many are due at `i` and below it, down to so many levels. Where one is not due, none below it is.
fn count_below(tasks: &[Dated], now: u64, i: usize, levels: u32) -> u64
    requires { IsHeap by_turn tasks.now }
    ensures { result ≡ passing_below (is_due now) tasks.now levels i }
{
    if levels == 0 || i >= tasks.len() || tasks[i].deadline > now {
        return 0;
    }
    if i >= tasks.len() / 2 {
        return 1;
    }
    let left = count_below(tasks, now, 2 * i + 1, levels - 1);
    let right = count_below(tasks, now, 2 * i + 2, levels - 1);
    1 + left + right
}

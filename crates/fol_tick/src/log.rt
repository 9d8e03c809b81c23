//! The log of a tick while its tasks run.

ghost use Rattle.std.specs.Prelude.{◌≡◌, ◌+◌, ◌≤◌, ◌<◌, ◌++◌, ◌∷◌, [], length, IfOk, OnOk, OnErr, vec_len};
ghost use Rattle.std.specs.Vec.{vec_capacity};
ghost use Rattle.std.specs.Option.{option_to_list};

use fol_model::{Outcome, Ran, Sequence, TickLog, Wish};
use std::alloc::{AllocError, Global};
use std::mem;

/// The lists of a log, with room behind them.
#[derive(Drop)]
pub(crate) struct OpenLog {
    pub(crate) ran: Vec<Ran>,
    pub(crate) wishes: Vec<Wish>,
}

/// Makes room for one outcome of each task, and for what they ask for. The outcomes stay in the history, so their room is no larger than
/// they are.
fn reserve(
    ran: &mut Vec<Ran>,
    wishes: &mut Vec<Wish>,
    tasks: usize,
    asked: usize,
) -> Result<(), AllocError>
    ensures ran { ran.new.items ≡ ran.old.items }
    ensures wishes { wishes.new.items ≡ wishes.old.items }
    ensures room_for_ran { OnOk result (vec_len ran.new + tasks ≤ vec_capacity ran.new) }
    ensures room_for_wishes { OnOk result (vec_len wishes.new + asked
        ≤ vec_capacity wishes.new) }
{
    ran.reserve_exact(tasks)?;
    wishes.reserve(asked)
}

/// Takes the lists out of a log, with room for what so many tasks add, which ask for so many tasks at most. Out of memory leaves the log
/// as it was.
pub(crate) fn open(
    alloc: Global,
    log: &mut TickLog,
    tasks: usize,
    asked: usize,
) -> Result<OpenLog, AllocError>
    ensures ran { IfOk result (λ o. o.ran.items ≡ log.old.ran) }
    ensures wishes { IfOk result (λ o. o.wishes.items ≡ log.old.wishes) }
    ensures room_for_ran { IfOk result (λ o. vec_len o.ran + tasks ≤ vec_capacity o.ran) }
    ensures room_for_wishes { IfOk result (λ o. vec_len o.wishes + asked
        ≤ vec_capacity o.wishes) }
    ensures err { OnErr result (log.new ≡ log.old) }
{
    let mut ran = mem::replace(&mut log.ran, Sequence::new(alloc)).into_vec();
    let mut wishes = mem::replace(&mut log.wishes, Sequence::new(alloc)).into_vec();
    match reserve(&mut ran, &mut wishes, tasks, asked) {
        Ok(()) => Ok(OpenLog { ran, wishes }),
        Err(error) => {
            log.ran = Sequence::of(ran);
            log.wishes = Sequence::of(wishes);
            Err(error)
        }
    }
}

impl OpenLog {
    /// The log with these lists.
    pub(crate) fn close(self) -> TickLog
        ensures { result ≡ record { ran = self.ran.items; wishes = self.wishes.items } }
    {
        let OpenLog { ran, wishes } = self;
        TickLog {
            ran: Sequence::of(ran),
            wishes: Sequence::of(wishes),
        }
    }

    /// Adds what a task came to and what it asks for.
    pub(crate) fn record(
        &mut self,
        number: u64,
        outcome: Outcome,
        wish: Option<Wish>,
        again: Option<Wish>,
    )
        requires room_for_ran { vec_len self.old.ran < vec_capacity self.old.ran }
        requires room_for_wishes { vec_len self.old.wishes
            + (length (option_to_list wish) + length (option_to_list again))
            ≤ vec_capacity self.old.wishes }
        ensures ran { self.new.ran.items
            ≡ self.old.ran.items ++ (record { number = number; outcome = outcome }) ∷ [] }
        ensures wishes { self.new.wishes.items
            ≡ self.old.wishes.items ++ (option_to_list wish ++ option_to_list again) }
        ensures ran_len { vec_len self.new.ran ≡ vec_len self.old.ran + 1 }
        ensures ran_capacity { vec_capacity self.new.ran ≡ vec_capacity self.old.ran }
        ensures wishes_len { vec_len self.new.wishes ≡ vec_len self.old.wishes
            + (length (option_to_list wish) + length (option_to_list again)) }
        ensures wishes_capacity { vec_capacity self.new.wishes ≡ vec_capacity self.old.wishes }
    {
        self.ran.push_reserved(Ran { number, outcome });
        push(&mut self.wishes, wish);
        push(&mut self.wishes, again);
    }
}

/// Adds a wish, where there is one.
fn push(wishes: &mut Vec<Wish>, wish: Option<Wish>)
    requires { vec_len wishes.old + length (option_to_list wish) ≤ vec_capacity wishes.old }
    ensures items { wishes.new.items ≡ wishes.old.items ++ option_to_list wish }
    ensures len { vec_len wishes.new ≡ vec_len wishes.old + length (option_to_list wish) }
    ensures capacity { vec_capacity wishes.new ≡ vec_capacity wishes.old }
{
    if let Some(wish) = wish {
        wishes.push_reserved(wish);
    }
}

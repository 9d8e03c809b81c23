//! What is taken for the tasks that a task asks for whatever the world is like, before the tasks run.

ghost use Rattle.std.specs.Prelude.{◌≡◌, ◌≤◌, ◌++◌, ◌∷◌, List, reverse, IfOk, OnOk};
ghost use Rattle.std.specs.Option.{option_to_list};
ghost use Rattle.fol_model.specs.Deed.{Deed};
ghost use Rattle.fol_model.specs.ActionStep.{plain_of as plain_action_of};
ghost use Rattle.fol_tick.specs.Prepared.{again_in, own_in, posted_by, prepared_of, repeated_by, IsStockOf};

use fol_model::{Action, Nested, Task, Wish};
use std::alloc::{AllocError, Global};

/// The actions of the tasks that one task asks for, but for the arrival of an entity that it sends.
#[derive(Drop)]
pub(crate) struct Prepared {
    /// That of the task that its plain action posts.
    pub(crate) own: Option<Action>,
    /// The one inside its own, where it runs again.
    pub(crate) again: Option<Nested>,
}

/// What is taken for some tasks, that of the last task first. A task for which nothing is taken has no place in it.
#[derive(Drop)]
pub(crate) struct Stock {
    /// The actions of the tasks that their plain actions post.
    own: Vec<Action>,
    /// Those inside the actions that run again.
    again: Vec<Nested>,
}

/// The action without the `Every` round it.
pub(crate) fn plain_of(action: &Action) -> &Action
    ensures { result.now ≡ plain_action_of action.now }
{
    match action {
        Action::Every { action: inner, .. } => inner.get(),
        plain => plain,
    }
}

/// The action of the task that an action posts.
fn own_in(plain: &Action) -> Result<Option<Action>, AllocError>
    ensures { IfOk result (λ own. own ≡ own_in plain.now) }
{
    match plain {
        Action::Post {
            chunk: _,
            delay: _,
            action,
        } => Ok(Some(action.get().copy()?)),
        _ => Ok(None),
    }
}

/// The action inside one that runs at least twice.
fn again_in(action: &Action) -> Result<Option<Nested>, AllocError>
    ensures { IfOk result (λ again. again ≡ again_in action.now) }
{
    match action {
        Action::Every {
            period: _,
            left,
            action: inner,
        } if *left >= 2 => { Ok(Some(inner.share()?)) }
        _ => Ok(None),
    }
}

/// What is taken for a task.
pub(crate) fn prepared_for(task: &Task) -> Result<Prepared, AllocError>
    ensures { IfOk result (λ prepared. prepared ≡ prepared_of task.now) }
{
    Ok(Prepared {
        own: own_in(plain_of(&task.action))?,
        again: again_in(&task.action)?,
    })
}

/// What is taken for each of the tasks.
pub(crate) fn prepare(alloc: Global, tasks: &[Task]) -> Result<Stock, AllocError>
    ensures { IfOk result (λ stock. IsStockOf tasks.now stock) }
{
    let mut stock = Stock {
        own: Vec::new(alloc),
        again: Vec::new(alloc),
    };
    let mut left = tasks.len();
    while left > 0 {
        stock.add(&tasks[left - 1], left)?;
        left -= 1;
    }
    Ok(stock)
}

/// Adds an element at the end, where there is one. Room is made for that and others, so many in all.
fn keep<T: Drop>(list: &mut Vec<T>, most: usize, element: Option<T>) -> Result<(), AllocError>
    requires { 1 ≤ most }
    ensures { OnOk result (list.new.items ≡ list.old.items ++ option_to_list element) }
{
    if let Some(element) = element {
        list.reserve(most)?;
        list.push_reserved(element);
    }
    Ok(())
}

impl Stock {
    /// Takes for one more task, which comes before the others and is one of so many for which nothing was taken yet: room is made for
    /// all of these at once.
    fn add(&mut self, task: &Task, most: usize) -> Result<(), AllocError>
        requires { 1 ≤ most }
        ensures { OnOk result ((others : List Task) → IsStockOf others self.old
            → IsStockOf (task.now ∷ others) self.new) }
    {
        let Prepared { own, again } = prepared_for(task)?;
        keep(&mut self.own, most, own)?;
        keep(&mut self.again, most, again)
    }

    /// What was taken for the first of the tasks, which goes from the stock.
    pub(crate) fn take(&mut self, task: &Task) -> Prepared
        ensures { (others : List Task) → IsStockOf (task.now ∷ others) self.old
            → (result ≡ prepared_of task.now) × IsStockOf others self.new }
    {
        Prepared {
            own: self.take_own(plain_of(&task.action)),
            again: self.take_again(&task.action),
        }
    }

    /// The action of the task that a plain action posts.
    fn take_own(&mut self, plain: &Action) -> Option<Action>
        ensures own { (others : List Action)
            → self.old.own.items ≡ reverse (option_to_list (own_in plain.now) ++ others)
            → (result ≡ own_in plain.now) × (self.new.own.items ≡ reverse others) }
        ensures again { self.new.again.items ≡ self.old.again.items }
    {
        match plain {
            Action::Post { .. } => self.own.pop(),
            _ => None,
        }
    }

    /// The action inside one that runs at least twice.
    fn take_again(&mut self, action: &Action) -> Option<Nested>
        ensures own { self.new.own.items ≡ self.old.own.items }
        ensures again { (others : List Deed)
            → self.old.again.items ≡ reverse (option_to_list (again_in action.now) ++ others)
            → (result ≡ again_in action.now) × (self.new.again.items ≡ reverse others) }
    {
        match action {
            Action::Every { left, .. } if *left >= 2 => self.again.pop(),
            _ => None,
        }
    }
}

/// The task that an action posts.
pub(crate) fn posted(plain: &Action, own: Option<Action>) -> Option<Wish>
    requires { own ≡ own_in plain.now }
    ensures { result ≡ posted_by plain.now }
{
    match plain {
        Action::Post {
            chunk,
            delay,
            action: _,
        } => match own {
            Some(action) => Some(Wish {
                chunk: *chunk,
                delay: *delay,
                action,
                back: None,
            }),
            None => unreachable!(),
        },
        _ => None,
    }
}

/// The task again after its period, one time fewer, where it runs at least twice.
pub(crate) fn repeated(task: &Task, again: Option<Nested>) -> Option<Wish>
    requires { again ≡ again_in task.now.action }
    ensures { result ≡ repeated_by task.now.chunk task.now.action }
{
    match &task.action {
        Action::Every {
            period,
            left,
            action: _,
        } => match again {
            Some(inner) => Some(Wish {
                chunk: task.chunk,
                delay: *period,
                action: Action::Every {
                    period: *period,
                    left: *left - 1,
                    action: inner,
                },
                back: None,
            }),
            None => None,
        },
        _ => None,
    }
}

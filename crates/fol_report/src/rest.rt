//! What is left of a line.

ghost use Rattle.std.specs.Prelude.{◌≡◌, ◌≢◌, ◌+◌, ◌≤◌, ◌<◌, [], ◌++◌, flat_map, length, IfOk, string_bytes, true, false};
ghost use Rattle.fol_model.specs.ReportWords.{accept_words, ran_words};
ghost use Rattle.fol_report.specs.Rests.{rest_words};
ghost use Rattle.fol_report.specs.Spaced.{spaced};

use crate::actions::push_action;
use crate::answers::{push_accept, push_accepted_count, push_ran};
use crate::page::Page;
use fol_model::{Accept, Action, Ran};
use std::alloc::AllocError;

/// What is left of a line whose first words stand in a page: the line of a post or of an end has any length.
#[derive(Clone, Copy)]
pub enum Rest<'a> {
    /// Nothing.
    Done,
    /// The words of an action.
    Deed(&'a Action),
    /// The tasks that ran, and behind them what became of those that were asked for.
    Tasks {
        ran: &'a [Ran],
        accepts: &'a [Accept],
    },
    /// What became of the tasks that were asked for.
    Answers(&'a [Accept]),
}

impl<'a> Rest<'a> {
    /// Whether no word is left.
    #[inline]
    pub fn is_done(&self) -> bool
        ensures done { result ≡ true → rest_words self.now ≡ [] }
        ensures words { result ≡ false → rest_words self.now ≢ [] }
    {
        match self {
            Rest::Done => true,
            Rest::Answers(accepts) => accepts.is_empty(),
            Rest::Deed(_) => false,
            Rest::Tasks { .. } => false,
        }
    }

    /// Puts the next words, those of tasks or answers as far as there is room, and returns what is left behind them.
    #[inline]
    pub fn push_some(self, page: &mut Page) -> Rest<'a>
        requires { length page.old + 128 ≤ 1024 }
        ensures text { page.new ++ spaced (rest_words result)
            ≡ page.old ++ spaced (rest_words self.entry) }
        ensures len { length page.new + 1 ≤ 1024 }
        ensures grows { rest_words self.entry ≢ [] → length page.old < length page.new }
        ensures fewer { rest_words self.entry ≢ []
            → length (rest_words result) < length (rest_words self.entry) }
    {
        match self {
            Rest::Done => Rest::Done,
            Rest::Deed(action) => push_action(page, action),
            Rest::Tasks { ran, accepts } => match ran.split_first() {
                Some((task, later)) => {
                    push_ran(page, *task);
                    let ran = push_tasks(page, later);
                    Rest::Tasks { ran, accepts }
                }
                None => {
                    push_accepted_count(page, accepts.len());
                    Rest::Answers(accepts)
                }
            },
            Rest::Answers(accepts) => match accepts.split_first() {
                Some((answer, later)) => {
                    push_accept(page, *answer);
                    Rest::Answers(push_answers(page, later))
                }
                None => Rest::Done,
            },
        }
    }

    /// Puts all that is left behind another text, by way of a page.
    pub fn put(self, out: &mut String, page: &mut Page) -> Result<(), AllocError>
        ensures text { IfOk result (λ _. string_bytes out.new
            ≡ (string_bytes out.old ++ page.old) ++ spaced (rest_words self.entry)) }
    {
        let mut left = self;
        while !left.is_done() {
            page.make_room(out)?;
            left = left.push_some(page);
        }
        page.put(out)
    }
}

/// Puts tasks that ran, as far as there is room, and returns the others.
fn push_tasks<'a>(page: &mut Page, ran: &'a [Ran]) -> &'a [Ran]
    requires { length page.old + 1 ≤ 1024 }
    ensures text { page.new ++ spaced (flat_map ran_words result.now)
        ≡ page.old ++ spaced (flat_map ran_words ran.now) }
    ensures len { length page.new + 1 ≤ 1024 }
    ensures never_shrinks { length page.old ≤ length page.new }
    ensures no_more { length (flat_map ran_words result.now)
        ≤ length (flat_map ran_words ran.now) }
{
    let mut left = ran;
    while page.has_room() {
        let Some((task, later)) = left.split_first() else {
            return left;
        };
        push_ran(page, *task);
        left = later;
    }
    left
}

/// Puts what became of tasks that were asked for, as far as there is room, and returns the others.
fn push_answers<'a>(page: &mut Page, accepts: &'a [Accept]) -> &'a [Accept]
    requires { length page.old + 1 ≤ 1024 }
    ensures text { page.new ++ spaced (flat_map accept_words result.now)
        ≡ page.old ++ spaced (flat_map accept_words accepts.now) }
    ensures len { length page.new + 1 ≤ 1024 }
    ensures never_shrinks { length page.old ≤ length page.new }
    ensures no_more { length (flat_map accept_words result.now)
        ≤ length (flat_map accept_words accepts.now) }
{
    let mut left = accepts;
    while page.has_room() {
        let Some((answer, later)) = left.split_first() else {
            return left;
        };
        push_accept(page, *answer);
        left = later;
    }
    left
}

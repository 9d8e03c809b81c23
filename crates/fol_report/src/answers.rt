//! The words of answers: what a load, an unload, a post and a task came to.

ghost use Rattle.std.specs.Prelude.{◌≡◌, ◌+◌, ◌≤◌, ◌++◌, ◌∷◌, [], codes, decimal, length};
ghost use Rattle.fol_model.specs.ReportWords.{accept_words, full_words, loaded_words, outcome_word, ran_words, unloaded_words};
ghost use Rattle.fol_report.specs.Spaced.{spaced};

use crate::page::Page;
use fol_model::{Accept, Loaded, Outcome, Ran, Unloaded};

/// Puts the answer that too many sections would be present.
fn push_full(page: &mut Page, present: u32, wanted: u32)
    requires { length page.old + 32 ≤ 1024 }
    ensures text { page.new ≡ page.old ++ spaced (full_words present wanted) }
    ensures len { length page.new ≤ length page.old + 32 }
{
    page.push_word(b" full ");
    page.push_short(present);
    page.push_word(b" ");
    page.push_short(wanted);
}

/// Puts what a load came to.
pub fn push_loaded(page: &mut Page, answer: Loaded)
    requires { length page.old + 32 ≤ 1024 }
    ensures text { page.new ≡ page.old ++ spaced (loaded_words answer) }
    ensures len { length page.new ≤ length page.old + 32 }
{
    match answer {
        Loaded::Counted => page.push_word(b" counted"),
        Loaded::Full { present, wanted } => push_full(page, present, wanted),
        Loaded::Over => page.push_word(b" over"),
    }
}

/// Puts what an unload came to.
pub fn push_unloaded(page: &mut Page, answer: Unloaded)
    requires { length page.old + 32 ≤ 1024 }
    ensures text { page.new ≡ page.old ++ spaced (unloaded_words answer) }
    ensures len { length page.new ≤ length page.old + 32 }
{
    match answer {
        Unloaded::Lowered => page.push_word(b" lowered"),
        Unloaded::NoTicket => page.push_word(b" noticket"),
        Unloaded::Over => page.push_word(b" over"),
    }
}

/// Puts what became of a task that was asked for.
pub fn push_accept(page: &mut Page, answer: Accept)
    requires { length page.old + 32 ≤ 1024 }
    ensures text { page.new ≡ page.old ++ spaced (accept_words answer) }
    ensures len { length page.new ≤ length page.old + 32 }
{
    match answer {
        Accept::Posted(number) => {
            page.push_word(b" posted ");
            page.push_number(number);
        }
        Accept::Full { present, wanted } => push_full(page, present, wanted),
    }
}

/// Puts how many tasks a tick asked for.
pub fn push_accepted_count(page: &mut Page, count: usize)
    requires { length page.old + 32 ≤ 1024 }
    ensures text { page.new ≡ page.old ++ spaced (codes "accepted" ∷ decimal count ∷ []) }
    ensures len { length page.new ≤ length page.old + 32 }
{
    page.push_word(b" accepted ");
    page.push_number(count as u64);
}

/// Puts what a task came to.
#[inline]
fn push_outcome(page: &mut Page, outcome: Outcome)
    requires { length page.old + 9 ≤ 1024 }
    ensures text { page.new ≡ page.old ++ 32 ∷ outcome_word outcome }
    ensures len { length page.new ≤ length page.old + 9 }
{
    match outcome {
        Outcome::Done => page.push_word(b" done"),
        Outcome::Foreign => page.push_word(b" foreign"),
        Outcome::Absent => page.push_word(b" absent"),
        Outcome::Full => page.push_word(b" full"),
        Outcome::NoTicket => page.push_word(b" noticket"),
    }
}

/// Puts the number and the outcome of a task that ran.
pub fn push_ran(page: &mut Page, task: Ran)
    requires { length page.old + 32 ≤ 1024 }
    ensures text { page.new ≡ page.old ++ spaced (ran_words task) }
    ensures len { length page.new ≤ length page.old + 32 }
{
    page.push_word(b" ");
    page.push_number(task.number);
    push_outcome(page, task.outcome);
}

//! The line of an end, of any length.

ghost use Rattle.std.specs.Prelude.{◌≡◌, ◌+◌, ◌≤◌, [], ◌∷◌, ◌++◌, codes, decimal, length, ◌<◌};
ghost use Rattle.fol_model.specs.ReportWords.{end_words, event_words};
ghost use Rattle.fol_model.specs.declared.events.Event.TheVariants.{End};
ghost use Rattle.fol_report.specs.Rests.{rest_words};
ghost use Rattle.fol_report.specs.Spaced.{joined, spaced};

use crate::page::Page;
use crate::rest::Rest;
use fol_model::{Accept, Ran};

/// Puts what the line of an end begins with: which tick it ends.
#[inline(always)]
fn push_ended(page: &mut Page, worker: u32, region: u64, tick: u64)
    requires { length page.old + 64 ≤ 1024 }
    ensures text { page.new ≡ page.old ++ joined
        (codes "end" ∷ decimal worker ∷ decimal region ∷ codes "tick" ∷ decimal tick ∷ []) }
    ensures len { length page.new ≤ length page.old + 64 }
{
    page.push_word(b"end ");
    page.push_seat(worker, region);
    page.push_word(b" tick ");
    page.push_number(tick);
}

/// Puts the line of the end of a tick in which no task ran and which asked for none, without its end.
#[inline(always)]
pub fn push_quiet_end(page: &mut Page, worker: u32, region: u64, tick: u64)
    requires { length page.old + 127 ≤ 1024 }
    ensures text { page.new ≡ page.old ++ joined (event_words (End worker region tick [] [])) }
    ensures len { length page.new ≤ length page.old + 127 }
{
    push_ended(page, worker, region, tick);
    page.push_word(b" ran 0 accepted 0");
}

/// Puts what the line of an end begins with, and returns what is left of it: the tasks.
pub fn push_end<'a>(
    page: &mut Page,
    worker: u32,
    region: u64,
    tick: u64,
    ran: &'a [Ran],
    accepts: &'a [Accept],
) -> Rest<'a>
    requires { length page.old + 127 ≤ 1024 }
    ensures text { page.new ++ spaced (rest_words result)
        ≡ page.old ++ joined (end_words worker region tick ran.now accepts.now) }
    ensures len { length page.new ≤ length page.old + 127 }
    ensures grows { length page.old < length page.new }
{
    push_ended(page, worker, region, tick);
    page.push_word(b" ran ");
    page.push_number(ran.len() as u64);
    Rest::Tasks { ran, accepts }
}

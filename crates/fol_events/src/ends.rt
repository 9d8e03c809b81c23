//! The line of the end of a tick.

ghost use Rattle.std.specs.Prelude.{◌≡◌, ℕ, ◌<◌, ◌^◌, List, [], ◌∷◌, ◌++◌, true, length, IfOk, OnErr, Err};
ghost use Rattle.fol_model.specs.ReportWords.{ran_words, accept_words};
ghost use Rattle.fol_events.specs.declared.faults.Fault.TheVariants.{Unspelled};
ghost use Rattle.fol_events.specs.declared.heads.Head.TheVariants as heads;
ghost use Rattle.fol_events.specs.InRange.{RanInRange, AcceptInRange};
ghost use Rattle.fol_events.specs.Pieces.{NoneIn, counted, CountInRange};
ghost use Rattle.fol_events.specs.Bodies.{IsBody, NoBody};

use crate::answers::{accept, ran};
use crate::faults::Fault;
use crate::words::Words;
use fol_model::{Accept, Event, Ran, Sequence};
use std::alloc::Global;

/// How many tasks ran, and what each came to.
fn rans(alloc: Global, words: &mut Words) -> Result<Sequence<Ran>, Fault>
    ensures found { IfOk result (λ v. CountInRange RanInRange v
        × (words.old ≡ counted ran_words v ++ words.new)) }
    ensures none { result ≡ Err Unspelled
        → NoneIn (counted ran_words) (CountInRange RanInRange) words.old }
{
    let count = words.wide()?;
    let mut items = Sequence::new(alloc);
    for _turn in 0..count {
        let item = ran(words)?;
        items.push(item)?;
    }
    Ok(items)
}

/// How many tasks were asked for, and what became of each.
fn accepts(alloc: Global, words: &mut Words) -> Result<Sequence<Accept>, Fault>
    ensures found { IfOk result (λ v. CountInRange AcceptInRange v
        × (words.old ≡ counted accept_words v ++ words.new)) }
    ensures none { result ≡ Err Unspelled
        → NoneIn (counted accept_words) (CountInRange AcceptInRange) words.old }
{
    let count = words.wide()?;
    let mut items = Sequence::new(alloc);
    for _turn in 0..count {
        let item = accept(words)?;
        items.push(item)?;
    }
    Ok(items)
}

/// What follows `end`.
pub fn end(alloc: Global, words: &mut Words) -> Result<Event, Fault>
    ensures found { IfOk result (λ e. IsBody heads.End e words.old) }
    ensures none { result ≡ Err Unspelled → NoBody heads.End words.old }
{
    let worker = words.small()?;
    let region = words.wide()?;
    words.pass(b"tick")?;
    let tick = words.wide()?;
    words.pass(b"ran")?;
    let ran = rans(alloc, words)?;
    words.pass(b"accepted")?;
    let accepts = accepts(alloc, words)?;
    words.end()?;
    Ok(Event::End {
        worker,
        region,
        tick,
        ran,
        accepts,
    })
}

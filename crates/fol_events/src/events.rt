//! The event of a line.

ghost use Rattle.std.specs.Prelude.{◌≡◌, ℕ, List, ◌∷◌, IfOk, OnErr, Err};
ghost use Rattle.fol_model.specs.TextLines.{line_of};
ghost use Rattle.fol_model.specs.ReportWords.{event_words};
ghost use Rattle.fol_events.specs.declared.faults.Fault.TheVariants.{Unspelled};
ghost use Rattle.fol_events.specs.declared.heads.Head.TheVariants as heads;
ghost use Rattle.fol_events.specs.InRange.{InRange};
ghost use Rattle.fol_events.specs.Pieces.{NotSpelt};
ghost use Rattle.fol_events.specs.Bodies.{IsBody, NoBody};

use crate::actions::action;
use crate::answers::{accept, loaded, unloaded};
use crate::ends::end;
use crate::faults::Fault;
use crate::heads::{Head, head_of};
use crate::words::Words;
use fol_model::Event;
use std::alloc::Global;

/// What follows `load`.
fn load(words: &mut Words) -> Result<Event, Fault>
    ensures found { IfOk result (λ e. IsBody heads.Load e words.old) }
    ensures none { OnErr result (NoBody heads.Load words.old) }
{
    let caller = words.small()?;
    let chunk = words.chunk()?;
    let answer = loaded(words)?;
    Ok(Event::Load {
        caller,
        chunk,
        answer,
    })
}

/// What follows `unload`.
fn unload(words: &mut Words) -> Result<Event, Fault>
    ensures found { IfOk result (λ e. IsBody heads.Unload e words.old) }
    ensures none { OnErr result (NoBody heads.Unload words.old) }
{
    let caller = words.small()?;
    let chunk = words.chunk()?;
    let answer = unloaded(words)?;
    Ok(Event::Unload {
        caller,
        chunk,
        answer,
    })
}

/// What follows `post`.
fn post(alloc: Global, words: &mut Words) -> Result<Event, Fault>
    ensures found { IfOk result (λ e. IsBody heads.Post e words.old) }
    ensures none { result ≡ Err Unspelled → NoBody heads.Post words.old }
{
    let caller = words.small()?;
    let chunk = words.chunk()?;
    let delay = words.positive(1_000_000)?;
    let answer = accept(words)?;
    let action = action(alloc, words)?;
    Ok(Event::Post {
        caller,
        chunk,
        delay: delay as u32,
        action,
        answer,
    })
}

/// What follows `open`.
fn open(words: &mut Words) -> Result<Event, Fault>
    ensures found { IfOk result (λ e. IsBody heads.Open e words.old) }
    ensures none { OnErr result (NoBody heads.Open words.old) }
{
    let ticks = words.small()?;
    words.end()?;
    Ok(Event::PhaseOpen(ticks))
}

/// What follows `begin`.
fn begin(words: &mut Words) -> Result<Event, Fault>
    ensures found { IfOk result (λ e. IsBody heads.Begin e words.old) }
    ensures none { OnErr result (NoBody heads.Begin words.old) }
{
    let worker = words.small()?;
    let region = words.wide()?;
    words.end()?;
    Ok(Event::Begin { worker, region })
}

/// What follows `stop`.
fn stop(words: &mut Words) -> Result<Event, Fault>
    ensures found { IfOk result (λ e. IsBody heads.Stop e words.old) }
    ensures none { OnErr result (NoBody heads.Stop words.old) }
{
    let caller = words.small()?;
    words.end()?;
    Ok(Event::Stop { caller })
}

/// What follows `close`.
fn close(words: &mut Words) -> Result<Event, Fault>
    ensures found { IfOk result (λ e. IsBody heads.Close e words.old) }
    ensures none { OnErr result (NoBody heads.Close words.old) }
{
    words.end()?;
    Ok(Event::PhaseClose)
}

/// What follows `finish`.
fn finish(words: &mut Words) -> Result<Event, Fault>
    ensures found { IfOk result (λ e. IsBody heads.Finish e words.old) }
    ensures none { OnErr result (NoBody heads.Finish words.old) }
{
    words.end()?;
    Ok(Event::Finish)
}

/// What follows a first word.
fn body(alloc: Global, head: Head, words: &mut Words) -> Result<Event, Fault>
    ensures found { IfOk result (λ e. IsBody head e words.old) }
    ensures none { result ≡ Err Unspelled → NoBody head words.old }
{
    match head {
        Head::Load => load(words),
        Head::Unload => unload(words),
        Head::Post => post(alloc, words),
        Head::Open => open(words),
        Head::Begin => begin(words),
        Head::End => end(alloc, words),
        Head::Close => close(words),
        Head::Finish => finish(words),
        Head::Stop => stop(words),
    }
}

/// The event of these words.
fn read_words(alloc: Global, words: &mut Words) -> Result<Event, Fault>
    ensures found { IfOk result (λ e. InRange e × (event_words e ≡ words.old)) }
    ensures none { result ≡ Err Unspelled → NotSpelt event_words InRange words.old }
{
    let word = words.next()?;
    match head_of(word) {
        None => Err(Fault::Unspelled),
        Some(head) => body(alloc, head, words),
    }
}

/// The event of a line, which is without its end.
pub fn read_event(alloc: Global, line: &[u8]) -> Result<Event, Fault>
    ensures found { IfOk result (λ e. InRange e × (line.now ≡ line_of (event_words e))) }
    ensures none { result ≡ Err Unspelled → (e : Event) → InRange e
        → line.now ≡ line_of (event_words e) → ⊥ }
{
    let mut words = Words::of(line);
    read_words(alloc, &mut words)
}

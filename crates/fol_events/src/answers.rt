//! The answers that an event holds.

ghost use Rattle.std.specs.Prelude.{◌≡◌, ℕ, ◌<◌, ◌^◌, List, [], ◌∷◌, ◌++◌, decimal, IfOk, OnErr};
ghost use Rattle.fol_model.specs.ReportWords.{loaded_words, unloaded_words, accept_words, outcome_word, ran_words};
ghost use Rattle.fol_events.specs.InRange.{LoadedInRange, UnloadedInRange, AcceptInRange, RanInRange};
ghost use Rattle.fol_events.specs.Pieces.{NoneIn, NotSpelt, NoPair};

use crate::faults::Fault;
use crate::words::{Words, is_word};
use fol_model::{Accept, Loaded, Outcome, Ran, Unloaded};

/// The present and the wanted sections.
fn full(words: &mut Words) -> Result<(u32, u32), Fault>
    ensures found { IfOk result (λ r. words.old ≡ decimal r.0 ∷ decimal r.1 ∷ words.new) }
    ensures none { OnErr result (NoPair words.old) }
{
    let present = words.small()?;
    let wanted = words.small()?;
    Ok((present, wanted))
}

/// What a load came to, as the last words.
pub fn loaded(words: &mut Words) -> Result<Loaded, Fault>
    ensures found { IfOk result (λ a. LoadedInRange a × (words.old ≡ loaded_words a)) }
    ensures none { OnErr result (NotSpelt loaded_words LoadedInRange words.old) }
{
    let word = words.next()?;
    if is_word(word, b"counted") {
        words.end()?;
        Ok(Loaded::Counted)
    } else if is_word(word, b"full") {
        let (present, wanted) = full(words)?;
        words.end()?;
        Ok(Loaded::Full { present, wanted })
    } else {
        Err(Fault::Unspelled)
    }
}

/// What an unload came to, as the last word.
pub fn unloaded(words: &mut Words) -> Result<Unloaded, Fault>
    ensures found { IfOk result (λ a. UnloadedInRange a × (words.old ≡ unloaded_words a)) }
    ensures none { OnErr result (NotSpelt unloaded_words UnloadedInRange words.old) }
{
    let word = words.next()?;
    words.end()?;
    if is_word(word, b"lowered") {
        Ok(Unloaded::Lowered)
    } else if is_word(word, b"noticket") {
        Ok(Unloaded::NoTicket)
    } else {
        Err(Fault::Unspelled)
    }
}

/// What became of a task that was asked for.
pub fn accept(words: &mut Words) -> Result<Accept, Fault>
    ensures found { IfOk result (λ a. AcceptInRange a × (words.old ≡ accept_words a ++ words.new)) }
    ensures none { OnErr result (NoneIn accept_words AcceptInRange words.old) }
{
    let word = words.next()?;
    if is_word(word, b"posted") {
        let number = words.wide()?;
        Ok(Accept::Posted(number))
    } else if is_word(word, b"full") {
        let (present, wanted) = full(words)?;
        Ok(Accept::Full { present, wanted })
    } else {
        Err(Fault::Unspelled)
    }
}

/// The outcome that a word is.
fn outcome_of(word: &[u8]) -> Result<Outcome, Fault>
    ensures found { IfOk result (λ o. word.now ≡ outcome_word o) }
    ensures none { OnErr result ((o : Outcome) → word.now ≡ outcome_word o → ⊥) }
{
    if is_word(word, b"done") {
        Ok(Outcome::Done)
    } else if is_word(word, b"foreign") {
        Ok(Outcome::Foreign)
    } else if is_word(word, b"absent") {
        Ok(Outcome::Absent)
    } else if is_word(word, b"full") {
        Ok(Outcome::Full)
    } else if is_word(word, b"noticket") {
        Ok(Outcome::NoTicket)
    } else {
        Err(Fault::Unspelled)
    }
}

/// A task that ran, and what it came to.
pub fn ran(words: &mut Words) -> Result<Ran, Fault>
    ensures found { IfOk result (λ r. RanInRange r × (words.old ≡ ran_words r ++ words.new)) }
    ensures none { OnErr result (NoneIn ran_words RanInRange words.old) }
{
    let number = words.wide()?;
    let word = words.next()?;
    let outcome = outcome_of(word)?;
    Ok(Ran { number, outcome })
}

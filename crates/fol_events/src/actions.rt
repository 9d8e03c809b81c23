//! The action of a task that was asked for, as the last words of a line.

ghost use Rattle.std.specs.Prelude.{◌≡◌, ◌<◌, IsTrue, ◌↔◌, ℕ, ◌≤◌, List, [], ◌∷◌, ◌++◌, true, IfOk, OnErr, Err};
ghost use Rattle.fol_model.specs.declared.words.Keyword.TheVariants as keys;
ghost use Rattle.fol_model.specs.TextForms.{key_spelled};
ghost use Rattle.fol_model.specs.Nesting.{deed_of};
ghost use Rattle.fol_model.specs.ReportWords.{deed_words};
ghost use Rattle.fol_events.specs.declared.faults.Fault.TheVariants.{Unspelled};
ghost use Rattle.fol_events.specs.Pieces.{NotSpelt};
ghost use Rattle.fol_events.specs.Postable.{IsPostable, IsSimple, IsPlainOf, NoPlain, posted_words};

use crate::faults::Fault;
use crate::words::{Words, is_word};
use fol_model::{Action, Keyword, Nested};
use fol_script::key_of;
use std::alloc::Global;

/// The most posts round an action that may be asked for.
const MOST_POSTS: u8 = 7;

/// The greatest delay and period.
const MOST_DELAY: u64 = 1_000_000;

/// The greatest count of a task that repeats.
const MOST_TIMES: u64 = 10_000;

/// What follows `set`.
fn set(words: &mut Words) -> Result<Action, Fault>
    ensures found { IfOk result (λ a. IsPlainOf keys.Set a words.old) }
    ensures none { OnErr result (NoPlain keys.Set words.old) }
{
    let at = words.block()?;
    let id = words.natural(65_535)?;
    words.end()?;
    Ok(Action::Set { at, id: id as u16 })
}

/// What follows `copy`.
fn copy(words: &mut Words) -> Result<Action, Fault>
    ensures found { IfOk result (λ a. IsPlainOf keys.Copy a words.old) }
    ensures none { OnErr result (NoPlain keys.Copy words.old) }
{
    let at = words.block()?;
    let to = words.block()?;
    words.end()?;
    Ok(Action::Copy { at, to })
}

/// What follows `load`.
fn load(words: &mut Words) -> Result<Action, Fault>
    ensures found { IfOk result (λ a. IsPlainOf keys.Load a words.old) }
    ensures none { OnErr result (NoPlain keys.Load words.old) }
{
    let chunk = words.chunk()?;
    words.end()?;
    Ok(Action::Load(chunk))
}

/// What follows `unload`.
fn unload(words: &mut Words) -> Result<Action, Fault>
    ensures found { IfOk result (λ a. IsPlainOf keys.Unload a words.old) }
    ensures none { OnErr result (NoPlain keys.Unload words.old) }
{
    let chunk = words.chunk()?;
    words.end()?;
    Ok(Action::Unload(chunk))
}

/// What follows `send`.
fn send(words: &mut Words) -> Result<Action, Fault>
    ensures found { IfOk result (λ a. IsPlainOf keys.Send a words.old) }
    ensures none { OnErr result (NoPlain keys.Send words.old) }
{
    let entity = words.small()?;
    let to = words.block()?;
    words.end()?;
    Ok(Action::Send { entity, to })
}

/// What follows a word, with nothing round it.
fn plain_behind(key: Keyword, words: &mut Words) -> Result<Action, Fault>
    ensures found { IfOk result (λ a. IsPlainOf key a words.old) }
    ensures none { OnErr result (NoPlain key words.old) }
{
    match key {
        Keyword::Set => set(words),
        Keyword::Copy => copy(words),
        Keyword::Load => load(words),
        Keyword::Unload => unload(words),
        Keyword::Send => send(words),
        Keyword::World
        | Keyword::Grid
        | Keyword::Block
        | Keyword::Entity
        | Keyword::Post
        | Keyword::Every
        | Keyword::Run
        | Keyword::End
        | Keyword::Arrive => Err(Fault::Unspelled),
    }
}

/// The action that this word begins, with nothing round it.
fn plain(words: &mut Words, word: &[u8]) -> Result<Action, Fault>
    ensures found { IfOk result (λ a. IsSimple 0 (deed_of a)
        × (word.now ∷ words.old ≡ deed_words (deed_of a))) }
    ensures none { OnErr result (NotSpelt deed_words (IsSimple 0) (word.now ∷ words.old)) }
{
    match key_of(word) {
        None => Err(Fault::Unspelled),
        Some(key) => plain_behind(key, words),
    }
}

/// Whether a post begins here, and may.
fn is_post(word: &[u8], posts: u8) -> bool
    ensures { IsTrue result ↔ ((0 < posts) × (word.now ≡ key_spelled keys.Post)) }
{
    posts > 0 && is_word(word, b"post")
}

/// The action that this word begins, with at most so many posts round it.
fn simple(alloc: Global, words: &mut Words, word: &[u8], posts: u8) -> Result<Action, Fault>
    ensures found { IfOk result (λ a. IsSimple posts (deed_of a)
        × (word.now ∷ words.old ≡ deed_words (deed_of a))) }
    ensures none { result ≡ Err Unspelled
        → NotSpelt deed_words (IsSimple posts) (word.now ∷ words.old) }
{
    if !is_post(word, posts) {
        return plain(words, word);
    }
    let chunk = words.chunk()?;
    let delay = words.positive(MOST_DELAY)?;
    let next = words.next()?;
    let inner = simple(alloc, words, next, posts - 1)?;
    Ok(Action::Post {
        chunk,
        delay: delay as u32,
        action: Nested::new(alloc, inner)?,
    })
}

/// What follows `every`.
fn every(alloc: Global, words: &mut Words) -> Result<Action, Fault>
    ensures found { IfOk result (λ a. IsPostable a
        × (key_spelled keys.Every ∷ words.old ≡ posted_words a)) }
    ensures none { result ≡ Err Unspelled
        → NotSpelt posted_words IsPostable (key_spelled keys.Every ∷ words.old) }
{
    let period = words.positive(MOST_DELAY)?;
    let left = words.positive(MOST_TIMES)?;
    let next = words.next()?;
    let inner = simple(alloc, words, next, MOST_POSTS)?;
    Ok(Action::Every {
        period: period as u32,
        left: left as u32,
        action: Nested::new(alloc, inner)?,
    })
}

/// An action that may be asked for.
pub fn action(alloc: Global, words: &mut Words) -> Result<Action, Fault>
    ensures found { IfOk result (λ a. IsPostable a × (words.old ≡ posted_words a)) }
    ensures none { result ≡ Err Unspelled → NotSpelt posted_words IsPostable words.old }
{
    let word = words.next()?;
    if is_word(word, b"every") {
        every(alloc, words)
    } else {
        simple(alloc, words, word, MOST_POSTS)
    }
}

//! A line by itself: its words, and what is wrong with them whatever the other lines are.

ghost use Rattle.std.specs.Prelude.{◌≡◌, ◌<◌, ◌≤◌, ◌||◌, ◌&&◌, ◌+◌, nat_lt, List, [], ◌∷◌, length, true, false, cond, Option, Some, None, IfOk, IfSome, not, IsTrue, ◌↔◌};
ghost use Rattle.std.specs.Option.{option_map};
ghost use Rattle.std.specs.List.{list_all};
ghost use Rattle.fol_model.specs.TextLines.{is_text, is_printable, words};
ghost use Rattle.fol_model.specs.TextForms as spec;
ghost use Rattle.fol_model.specs.TextCauses.{form_of, first_cause};
ghost use Rattle.fol_script.specs.Judged.{Judges, IsFaultless, is_tidy, faults};

use crate::cells::{Marks, read_cells};
use crate::forms::{key_of, line_form};
use crate::lines::next_word;
use fol_model::{Cause, Cell, Field, Keyword, TextKind};
use std::alloc::AllocError;

/// What a line is by its words alone.
#[derive(Clone, Copy)]
pub enum Judged {
    /// Its spelling is bad, whatever stands before it.
    Bad(Cause),
    /// It begins with this word; a fault of its form counts only where the line is in order.
    Words(Keyword, Option<Cause>),
}

/// Whether each byte is printable.
fn is_printed(line: &[u8]) -> bool
    ensures { result ≡ list_all is_printable line.now }
{
    line.iter().all(|b| 32 <= *b && *b <= 126)
}

/// Whether words stand with one space between each two.
fn is_spaced(line: &[u8]) -> bool
    ensures { result ≡ is_tidy true line.now }
{
    let mut fresh = true;
    for b in line {
        if *b == b' ' {
            if fresh {
                return false;
            }
            fresh = true;
        } else {
            fresh = false;
        }
    }
    !fresh
}

/// Whether the line is words with one space between each two.
pub fn is_text_line(line: &[u8]) -> bool
    ensures { result ≡ is_text line.now }
{
    is_printed(line) && is_spaced(line)
}

/// The key of a line word, and what follows it.
fn line_word(kind: TextKind, word: &[u8]) -> Option<(Keyword, &'static [Field])>
    ensures form { option_map (λ x. x.1.now) result
        ≡ form_of (spec.line_form kind) (spec.key_of word.now) }
    ensures key { IfSome result (λ x. spec.key_of word.now ≡ Some x.0) }
{
    match key_of(word) {
        None => None,
        Some(key) => match line_form(kind, key) {
            None => None,
            Some(form) => Some((key, form)),
        },
    }
}

/// The first fault of a line in its form.
fn fault_of(key: Keyword, marks: Marks) -> Option<Cause>
    ensures { result ≡ first_cause (faults key marks) }
{
    let most = match key {
        Keyword::Post | Keyword::Every => 7,
        _ => 8,
    };
    if marks.unfilled {
        Some(Cause::Count)
    } else if marks.nested > most {
        Some(Cause::Nest)
    } else if marks.no_number {
        Some(Cause::Number)
    } else if marks.outside {
        Some(Cause::Range)
    } else {
        None
    }
}

/// Judges a line by its words as if it were text, and reads its cells.
fn read_words(kind: TextKind, line: &[u8], cells: &mut Vec<Cell>) -> Result<Judged, AllocError>
    requires { cells.old.items ≡ [] }
    ensures judged { IfOk result (λ j.
        is_text line.now ≡ true → Judges kind line.now cells.new.items j) }
    ensures faultless { IfOk result (λ j. IsFaultless j → is_text line.now ≡ true) }
{
    let (word, rest, more) = next_word(line);
    let Some((key, form)) = line_word(kind, word) else {
        return Ok(Judged::Bad(Cause::Word));
    };
    let marks = read_cells(form, rest, more, cells)?;
    if marks.no_action {
        return Ok(Judged::Bad(Cause::Word));
    }
    Ok(Judged::Words(key, fault_of(key, marks)))
}

/// Whether nothing was found to be wrong with the words.
fn is_faultless(judged: Judged) -> bool
    ensures { IsTrue result ↔ IsFaultless judged }
{
    match judged {
        Judged::Words(_, None) => true,
        _ => false,
    }
}

/// Judges a line by its words, and reads its cells. Words that fill a form are text, so that only other lines are looked at for it.
pub fn read_line(kind: TextKind, line: &[u8], cells: &mut Vec<Cell>) -> Result<Judged, AllocError>
    requires { cells.old.items ≡ [] }
    ensures { IfOk result (λ j. Judges kind line.now cells.new.items j) }
{
    let judged = read_words(kind, line, cells)?;
    if is_faultless(judged) || is_text_line(line) {
        Ok(judged)
    } else {
        Ok(Judged::Bad(Cause::Text))
    }
}

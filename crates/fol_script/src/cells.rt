//! The words behind a line word, each in its place.

ghost use Rattle.std.specs.Prelude.{◌≡◌, ◌==◌, ◌||◌, ◌<◌, ◌≤◌, cond, ◌++◌, List, [], ◌∷◌, length, true, false, not, map, if◌then◌else◌, IfOk, OnOk, Some, None, IfSome, IfNone};
ghost use Rattle.std.specs.List.{list_any, count_by};
ghost use Rattle.fol_model.specs.TextLines.{words};
ghost use Rattle.fol_model.specs.TextForms as form;
ghost use Rattle.fol_model.specs.TextCauses as spec;
ghost use Rattle.fol_text_laws.specs.FieldLimits.{InLimits};
ghost use Rattle.fol_script.specs.Marks.{Tells, Reads, IsHalted, left, noted};

use crate::forms::action_of;
use crate::lines::next_word;
use crate::numbers::next_number;
use fol_model::{Cell, Field, Keyword, Reading};
use std::alloc::AllocError;

/// What was found behind a line word. Once an action word is missing nothing else is told.
#[derive(Clone, Copy)]
pub struct Marks {
    /// A word in the place of an action word is none.
    pub no_action: bool,
    /// There are fewer or more words than places.
    pub unfilled: bool,
    /// How many words `post` stand in the places of action words.
    pub nested: u64,
    /// A word in the place of a number is none.
    pub no_number: bool,
    /// A number is outside its range.
    pub outside: bool,
}

/// How many `post` words a key is.
fn posts(key: Keyword) -> u64
    ensures value { result ≡ cond (spec.is_post (Some key)) 1 0 }
    ensures few { result ≤ 1 }
{
    match key {
        Keyword::Post => 1,
        _ => 0,
    }
}

/// The cell of a word that was read in the place of a number.
fn number_cell(marks: &mut Marks, number: Reading) -> Cell
    ensures cell { result ≡ Cell.Number (spec.number_or number) }
    ensures marks { marks.new ≡ noted marks.old number }
{
    match number {
        Reading::NoNumber => {
            marks.no_number = true;
            Cell::Number(0)
        }
        Reading::Outside => {
            marks.outside = true;
            Cell::Number(0)
        }
        Reading::Is(z) => Cell::Number(z),
    }
}

/// Reads the first word of a text in the first of these places. Gives the places after it, the text behind it and whether there
/// is one; none where no action word stands.
fn read_cell<'p, 't>(
    places: &'p [Field],
    text: &'t [u8],
    marks: &mut Marks,
    cells: &mut Vec<Cell>,
) -> Result<Option<(&'p [Field], &'t [u8], bool)>, AllocError>
    requires some { 0 < length places.now }
    requires near { InLimits places.now }
    requires few { marks.old.nested ≤ length cells.old.items }
    ensures on { IfOk result (λ r.
        IfSome r (λ next. Reads places.now text.now marks.old marks.new cells.old.items
        cells.new.items next.0.now (left next.2 next.1.now))) }
    ensures shorter { IfOk result (λ r.
        IfSome r (λ next. next.2 ≡ true → length next.1.now < length text.now)) }
    ensures stopped { IfOk result (λ r. IfNone r (IsHalted places.now text.now
        × (marks.new ≡ marks.old))) }
{
    match places[0] {
        Field::Action => {
            let (word, rest, more) = next_word(text);
            let Some((key, next)) = action_of(word) else {
                return Ok(None);
            };
            cells.push(Cell::Word(key))?;
            marks.nested += posts(key);
            Ok(Some((next, rest, more)))
        }
        Field::Number { low, high } => {
            let (number, rest, more) = next_number(text, low, high);
            let cell = number_cell(marks, number);
            cells.push(cell)?;
            Ok(Some((&places[1..], rest, more)))
        }
    }
}

/// Whether words or places are left.
fn is_unfilled(more: bool, places: &[Field]) -> bool
    ensures { result ≡ (more || not (length places.now == 0)) }
{
    more || !places.is_empty()
}

/// Reads the words behind a line word by the places that they have.
pub fn read_cells(
    form: &[Field],
    text: &[u8],
    some: bool,
    cells: &mut Vec<Cell>,
) -> Result<Marks, AllocError>
    requires { InLimits form.now }
    ensures { IfOk result (λ m. Tells form.now (left some text.now) cells.old.items cells.new.items
        m) }
{
    let mut marks = Marks {
        no_action: false,
        unfilled: false,
        nested: 0,
        no_number: false,
        outside: false,
    };
    let mut places = form;
    let mut rest = text;
    let mut more = some;
    while more && !places.is_empty() {
        let Some((next, after, goes_on)) = read_cell(places, rest, &mut marks, cells)? else {
            marks.no_action = true;
            return Ok(marks);
        };
        places = next;
        rest = after;
        more = goes_on;
    }
    marks.unfilled = is_unfilled(more, places);
    Ok(marks)
}

//! One part of a report: a line that tells a count, and so many rows.

ghost use Rattle.std.specs.Prelude.{◌≡◌, ℕ, ◌≤◌, true, List, [], ◌∷◌, ◌++◌, decimal, IfOk, IfErr, OnErr, OnOk, Err};
ghost use Rattle.fol_model.specs.TextLines.{line_of};
ghost use Rattle.fol_model.specs.LineWords.{line};
ghost use Rattle.fol_report_reader.specs.Parts.{BadCount, IsBadPart, IsPart, OnLine, Reads, Stops, count_line, is_name};
ghost use Rattle.fol_events.specs.declared.faults.Fault.TheVariants.{Unspelled};
ghost use Rattle.fol_events.specs.Cuts.{has_no_feed};

use fol_events::{Words, cut_line};
use fol_model::Sequence;
use std::alloc::{AllocError, Global};

/// Why a report is not read.
#[derive(Clone, Copy)]
pub enum Fault {
    /// This line, counted from 1, is not as it must be.
    Line(u64),
    /// Memory ran out.
    NoMemory,
}

impl From<AllocError> for Fault {
    ghost use Rattle.std.specs.Prelude.{◌≡◌};
    ghost use Rattle.fol_report_reader.specs.declared.parts.Fault.TheVariants.{NoMemory};

    ghost from_gives = { λ a e. e ≡ NoMemory };

    fn from(_error: AllocError) -> Fault {
        Fault::NoMemory
    }
}

/// The most rows of a part.
const MOST_ROWS: u64 = 16_777_216;

/// A row of a report.
pub trait Row: Drop {
    ghost use Rattle.std.specs.Prelude.{List, ℕ, ◌≡◌, IfOk, Err};
    ghost use Rattle.fol_model.specs.TextLines.{line_of};
    ghost use Rattle.fol_events.specs.declared.faults.Fault.TheVariants.{Unspelled};

    ghost words: { Self → List (List ℕ) };

    ghost InRange: { Self → Type 0 };

    /// The row that a line without its end tells.
    fn read(alloc: Global, line: &[u8]) -> Result<Self, fol_events::Fault>
        ensures found { IfOk result (λ r. InRange r × (line.now ≡ line_of (words r))) }
        ensures none { result ≡ Err Unspelled → (r : Self) → InRange r
            → line.now ≡ line_of (words r) → ⊥ };
}

/// The number of rows that a line tells.
fn read_count(name: &[u8], line: &[u8]) -> Result<u64, fol_events::Fault>
    requires { is_name name.now ≡ true }
    ensures found { IfOk result (λ n. (n ≤ 16777216)
        × (line.now ≡ line_of (name.now ∷ decimal n ∷ []))) }
    ensures none { OnErr result ((n : ℕ) → n ≤ 16777216
        → line.now ≡ line_of (name.now ∷ decimal n ∷ []) → ⊥) }
{
    let mut words = Words::of(line);
    words.pass(name)?;
    let count = words.natural(MOST_ROWS)?;
    words.end()?;
    Ok(count)
}

/// The number of rows of a part, and what follows the line that tells it.
fn cut_count<'a>(name: &[u8], text: &'a [u8]) -> Result<(u64, &'a [u8]), fol_events::Fault>
    requires { is_name name.now ≡ true }
    ensures found { IfOk result (λ r. (r.0 ≤ 16777216)
        × (text.now ≡ count_line name.now r.0 ++ r.1.now)) }
    ensures none { OnErr result (BadCount name.now text.now 1) }
{
    let (line, rest) = cut_line(text)?;
    let count = read_count(name, line)?;
    Ok((count, rest))
}

/// The row of the first line, and what follows that line.
fn cut_row<R: Row>(alloc: Global, text: &[u8]) -> Result<(R, &[u8]), fol_events::Fault>
    requires { (r : R) → has_no_feed (line_of (R.words r)) ≡ true }
    ensures found { IfOk result (λ r. R.InRange r.0 × (text.now ≡ line (R.words r.0) ++ r.1.now)) }
    ensures none { result ≡ Err Unspelled → (r : R) (rest : List ℕ) → R.InRange r
        → text.now ≡ line (R.words r) ++ rest → ⊥ }
{
    let (line, rest) = cut_line(text)?;
    let row = R::read(alloc, line)?;
    Ok((row, rest))
}

/// The rows of so many lines, and what follows them.
fn read_rows<R: Row>(alloc: Global, count: u64, text: &[u8]) -> Result<(Sequence<R>, &[u8]), Fault>
    requires few { count ≤ 16777216 }
    requires one_line { (r : R) → has_no_feed (line_of (R.words r)) ≡ true }
    ensures found { IfOk result (λ r. Reads R.words R.InRange count text.now r.0 r.1.now) }
    ensures bad { IfErr result (λ e. OnLine e (λ l. Stops R.words R.InRange count text.now l)) }
{
    let mut rows = Sequence::new(alloc);
    let mut rest = text;
    for told in 0..count {
        match cut_row(alloc, rest) {
            Ok((row, after)) => {
                rows.push(row)?;
                rest = after;
            }
            Err(fol_events::Fault::Unspelled) => return Err(Fault::Line(told + 2)),
            Err(fol_events::Fault::NoMemory(_)) => return Err(Fault::NoMemory),
        }
    }
    Ok((rows, rest))
}

/// The rows of the part of this name at the front of a text, and what follows them.
pub fn read_part<'a, R: Row>(
    alloc: Global,
    name: &[u8],
    text: &'a [u8],
) -> Result<(Sequence<R>, &'a [u8]), Fault>
    requires name { is_name name.now ≡ true }
    requires one_line { (r : R) → has_no_feed (line_of (R.words r)) ≡ true }
    ensures found { IfOk result (λ r. IsPart name.now R.words R.InRange text.now r.0 r.1.now) }
    ensures bad { IfErr result (λ e.
        OnLine e (λ l. IsBadPart name.now R.words R.InRange text.now l)) }
    ensures small { IfErr result (λ e. OnLine e (λ l. l ≤ 16777218)) }
{
    let Ok((count, rows)) = cut_count(name, text) else {
        return Err(Fault::Line(1));
    };
    read_rows(alloc, count, rows)
}

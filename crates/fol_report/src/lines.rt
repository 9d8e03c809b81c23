//! Lines, and the parts of a report: a count and so many lines.

ghost use Rattle.std.specs.Prelude.{◌≡◌, ◌++◌, IfOk, string_bytes};
ghost use Rattle.fol_model.specs.LineWords.{part};
ghost use Rattle.fol_report.specs.Spaced.{joined, marked};

use std::alloc::AllocError;

/// The room that is kept for each line before any is put; a longer text grows by doubling.
pub const LINE_ROOM: usize = 32;

/// What is written as a line of words.
pub trait Line {
    ghost use Rattle.std.specs.Prelude.{List, ℕ};

    ghost words: { Self → List (List ℕ) };

    /// Puts the line without its end.
    fn put(&self, out: &mut String) -> Result<(), AllocError>
        ensures { IfOk result (λ _. string_bytes out.new
            ≡ string_bytes out.old ++ joined (words self.now)) };
}

/// Puts a line for each row, and a mark behind each.
pub fn put_lines<R: Line>(out: &mut String, rows: &[R], mark: &str) -> Result<(), AllocError>
    ensures { IfOk result (λ _. string_bytes out.new
        ≡ string_bytes out.old ++ marked mark.now R.words rows.now) }
{
    out.reserve(rows.len().saturating_mul(LINE_ROOM))?;
    for row in rows {
        row.put(out)?;
        out.push_str(mark)?;
    }
    Ok(())
}

/// Puts the count of the rows and their lines.
pub fn put_part<R: Line>(out: &mut String, name: &str, rows: &[R]) -> Result<(), AllocError>
    ensures { IfOk result (λ _. string_bytes out.new
        ≡ string_bytes out.old ++ part name.now R.words rows.now) }
{
    let count = rows.len();
    write!(out, "{name} {count}\n")?;
    put_lines(out, rows, "\n")
}

//! What is told to the sink of errors.

ghost use Rattle.std.specs.Prelude.{◌≡◌, ◌++◌, IsTrue, IfOk, Some, codes, string_bytes, true};
ghost use Rattle.fol_top.specs.Complaint.{Complains, IsTold, Puts, bad_line_text, cause_word, has_number, numbered_text, text_of};
ghost use Rattle.fol_top.specs.Ending.{status_of};

use crate::ending::Ending;
use fol_io::Sink;
use fol_model::Cause;
use std::alloc::{AllocError, Global};
use std::fmt::Write;

/// Tells how the work ended, in one put, and returns the ending that was told: where memory for a text with a number is not found, that
/// is out of memory. A fault of the sink changes nothing.
pub(crate) fn complain<E: Sink>(alloc: Global, ending: Ending, err: &mut E) -> Ending
    ensures told { IsTold ending result }
    ensures text { Complains (E.received err.old) (E.received err.new) (E.faults err.old)
        (E.faults err.new) (status_of result) }
{
    match ending {
        Ending::Written => ending,
        Ending::World { line, cause } => {
            let text = bad_line_text(alloc, "world", line, cause);
            put_line(ending, text, err)
        }
        Ending::Script { line, cause } => {
            let text = bad_line_text(alloc, "script", line, cause);
            put_line(ending, text, err)
        }
        Ending::ReportText { line } => {
            let text = numbered_text(alloc, "text line", line);
            put_line(ending, text, err)
        }
        Ending::ReportEvent { number } => {
            let text = numbered_text(alloc, "event", number);
            put_line(ending, text, err)
        }
        Ending::ReportState { line } => {
            let text = numbered_text(alloc, "state line", line);
            put_line(ending, text, err)
        }
        Ending::Words => put_text(ending, "fol: words\n", err),
        Ending::ReadFault => put_text(ending, "fol: read fault\n", err),
        Ending::WriteFault => put_text(ending, "fol: write fault\n", err),
        Ending::NoMemory => put_text(ending, "fol: no memory\n", err),
        Ending::TooLong => put_text(ending, "fol: too long\n", err),
    }
}

/// Puts the text of an ending.
fn put_text<E: Sink>(ending: Ending, text: &str, err: &mut E) -> Ending
    requires { text.now ≡ text_of (status_of ending) }
    ensures same { result ≡ ending }
    ensures puts { Puts (E.received err.old) (E.received err.new) (E.faults err.old)
        (E.faults err.new) (text_of (status_of result)) }
{
    let _answer = err.put(text.as_bytes());
    ending
}

/// Puts a text with a number, where memory for it was found.
fn put_line<E: Sink>(ending: Ending, text: Result<String, AllocError>, err: &mut E) -> Ending
    requires number { has_number ending ≡ true }
    requires text { IfOk text (λ t. string_bytes t ≡ text_of (status_of ending)) }
    ensures told { IsTold ending result }
    ensures puts { Puts (E.received err.old) (E.received err.new) (E.faults err.old)
        (E.faults err.new) (text_of (status_of result)) }
{
    match text {
        Ok(text) => put_text(ending, text.as_str(), err),
        Err(_) => put_text(Ending::NoMemory, "fol: no memory\n", err),
    }
}

/// The text of a bad line.
fn bad_line_text(alloc: Global, text: &str, line: u64, cause: Cause) -> Result<String, AllocError>
    ensures { IfOk result (λ t. string_bytes t ≡ bad_line_text text.now line (Some cause)) }
{
    let mut out = String::from_str(alloc, "fol: ")?;
    out.push_str(text)?;
    out.push_str(" line ")?;
    write!(out, "{line}")?;
    out.push_str(" ")?;
    out.push_str(cause_word(cause))?;
    out.push_str("\n")?;
    Ok(out)
}

/// A text that ends with a number.
fn numbered_text(alloc: Global, text: &str, number: u64) -> Result<String, AllocError>
    ensures { IfOk result (λ t. string_bytes t ≡ numbered_text text.now number) }
{
    let mut out = String::from_str(alloc, "fol: ")?;
    out.push_str(text)?;
    write!(out, " {number}\n")?;
    Ok(out)
}

/// The word of a cause.
fn cause_word(cause: Cause) -> &'static str
    ensures { result.now ≡ cause_word cause }
{
    match cause {
        Cause::Text => "text",
        Cause::Word => "word",
        Cause::Order => "order",
        Cause::Count => "count",
        Cause::Nest => "nest",
        Cause::Number => "number",
        Cause::Range => "range",
        Cause::Twice => "twice",
        Cause::Total => "total",
        Cause::Missing => "missing",
    }
}

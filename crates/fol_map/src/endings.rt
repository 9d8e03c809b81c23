//! How a run ends, and what is told of it.

ghost use Rattle.std.specs.Prelude.{◌≡◌, IfOk, string_bytes, true};
ghost use Rattle.fol_map.specs.Complaints.{Complains, IsTold, Puts, cause_word, code_of, has_number, report_text, text_of, world_text};

use fol_io::Sink;
use fol_model::Cause;
use std::alloc::{AllocError, Global};

/// The ways in which a run can end.
#[derive(Clone, Copy, Debug, PartialEq, Eq)]
pub enum Ending {
    /// The whole picture was written.
    Written,
    /// The words are no names of a world and of a report.
    Words,
    /// This line of the world is its first bad one, for this cause.
    World { line: u64, cause: Cause },
    /// The shelf met a fault.
    ReadFault,
    /// The sink met a fault.
    WriteFault,
    /// Memory was not found.
    NoMemory,
    /// A file has more than 16,777,216 bytes.
    TooLong,
    /// This line of the report is the first that is not as it must be in a report.
    Report { line: u64 },
}

impl Ending {
    /// The exit code: 0 where the whole picture was written, and else the number of the cause.
    pub fn code(self) -> u8
        ensures { result ≡ code_of self }
    {
        match self {
            Ending::Written => 0,
            Ending::Words => 2,
            Ending::World { .. } => 3,
            Ending::ReadFault => 5,
            Ending::WriteFault => 6,
            Ending::NoMemory => 7,
            Ending::TooLong => 8,
            Ending::Report { .. } => 10,
        }
    }
}

/// The word of a cause.
fn cause_word(cause: Cause) -> &'static str
    ensures { result.now ≡ cause_word cause }
{
    match cause {
        Cause::Text => "text",
        Cause::Word => "word",
        Cause::Order => "order",
        Cause::Count => "count",
        Cause::Nest => "nest",
        Cause::Number => "number",
        Cause::Range => "range",
        Cause::Twice => "twice",
        Cause::Total => "total",
        Cause::Missing => "missing",
    }
}

/// What is told of a bad line of a world.
fn world_text(alloc: Global, line: u64, cause: Cause) -> Result<String, AllocError>
    ensures { IfOk result (λ t. string_bytes t ≡ world_text line cause) }
{
    let mut out = String::new(alloc);
    let word = cause_word(cause);
    write!(out, "fol-map: world line {line} {word}\n")?;
    Ok(out)
}

/// What is told of a line of a report.
fn report_text(alloc: Global, line: u64) -> Result<String, AllocError>
    ensures { IfOk result (λ t. string_bytes t ≡ report_text line) }
{
    let mut out = String::new(alloc);
    write!(out, "fol-map: report line {line}\n")?;
    Ok(out)
}

/// Tells how the work ended, in one put, and returns the ending that was told: where memory for a text with a number is not found, that
/// is out of memory. A fault of the sink changes nothing.
pub fn complain<E: Sink>(alloc: Global, ending: Ending, err: &mut E) -> Ending
    ensures told { IsTold ending result }
    ensures text { Complains (E.received err.old) (E.received err.new) (E.faults err.old)
        (E.faults err.new) result }
{
    match ending {
        Ending::Written => ending,
        Ending::World { line, cause } => {
            let text = world_text(alloc, line, cause);
            put_line(ending, text, err)
        }
        Ending::Report { line } => {
            let text = report_text(alloc, line);
            put_line(ending, text, err)
        }
        Ending::Words => put_text(ending, "fol-map: words\n", err),
        Ending::ReadFault => put_text(ending, "fol-map: read fault\n", err),
        Ending::WriteFault => put_text(ending, "fol-map: write fault\n", err),
        Ending::NoMemory => put_text(ending, "fol-map: no memory\n", err),
        Ending::TooLong => put_text(ending, "fol-map: too long\n", err),
    }
}

/// Puts the text of an ending.
fn put_text<E: Sink>(ending: Ending, text: &str, err: &mut E) -> Ending
    requires { text.now ≡ text_of ending }
    ensures same { result ≡ ending }
    ensures puts { Puts (E.received err.old) (E.received err.new) (E.faults err.old)
        (E.faults err.new) (text_of result) }
{
    let _answer = err.put(text.as_bytes());
    ending
}

/// Puts a text with a number, where memory for it was found.
fn put_line<E: Sink>(ending: Ending, text: Result<String, AllocError>, err: &mut E) -> Ending
    requires number { has_number ending ≡ true }
    requires text { IfOk text (λ t. string_bytes t ≡ text_of ending) }
    ensures told { IsTold ending result }
    ensures puts { Puts (E.received err.old) (E.received err.new) (E.faults err.old)
        (E.faults err.new) (text_of result) }
{
    match text {
        Ok(text) => put_text(ending, text.as_str(), err),
        Err(_) => put_text(Ending::NoMemory, "fol-map: no memory\n", err),
    }
}

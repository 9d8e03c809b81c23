//! How a run ends.

ghost use Rattle.std.specs.Prelude.{◌≡◌};
ghost use Rattle.fol_top.specs.Ending.{status_of};

use fol_model::Cause;

/// What the program ends with.
#[derive(Clone, Copy, Debug, PartialEq, Eq)]
pub struct Status {
    /// 0 where the whole output was written, and else the number of the cause.
    pub code: u8,
    /// The line that a bad text or report was found bad at, at code 11 the number of the event, and 0 at every other code.
    pub line: u64,
    /// What is wrong with a line of a text, at codes 3 and 4, and `None` at every other code.
    pub cause: Option<Cause>,
}

/// The ways in which a run can end.
#[derive(Clone, Copy)]
pub(crate) enum Ending {
    /// The whole output was written.
    Written,
    /// The words are no command.
    Words,
    /// The world has a bad line.
    World { line: u64, cause: Cause },
    /// The script has a bad line.
    Script { line: u64, cause: Cause },
    /// The shelf met a fault.
    ReadFault,
    /// The sink met a fault.
    WriteFault,
    /// Memory was not found.
    NoMemory,
    /// A file is too long.
    TooLong,
    /// This line of the report is the first that is not spelled as one of a report.
    ReportText { line: u64 },
    /// With the event of this number those of the report are no longer the beginning of a history of the script.
    ReportEvent { number: u64 },
    /// This line of the report is the first that is not that of its history.
    ReportState { line: u64 },
}

impl Ending {
    /// The status that stands for this ending.
    pub(crate) fn status(self) -> Status
        ensures { result ≡ status_of self }
    {
        match self {
            Ending::Written => plain(0),
            Ending::Words => plain(2),
            Ending::World { line, cause } => bad_line(3, line, cause),
            Ending::Script { line, cause } => bad_line(4, line, cause),
            Ending::ReadFault => plain(5),
            Ending::WriteFault => plain(6),
            Ending::NoMemory => plain(7),
            Ending::TooLong => plain(8),
            Ending::ReportText { line } => numbered(10, line),
            Ending::ReportEvent { number } => numbered(11, number),
            Ending::ReportState { line } => numbered(12, line),
        }
    }
}

fn plain(code: u8) -> Status
    ensures { result ≡ record { code = code; line = 0; cause = None } }
{
    Status {
        code,
        line: 0,
        cause: None,
    }
}

fn bad_line(code: u8, line: u64, cause: Cause) -> Status
    ensures { result ≡ record { code = code; line = line; cause = Some cause } }
{
    Status {
        code,
        line,
        cause: Some(cause),
    }
}

fn numbered(code: u8, number: u64) -> Status
    ensures { result ≡ record { code = code; line = number; cause = None } }
{
    Status {
        code,
        line: number,
        cause: None,
    }
}

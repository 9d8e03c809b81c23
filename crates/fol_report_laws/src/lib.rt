//! The laws of the report.
//!
//! `fol_model` says which bytes are the report of a closing, and which are its JSON text. Each function here has no parameter and an
//! empty body: its contract is a law about these definitions, proved for all closings. A report tells the events of the history behind
//! it: no other run has the same report, but for the seats that recorded its entries. So a claim about the history behind a report is
//! a claim about what the report prints.
//!
//! Two things are not told, and each law says what keeps them out. A number of more than 64 digits is printed with its last 64; no type
//! of the program holds one, and a text whose words have at most 63 bytes tells none. An arrival is printed without its speed; no run
//! posts one.
#![tactic(auto)]

ghost use Rattle.fol_report_laws.specs.Laws.{ReportTellsEvents, ReportTellsRun, JsonTellsEvents, JsonTellsRun, RunPostsNoArrival};

/// Two closings with the same report have the same events, where no number has more than 64 digits and no arrival is posted.
pub fn report_tells_events()
    ensures { ReportTellsEvents }
{}

/// Two runs with the same report have the same events, where no word of that report has more than 63 bytes.
pub fn report_tells_run()
    ensures { ReportTellsRun }
{}

/// Two closings with the same JSON text have the same events, where no number has more than 64 digits and no arrival is posted.
pub fn json_tells_events()
    ensures { JsonTellsEvents }
{}

/// Two runs with the same JSON text have the same events, where no word of that text has more than 63 bytes.
pub fn json_tells_run()
    ensures { JsonTellsRun }
{}

/// The history of a run posts no arrival.
pub fn run_posts_no_arrival()
    ensures { RunPostsNoArrival }
{}

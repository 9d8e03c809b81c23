//! Whether a report is that of a legal history.

ghost use Rattle.std.specs.Prelude.{◌≡◌, ◌≤◌, ℕ, List, Some, length};
ghost use Rattle.fol_model.specs.GridNumbers.{IsGrid};
ghost use Rattle.fol_top.specs.Came.{Came};
ghost use Rattle.fol_top.specs.Checking.{CheckEnds};
ghost use Rattle.fol_top.specs.Command.{check, request_in};
ghost use Rattle.fol_top.specs.Inputs.{size_limit};

use crate::command::Names;
use crate::ending::Ending;
use crate::inputs::{ReportFiles, read_report_files};
use crate::output::put_output;
use crate::texts::{Texts, read_texts};
use fol_check::{Verdict, check};
use fol_io::{Shelf, Sink};
use std::alloc::Global;

/// Judges the report of one file against the world and the script of two others, and writes whether it is that of a legal history.
pub(crate) fn check_files<F: Shelf, K: Sink>(
    alloc: Global,
    names: Names<'_>,
    report: &str,
    shelf: &mut F,
    out: &mut K,
) -> Ending
    ensures { (words : List (List ℕ)) → request_in words
        ≡ Some (check (record { world = names.entry.world.now; script = names.entry.script.now })
        report.now) → Came (record {
          words = words;
          held = F.held shelf.old;
          faults = F.faults shelf.old;
          faults_later = F.faults shelf.new;
          taken = F.taken shelf.old;
          taken_later = F.taken shelf.new;
          reads = F.reads shelf.old;
          reads_later = F.reads shelf.new;
          received = K.received out.old;
          received_later = K.received out.new;
          write_faults = K.faults out.old;
          write_faults_later = K.faults out.new;
          puts = K.puts out.old;
          puts_later = K.puts out.new;
        }) result }
{
    let ReportFiles { files, report } = match read_report_files(alloc, names, report, shelf) {
        Ok(files) => files,
        Err(ending) => return ending,
    };
    let texts = match read_texts(alloc, &files) {
        Ok(texts) => texts,
        Err(ending) => return ending,
    };
    check_texts(alloc, texts, report.as_slice(), out)
}

/// Judges a report against a world and a script, and writes `legal` where it is that of a legal history.
fn check_texts<K: Sink>(alloc: Global, texts: Texts, report: &[u8], out: &mut K) -> Ending
    requires grid { IsGrid texts.opening.grid }
    requires within { length report.now ≤ size_limit }
    ensures { CheckEnds texts.opening texts.script report.now (K.received out.old)
        (K.received out.new) (K.faults out.old) (K.faults out.new) (K.puts out.old) (K.puts out.new)
        result }
{
    let Texts { opening, script } = texts;
    match check(alloc, opening, script, report) {
        Ok(Verdict::Legal) => put_output(b"legal\n", out),
        Ok(Verdict::Text(line)) => Ending::ReportText { line },
        Ok(Verdict::Event(number)) => Ending::ReportEvent { number },
        Ok(Verdict::State(line)) => Ending::ReportState { line },
        Err(_) => Ending::NoMemory,
    }
}

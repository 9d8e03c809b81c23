//! The program as one call.

ghost use Rattle.std.specs.Prelude.{◌≡◌, ◌≤◌, ℕ, List, Some, false, map};
ghost use Rattle.fol_model.specs.GridNumbers.{IsGrid};
ghost use Rattle.fol_top.specs.Came.{Came};
ghost use Rattle.fol_top.specs.Command.{asks_for_files, request_in, run};
ghost use Rattle.fol_top.specs.Complaint.{Complains};
ghost use Rattle.fol_top.specs.Outcome.{Outcome, Untouched};
ghost use Rattle.fol_top.specs.Report.{IsReport, IsSummary};
ghost use Rattle.fol_top.specs.Writing.{OutputEnds};

use crate::checking::check_files;
use crate::command::{Names, Request, request_in};
use crate::complaint::complain;
use crate::ending::{Ending, Status};
use crate::form::Form;
use crate::inputs::read_files;
use crate::made::make_texts;
use crate::output::write_output;
use crate::texts::{Texts, read_texts_in_shares};
use fol_io::{Gate, Shelf, Sink};
use fol_pool::run_script;
use std::alloc::Global;
use std::mem;
use std::sync::Wait;
use std::thread::Threads;

/// How many workers run a made game.
const MAKE_WORKERS: u32 = 4;

/// Runs the program. `words` is the command line without the program's own name, and these are the commands:
///
/// - `run WORLD SCRIPT WORKERS`, with WORKERS from 1 to 64, reads both files from the shelf, runs the script on the world by so many workers, and
///   writes the report to `out`.
/// - `run WORLD SCRIPT WORKERS json` writes the report as JSON.
/// - `check WORLD SCRIPT REPORT` reads the three files from the shelf, and writes `legal` to `out` where the report is that of a legal history of the
///   script on the world, by at most 64 workers.
/// - `make N`, with N from 1 to 500, runs the made texts of N clusters by 4 workers and writes the summary. It reads nothing from the shelf.
///
/// The status tells how it ended, by these codes. The first of them that comes up on the way decides: words, world read, script read,
/// report read, world text, script text, run or check, write.
///
/// - 0: the whole output was written.
/// - 2: the words are no command.
/// - 3 and 4: `line` is the first bad line of the world, or of the script, and `cause` is what is wrong with it.
/// - 5 and 6: the shelf, or `out`, met a fault and counted it.
/// - 7: memory was not found.
/// - 8: a file has more than 16,777,216 bytes.
/// - 10: `line` is the first line of the report that is not spelled as one of a report.
/// - 11: `line` is the number of the first event of the report with which its events are no longer the beginning of a history of the script.
/// - 12: `line` is the first line of the report that is not that of the history which its events are.
///
/// Nothing goes to `out` but at codes 0 and 6. At every code but 0 one line goes to `err`; a fault of `err` changes nothing. The gate is
/// passed once in each tick. It is for a process that ends behind it: the history that was written is left to that end, and not freed.
pub fn run<R: Threads + Wait + Sync, F: Shelf, K: Sink, E: Sink, G: Gate + Sync>(
    rt: &R,
    alloc: Global,
    words: &[&str],
    shelf: &mut F,
    out: &mut K,
    err: &mut E,
    gate: &G,
) -> Status
    ensures outcome { Outcome (record {
      words = map (λ w. w.now) words.now;
      held = F.held shelf.old;
      faults = F.faults shelf.old;
      faults_later = F.faults shelf.new;
      taken = F.taken shelf.old;
      taken_later = F.taken shelf.new;
      reads = F.reads shelf.old;
      reads_later = F.reads shelf.new;
      received = K.received out.old;
      received_later = K.received out.new;
      write_faults = K.faults out.old;
      write_faults_later = K.faults out.new;
      puts = K.puts out.old;
      puts_later = K.puts out.new;
    }) result }
    ensures complaint { Complains (E.received err.old) (E.received err.new) (E.faults err.old)
        (E.faults err.new) result }
{
    let ending = work(rt, alloc, words, shelf, out, gate);
    complain(alloc, ending, err).status()
}

/// Does all the work but to tell how it ended.
fn work<R: Threads + Wait + Sync, F: Shelf, K: Sink, G: Gate + Sync>(
    rt: &R,
    alloc: Global,
    words: &[&str],
    shelf: &mut F,
    out: &mut K,
    gate: &G,
) -> Ending
    ensures came { Came (record {
      words = map (λ w. w.now) words.now;
      held = F.held shelf.old;
      faults = F.faults shelf.old;
      faults_later = F.faults shelf.new;
      taken = F.taken shelf.old;
      taken_later = F.taken shelf.new;
      reads = F.reads shelf.old;
      reads_later = F.reads shelf.new;
      received = K.received out.old;
      received_later = K.received out.new;
      write_faults = K.faults out.old;
      write_faults_later = K.faults out.new;
      puts = K.puts out.old;
      puts_later = K.puts out.new;
    }) result }
    ensures untouched { asks_for_files (request_in (map (λ w. w.now) words.now)) ≡ false
        → Untouched (record {
          words = map (λ w. w.now) words.now;
          held = F.held shelf.old;
          faults = F.faults shelf.old;
          faults_later = F.faults shelf.new;
          taken = F.taken shelf.old;
          taken_later = F.taken shelf.new;
          reads = F.reads shelf.old;
          reads_later = F.reads shelf.new;
          received = K.received out.old;
          received_later = K.received out.new;
          write_faults = K.faults out.old;
          write_faults_later = K.faults out.new;
          puts = K.puts out.old;
          puts_later = K.puts out.new;
        }) }
{
    match request_in(words) {
        None => Ending::Words,
        Some(
            Request::Run {
                names,
                workers,
                form,
            },
        ) => run_files(rt, alloc, names, workers, form, shelf, out, gate),
        Some(Request::Check { names, report }) => check_files(alloc, names, report, shelf, out),
        Some(Request::Make(clusters)) => run_made(rt, alloc, clusters, out, gate),
    }
}

/// Runs the script of one file on the world of another by so many workers, and writes the report in this form.
fn run_files<R: Threads + Wait + Sync, F: Shelf, K: Sink, G: Gate + Sync>(
    rt: &R,
    alloc: Global,
    names: Names<'_>,
    workers: u32,
    form: Form,
    shelf: &mut F,
    out: &mut K,
    gate: &G,
) -> Ending
    requires { (1 ≤ workers) × (workers ≤ 64) }
    ensures { (words : List (List ℕ)) → request_in words
        ≡ Some (run (record { world = names.entry.world.now; script = names.entry.script.now })
        workers form)
        → Came (record {
          words = words;
          held = F.held shelf.old;
          faults = F.faults shelf.old;
          faults_later = F.faults shelf.new;
          taken = F.taken shelf.old;
          taken_later = F.taken shelf.new;
          reads = F.reads shelf.old;
          reads_later = F.reads shelf.new;
          received = K.received out.old;
          received_later = K.received out.new;
          write_faults = K.faults out.old;
          write_faults_later = K.faults out.new;
          puts = K.puts out.old;
          puts_later = K.puts out.new;
        }) result }
{
    let files = match read_files(alloc, names, shelf) {
        Ok(files) => files,
        Err(ending) => return ending,
    };
    let texts = match read_texts_in_shares(rt, alloc, workers, &files) {
        Ok(texts) => texts,
        Err(ending) => return ending,
    };
    drop(files);
    run_texts(rt, alloc, texts, workers, form, out, gate)
}

/// Runs the made texts of so many clusters, and writes the summary.
fn run_made<R: Threads + Wait + Sync, K: Sink, G: Gate + Sync>(
    rt: &R,
    alloc: Global,
    clusters: u32,
    out: &mut K,
    gate: &G,
) -> Ending
    requires some { 1 ≤ clusters }
    requires few { clusters ≤ 500 }
    ensures { OutputEnds (IsSummary clusters) (K.received out.old) (K.received out.new)
        (K.faults out.old) (K.faults out.new) (K.puts out.old) (K.puts out.new) result }
{
    match make_texts(alloc, clusters) {
        Ok(texts) => {
            let form = Form::Summary(clusters);
            run_texts(rt, alloc, texts, MAKE_WORKERS, form, out, gate)
        }
        Err(_) => Ending::NoMemory,
    }
}

/// Runs a script on a world by so many workers, and writes the closing in this form.
fn run_texts<R: Threads + Wait + Sync, K: Sink, G: Gate + Sync>(
    rt: &R,
    alloc: Global,
    texts: Texts,
    workers: u32,
    form: Form,
    out: &mut K,
    gate: &G,
) -> Ending
    requires grid { IsGrid texts.opening.grid }
    requires workers { (1 ≤ workers) × (workers ≤ 64) }
    ensures { OutputEnds (IsReport form texts.opening texts.script workers) (K.received out.old)
        (K.received out.new) (K.faults out.old) (K.faults out.new) (K.puts out.old) (K.puts out.new)
        result }
{
    let Texts { opening, script } = texts;
    match run_script(rt, alloc, opening, script, workers, gate) {
        Ok(closing) => {
            let ending = write_output(rt, alloc, workers, &closing, form, out);
            // Freeing each entry of a long history takes longer than the end of the process does, which follows.
            mem::forget(closing);
            ending
        }
        Err(_) => Ending::NoMemory,
    }
}

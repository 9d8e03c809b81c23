//! The program as one call.

ghost use Rattle.std.specs.Prelude.{◌≡◌, ◌≤◌, ℕ, List, map, Some, None, IfOk, IfErr, MatchOption};
ghost use Rattle.fol_io.specs.Shelf.{IsHeld};
ghost use Rattle.fol_map.specs.Complaints.{Complains};
ghost use Rattle.fol_map.specs.Pictures.{IsPicture};
ghost use Rattle.fol_map.specs.Runs.{FileEnds, FilesEnd, Outcome, PutEnds, ReportEnds, TextsEnd, is_name, names_in};

use crate::endings::{Ending, complain};
use crate::pictures::picture;
use fol_io::{Bytes, Put, Read, Shelf, Sink, put_in_pieces};
use fol_model::{Closing, Opening};
use fol_report_reader::{Fault, read_report};
use fol_script::{ReadError, read_world};
use std::alloc::Global;

/// How many bytes a file may have.
const SIZE_LIMIT: u64 = 16_777_216;

/// Draws a report: of the two words, which are the command line without the program's own name, the first names a world and the second a
/// report over it, both on the shelf. The picture goes to `out`.
///
/// The ending tells how it went. The first of them that comes up on the way decides: words, world read, report read, world text, report text,
/// write. Nothing goes to `out` but at `Written` and `WriteFault`. At every ending but `Written` one line goes to `err`; a fault of `err`
/// changes nothing.
pub fn run<F: Shelf, K: Sink, E: Sink>(
    alloc: Global,
    words: &[&str],
    shelf: &mut F,
    out: &mut K,
    err: &mut E,
) -> Ending
    ensures outcome { Outcome (record {
      words = map (λ w. w.now) words.now;
      held = F.held shelf.old;
      faults = F.faults shelf.old;
      faults_later = F.faults shelf.new;
      taken = F.taken shelf.old;
      taken_later = F.taken shelf.new;
      reads = F.reads shelf.old;
      reads_later = F.reads shelf.new;
      received = K.received out.old;
      received_later = K.received out.new;
      write_faults = K.faults out.old;
      write_faults_later = K.faults out.new;
      puts = K.puts out.old;
      puts_later = K.puts out.new;
    }) result }
    ensures complaint { Complains (E.received err.old) (E.received err.new) (E.faults err.old)
        (E.faults err.new) result }
{
    let ending = work(alloc, words, shelf, out);
    complain(alloc, ending, err)
}

/// Does all the work but to tell how it ended.
fn work<F: Shelf, K: Sink>(alloc: Global, words: &[&str], shelf: &mut F, out: &mut K) -> Ending
    ensures { Outcome (record {
      words = map (λ w. w.now) words.now;
      held = F.held shelf.old;
      faults = F.faults shelf.old;
      faults_later = F.faults shelf.new;
      taken = F.taken shelf.old;
      taken_later = F.taken shelf.new;
      reads = F.reads shelf.old;
      reads_later = F.reads shelf.new;
      received = K.received out.old;
      received_later = K.received out.new;
      write_faults = K.faults out.old;
      write_faults_later = K.faults out.new;
      puts = K.puts out.old;
      puts_later = K.puts out.new;
    }) result }
{
    match names_in(words) {
        None => Ending::Words,
        Some(names) => draw_files(alloc, names.world, names.report, shelf, out),
    }
}

/// The names of a world and of a report.
#[derive(Clone, Copy)]
struct Names<'a> {
    world: &'a str,
    report: &'a str,
}

/// The names that the words are; `None` exactly where they are not two names.
fn names_in<'a>(words: &[&'a str]) -> Option<Names<'a>>
    ensures { MatchOption result (names_in (map (λ w. w.now) words.now) ≡ None) (λ n.
        names_in (map (λ w. w.now) words.now)
        ≡ Some (record { world = n.world.now; report = n.report.now })) }
{
    match words {
        [world, report] => {
            if is_name(world) && is_name(report) {
                Some(Names { world, report })
            } else {
                None
            }
        }
        _ => None,
    }
}

/// Whether the word can name a file: it is not empty, and does not begin with `-`.
fn is_name(word: &str) -> bool
    ensures { result ≡ is_name word.now }
{
    match word.as_bytes() {
        [] => false,
        [first, ..] => *first != b'-',
    }
}

/// Draws the report of one file over the world of another.
fn draw_files<F: Shelf, K: Sink>(
    alloc: Global,
    world: &str,
    report: &str,
    shelf: &mut F,
    out: &mut K,
) -> Ending
    ensures { (words : List (List ℕ))
        → FilesEnd (record {
          words = words;
          held = F.held shelf.old;
          faults = F.faults shelf.old;
          faults_later = F.faults shelf.new;
          taken = F.taken shelf.old;
          taken_later = F.taken shelf.new;
          reads = F.reads shelf.old;
          reads_later = F.reads shelf.new;
          received = K.received out.old;
          received_later = K.received out.new;
          write_faults = K.faults out.old;
          write_faults_later = K.faults out.new;
          puts = K.puts out.old;
          puts_later = K.puts out.new;
        }) world.now report.now result }
{
    let world = match read_file(alloc, world, shelf) {
        Ok(bytes) => bytes,
        Err(ending) => return ending,
    };
    let report = match read_file(alloc, report, shelf) {
        Ok(bytes) => bytes,
        Err(ending) => return ending,
    };
    draw_texts(alloc, world.as_slice(), report.as_slice(), out)
}

/// Draws a report over a world.
fn draw_texts<K: Sink>(alloc: Global, world: &[u8], report: &[u8], out: &mut K) -> Ending
    ensures { TextsEnd world.now report.now (K.received out.old) (K.received out.new)
        (K.faults out.old) (K.faults out.new) (K.puts out.old) (K.puts out.new) result }
{
    match read_world(alloc, world) {
        Ok(opening) => draw_report(alloc, opening, report, out),
        Err(ReadError::BadLine { line, cause }) => Ending::World { line, cause },
        Err(ReadError::NoMemory) => Ending::NoMemory,
    }
}

/// Draws a report over an opening.
fn draw_report<K: Sink>(alloc: Global, opening: Opening, report: &[u8], out: &mut K) -> Ending
    ensures { ReportEnds opening report.now (K.received out.old) (K.received out.new)
        (K.faults out.old) (K.faults out.new) (K.puts out.old) (K.puts out.new) result }
{
    let closing = match read_report(alloc, opening, report) {
        Ok(closing) => closing,
        Err(Fault::Line(line)) => return Ending::Report { line },
        Err(Fault::NoMemory) => return Ending::NoMemory,
    };
    draw_closing(alloc, &closing, out)
}

/// Draws a closing.
fn draw_closing<K: Sink>(alloc: Global, closing: &Closing, out: &mut K) -> Ending
    ensures { PutEnds (IsPicture closing.now) (K.received out.old) (K.received out.new)
        (K.faults out.old) (K.faults out.new) (K.puts out.old) (K.puts out.new) result }
{
    match picture(alloc, closing) {
        Ok(picture) => put_picture(picture.as_slice(), out),
        Err(_) => Ending::NoMemory,
    }
}

/// Puts a picture that is whole.
fn put_picture<K: Sink>(picture: &[u8], out: &mut K) -> Ending
    ensures { PutEnds (λ b. b ≡ picture.now) (K.received out.old) (K.received out.new)
        (K.faults out.old) (K.faults out.new) (K.puts out.old) (K.puts out.new) result }
{
    match put_in_pieces(out, picture) {
        Put::Ok => Ending::Written,
        Put::Failed => Ending::WriteFault,
    }
}

/// Reads one file.
fn read_file<F: Shelf>(alloc: Global, name: &str, shelf: &mut F) -> Result<Bytes, Ending>
    ensures held { IfOk result (λ bytes. IsHeld (F.held shelf.old name.now) bytes) }
    ensures ends { IfErr result (FileEnds (F.held shelf.old name.now) (F.faults shelf.old name.now)
        (F.faults shelf.new name.now) (F.taken shelf.old) (F.taken shelf.new)) }
    ensures holds_the_same { (n : List ℕ) → F.held shelf.new n ≡ F.held shelf.old n }
    ensures faults_never_fall { (n : List ℕ) → F.faults shelf.old n ≤ F.faults shelf.new n }
    ensures taken_never_falls { F.taken shelf.old ≤ F.taken shelf.new }
{
    match shelf.read_whole(alloc, name, SIZE_LIMIT) {
        Read::Whole(bytes) => Ok(bytes),
        Read::Failed => Err(Ending::ReadFault),
        Read::TooLong => Err(Ending::TooLong),
        Read::NoMemory => Err(Ending::NoMemory),
    }
}

//! What no contract says: that runs come to an end, what a whole report looks like, and that memory is found.

use crate::{Status, run};
use fol_io::{Bytes, Gate, MemShelf, MemSink, NamedBytes, QuietGate, Text};
use fol_model::Cause;
use std::alloc::{AllocError, Global};
use std::sync::Wait;
use std::sync::atomic::{AtomicU64, Ordering};
use std::test::Fail;
use std::thread::{Threads, yield_now};

const WORLD: &str = "world 1\ngrid 0 1 1 2 1 6\n";

const ONE_REGION: &str = "load 0 0\nrun 2\nend\n";

const ONE_REGION_REPORT: &str =
    "report 1\nevents 8\nload 0 0 0 counted\nopen 2\nbegin 1 1\nend 1 1 tick 1 ran 0 accepted 0\nbegin 1 1\nend 1 1 tick 2 ran 0 accepted 0\nclose\nfinish\nregions 1\nregion 1 ready tick 2 owed 0 sections 9 chunks 1\nowners 9\nowner -1 -1 1\nowner 0 -1 1\nowner 1 -1 1\nowner -1 0 1\nowner 0 0 1\nowner 1 0 1\nowner -1 1 1\nowner 0 1 1\nowner 1 1 1\ntasks 0\nentities 0\nblocks 0\nend\n";

const EMPTY_JSON: &str =
    "{\"blocks\":[],\"entities\":[],\"events\":[\"finish\"],\"owners\":[],\"regions\":[],\"report\":1,\"tasks\":[]}\n";

const SUMMARY_OF_ONE: &str =
    "made 1\nloads 3\nposts 4\nticks 8\nran 4\nregions 2\nsections 18\nblocks 4\nsum 10\nend\n";

/// What a run came to.
#[derive(Drop)]
struct Came {
    status: Status,
    out: MemSink,
    err: MemSink,
}

fn named(alloc: Global, name: &str, bytes: &[u8]) -> Result<NamedBytes, AllocError> {
    Ok(NamedBytes {
        name: Text::of(String::from_str(alloc, name)?),
        bytes: Bytes::of(Vec::from_slice(alloc, bytes)?),
        faults: 0,
    })
}

fn sink_of(alloc: Global, failing: &[u64]) -> Result<MemSink, AllocError> {
    Ok(MemSink::of(
        Vec::with_capacity(alloc, 4096)?,
        Vec::from_slice(alloc, failing)?,
    ))
}

/// Runs words on a world and a script, where these reads and these puts of the output fail.
fn run_words<R: Threads + Wait + Sync>(
    rt: &R,
    alloc: Global,
    words: &[&str],
    texts: (&[u8], &[u8]),
    failing: (&[u64], &[u64]),
) -> Result<Came, AllocError> {
    let (world, script) = texts;
    let files = vec![in alloc; named(alloc, "w", world)?, named(alloc, "s", script)?]?;
    run_on(rt, alloc, words, files, failing)
}

/// Runs words on these files, where these reads and these puts of the output fail.
fn run_on<R: Threads + Wait + Sync>(
    rt: &R,
    alloc: Global,
    words: &[&str],
    files: Vec<NamedBytes>,
    failing: (&[u64], &[u64]),
) -> Result<Came, AllocError> {
    let (reads, puts) = failing;
    let mut shelf = MemShelf::of(files, Vec::from_slice(alloc, reads)?);
    let mut out = sink_of(alloc, puts)?;
    let mut err = sink_of(alloc, &[])?;
    let status = run(rt, alloc, words, &mut shelf, &mut out, &mut err, &QuietGate);
    Ok(Came { status, out, err })
}

fn run_texts<R: Threads + Wait + Sync>(
    rt: &R,
    alloc: Global,
    world: &str,
    script: &str,
) -> Result<Came, AllocError> {
    run_words(
        rt,
        alloc,
        &["run", "w", "s", "1"],
        (world.as_bytes(), script.as_bytes()),
        (&[], &[]),
    )
}

/// Checks a report against the world and the script of one region, where this read fails.
fn check_report<R: Threads + Wait + Sync>(
    rt: &R,
    alloc: Global,
    report: &str,
    failing: &[u64],
) -> Result<Came, AllocError> {
    let files = vec![in alloc;
        named(alloc, "w", WORLD.as_bytes())?,
        named(alloc, "s", ONE_REGION.as_bytes())?,
        named(alloc, "r", report.as_bytes())?,
    ]?;
    run_on(rt, alloc, &["check", "w", "s", "r"], files, (failing, &[]))
}

fn is_plain(came: &Came, code: u8, text: &[u8]) -> bool {
    let status = came.status;
    status.code == code
        && status.line == 0
        && status.cause.is_none()
        && came.err.bytes() == text
        && (code == 0 || came.out.bytes().is_empty())
}

fn is_numbered(came: &Came, code: u8, line: u64, cause: Option<Cause>, text: &[u8]) -> bool {
    came.status == Status { code, line, cause }
        && came.err.bytes() == text
        && came.out.bytes().is_empty()
}

/// Whether words on the world and the script of one region, where these reads and these puts of the output fail, end in this way.
fn ends_with<R: Threads + Wait + Sync>(
    rt: &R,
    alloc: Global,
    words: &[&str],
    failing: (&[u64], &[u64]),
    code: u8,
    text: &[u8],
) -> Result<bool, AllocError> {
    let texts = (WORLD.as_bytes(), ONE_REGION.as_bytes());
    let came = run_words(rt, alloc, words, texts, failing)?;
    Ok(is_plain(&came, code, text))
}

/// Whether a run of a world and a script writes this.
fn writes<R: Threads + Wait + Sync>(
    rt: &R,
    alloc: Global,
    words: &[&str],
    texts: (&str, &str),
    wanted: &str,
) -> Result<bool, AllocError> {
    let texts = (texts.0.as_bytes(), texts.1.as_bytes());
    let came = run_words(rt, alloc, words, texts, (&[], &[]))?;
    Ok(is_plain(&came, 0, b"") && came.out.bytes() == wanted.as_bytes())
}

/// Whether a run of a world and a script tells this line and its cause.
fn tells<R: Threads + Wait + Sync>(
    rt: &R,
    alloc: Global,
    texts: (&str, &str),
    code: u8,
    line: u64,
    cause: Cause,
    text: &[u8],
) -> Result<bool, AllocError> {
    let came = run_texts(rt, alloc, texts.0, texts.1)?;
    Ok(is_numbered(&came, code, line, Some(cause), text))
}

/// Whether a check of the report of one region, in which a part is written otherwise, ends with this code and number.
fn judges<R: Threads + Wait + Sync>(
    rt: &R,
    alloc: Global,
    change: (&str, &str),
    code: u8,
    line: u64,
    text: &[u8],
) -> Result<bool, AllocError> {
    let report = ONE_REGION_REPORT.replace(alloc, change.0, change.1)?;
    let came = check_report(rt, alloc, report.as_str(), &[])?;
    Ok(is_numbered(&came, code, line, None, text))
}

#[test]
fn a_phase_of_two_ticks_is_reported(rt: HostRuntime) -> Result<(), Fail> {
    let words = ["run", "w", "s", "1"];
    let is_written = writes(
        &rt,
        rt.alloc(),
        &words,
        (WORLD, ONE_REGION),
        ONE_REGION_REPORT,
    )?;
    assert!(rt; is_written);
    Ok(())
}

#[test]
fn a_report_is_written_as_json(rt: HostRuntime) -> Result<(), Fail> {
    let words = ["run", "w", "s", "1", "json"];
    let is_written = writes(&rt, rt.alloc(), &words, (WORLD, ""), EMPTY_JSON)?;
    assert!(rt; is_written);
    Ok(())
}

#[test]
fn a_report_of_a_legal_history_is_legal(rt: HostRuntime) -> Result<(), Fail> {
    let came = check_report(&rt, rt.alloc(), ONE_REGION_REPORT, &[])?;
    assert!(rt; is_plain(&came, 0, b"") && came.out.bytes() == b"legal\n".as_slice());
    Ok(())
}

#[test]
fn a_report_that_is_not_read_is_told(rt: HostRuntime) -> Result<(), Fail> {
    let came = check_report(&rt, rt.alloc(), ONE_REGION_REPORT, &[3])?;
    assert!(rt; is_plain(&came, 5, b"fol: read fault\n"));
    Ok(())
}

#[test]
fn a_report_of_no_legal_history_is_told(rt: HostRuntime) -> Result<(), Fail> {
    let change = ("tick 2 ran", "tick 3 ran");
    let is_late = judges(&rt, rt.alloc(), change, 11, 6, b"fol: event 6\n")?;
    assert!(rt; is_late);
    let change = ("chunks 1", "chunks 2");
    let is_large = judges(&rt, rt.alloc(), change, 12, 12, b"fol: state line 12\n")?;
    assert!(rt; is_large);
    let change = ("report 1", "report 2");
    let is_second = judges(&rt, rt.alloc(), change, 10, 1, b"fol: text line 1\n")?;
    assert!(rt; is_second);
    Ok(())
}

#[test]
fn an_empty_report_is_told(rt: HostRuntime) -> Result<(), Fail> {
    let came = check_report(&rt, rt.alloc(), "", &[])?;
    assert!(rt; is_numbered(&came, 10, 1, None, b"fol: text line 1\n"));
    Ok(())
}

#[test]
fn a_made_session_is_summed_up_without_the_shelf(rt: HostRuntime) -> Result<(), Fail> {
    let texts = (WORLD.as_bytes(), ONE_REGION.as_bytes());
    let came = run_words(&rt, rt.alloc(), &["make", "1"], texts, (&[1, 2], &[]))?;
    assert!(rt; is_plain(&came, 0, b""));
    assert_eq!(rt; came.out.bytes(), SUMMARY_OF_ONE.as_bytes());
    Ok(())
}

#[test]
fn devices_that_fail_are_told(rt: HostRuntime) -> Result<(), Fail> {
    let words = ["run", "w", "s", "1"];
    let is_unread = ends_with(
        &rt,
        rt.alloc(),
        &words,
        (&[1], &[]),
        5,
        b"fol: read fault\n",
    )?;
    assert!(rt; is_unread);
    let is_half_read = ends_with(
        &rt,
        rt.alloc(),
        &words,
        (&[2], &[]),
        5,
        b"fol: read fault\n",
    )?;
    assert!(rt; is_half_read);
    let is_unwritten = ends_with(
        &rt,
        rt.alloc(),
        &words,
        (&[], &[1]),
        6,
        b"fol: write fault\n",
    )?;
    assert!(rt; is_unwritten);
    let words = ["run", "w", "x", "1"];
    let is_not_held = ends_with(&rt, rt.alloc(), &words, (&[], &[]), 5, b"fol: read fault\n")?;
    assert!(rt; is_not_held);
    Ok(())
}

#[test]
fn a_second_piece_that_finds_no_room_leaves_the_first(rt: HostRuntime) -> Result<(), Fail> {
    let came = run_texts(&rt, rt.alloc(), WORLD, "load 0 0\nrun 100\nend\n")?;
    assert_eq!(rt; came.status.code, 6);
    assert_eq!(rt; came.err.bytes(), b"fol: write fault\n".as_slice());
    assert_eq!(rt; came.out.bytes().len(), 4096);
    let begin = b"report 1\nevents 204\nload 0 0 0 counted\n".as_slice();
    assert!(rt; came.out.bytes().starts_with(begin));
    Ok(())
}

#[test]
fn a_long_report_of_four_workers_is_made(rt: HostRuntime) -> Result<(), Fail> {
    let texts = (WORLD.as_bytes(), b"load 0 0\nrun 5000\nend\n".as_slice());
    let came = run_words(&rt, rt.alloc(), &["run", "w", "s", "4"], texts, (&[], &[]))?;
    assert_eq!(rt; came.status.code, 6, "the sink has room for one piece");
    assert_eq!(rt; came.out.bytes().len(), 4096);
    let begin = b"report 1\nevents 10004\nload 0 0 0 counted\n".as_slice();
    assert!(rt; came.out.bytes().starts_with(begin));
    Ok(())
}

#[test]
fn a_fault_in_telling_changes_no_status(rt: HostRuntime) -> Result<(), Fail> {
    let alloc = rt.alloc();
    let mut shelf = MemShelf::of(Vec::new(alloc), Vec::new(alloc));
    let mut out = sink_of(alloc, &[])?;
    let mut err = sink_of(alloc, &[1])?;
    let status = run(
        &rt,
        alloc,
        &["walk"],
        &mut shelf,
        &mut out,
        &mut err,
        &QuietGate,
    );
    assert!(rt; status.code == 2 && err.bytes().is_empty());
    Ok(())
}

#[test]
fn words_that_are_no_command_read_nothing(rt: HostRuntime) -> Result<(), Fail> {
    let rows: [&[&str]; 21] = [
        &[],
        &["run", "w", "s", "0"],
        &["run", "w", "s", "65"],
        &["run", "w", "s", "08"],
        &["run", "w", "s", "-1"],
        &["run", "w", "s"],
        &["run", "w", "", "1"],
        &["run", "-w", "s", "1"],
        &["walk", "w", "s", "1"],
        &["run", "w", "s", "1", "xml"],
        &["run", "w", "s", "1", "json", "x"],
        &["check", "w", "s"],
        &["check", "w", "", "r"],
        &["check", "w", "s", "-r"],
        &["check", "w", "s", "r", "1"],
        &["make"],
        &["make", "0"],
        &["make", "01"],
        &["make", "501"],
        &["make", "-1"],
        &["make", "1", "1"],
    ];
    for words in rows {
        let is_told = ends_with(&rt, rt.alloc(), words, (&[1, 2], &[]), 2, b"fol: words\n")?;
        assert!(rt; is_told);
    }
    Ok(())
}

#[test]
fn a_bad_line_is_told_with_its_cause(rt: HostRuntime) -> Result<(), Fail> {
    let missing = b"fol: world line 1 missing\n";
    let is_missing = tells(&rt, rt.alloc(), ("", ""), 3, 1, Cause::Missing, missing)?;
    assert!(rt; is_missing);
    let world = "world 1\ngrid 0 1 1 2 1 6\nblock 0 0 0 1\nblock 0 0 0 1\n";
    let twice = b"fol: world line 4 twice\n";
    let is_twice = tells(&rt, rt.alloc(), (world, ""), 3, 4, Cause::Twice, twice)?;
    assert!(rt; is_twice);
    let open = b"fol: script line 2 missing\n";
    let is_open = tells(
        &rt,
        rt.alloc(),
        (WORLD, "run 1"),
        4,
        2,
        Cause::Missing,
        open,
    )?;
    assert!(rt; is_open);
    Ok(())
}

#[test]
fn a_file_over_the_limit_is_too_long(rt: HostRuntime) -> Result<(), Fail> {
    let long = vec![in rt.alloc(); b'#'; 16_777_217]?;
    let texts = (WORLD.as_bytes(), long.as_slice());
    let came = run_words(&rt, rt.alloc(), &["run", "w", "s", "1"], texts, (&[], &[]))?;
    assert!(rt; is_plain(&came, 8, b"fol: too long\n"));
    Ok(())
}

/// How often a tick that waits for others looks whether they have come.
const LOOKS: u32 = 1_000_000;

/// A gate that holds each tick until so many ticks have come, for a while.
#[derive(Drop)]
struct Meeting {
    expected: u64,
    come: AtomicU64,
    met: AtomicU64,
}

impl Gate for Meeting {
    fn passed(&self, _worker: u32, _region: u64) {
        self.come.fetch_add(1, Ordering::SeqCst);
        for _ in 0..LOOKS {
            if self.come.load(Ordering::SeqCst) >= self.expected {
                self.met.fetch_add(1, Ordering::SeqCst);
                return;
            }
            yield_now();
        }
    }
}

/// How many ticks of a script met at one moment, of so many that each wait for all others.
fn ticks_that_meet<R: Threads + Wait + Sync>(
    rt: &R,
    alloc: Global,
    words: &[&str],
    script: &str,
    expected: u64,
) -> Result<(Status, u64), AllocError> {
    let files = vec![in alloc;
        named(alloc, "w", WORLD.as_bytes())?,
        named(alloc, "s", script.as_bytes())?,
    ]?;
    let mut shelf = MemShelf::of(files, Vec::new(alloc));
    let mut out = sink_of(alloc, &[])?;
    let mut err = sink_of(alloc, &[])?;
    let gate = Meeting {
        expected,
        come: AtomicU64::new(0),
        met: AtomicU64::new(0),
    };
    let status = run(rt, alloc, words, &mut shelf, &mut out, &mut err, &gate);
    Ok((status, gate.met.load(Ordering::SeqCst)))
}

#[test]
fn ticks_of_four_workers_are_open_at_once(rt: HostRuntime) -> Result<(), Fail> {
    let script = "load 0 0\nload 4 0\nload 8 0\nload 12 0\nrun 1\nend\n";
    let (status, met) = ticks_that_meet(&rt, rt.alloc(), &["run", "w", "s", "4"], script, 4)?;
    assert_eq!(rt; status.code, 0);
    assert_eq!(rt; met, 4);
    Ok(())
}

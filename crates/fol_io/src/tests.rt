//! What no contract says: that the devices of the system work, that calls succeed, and in which pieces an
//! output is put. And that two reads in a row compose, by the contract of a shelf alone.

ghost use Rattle.std.specs.Prelude.{◌≡◌, ◌≤◌, List, ℕ};
ghost use Rattle.fol_io.specs.Counts.{Rose};
ghost use Rattle.fol_io.specs.Read.{IfWhole, OnFailed, OnTooLong};
ghost use Rattle.fol_io.specs.Shelf.{IsHeld, IsTooLong};

use crate::file_shelf::read_to_limit;
use crate::{
    Bytes, FileShelf, Gate, MemShelf, MemSink, NamedBytes, Put, QuietGate, Read, Shelf, Sink,
    StdSink, Text, put_in_pieces,
};
use std::alloc::{AllocError, Global};
use std::path::PathBuf;
use std::process::{self, Abort};
use std::test::Fail;
use std::{env, fs, io};

/// Reads one name and then another, as a program does that has only a `Shelf`.
fn read_both<F: Shelf>(
    shelf: &mut F,
    alloc: Global,
    first: &str,
    second: &str,
    limit: u64,
) -> (Read, Read)
    ensures first { IfWhole result.0 (λ bytes. IsHeld (F.held shelf.old first.now) bytes) }
    ensures second { IfWhole result.1 (λ bytes. IsHeld (F.held shelf.old second.now) bytes) }

    ensures first_failed { OnFailed result.0
        (Rose (F.faults shelf.old first.now) (F.faults shelf.new first.now)) }
    ensures second_failed { OnFailed result.1
        (Rose (F.faults shelf.old second.now) (F.faults shelf.new second.now)) }

    ensures first_too_long { OnTooLong result.0
        (IsTooLong (F.held shelf.old first.now) limit (F.taken shelf.old) (F.taken shelf.new)) }
    ensures second_too_long { OnTooLong result.1
        (IsTooLong (F.held shelf.old second.now) limit (F.taken shelf.old) (F.taken shelf.new)) }

    ensures holds_the_same { (n : List ℕ) → F.held shelf.new n ≡ F.held shelf.old n }
    ensures faults_never_fall { (n : List ℕ) → F.faults shelf.old n ≤ F.faults shelf.new n }
    ensures taken_never_falls { F.taken shelf.old ≤ F.taken shelf.new }
{
    let earlier = shelf.read_whole(alloc, first, limit);
    let later = shelf.read_whole(alloc, second, limit);
    (earlier, later)
}

/// A reader that gives one piece and then fails.
#[derive(Drop)]
struct Broken {
    piece: Option<[u8; 3]>,
}

impl io::Read for Broken {
    fn read(&mut self, buf: &mut [u8]) -> io::Result<usize> {
        match self.piece.take() {
            Some(piece) if buf.len() >= 3 => {
                buf[..3].copy_from_slice(&piece);
                Ok(3)
            }
            _ => Err(io::Error::from(io::ErrorKind::TimedOut)),
        }
    }
}

fn named(alloc: Global, name: &str, bytes: &[u8]) -> Result<NamedBytes, AllocError> {
    Ok(NamedBytes {
        name: Text::of(String::from_str(alloc, name)?),
        bytes: Bytes::of(Vec::from_slice(alloc, bytes)?),
        faults: 0,
    })
}

/// A shelf that holds `world` and `script`, whose reads of these numbers fail.
fn small_shelf(alloc: Global, failing: &[u64]) -> Result<MemShelf, AllocError> {
    let files = vec![in alloc;
        named(alloc, "world", b"world 1\n")?,
        named(alloc, "script", b"")?,
    ]?;
    Ok(MemShelf::of(files, Vec::from_slice(alloc, failing)?))
}

fn is_whole(read: &Read, bytes: &[u8]) -> bool {
    match read {
        Read::Whole(whole) => whole.as_slice() == bytes,
        _ => false,
    }
}

/// An empty sink of this room, whose puts of these numbers fail.
fn sink_of(alloc: Global, room: usize, failing: &[u64]) -> Result<MemSink, AllocError> {
    Ok(MemSink::of(
        Vec::with_capacity(alloc, room)?,
        Vec::from_slice(alloc, failing)?,
    ))
}

/// Reads a file of these bytes, and says whether both of two reads in a row gave them and a lower limit none.
fn reads_file<F: Shelf>(shelf: &mut F, alloc: Global, path: &str, content: &[u8]) -> [bool; 3] {
    let (whole, again) = read_both(shelf, alloc, path, path, 5000);
    let less = shelf.read_whole(alloc, path, 4999);
    [
        is_whole(&whole, content),
        is_whole(&again, content),
        matches!(less, Read::TooLong),
    ]
}

/// Reads where no file is, where a folder is, and where nothing is in a file.
fn expect_no_files<F: Shelf>(rt: &impl Abort, shelf: &mut F, alloc: Global, path: &str) {
    let none = shelf.read_whole(alloc, path, 5000).is_failed();
    assert!(rt; none, "no such file");
    let folder = shelf.read_whole(alloc, "/", 5000).is_failed();
    assert!(rt; folder, "a directory");
    let empty = is_whole(&shelf.read_whole(alloc, "/dev/null", 0), b"");
    assert!(rt; empty);
}

/// A path that no other process uses.
fn own_path(rt: &HostRuntime) -> Result<PathBuf, Fail> {
    let name = format!(in rt.alloc(); "fol-io-test-{}", process::id(rt.process()))?;
    Ok(env::temp_dir(rt)?.join(rt.alloc(), name.as_str())?)
}

#[test]
fn file_shelf_reads_a_file_up_to_the_limit(rt: HostRuntime) -> Result<(), Fail> {
    let path = own_path(&rt)?;
    let path = path.as_path().to_str().ok_or("a path that is no text")?;
    let content = [b'x'; 5000];
    fs::write(&rt, path, &content)?;
    let mut shelf = FileShelf::new(&rt);
    let told = reads_file(&mut shelf, rt.alloc(), path, &content);
    fs::remove_file(&rt, path)?;
    assert_eq!(rt; told, [true, true, true]);
    expect_no_files(&rt, &mut shelf, rt.alloc(), path);
    Ok(())
}

#[test]
fn a_source_that_breaks_in_mid_stream_is_a_fault(rt: HostRuntime) {
    let mut source = Broken {
        piece: Some(*b"abc"),
    };
    let taken = read_to_limit(rt.alloc(), &mut source, 100);
    assert_eq!(rt; (taken.read.is_failed(), taken.count), (true, 3));
}

#[test]
fn std_sinks_write_to_the_streams(rt: HostRuntime) {
    let mut out = StdSink::out(&rt);
    let mut err = StdSink::err(&rt);
    let puts = [
        put_in_pieces(&mut out, b"to the output\n"),
        err.put(b"to the error\n"),
        err.put(b""),
    ];
    assert_eq!(rt; puts, [Put::Ok; 3]);
}

/// Compares a read with the bytes that it must give.
fn expect_whole(rt: &impl Abort, read: &Read, bytes: &[u8], note: &str) {
    assert!(rt; is_whole(read, bytes), "{note}");
}

/// A read that must meet a fault.
fn expect_failed(rt: &impl Abort, read: &Read, note: &str) {
    assert!(rt; read.is_failed(), "{note}");
}

/// A read of more bytes than its limit.
fn expect_too_long(rt: &impl Abort, read: &Read) {
    assert!(rt; matches!(read, Read::TooLong));
}

/// Compares the reads of a small shelf whose second and fifth read fail.
fn expect_reads(rt: &impl Abort, alloc: Global, shelf: &mut MemShelf) {
    let (world, by_number) = read_both(shelf, alloc, "world", "script", 8);
    expect_whole(rt, &world, b"world 1\n", "as many bytes as the limit");
    expect_failed(rt, &by_number, "the second read fails");
    let (too_long, not_held) = read_both(shelf, alloc, "world", "nowhere", 7);
    expect_too_long(rt, &too_long);
    expect_failed(rt, &not_held, "it holds no such name");
    let (by_both, script) = read_both(shelf, alloc, "no place", "script", 0);
    expect_failed(rt, &by_both, "the fifth read fails");
    expect_whole(rt, &script, b"", "no byte, as the limit");
}

/// Compares the counts of a shelf after these reads. All names that are not held share one count.
fn expect_faults(rt: &impl Abort, shelf: &MemShelf) {
    let faults = [
        shelf.faults("world"),
        shelf.faults("script"),
        shelf.faults("nowhere"),
    ];
    assert_eq!(rt; faults, [0, 1, 2]);
}

#[test]
fn mem_shelf_gives_what_it_holds(rt: HostRuntime) -> Result<(), Fail> {
    let mut shelf = small_shelf(rt.alloc(), &[2, 5])?;
    expect_reads(&rt, rt.alloc(), &mut shelf);
    expect_faults(&rt, &shelf);
    Ok(())
}

/// Puts into an empty sink with a room of five bytes, whose second put fails.
fn put_all(sink: &mut MemSink) -> [Put; 5] {
    let fits = sink.put(b"ab");
    let has_no_number = sink.put(b"");
    let second = sink.put(b"c");
    let too_long = sink.put(b"cdef");
    let fits_still = sink.put(b"cde");
    [fits, has_no_number, second, too_long, fits_still]
}

#[test]
fn mem_sink_fails_by_number_and_by_room(rt: HostRuntime) -> Result<(), Fail> {
    let mut sink = sink_of(rt.alloc(), 5, &[2])?;
    let puts = put_all(&mut sink);
    let wanted = [Put::Ok, Put::Ok, Put::Failed, Put::Failed, Put::Ok];
    assert_eq!(rt; puts, wanted);
    assert_eq!(rt; (sink.bytes(), sink.faults()), (b"abcde".as_slice(), 2));
    Ok(())
}

/// Puts an output into an empty sink of this room whose put of this number fails, and tells how many bytes it has then.
fn put_into(
    alloc: Global,
    output: &[u8],
    room: usize,
    failing: u64,
) -> Result<(Put, usize), AllocError> {
    let mut sink = sink_of(alloc, room, &[failing])?;
    let put = put_in_pieces(&mut sink, output);
    Ok((put, sink.bytes().len()))
}

#[test]
fn an_output_is_put_in_pieces_of_4096_bytes(rt: HostRuntime) {
    let output = [b'o'; 10000];
    for (failing, want, received) in [
        (1, Put::Failed, 0),
        (2, Put::Failed, 4096),
        (3, Put::Failed, 8192),
        (4, Put::Ok, 10000),
    ] {
        let put = put_into(rt.alloc(), &output, 10000, failing);
        assert_eq!(rt; put, Ok((want, received)), "put {failing}");
    }
    let put = put_into(rt.alloc(), b"", 0, 1);
    assert_eq!(rt; put, Ok((Put::Ok, 0)), "no put is made");
}

fn pass<G: Gate + Sync>(gate: &G) {
    gate.passed(1, 1);
}

#[test]
fn lists_and_gates_are_as_they_were_made(rt: HostRuntime) -> Result<(), Fail> {
    let NamedBytes { name, bytes, .. } = named(rt.alloc(), "world", b"abc")?;
    let bytes = bytes.into_vec();
    assert_eq!(rt;
        (name.as_str(), bytes.as_slice()),
        ("world", b"abc".as_slice())
    );
    pass(&QuietGate);
    Ok(())
}

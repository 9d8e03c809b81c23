//! The files of the system.

ghost use Rattle.std.specs.Prelude.{◌≡◌, ◌≤◌, ◌<◌, ◌+◌, ℕ, List, None, IfSome, length, if◌then◌else◌};
ghost use Rattle.fol_io.specs.Counts.{raised, Rose, RoseBy};
ghost use Rattle.fol_io.specs.Shelf.{IsHeld, IsTooLong};
ghost use Rattle.fol_io.specs.Read.{IfWhole, OnFailed, OnTooLong, is_failed};

use crate::bytes::Bytes;
use crate::shelf::{Read, Shelf};
use std::alloc::Global;
use std::fs;
use std::io::Read as Source;
use std::marker::Model;
use std::rt::Files;

/// How many bytes are read at a time.
const PIECE_SIZE: usize = 4096;

/// The files of the system as a shelf, where a name is a path. It tells nothing of what they hold.
///
/// It has one count of faults for all names, raised at each error of the system.
#[derive(Drop)]
pub struct FileShelf<'a, R: Files> {
    rt: &'a R,
    faults: u64,
    taken: u64,
    reads: u64,
}

impl<'a, R: Files> Model for FileShelf<'a, R> {
    ghost use Rattle.fol_io.specs.FileShelf.{FileShelfState};

    ghost Value = { FileShelfState };

    ghost view = { λ s. record { faults = s.faults; taken = s.taken; reads = s.reads } };
}

impl<'a, R: Files> FileShelf<'a, R> {
    /// The files of this runtime, none of them read so far.
    pub fn new(rt: &'a R) -> FileShelf<'a, R>
        ensures { result ≡ record { faults = 0; taken = 0; reads = 0 } }
    {
        FileShelf {
            rt,
            faults: 0,
            taken: 0,
            reads: 0,
        }
    }
}

/// What reading a source to its end gave, and how many bytes were taken from it.
#[derive(Drop)]
pub(crate) struct Taken {
    pub(crate) read: Read,
    pub(crate) count: u64,
}

impl Taken {
    fn of(read: Read, count: u64) -> Taken
        ensures { result ≡ record { read = read; count = count } }
    {
        Taken { read, count }
    }
}

/// Reads the source to its end, where that comes within the limit.
pub(crate) fn read_to_limit<S: Source>(alloc: Global, source: &mut S, limit: u64) -> Taken
    ensures within { IfWhole result.read (λ bytes. length bytes ≤ limit) }
    ensures whole { IfWhole result.read (λ bytes. result.count ≡ length bytes) }
    ensures too_long { OnTooLong result.read (limit < result.count) }

    // Where the source tells what it has left, these are its bytes, all of them.
    ensures bytes { IfWhole result.read (λ bytes.
        IfSome (S.remaining source.old) (λ left. bytes ≡ left)) }
{
    let mut bytes = Vec::new(alloc);
    let mut piece = [0u8; PIECE_SIZE];
    // Each turn but the last takes a byte at least.
    for turn in 0..limit.saturating_add(2) {
        let had = bytes.len() as u64;
        let count = match source.read(&mut piece) {
            Ok(0) => return Taken::of(Read::Whole(Bytes::of(bytes)), had),
            Ok(count) => count,
            Err(_) => return Taken::of(Read::Failed, had),
        };
        let has = had + count as u64;
        if limit < has {
            return Taken::of(Read::TooLong, has);
        }
        if bytes.extend_from_slice(&piece[..count]).is_err() {
            return Taken::of(Read::NoMemory, has);
        }
    }
    unreachable!()
}

impl<'a, R: Files> Shelf for FileShelf<'a, R> {
    ghost use Rattle.std.specs.Prelude.{None};

    ghost held = { λ s name. None };

    ghost faults = { λ s name. s.faults };

    ghost taken = { λ s. s.taken };

    ghost reads = { λ s. s.reads };

    fn read_whole(&mut self, alloc: Global, name: &str, limit: u64) -> Read
        ensures whole { IfWhole result (λ bytes. IsHeld None bytes) }
        ensures within { IfWhole result (λ bytes. length bytes ≤ limit) }
        ensures too_long { OnTooLong result (IsTooLong None limit self.old.taken self.new.taken) }
        ensures failed { OnFailed result (Rose self.old.faults self.new.faults) }
        ensures faults_never_fall { (n : List ℕ) → self.old.faults ≤ self.new.faults }
        ensures taken_never_falls { self.old.taken ≤ self.new.taken }

        // A fault is counted at each answer `Failed`, and at no other.
        ensures counts { self.new.faults
            ≡ (if is_failed result then raised 1 self.old.faults else self.old.faults) }
        ensures took_the_whole { IfWhole result (λ bytes. self.new.taken
            ≡ raised (length bytes) self.old.taken) }
        ensures numbers { self.new.reads ≡ raised 1 self.old.reads }
    {
        let Taken { read, count } = match fs::open(self.rt, name) {
            Ok(mut file) => read_to_limit(alloc, &mut file, limit),
            Err(_) => Taken::of(Read::Failed, 0),
        };
        self.reads = self.reads.saturating_add(1);
        self.taken = self.taken.saturating_add(count);
        if read.is_failed() {
            self.faults = self.faults.saturating_add(1);
        }
        read
    }
}

//! A shelf in memory.

ghost use Rattle.std.specs.Prelude.{◌≡◌, ◌≤◌, ◌<◌, ◌+◌, ◌-◌, ◌^◌, ◌↔◌, ◌&&◌, ℕ, List, Option, None, Some, IsTrue, IsSome, IfSome, false, length, is_some, if◌then◌else◌, position};
ghost use Rattle.std.specs.Option.{option_copied, option_map};
ghost use Rattle.std.specs.Str.{bytes_eq};
ghost use Rattle.fol_io.specs.Counts.{raised, Rose};
ghost use Rattle.fol_io.specs.Read.{IfWhole, OnFailed, OnTooLong, is_failed, byte_count};
ghost use Rattle.fol_io.specs.Shelf.{IsHeld, IsTooLong};
ghost use Rattle.fol_io.specs.NamedBytes.{file_under, with_fault};
ghost use Rattle.fol_io.specs.MemShelf.{held_under, faults_under, shares_count, FailsAt};

use crate::bytes::Bytes;
use crate::shelf::{Read, Shelf};
use crate::text::Text;
use std::alloc::Global;
use std::marker::Model;

/// A file of a shelf in memory: its name, its bytes, and how many faults its name met.
#[derive(Drop)]
pub struct NamedBytes {
    /// The name.
    pub name: Text,
    /// What the file holds.
    pub bytes: Bytes,
    /// How many reads of the name failed, at most 2^64 - 1.
    pub faults: u64,
}

impl NamedBytes {
    fn count_fault(&mut self)
        ensures counts { self.new ≡ with_fault self.old }
        ensures in_range { self.old.faults < 2 ^ 64 }
    {
        self.faults = self.faults.saturating_add(1);
    }
}

/// Holds files in memory, and fails at the reads whose numbers it was given.
///
/// Reads are numbered from 1. A name that it does not hold is a fault; all such names share one count,
/// which starts at 0. Of two files of one name it holds the first.
#[derive(Drop)]
pub struct MemShelf {
    files: Vec<NamedBytes>,
    failing: Vec<u64>,
    reads: u64,
    unheld_faults: u64,
    taken: u64,
}

impl Model for MemShelf {
    ghost use Rattle.fol_io.specs.MemShelf.{MemShelfState};

    ghost Value = { MemShelfState };

    ghost view = { λ s. record { files = s.files.items; failing = s.failing.items; reads = s.reads; unheld_faults = s.unheld_faults; taken = s.taken } };
}

/// The file under a name.
fn find_file<'a>(files: &'a [NamedBytes], name: &str) -> Option<&'a NamedBytes>
    ensures { option_copied result ≡ file_under files.now name.now }
{
    files.iter().find(|file| file.name.as_str() == name)
}

/// The place of the file under a name.
fn place_of(files: &[NamedBytes], name: &str) -> Option<usize>
    ensures { result ≡ position (λ file. bytes_eq file.name name.now) files.now }
{
    files.iter().position(|file| file.name.as_str() == name)
}

/// Counts a fault for the file under a name, and returns whether there is one.
fn count_fault(files: &mut [NamedBytes], name: &str) -> bool
    ensures held { result ≡ is_some (file_under files.old name.now) }
    ensures named { file_under files.new name.now
        ≡ option_map with_fault (file_under files.old name.now) }
    ensures others { (n : List ℕ) → bytes_eq name.now n ≡ false
        → file_under files.new n ≡ file_under files.old n }
    ensures in_range { IfSome (file_under files.old name.now) (λ file. file.faults < 2 ^ 64) }
{
    match place_of(files, name) {
        Some(place) => {
            files[place].count_fault();
            true
        }
        None => false,
    }
}

/// A copy of the bytes, where there are `limit` at most.
fn copy_within(alloc: Global, bytes: &[u8], limit: u64) -> Read
    ensures whole { IfWhole result (λ copy. copy ≡ bytes.now) }
    ensures within { IfWhole result (λ copy. length copy ≤ limit) }
    ensures too_long { OnTooLong result (limit < length bytes.now) }
    ensures no_fault { is_failed result ≡ false }
{
    if limit < bytes.len() as u64 {
        return Read::TooLong;
    }
    match Vec::from_slice(alloc, bytes) {
        Ok(copy) => Read::Whole(Bytes::of(copy)),
        Err(_) => Read::NoMemory,
    }
}

impl MemShelf {
    /// A shelf of these files that has not been read. The numbers in `failing` are those of the reads that
    /// fail. Takes no memory.
    pub fn of(files: Vec<NamedBytes>, failing: Vec<u64>) -> MemShelf
        ensures { result ≡ record {
          files = files.items;
          failing = failing.items;
          reads = 0;
          unheld_faults = 0;
          taken = 0;
        } }
    {
        MemShelf {
            files,
            failing,
            reads: 0,
            unheld_faults: 0,
            taken: 0,
        }
    }

    /// How many faults the name met; the count stays at 2^64 - 1.
    pub fn faults(&self, name: &str) -> u64
        ensures { result ≡ faults_under self.now name.now }
    {
        match find_file(self.files.as_slice(), name) {
            Some(file) => file.faults,
            None => self.unheld_faults,
        }
    }

    /// What the next read returns.
    fn answer(&self, alloc: Global, name: &str, limit: u64) -> Read
        ensures whole { IfWhole result (λ bytes. held_under self.now name.now ≡ Some bytes) }
        ensures within { IfWhole result (λ bytes. length bytes ≤ limit) }
        ensures too_long { OnTooLong result
            (IfSome (held_under self.now name.now) (λ held. limit < length held)) }
        ensures held { OnTooLong result (IsSome (held_under self.now name.now)) }
        ensures fails { IsTrue (is_failed result) ↔ FailsAt self.now name.now }
    {
        if self.failing.contains(&self.reads.saturating_add(1)) {
            return Read::Failed;
        }
        match find_file(self.files.as_slice(), name) {
            Some(file) => copy_within(alloc, file.bytes.as_slice(), limit),
            None => Read::Failed,
        }
    }

    /// Counts a fault for a name.
    fn fail(&mut self, name: &str)
        ensures counts { (n : List ℕ) → faults_under self.new n
            ≡ (if shares_count self.old name.now n then raised 1 (faults_under self.old n)
            else faults_under self.old n) }
        ensures faults_never_fall { (n : List ℕ)
            → faults_under self.old n ≤ faults_under self.new n }
        ensures holds_the_same { (n : List ℕ) → held_under self.new n ≡ held_under self.old n }
        ensures same_failing { self.new.failing ≡ self.old.failing }
        ensures same_reads { self.new.reads ≡ self.old.reads }
        ensures same_taken { self.new.taken ≡ self.old.taken }
    {
        if !count_fault(self.files.as_mut_slice(), name) {
            self.unheld_faults = self.unheld_faults.saturating_add(1);
        }
    }
}

impl Shelf for MemShelf {
    ghost use Rattle.fol_io.specs.MemShelf.{held_under, faults_under};

    ghost held = { held_under };

    ghost faults = { faults_under };

    ghost taken = { λ s. s.taken };

    ghost reads = { λ s. s.reads };

    fn read_whole(&mut self, alloc: Global, name: &str, limit: u64) -> Read
        ensures whole { IfWhole result (λ bytes. held_under self.old name.now ≡ Some bytes) }
        ensures within { IfWhole result (λ bytes. length bytes ≤ limit) }
        ensures too_long { OnTooLong result
            (IsTooLong (held_under self.old name.now) limit self.old.taken self.new.taken) }

        // It fails exactly at its numbers and at a name that it does not hold.
        ensures fails { IsTrue (is_failed result) ↔ FailsAt self.old name.now }

        // The names that share the count of the name that was asked have one fault more then, and no others.
        ensures counts { (n : List ℕ) → faults_under self.new n
            ≡ (if is_failed result && shares_count self.old name.now n
            then raised 1 (faults_under self.old n) else faults_under self.old n) }
        ensures failed { OnFailed result
            (Rose (faults_under self.old name.now) (faults_under self.new name.now)) }
        ensures faults_never_fall { (n : List ℕ)
            → faults_under self.old n ≤ faults_under self.new n }

        ensures holds_the_same { (n : List ℕ) → held_under self.new n ≡ held_under self.old n }
        ensures taken { self.new.taken ≡ raised (byte_count result) self.old.taken }
        ensures taken_never_falls { self.old.taken ≤ self.new.taken }
        ensures numbers { self.new.reads ≡ raised 1 self.old.reads }
        ensures same_failing { self.new.failing ≡ self.old.failing }
    {
        let read = self.answer(alloc, name, limit);
        self.reads = self.reads.saturating_add(1);
        self.taken = self.taken.saturating_add(read.byte_count());
        if read.is_failed() {
            self.fail(name);
        }
        read
    }
}

//! A sink in memory.

ghost use Rattle.std.specs.Prelude.{◌≡◌, ◌≢◌, ◌≤◌, ◌<◌, ◌+◌, ◌↔◌, ℕ, List, [], Some, IsTrue, vec_len, vec_capacity, length, Contains};
ghost use Rattle.fol_io.specs.Counts.{raised};
ghost use Rattle.fol_io.specs.Sink.{Takes, faults_after};
ghost use Rattle.fol_io.specs.MemSink.{FailsAt};

use crate::sink::{Put, Sink};
use std::marker::Model;

/// Receives bytes into a vector of a fixed room, and fails at the puts whose numbers it was given.
///
/// Puts of a piece that is not empty are numbered from 1. A piece that does not fit into what is left of
/// the room fails too. A put that fails takes nothing.
#[derive(Drop)]
pub struct MemSink {
    bytes: Vec<u8>,
    room: usize,
    failing: Vec<u64>,
    puts: u64,
    faults: u64,
}

impl Model for MemSink {
    ghost use Rattle.std.specs.Prelude.{◌≤◌, vec_len, vec_capacity};
    ghost use Rattle.fol_io.specs.MemSink.{MemSinkState};

    ghost Value = { MemSinkState };

    ghost view = { λ s. record { bytes = s.bytes.items; room = s.room; failing = s.failing.items; puts = s.puts; faults = s.faults } };

    ghost invariant = { λ s. (vec_len s.bytes ≤ s.room) × (s.room ≤ vec_capacity s.bytes) };
}

impl MemSink {
    /// A sink that has received nothing. Its room is the capacity of the empty vector, and the numbers in
    /// `failing` are those of the puts that fail. Takes no memory.
    pub fn of(room: Vec<u8>, failing: Vec<u64>) -> MemSink
        requires { room.items ≡ [] }
        ensures { result ≡ record {
          bytes = [];
          room = vec_capacity room;
          failing = failing.items;
          puts = 0;
          faults = 0;
        } }
    {
        MemSink {
            room: room.capacity(),
            bytes: room,
            failing,
            puts: 0,
            faults: 0,
        }
    }

    /// All that it has received.
    pub fn bytes(&self) -> &[u8]
        ensures { result.now ≡ self.now.bytes }
    {
        self.bytes.as_slice()
    }

    /// How many puts failed; the count stays at 2^64 - 1.
    pub fn faults(&self) -> u64
        ensures { result ≡ self.now.faults }
    {
        self.faults
    }
}

impl Sink for MemSink {
    ghost use Rattle.std.specs.Prelude.{Some};

    ghost received = { λ s. Some s.bytes };

    ghost faults = { λ s. s.faults };

    ghost puts = { λ s. s.puts };

    fn put(&mut self, bytes: &[u8]) -> Put
        ensures takes { Takes (Some self.old.bytes) (Some self.new.bytes) self.old.faults
            self.new.faults bytes.now result }
        ensures faults_never_fall { self.old.faults ≤ self.new.faults }
        ensures empty { bytes.now ≡ [] → result ≡ Put.Ok }

        // It fails exactly at its numbers and where the piece does not fit, and takes nothing then.
        ensures fails { (result ≡ Put.Failed) ↔ FailsAt self.old bytes.now }
        ensures failed_takes_nothing { result ≡ Put.Failed → self.new.bytes ≡ self.old.bytes }
        ensures counts { self.new.faults ≡ faults_after result self.old.faults }

        // Each put of a piece that is not empty has a number, and an empty piece changes nothing.
        ensures numbers { bytes.now ≢ [] → self.new.puts ≡ raised 1 self.old.puts }
        ensures empty_has_no_number { bytes.now ≡ [] → self.new.puts ≡ self.old.puts }
        ensures empty_changes_nothing { bytes.now ≡ [] → self.new ≡ self.old }
        ensures same_room { self.new.room ≡ self.old.room }
        ensures same_failing { self.new.failing ≡ self.old.failing }
    {
        if bytes.is_empty() {
            return Put::Ok;
        }
        self.puts = self.puts.saturating_add(1);
        let fits = bytes.len() <= self.room - self.bytes.len();
        if !fits || self.failing.contains(&self.puts) {
            self.faults = self.faults.saturating_add(1);
            return Put::Failed;
        }
        match self.bytes.extend_from_slice(bytes) {
            Ok(()) => Put::Ok,
            Err(_) => unreachable!(),
        }
    }
}

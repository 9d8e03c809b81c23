//! The standard output and the standard error.

ghost use Rattle.std.specs.Prelude.{◌≡◌, ◌≢◌, ◌≤◌, ℕ, IsTrue, [], None, take};
ghost use Rattle.fol_io.specs.Counts.{raised};
ghost use Rattle.std.specs.Io.KnownBytes.{Appends};
ghost use Rattle.fol_io.specs.Sink.{Takes, faults_after};

use crate::sink::{Put, Sink};
use std::io::Write;
use std::marker::Model;
use std::rt::HostRuntime;

/// Which of the two streams.
#[derive(Clone, Copy)]
enum Stream {
    Output,
    Error,
}

/// A standard stream as a sink. It tells nothing of what it received. Contracts see its two counts.
#[derive(Drop)]
pub struct StdSink<'a> {
    rt: &'a HostRuntime,
    stream: Stream,
    faults: u64,
    puts: u64,
}

impl<'a> Model for StdSink<'a> {
    ghost use Rattle.fol_io.specs.StdSink.{StdSinkState};

    ghost Value = { StdSinkState };

    ghost view = { λ s. record { faults = s.faults; puts = s.puts } };
}

impl<'a> StdSink<'a> {
    /// The standard output, with no fault and no piece so far.
    pub fn out(rt: &'a HostRuntime) -> StdSink<'a>
        ensures { result ≡ record { faults = 0; puts = 0 } }
    {
        StdSink {
            rt,
            stream: Stream::Output,
            faults: 0,
            puts: 0,
        }
    }

    /// The standard error, with no fault and no piece so far.
    pub fn err(rt: &'a HostRuntime) -> StdSink<'a>
        ensures { result ≡ record { faults = 0; puts = 0 } }
    {
        StdSink {
            rt,
            stream: Stream::Error,
            faults: 0,
            puts: 0,
        }
    }
}

/// Writes all the bytes to the stream, and returns whether each write took a byte at least.
fn write_whole<W: Write>(stream: &mut W, bytes: &[u8]) -> bool
    ensures whole { IsTrue result
        → Appends (W.contents stream.old) (W.contents stream.new) bytes.now }
    ensures prefix { (n : ℕ) × Appends (W.contents stream.old) (W.contents stream.new)
        (take n bytes.now) }
    ensures empty { bytes.now ≡ [] → IsTrue result }
{
    let mut done = 0;
    while done < bytes.len() {
        match stream.write(&bytes[done..]) {
            Ok(0) | Err(_) => return false,
            Ok(count) => done += count,
        }
    }
    true
}

impl<'a> Sink for StdSink<'a> {
    ghost use Rattle.std.specs.Prelude.{None};

    ghost received = { λ s. None };

    ghost faults = { λ s. s.faults };

    ghost puts = { λ s. s.puts };

    fn put(&mut self, bytes: &[u8]) -> Put
        ensures takes { Takes None None self.old.faults self.new.faults bytes.now result }

        // A fault is counted at each answer `Failed`, and at no other.
        ensures counts { self.new.faults ≡ faults_after result self.old.faults }
        ensures faults_never_fall { self.old.faults ≤ self.new.faults }
        ensures empty { bytes.now ≡ [] → result ≡ Put.Ok }
        ensures numbers { bytes.now ≢ [] → self.new.puts ≡ raised 1 self.old.puts }
        ensures empty_has_no_number { bytes.now ≡ [] → self.new.puts ≡ self.old.puts }
    {
        if !bytes.is_empty() {
            self.puts = self.puts.saturating_add(1);
        }
        let written = match self.stream {
            Stream::Output => write_whole(&mut self.rt.stdout(), bytes),
            Stream::Error => write_whole(&mut self.rt.stderr(), bytes),
        };
        if written {
            return Put::Ok;
        }
        self.faults = self.faults.saturating_add(1);
        Put::Failed
    }
}

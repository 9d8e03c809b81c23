//! The output of a run.

ghost use Rattle.std.specs.Prelude.{◌≡◌, IfOk, flat_map};
ghost use Rattle.fol_model.specs.Report.{report_text};
ghost use Rattle.fol_top.specs.Report.{text_in};
ghost use Rattle.fol_top.specs.Writing.{WriteEnds};

use crate::ending::Ending;
use crate::form::Form;
use fol_io::{Put, Sink, put_all_in_pieces, put_in_pieces, put_source};
use fol_model::Closing;
use fol_report::{Unwritten, foot, report_in_shares, report_json, summary, takes_shares};
use std::alloc::{AllocError, Global};
use std::thread::Threads;

/// How many threads make a report at most: more of them than a machine has processors gain nothing.
const MOST_THREADS: u32 = 8;

/// Writes a closing, whose report is made by at most so many threads. All that needs memory is made before the first byte is put: the output whole, but for
/// a report as text in which no threads share, whose lines of the history are made while they are put.
pub(crate) fn write_output<R: Threads + Sync, K: Sink>(
    rt: &R,
    alloc: Global,
    threads: u32,
    closing: &Closing,
    form: Form,
    out: &mut K,
) -> Ending
    ensures { WriteEnds (K.received out.old) (K.received out.new) (K.faults out.old)
        (K.faults out.new) (K.puts out.old) (K.puts out.new) (text_in form closing.now) result }
{
    let threads = threads.min(MOST_THREADS);
    match form {
        Form::Text if !takes_shares(threads, closing.history.len()) => {
            write_report(alloc, closing, out)
        }
        _ => write_shares(rt, alloc, threads, closing, form, out),
    }
}

/// Writes a report as text, whose foot is made first.
fn write_report<K: Sink>(alloc: Global, closing: &Closing, out: &mut K) -> Ending
    ensures { WriteEnds (K.received out.old) (K.received out.new) (K.faults out.old)
        (K.faults out.new) (K.puts out.old) (K.puts out.new) (report_text closing.now) result }
{
    let foot = match foot(alloc, closing) {
        Ok(foot) => foot,
        Err(_) => return Ending::NoMemory,
    };
    match put_source(out, Unwritten::of(closing, foot.as_slice())) {
        Put::Ok => Ending::Written,
        Put::Failed => Ending::WriteFault,
    }
}

/// Writes a closing in this form, in shares that are made whole first.
fn write_shares<R: Threads + Sync, K: Sink>(
    rt: &R,
    alloc: Global,
    threads: u32,
    closing: &Closing,
    form: Form,
    out: &mut K,
) -> Ending
    ensures { WriteEnds (K.received out.old) (K.received out.new) (K.faults out.old)
        (K.faults out.new) (K.puts out.old) (K.puts out.new) (text_in form closing.now) result }
{
    let shares = match shares_in(rt, alloc, threads, closing, form) {
        Ok(shares) => shares,
        Err(_) => return Ending::NoMemory,
    };
    match put_all_in_pieces(out, shares.as_slice()) {
        Put::Ok => Ending::Written,
        Put::Failed => Ending::WriteFault,
    }
}

/// Puts an output that is whole.
pub(crate) fn put_output<K: Sink>(bytes: &[u8], out: &mut K) -> Ending
    ensures { WriteEnds (K.received out.old) (K.received out.new) (K.faults out.old)
        (K.faults out.new) (K.puts out.old) (K.puts out.new) bytes.now result }
{
    match put_in_pieces(out, bytes) {
        Put::Ok => Ending::Written,
        Put::Failed => Ending::WriteFault,
    }
}

/// The closing in this form, in shares that follow one another.
fn shares_in<R: Threads + Sync>(
    rt: &R,
    alloc: Global,
    threads: u32,
    closing: &Closing,
    form: Form,
) -> Result<Vec<Vec<u8>>, AllocError>
    ensures { IfOk result (λ shares. flat_map (λ share. share.items) shares.items
        ≡ text_in form closing.now) }
{
    match form {
        Form::Text => report_in_shares(rt, alloc, threads, closing),
        Form::Json => Ok(vec![in alloc; report_json(alloc, closing)?]?),
        Form::Summary(clusters) => Ok(vec![in alloc; summary(alloc, clusters, closing)?]?),
    }
}

//! The report as text, made by several threads.

ghost use Rattle.std.specs.Prelude.{◌≡◌, ◌<◌, ◌++◌, All, flat_map, IfOk, IsOk, true};
ghost use Rattle.fol_model.specs.LineWords.{lines_of};
ghost use Rattle.fol_model.specs.Report.{report_text};
ghost use Rattle.fol_model.specs.ReportWords.{entry_words};
ghost use Rattle.fol_report.specs.Shares.{foot_text, head_text, text_of};

use crate::history::put_entries;
use crate::text::{foot, head, report};
use fol_model::{Closing, PackedEntry};
use std::alloc::{AllocError, Global};
use std::thread;
use std::thread::Threads;

/// How many entries a thread is started for at least: the lines of so many take much longer than its start.
const LEAST_SHARE: usize = 8192;

/// The report of a closing as text, in shares whose lines of the history so many threads make, while the thread that calls makes what
/// stands behind them. The shares one behind the other are the text.
///
/// The report of a short history, or for one thread, is one share that the thread that calls makes.
pub fn report_in_shares<R: Threads + Sync>(
    rt: &R,
    alloc: Global,
    threads: u32,
    closing: &Closing,
) -> Result<Vec<Vec<u8>>, AllocError>
    ensures { IfOk result (λ shares. flat_map (λ share. share.items) shares.items
        ≡ report_text closing.now) }
{
    let rows = closing.history.as_slice();
    if !takes_shares(threads, rows.len()) {
        return Ok(vec![in alloc; report(alloc, closing)?]?);
    }
    let head = head(alloc, closing)?;
    let (lines, foot) = thread::join(
        rt,
        move || line_shares(rt, alloc, threads, rows),
        || foot(alloc, closing),
    );
    let lines = lines?;
    let foot = foot?;
    let shares = gather(alloc, head.into_bytes(), lines, foot)?;
    Ok(shares)
}

/// Whether so many threads share in the report of so many entries.
pub fn takes_shares(threads: u32, entries: usize) -> bool
    ensures { result ≡ true → 1 < threads }
{
    1 < threads && LEAST_SHARE < entries
}

/// The lines of the history, in shares that are each made by a thread.
fn line_shares<R: Threads + Sync>(
    rt: &R,
    alloc: Global,
    threads: u32,
    rows: &[PackedEntry],
) -> Result<Vec<Result<Vec<u8>, AllocError>>, AllocError>
    ensures { IfOk result (λ made. All IsOk made.items
        → flat_map text_of made.items ≡ lines_of entry_words rows.now) }
{
    let size = share_size(rows.len(), threads);
    let made = thread::map_chunks(rt, alloc, rows, size, &|_, share| entry_lines(alloc, share))?;
    Ok(made)
}

/// How many entries each thread makes the lines of.
fn share_size(entries: usize, threads: u32) -> usize
    ensures { 0 < result }
{
    entries.div_ceil(threads.max(1) as usize).max(LEAST_SHARE)
}

/// The lines of a share of the history.
fn entry_lines(alloc: Global, rows: &[PackedEntry]) -> Result<Vec<u8>, AllocError>
    ensures { IfOk result (λ text. text.items ≡ lines_of entry_words rows.now) }
{
    let mut out = String::new(alloc);
    put_entries(&mut out, rows)?;
    Ok(out.into_bytes())
}

/// The shares in order, where each of them was made.
fn gather(
    alloc: Global,
    head: Vec<u8>,
    made: Vec<Result<Vec<u8>, AllocError>>,
    foot: Vec<u8>,
) -> Result<Vec<Vec<u8>>, AllocError>
    ensures text { IfOk result (λ shares. flat_map (λ share. share.items) shares.items
        ≡ head.items ++ flat_map text_of made.items ++ foot.items) }
    ensures made { IfOk result (λ _. All IsOk made.items) }
{
    let mut shares = vec![in alloc; head]?;
    for lines in made {
        shares.push(lines?)?;
    }
    shares.push(foot)?;
    Ok(shares)
}

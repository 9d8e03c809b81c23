//! A long script text, read by several threads.
//!
//! Most scripts are good. So each thread reads a share of the lines as if they were, and the thread that calls goes over the commands of all shares in
//! order. Where that fails, `read_script` reads the whole text and tells why.

ghost use Rattle.std.specs.Prelude.{◌≡◌, ◌<◌, ◌≤◌, ◌++◌, List, true, flat_map, map, take, drop, length, IfOk, MatchResult};
ghost use Rattle.fol_model.specs.TextCauses.{first_bad};
ghost use Rattle.fol_model.specs.TextLines.{lines};
ghost use Rattle.fol_model.specs.TextRows.{Spells};
ghost use Rattle.fol_model.specs.Texts.{IsScriptText, command_row, script_kind};
ghost use Rattle.fol_script.specs.ReadText.{IsErrorAt};
ghost use Rattle.fol_script.specs.ScriptBefore.{is_script};

use crate::errors::ReadError;
use crate::gathered::gather;
use crate::scripts::{kind_of, read_script};
use crate::share::{Unread, read_share};
use fol_model::{Command, Script, Sequence, TextKind};
use memchr::memchr;
use std::alloc::{AllocError, Global};
use std::thread;
use std::thread::Threads;

/// How many bytes a text has at least that is read in shares.
const LONG_TEXT: usize = 262_144;

/// How many bytes a thread is started for at least: so many take much longer to read than it takes to start.
const LEAST_SHARE: usize = 65_536;

/// In how many shares a text is read at most.
const MOST_SHARES: u32 = 8;

/// The script of this text, as `read_script` reads it, with the lines of a long text read by so many threads, at most eight.
///
/// Gives a script exactly where the text is that of one, and then that one; else the first bad line and its cause. Returns
/// `NoMemory` where memory runs out, whatever the text. A long text with a bad line is read twice, in shares and then as a whole.
pub fn read_script_in_shares<R: Threads + Sync>(
    rt: &R,
    alloc: Global,
    threads: u32,
    bytes: &[u8],
    version: u8,
) -> Result<Script, ReadError>
    requires low { 1 ≤ version }
    requires high { version ≤ 2 }
    ensures { MatchResult result (λ s. IsScriptText version bytes.now s) (λ e.
        IsErrorAt (first_bad (script_kind version) bytes.now) e) }
{
    if threads > 1 && bytes.len() >= LONG_TEXT {
        if let Ok(commands) = read_shares(rt, alloc, threads, kind_of(version), bytes) {
            return Ok(Script {
                commands: Sequence::of(commands),
            });
        }
    }
    read_script(alloc, bytes, version)
}

/// The commands of a text that is a script, with a thread for each share of its lines.
fn read_shares<R: Threads + Sync>(
    rt: &R,
    alloc: Global,
    threads: u32,
    kind: TextKind,
    bytes: &[u8],
) -> Result<Vec<Command>, Unread>
    requires { is_script kind ≡ true }
    ensures { IfOk result (λ v. Spells kind bytes.now (map command_row v.items)) }
{
    let shares = cut(alloc, bytes, share_size(bytes.len(), threads))?;
    let read = thread::map_vec(rt, shares, &|share: &[u8]| read_share(alloc, kind, share))?;
    gather(alloc, read)
}

/// How many bytes each share has at least.
fn share_size(bytes: usize, threads: u32) -> usize {
    bytes
        .div_ceil(threads.clamp(1, MOST_SHARES) as usize)
        .max(LEAST_SHARE)
}

/// The text in shares of whole lines, each but the last of so many bytes at least.
fn cut(alloc: Global, text: &[u8], size: usize) -> Result<Vec<&[u8]>, AllocError>
    ensures { IfOk result (λ shares. flat_map (λ share. lines share.now) shares.items
        ≡ lines text.now) }
{
    let mut shares = Vec::new(alloc);
    let mut rest = text;
    while !rest.is_empty() {
        let (share, after) = rest.split_at(share_len(rest, size));
        shares.push(share)?;
        rest = after;
    }
    Ok(shares)
}

/// How many bytes of the text the first share takes: so many, and what is left of their last line.
fn share_len(text: &[u8], size: usize) -> usize
    requires { 0 < length text.now }
    ensures lines { lines (take result text.now) ++ lines (drop result text.now) ≡ lines text.now }
    ensures some { 0 < result }
    ensures within { result ≤ length text.now }
{
    if text.len() <= size {
        return text.len();
    }
    match memchr(b'\n', &text[size..]) {
        Some(n) => size + n + 1,
        None => text.len(),
    }
}

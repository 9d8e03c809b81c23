//! One line of a script, among the lines before it.

ghost use Rattle.std.specs.Prelude.{◌≡◌, ◌<◌, ◌≤◌, ◌+◌, ◌^◌, List, [], true, false, Option, Some, None, IfOk, nat_abs, get_or};
ghost use Rattle.fol_model.specs.TextCauses as spec;
ghost use Rattle.fol_script.specs.ScriptBefore.{is_script, misplaced, TakesRow, TakesLine};

use crate::judge::{Judged, read_line};
use crate::taken::Taken;
use fol_model::{Cause, Cell, Keyword, TextKind};
use std::alloc::AllocError;

/// What is kept of the lines before a line: whether a run is open, and the ticks of all runs and the counts of all repeated tasks.
#[derive(Clone, Copy)]
pub struct Before {
    pub running: bool,
    pub ticks: u64,
    pub times: u64,
}

/// The size of the number in the place `n`, or 0 where none is there.
fn size_at(cells: &[Cell], n: usize) -> u64
    ensures size { result
        ≡ nat_abs (spec.cell_number (get_or cells.now n (Cell.Word Keyword.End))) }
    ensures fits { result ≤ 2 ^ 63 }
{
    if n < cells.len() {
        match cells[n] {
            Cell::Number(number) => number.unsigned_abs(),
            Cell::Word(_) => 0,
        }
    } else {
        0
    }
}

/// Whether a `run` stands in a run, or an `end` outside one.
fn is_misplaced(running: bool, key: Keyword) -> bool
    ensures { result ≡ misplaced running key }
{
    match key {
        Keyword::Run => running,
        Keyword::End => !running,
        _ => false,
    }
}

/// Counts a line that is good so far, unless a sum becomes too large.
fn take_row(key: Keyword, cells: &[Cell], before: &mut Before) -> Option<Cause>
    requires order { misplaced before.old.running key ≡ false }
    requires ticks { before.old.ticks ≤ 10000 }
    requires times { before.old.times ≤ 1000000 }
    ensures { TakesRow (record { key = key; cells = cells.now }) before.old before.new result }
{
    match key {
        Keyword::Run => {
            let n = size_at(cells, 0);
            if before.ticks + n > 10_000 {
                return Some(Cause::Total);
            }
            before.ticks += n;
            before.running = true;
        }
        Keyword::Every => {
            let n = size_at(cells, 4);
            if before.times + n > 1_000_000 {
                return Some(Cause::Total);
            }
            before.times += n;
        }
        Keyword::End => before.running = false,
        _ => {}
    }
    None
}

/// Takes a line that is not skipped into account, or tells what is wrong with it. Its cells come into the empty `cells`.
pub fn take_line(
    kind: TextKind,
    line: &[u8],
    cells: &mut Vec<Cell>,
    before: &mut Before,
) -> Result<Taken, AllocError>
    requires kind { is_script kind ≡ true }
    requires ticks { before.old.ticks ≤ 10000 }
    requires times { before.old.times ≤ 1000000 }
    requires empty { cells.old.items ≡ [] }
    ensures { IfOk result (λ t. TakesLine kind line.now before.old before.new cells.new.items t) }
{
    match read_line(kind, line, cells)? {
        Judged::Bad(cause) => Ok(Taken::Bad(cause)),
        Judged::Words(key, fault) => {
            if is_misplaced(before.running, key) {
                return Ok(Taken::Bad(Cause::Order));
            }
            match fault {
                Some(cause) => Ok(Taken::Bad(cause)),
                None => match take_row(key, cells, before) {
                    Some(cause) => Ok(Taken::Bad(cause)),
                    None => Ok(Taken::Row(key)),
                },
            }
        }
    }
}

//! The lines of a history, which are made in a page.

ghost use Rattle.std.specs.Prelude.{◌≡◌, ◌+◌, ◌≤◌, ◌<◌, [], ◌∷◌, ◌++◌, drop, take, length, IfOk, string_bytes, true, false, Some, IfSome, IsNone, ◌⊎◌};
ghost use Rattle.fol_model.specs.Packed.{event_at};
ghost use Rattle.fol_model.specs.ReportWords.{entry_words, event_words};
ghost use Rattle.fol_report.specs.Histories.{line_left, lines_left};
ghost use Rattle.fol_report.specs.Spaced.{joined, joined_lines};

use crate::ends::push_quiet_end;
use crate::events::{push_begin, push_event};
use crate::lines::LINE_ROOM;
use crate::page::Page;
use crate::rest::Rest;
use fol_model::{PackedEntry, TickEdge};
use std::alloc::AllocError;

/// So many entries show how long the lines of the later ones may be.
const SAMPLE: usize = 4096;

/// Puts the line of the edge of a tick.
#[inline(always)]
fn push_edge(page: &mut Page, edge: TickEdge)
    requires { length page.old + 128 ≤ 1024 }
    ensures text { page.new ≡ page.old ++ joined (event_words (event_at edge)) ++ 10 ∷ [] }
    ensures len { length page.new ≤ length page.old + 128 }
{
    match edge {
        TickEdge::Begin { worker, region } => push_begin(page, worker, region),
        TickEdge::End {
            worker,
            region,
            tick,
        } => push_quiet_end(page, worker, region, tick),
    }
    page.push_word(b"\n");
}

/// The lines of a history that are still to be put. Those that come next stand in a page, where each is made, and takes no memory.
#[derive(Drop)]
pub struct Lines<'a> {
    /// The text that comes next, of which a first part may have been given.
    page: Page,
    given: usize,
    /// What is left behind the page of a line that was begun there, and still has no end.
    rest: Option<Rest<'a>>,
    /// The entries of later lines.
    rows: &'a [PackedEntry],
}

impl<'a> Lines<'a> {
    /// A text that stands in a page, and the lines of these entries behind it.
    pub fn behind(page: Page, rows: &'a [PackedEntry]) -> Lines<'a>
        ensures left { lines_left result ≡ page ++ joined_lines entry_words rows.now }
        ensures none { result.given ≡ 0 }
        ensures page { result.page ≡ page }
    {
        Lines {
            page,
            given: 0,
            rest: None,
            rows,
        }
    }

    /// Whether any byte is left. Makes the next lines where all of the page were given.
    pub fn has_more(&mut self) -> bool
        ensures same { lines_left self.new ≡ lines_left self.old }
        ensures more { result ≡ true → self.new.given < length self.new.page }
        ensures none { result ≡ false → lines_left self.new ≡ [] }
    {
        if self.given < self.page.as_bytes().len() {
            return true;
        }
        self.page.clear();
        self.given = 0;
        self.make()
    }

    /// Gives the next bytes, as many as there is room for, and says how many.
    pub fn give(&mut self, bytes: &mut [u8]) -> usize
        ensures left { lines_left self.new ≡ drop (length bytes.old) (lines_left self.old) }
        ensures bytes { take result bytes.new ≡ take (length bytes.old) (lines_left self.old) }
        ensures within { result ≤ length bytes.old }
    {
        let mut len = 0;
        while len < bytes.len() && self.has_more() {
            let row = self.at_hand();
            let count = row.len().min(bytes.len() - len);
            let (next, _) = row.split_at(count);
            bytes[len..len + count].copy_from_slice(next);
            self.given += count;
            len += count;
        }
        len
    }

    /// The text of the page that was not given.
    #[inline]
    fn at_hand(&self) -> &[u8]
        requires { self.now.given ≤ length self.now.page }
        ensures text { result.now ≡ drop self.now.given self.now.page }
        ensures within { length self.now.page ≤ 1024 }
    {
        let (_, next) = self.page.as_bytes().split_at(self.given);
        next
    }

    /// Makes the next lines in the page, until it may have no room for more, and says whether there is any.
    fn make(&mut self) -> bool
        requires { (self.old.page ≡ []) × (self.old.given ≡ 0) }
        ensures same { lines_left self.new ≡ lines_left self.old }
        ensures given { self.new.given ≡ 0 }
        ensures more { result ≡ true → 0 < length self.new.page }
        ensures none { result ≡ false → lines_left self.new ≡ [] }
    {
        while self.page.has_room() {
            if !self.make_some() {
                return self.page.as_bytes().len() > 0;
            }
        }
        true
    }

    /// Makes the next lines, or a part of one that is long, where there is any.
    fn make_some(&mut self) -> bool
        requires { (length self.old.page + 128 ≤ 1024) × (self.old.given ≡ 0) }
        ensures same { lines_left self.new ≡ lines_left self.old }
        ensures given { self.new.given ≡ 0 }
        ensures len { length self.new.page ≤ 1024 }
        ensures more { result ≡ true → length self.old.page < length self.new.page }
        ensures none { result ≡ false → lines_left self.new ≡ self.new.page }
    {
        let Some(rest) = self.next_line() else {
            return false;
        };
        self.rest = finish(&mut self.page, rest);
        if self.rest.is_none() {
            self.rows = push_edges(&mut self.page, self.rows);
        }
        true
    }

    /// What is left of the line that was begun, or else of the next, whose first words are put.
    #[inline]
    fn next_line(&mut self) -> Option<Rest<'a>>
        requires { (length self.old.page + 128 ≤ 1024) × (self.old.given ≡ 0) }
        ensures left { IfSome result (λ rest. self.new.page
            ++ (line_left (Some rest) ++ joined_lines entry_words self.new.rows.now)
            ≡ lines_left self.old) }
        ensures given { self.new.given ≡ 0 }
        ensures len { length self.new.page + 1 ≤ 1024 }
        ensures grows { (self.new.page ≡ self.old.page) ⊎ (length self.old.page
            < length self.new.page) }
        ensures none { IsNone result → lines_left self.new ≡ self.new.page }
        ensures same { IsNone result → lines_left self.new ≡ lines_left self.old }
    {
        if self.rest.is_some() {
            return self.rest;
        }
        let Some((row, later)) = self.rows.split_first() else {
            return None;
        };
        self.rows = later;
        Some(push_event(&mut self.page, row.event()))
    }
}

/// Goes on with a line that was begun: puts the next words, and the end where there is room for all. Returns what is left of it.
fn finish<'a>(page: &mut Page, rest: Rest<'a>) -> Option<Rest<'a>>
    requires { length page.old + 1 ≤ 1024 }
    ensures text { page.new ++ line_left result ≡ page.old ++ line_left (Some rest.entry) }
    ensures len { length page.new ≤ 1024 }
    ensures grows { length page.old + 128 ≤ 1024 → length page.old < length page.new }
    ensures never_shrinks { length page.old ≤ length page.new }
{
    let mut left = rest;
    while !left.is_done() {
        if !page.has_room() {
            return Some(left);
        }
        left = left.push_some(page);
    }
    page.push_word(b"\n");
    None
}

/// Puts the lines of the edges of ticks that come first, as far as there is room: most entries are of these two kinds. Returns the other entries.
fn push_edges<'a>(page: &mut Page, rows: &'a [PackedEntry]) -> &'a [PackedEntry]
    requires { length page.old ≤ 1024 }
    ensures text { page.new ++ joined_lines entry_words result.now
        ≡ page.old ++ joined_lines entry_words rows.now }
    ensures len { length page.new ≤ 1024 }
    ensures never_shrinks { length page.old ≤ length page.new }
{
    let mut left = rows;
    while page.has_room() {
        let Some((row, later)) = left.split_first() else {
            return left;
        };
        let Some(edge) = row.edge() else {
            return left;
        };
        push_edge(page, edge);
        left = later;
    }
    left
}

/// Puts the lines of a history, or of a stretch of it.
pub fn put_entries(out: &mut String, rows: &[PackedEntry]) -> Result<(), AllocError>
    ensures { IfOk result (λ _. string_bytes out.new
        ≡ string_bytes out.old ++ joined_lines entry_words rows.now) }
{
    let (first, later) = rows.split_at(rows.len().min(SAMPLE));
    let before = out.len();
    put_stretch(out, first, LINE_ROOM)?;
    let room = (out.len() - before) / SAMPLE + 1;
    put_stretch(out, later, room)
}

/// Puts the lines of these entries, for each of which about so much room is wanted.
fn put_stretch(out: &mut String, rows: &[PackedEntry], room: usize) -> Result<(), AllocError>
    ensures { IfOk result (λ _. string_bytes out.new
        ≡ string_bytes out.old ++ joined_lines entry_words rows.now) }
{
    out.reserve(rows.len().saturating_mul(room))?;
    let mut lines = Lines::behind(Page::new(), rows);
    while lines.make() {
        lines.page.put(out)?;
    }
    Ok(())
}

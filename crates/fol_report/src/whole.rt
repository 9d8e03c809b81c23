//! The report as text, made while it is written.

ghost use Rattle.std.specs.Prelude.{◌≡◌, ◌++◌, ◌≤◌, [], drop, take, length};
ghost use Rattle.fol_model.specs.Report.{report_text};
ghost use Rattle.fol_report.specs.Shares.{foot_text, head_text};
ghost use Rattle.fol_report.specs.Unwritten.{report_left};

use crate::history::Lines;
use crate::page::Page;
use fol_io::{Put, Sink, Source};
use fol_model::Closing;

/// A report that is still to be written: the lines of its history are made while it is, and take no memory.
#[derive(Drop)]
pub struct Unwritten<'a> {
    lines: Lines<'a>,
    /// What stands behind the lines of the history.
    foot: &'a [u8],
}

impl<'a> Unwritten<'a> {
    /// The report of a closing, whose foot was made.
    pub fn of(closing: &'a Closing, foot: &'a [u8]) -> Unwritten<'a>
        requires { foot.now ≡ foot_text closing.now }
        ensures { report_left result ≡ report_text closing.now }
    {
        let rows = closing.history.as_slice();
        let mut page = Page::new();
        push_head(&mut page, rows.len());
        Unwritten {
            lines: Lines::behind(page, rows),
            foot,
        }
    }

    /// Gives the next piece: as many bytes as there is room for. Says how many.
    fn give(&mut self, bytes: &mut [u8]) -> usize
        requires { length bytes.old ≡ 4096 }
        ensures left { report_left self.new ≡ drop 4096 (report_left self.old) }
        ensures bytes { take result bytes.new ≡ take 4096 (report_left self.old) }
        ensures within { result ≤ 4096 }
    {
        let len = self.lines.give(bytes);
        let count = self.foot.len().min(bytes.len() - len);
        let (next, later) = self.foot.split_at(count);
        bytes[len..len + count].copy_from_slice(next);
        self.foot = later;
        len + count
    }
}

impl<'a> Source for Unwritten<'a> {
    ghost left = { report_left };

    fn has_more(&mut self) -> bool {
        !self.foot.is_empty() || self.lines.has_more()
    }

    fn put_piece<K: Sink>(&mut self, sink: &mut K, carry: &mut [u8]) -> Put {
        let count = self.give(carry);
        sink.put(&carry[..count])
    }
}

/// Puts what stands before the lines of a history of so many entries.
fn push_head(page: &mut Page, entries: usize)
    requires { page.old ≡ [] }
    ensures { (closing : Closing) → length closing.history ≡ entries → page.new ≡ head_text closing }
{
    page.push_word(b"report 1\nevents ");
    page.push_number(entries as u64);
    page.push_word(b"\n");
}

//! How a view begins and ends.

ghost use Rattle.std.specs.Prelude.{◌≡◌, ◌<◌, ◌≤◌, ◌∷◌, [], length, All, IfOk, IfErr};
ghost use Rattle.fol_live.specs.Goes.{Does};
ghost use Rattle.fol_live.specs.Lives.{live_id};
ghost use Rattle.fol_view.specs.Publications.{Listed, publication_of};

use crate::board::Shown;
use crate::deal::{begin, deal, twice};
use crate::publications::{Opened, Publications};
use crate::publish::{add, publish};
use crate::reader::OwnerReader;
use crate::writer::OwnerWriter;
use fol_live::{Live, Seat};
use std::alloc::Global;
use std::marker::Model;
use std::sync::Wait;

/// A view of who owns the sections of a world. Contracts see which it is and how many readers it has.
#[derive(Drop)]
pub struct View {
    all: Publications,
    readers: u32,
}

impl Model for View {
    ghost use Rattle.fol_view.specs.Writing.{Viewing, viewing};

    ghost Value = { Viewing };

    ghost view = { λ v. viewing v.all v.readers };
}

/// What `View::start` makes.
pub struct ViewParts {
    pub view: View,
    pub writer: OwnerWriter,
    pub readers: Vec<OwnerReader>,
}

impl View {
    /// A view with 1 to 64 readers, whose writer has this seat. The owners after all of the history, which the seat then has seen, are
    /// published. Fails only when out of memory, and then gives the seat back. The seat records nothing but Begins that it learns of. One that
    /// holds a tick holds it still, and can't release it before `close` gives the seat back.
    pub fn start<R: Wait>(
        rt: &R,
        alloc: Global,
        live: &Live,
        seat: Seat,
        readers: u32,
    ) -> Result<ViewParts, Seat>
        requires count { (0 < readers) × (readers ≤ 64) }
        requires own { seat.lock ≡ live_id live.now }
        ensures book { IfOk result (λ p. p.writer.book ≡ p.view.book) }
        ensures does { IfOk result (λ p. Does seat p.writer.seat []) }
        ensures hand { IfOk result (λ p. p.writer.seat.hand ≡ seat.hand) }
        ensures first { IfOk result (λ p. p.writer.list
            ≡ publication_of p.writer.seat.opening p.writer.seat.seen ∷ []) }
        ensures readers { IfOk result (λ p.
            All (λ (r : Listed). (r.book ≡ p.view.book)
            × (r.list ≡ p.writer.list)) p.readers.items) }
        ensures count { IfOk result (λ p. (p.view.readers ≡ readers)
            × (length p.readers.items ≡ readers)) }
        ensures back { IfErr result (λ s. Does seat s [] × (s.hand ≡ seat.hand)) }
    {
        let mut seat = seat;
        let Ok(list) = Vec::with_capacity(alloc, readers as usize) else {
            return Err(seat);
        };
        let Ok(owners) = live.owner_rows(rt, &mut seat) else {
            return Err(seat);
        };
        let Ok((last, copy)) = twice(alloc, owners) else {
            return Err(seat);
        };
        let Ok(writer) = begin(alloc, readers) else {
            return Err(seat);
        };
        let mut writer = writer;
        let Opened { head, all } = Publications::open();
        let mut all = all;
        let front = last.front();
        let longer = add(rt, &mut all, &head, &copy);
        match writer.append(Shown { last, all: longer }) {
            Ok(()) => {}
            Err(_) => {
                drop(writer.take(rt));
                return Err(seat);
            }
        }
        let mut writer = publish(rt, writer);
        let list = deal(rt, &mut writer, &all, readers, list);
        Ok(ViewParts {
            view: View {
                all: all.again(),
                readers,
            },
            writer: OwnerWriter {
                seat,
                writer,
                head,
                front,
                all,
            },
            readers: list,
        })
    }
}

/// Ends a view, given its writer and all its readers, and gives the seat back.
pub fn close<R: Wait>(rt: &R, view: View, writer: OwnerWriter, readers: Vec<OwnerReader>) -> Seat
    requires writer { writer.book ≡ view.book }
    requires readers { All (λ (r : Listed). r.book ≡ view.book) readers.items }
    requires all { length readers.items ≡ view.readers }
    ensures { result ≡ writer.seat }
{
    drop(readers);
    drop(view);
    let OwnerWriter {
        seat,
        writer,
        head: _head,
        front: _front,
        all: _all,
    } = writer;
    drop(writer.take(rt));
    seat
}

//! The one who publishes.

ghost use Rattle.std.specs.Prelude.{◌≡◌, ◌∷◌, [], ◌++◌, length, All, IfOk, OnOk, OnErr};
ghost use Rattle.fol_live.specs.Goes.{Does};
ghost use Rattle.fol_live.specs.Lives.{live_id};
ghost use Rattle.fol_view.specs.Boards.{HasShown, MayShow};
ghost use Rattle.fol_view.specs.Publications.{IsLastFront, IsPublication, Rises, publication_of};

use crate::board::Shown;
use crate::publication::Publication;
use crate::publications::{Head, Publications};
use crate::publish::{add, show};
use crate::rule::Writer;
use core::mem::replace_with;
use fol_live::{Live, Seat};
use std::alloc::{AllocError, Global};
use std::marker::Model;
use std::sync::Wait;

/// The most publications of a view.
const MOST_PUBLICATIONS: u64 = 1 << 62;

/// The writer's list of publications, for a reader to learn.
#[derive(Drop)]
pub struct Told {
    /// The front of the last publication.
    pub(crate) front: u64,
    pub(crate) all: Publications,
}

impl Model for Told {
    ghost use Rattle.fol_view.specs.Publications.{Listed, IsLastFront};

    ghost Value = { Listed };

    ghost view = { λ t. t.all };

    ghost invariant = { λ t. IsLastFront t.all.list t.front };
}

impl Told {
    /// How much of the history the last publication that is told is after.
    pub fn front(&self) -> u64
        ensures { IsLastFront self.now.list result }
    {
        self.front
    }
}

/// The right to publish, with the seat whose world it publishes. Contracts see which view it is of, its seat, and its list of
/// publications, each of which is of a beginning of what the seat has seen. It can't be dropped: `close` ends it.
pub struct OwnerWriter {
    pub(crate) seat: Seat,
    pub(crate) writer: Writer,
    pub(crate) head: Head,
    /// The front of the last publication.
    pub(crate) front: u64,
    pub(crate) all: Publications,
}

impl Model for OwnerWriter {
    ghost use Rattle.fol_view.specs.Writing.{Writing, writing, Writes};

    ghost Value = { Writing };

    ghost view = { λ w. writing w.seat w.all };

    ghost invariant = { λ w. Writes w.seat w.all w.front w.head w.writer.desk.shown.value };
}

impl OwnerWriter {
    /// Publishes the owners after all of the history, which its seat then has seen, and returns their front. The seat records nothing but
    /// Begins that it learns of, and a tick that it holds it holds still. If memory runs out, what is published is as before.
    pub fn refresh<R: Wait>(
        &mut self,
        rt: &R,
        alloc: Global,
        live: &Live,
    ) -> Result<u64, AllocError>
        requires own { self.old.seat.lock ≡ live_id live.now }
        ensures book { self.new.book ≡ self.old.book }
        ensures does { Does self.old.seat self.new.seat [] }
        ensures hand { self.new.seat.hand ≡ self.old.seat.hand }
        ensures front { IfOk result (λ n. n ≡ length self.new.seat.seen) }
        ensures published { OnOk result (self.new.list
            ≡ self.old.list ++ publication_of self.new.seat.opening self.new.seat.seen ∷ []) }
        ensures refused { OnErr result (self.new.list ≡ self.old.list) }
    {
        let owners = live.owner_rows(rt, &mut self.seat)?;
        let publication = Publication::of(alloc, owners)?;
        let copy = publication.again()?;
        if self.all.len() >= MOST_PUBLICATIONS {
            return Err(AllocError);
        }
        let front = publication.front();
        self.front = front;
        let all = add(rt, &mut self.all, &self.head, &copy);
        let shown = Shown {
            last: publication,
            all,
        };
        replace_with(
            &mut self.writer,
            shown,
            |writer: Writer, shown: Shown| -> (Writer, ())
                requires { MayShow writer.desk.shown.value shown }
                ensures { HasShown result.0.desk.shown.value shown }
            { (show(rt, writer, shown), ()) },
        );
        Ok(front)
    }

    /// The list of all publications so far, for a reader: each is of a beginning of what the seat has seen, and their fronts never fall.
    pub fn tell(&mut self) -> Told
        ensures same { self.new ≡ self.old }
        ensures told { (result.book ≡ self.old.book) × (result.list ≡ self.old.list) }
        ensures each { All (IsPublication self.old.seat.opening self.old.seat.seen) self.old.list }
        ensures rises { Rises self.old.list }
    {
        Told {
            front: self.front,
            all: self.all.again(),
        }
    }
}

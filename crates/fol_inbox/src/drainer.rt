//! The one who posts.

ghost use Rattle.std.specs.Prelude.{◌≡◌};
ghost use Rattle.fol_inbox.specs.Receipts.{AreReceipts};

use crate::letter::{Letter, Receipt};
use crate::rule::Pass;
use fol_live::Seat;
use std::marker::Model;
use std::snapshot::Snapshot;

/// The right to take letters, with the seat that posts them. Contracts see its inbox, how many senders there are, the seat as it is and
/// as it was at the start, the letters that were posted, their receipts, and the letter that is held.
#[derive(Drop)]
pub struct Drainer {
    pub(crate) seat: Seat,
    /// The seat at the start.
    pub(crate) since: Snapshot<Seat>,
    pub(crate) pass: Pass,
    /// Of all letters that were posted, in order.
    pub(crate) receipts: Vec<Receipt>,
    /// The letter that was taken and not posted.
    pub(crate) held: Option<Letter>,
}

impl Model for Drainer {
    ghost use Rattle.fol_inbox.specs.Draining.{Draining, draining};
    ghost use Rattle.fol_inbox.specs.Receipts.{IsDrainer};

    ghost Value = { Draining };

    ghost view = { λ d. draining d.seat d.since.value d.pass d.receipts.items d.held };

    ghost invariant = { λ d. IsDrainer d.seat d.since.value d.pass d.receipts.items d.held };
}

impl Drainer {
    /// The receipts of all letters that were posted, in order.
    pub fn receipts(&self) -> &[Receipt]
        ensures receipts { result.now ≡ self.now.receipts }
        ensures law { AreReceipts self.now }
    {
        self.receipts.as_slice()
    }
}

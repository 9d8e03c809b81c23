//! The inbox, and how it starts.

ghost use Rattle.std.specs.Prelude.{◌≡◌, ◌≤◌, [], None, IfOk, IfErr, All, vec_capacity};
ghost use Rattle.crossbeam_queue.specs.SegTies.{IsSegPassOf};
ghost use Rattle.fol_live.specs.Seat.{held};
ghost use Rattle.fol_inbox.specs.Notes.{drainer_notes, first_notes};
ghost use Rattle.fol_inbox.specs.Draining.{IsNewDrainer};
ghost use Rattle.fol_inbox.specs.Sending.{AreNewSenders, Sending};

use crate::drainer::Drainer;
use crate::rule::{Deal, Pass, Queue};
use crate::sender::Sender;
use fol_live::Seat;
use std::alloc::Global;
use std::snapshot::Snapshot;

/// A queue of letters, into which several threads may send at once.
pub struct Inbox {
    pub(crate) queue: Queue,
}

impl Drop for Inbox {
    fn drop(self) {
        let Inbox { queue } = self;
        queue.destroy();
    }
}

/// What `Inbox::start` makes.
pub struct InboxParts {
    pub inbox: Inbox,

    /// Numbered from 0, in order.
    pub senders: Vec<Sender>,
    pub drainer: Drainer,
}

impl Inbox {
    ghost use Rattle.fol_inbox.specs.Ids.{inbox_id};

    /// An empty inbox with 1 to 64 senders, whose letters this seat will post. The seat holds no tick. Out of memory hands the seat back.
    pub fn start(alloc: Global, seat: Seat, senders: u32) -> Result<InboxParts, Seat>
        requires count { (1 ≤ senders) × (senders ≤ 64) }
        requires no_tick { held seat ≡ None }
        ensures senders { IfOk result (λ parts.
            AreNewSenders (inbox_id parts.inbox) senders parts.senders.items) }
        ensures inboxes { IfOk result (λ parts.
            All (λ (s : Sending). s.inbox ≡ inbox_id parts.inbox) parts.senders.items) }
        ensures drainer { IfOk result (λ parts.
            IsNewDrainer (inbox_id parts.inbox) senders seat parts.drainer) }
        ensures back { IfErr result (λ s. s ≡ seat) }
    {
        let Ok(room) = Vec::with_capacity(alloc, senders as usize) else {
            return Err(seat);
        };
        let Ok((queue, mut pass)) = Queue::with_rule(alloc) else {
            return Err(seat);
        };
        let inbox = Inbox { queue };
        let dealt = inbox.deal(&mut pass, senders, room);
        let since = Snapshot::of(&seat);
        let drainer = Drainer {
            seat,
            since,
            pass,
            receipts: Vec::new(alloc),
            held: None,
        };
        Ok(InboxParts {
            inbox,
            senders: dealt,
            drainer,
        })
    }

    /// The queue of an inbox that ends.
    pub(crate) fn into_queue(self) -> Queue
        ensures { result ≡ inbox_id self }
    {
        let Self { queue } = self;
        queue
    }

    /// A sender for each number below the count, in a vector with room for them.
    fn deal(&self, first: &mut Pass, count: u32, mut senders: Vec<Sender>) -> Vec<Sender>
        requires first { IsSegPassOf self.now.queue first.old
            × (first.old.me.view.client ≡ first_notes) }
        requires room { (senders.items ≡ []) × (count ≤ vec_capacity senders) }
        ensures first { IsSegPassOf self.now.queue first.new
            × (first.new.me.view.client ≡ drainer_notes count [] []) }
        ensures senders { AreNewSenders (inbox_id self.now) count result.items }
    {
        for number in 0..count {
            let pass = self.queue.another::<Deal>(first);
            senders.push_reserved(Sender {
                number,
                next: 0,
                pass,
            });
        }
        senders
    }
}

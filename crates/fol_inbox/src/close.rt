//! The end of an inbox.

ghost use Rattle.std.specs.Prelude.{◌≡◌, ◌++◌, None, All};
ghost use Rattle.fol_live.specs.Seat.{held};
ghost use Rattle.fol_inbox.specs.Letters.{held_list};

use crate::drainer::Drainer;
use crate::gather::{gather, take_first};
use crate::inbox::Inbox;
use crate::letter::{Letter, Receipt};
use crate::rule::{Pass, Queue, TakesNext};
use crate::sender::Sender;
use fol_live::Seat;
use std::marker::Model;
use std::sync::Wait;

/// The letters that nobody took. Contracts see them as a list, in the order of the queue.
pub struct Rest {
    queue: Queue,
    pass: Pass,
    /// The first of them, until it is given.
    first: Option<Letter>,
    /// Whether there was one.
    found: bool,
}

impl Model for Rest {
    ghost use Rattle.std.specs.Prelude.{List};
    ghost use Rattle.fol_inbox.specs.declared.letter.Letter.{Letter};
    ghost use Rattle.fol_inbox.specs.Rest.{IsRest, left};

    ghost Value = { List Letter };

    ghost view = { λ r. left r.pass r.first };

    ghost invariant = { λ r. IsRest r.queue r.pass r.first r.found };
}

impl Drop for Rest {
    fn drop(self) {
        let Rest {
            queue,
            pass: _pass,
            first: _first,
            found: _,
        } = self;
        queue.destroy();
    }
}

/// What `Inbox::close` gives.
#[derive(Drop)]
pub struct Closed {
    /// Of the letters that were posted, in order.
    pub receipts: Vec<Receipt>,

    /// The letter that was taken and not posted.
    pub held: Option<Letter>,
    pub rest: Rest,
    pub seat: Seat,
}

impl Rest {
    ghost use Rattle.fol_inbox.specs.Rest.{GivesNext};

    /// The next letter that is left. None exactly where none is. Takes no memory.
    pub fn next<R: Wait>(&mut self, rt: &R) -> Option<Letter>
        ensures { GivesNext self.old self.new result }
    {
        if let Some(letter) = self.first.take() {
            return Some(letter);
        }
        if !self.found {
            return None;
        }
        self.queue.pop_as::<TakesNext, R>(rt, &mut self.pass)
    }
}

impl Inbox {
    ghost use Rattle.fol_inbox.specs.Ids.{inbox_id};
    ghost use Rattle.fol_inbox.specs.Law.{InboxLaw};
    ghost use Rattle.fol_inbox.specs.Receipts.{AreReceipts};
    ghost use Rattle.fol_inbox.specs.Sending.{AreAllSenders, Sending};

    /// Ends the inbox, given all its senders and its drainer. Of each sender the letters that were posted, then the one that is held and
    /// then the rest are all that it sent, each once, in its order; and there are no others. Takes no memory.
    pub fn close<R: Wait>(self, rt: &R, senders: Vec<Sender>, drainer: Drainer) -> Closed
        requires drainer { drainer.inbox ≡ inbox_id self }
        requires senders { All (λ (s : Sending). s.inbox ≡ inbox_id self) senders.items }
        requires all { AreAllSenders drainer.senders senders.items }
        ensures receipts { result.receipts.items ≡ drainer.receipts }
        ensures held { result.held ≡ drainer.held }
        ensures seat { result.seat ≡ drainer.seat }
        ensures no_tick { held result.seat ≡ None }
        ensures posted { AreReceipts drainer }
        ensures law { InboxLaw drainer.senders senders.items
            ((drainer.letters ++ held_list result.held) ++ result.rest) }
    {
        let queue = self.into_queue();
        let Drainer {
            seat,
            since: _since,
            pass,
            receipts,
            held,
        } = drainer;
        let mut pass = gather(&queue, pass, senders);
        let first = take_first(rt, &queue, &mut pass);
        let found = first.is_some();
        Closed {
            receipts,
            held,
            rest: Rest {
                queue,
                pass,
                first,
                found,
            },
            seat,
        }
    }
}

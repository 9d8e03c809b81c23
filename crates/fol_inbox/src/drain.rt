//! Posting what was sent.

ghost use Rattle.std.specs.Prelude.{◌≡◌, [], ◌+◌, ◌<◌, ◌≤◌, length, IfSome};
ghost use Rattle.crossbeam_queue.specs.SegTies.{IsSegPassOf};
ghost use Rattle.fol_live.specs.Lives.{live_id};
ghost use Rattle.fol_inbox.specs.Notes.{drainer_notes};
ghost use Rattle.fol_inbox.specs.Rule.{CanPost};
ghost use Rattle.fol_inbox.specs.Drains.{Attempts};

use crate::drainer::Drainer;
use crate::inbox::Inbox;
use crate::letter::{Letter, Receipt};
use crate::rule::{Pass, Takes};
use fol_live::{Live, Posting, Seat};
use fol_model::Accept;
use std::alloc::AllocError;
use std::sync::Wait;

/// Why a call of `drain` stopped, with the number of letters that it posted.
#[derive(Clone, Copy, Debug, PartialEq, Eq)]
pub enum Drained {
    /// It posted as many as it was to. No letter is held.
    Moved(u32),
    /// It posted fewer, and found no more. No letter is held.
    Empty(u32),
    /// It posted fewer. Finish stands in the history, and a letter is held.
    Over(u32),
}

/// What became of one letter.
#[derive(Clone, Copy, PartialEq, Eq)]
enum Step {
    /// It was posted.
    Posted,
    /// There was none.
    Empty,
    /// It is held, since the history is finished.
    Over,
}

/// What the world made of a letter.
#[derive(Drop)]
enum Attempt {
    Posted(Receipt),
    Over(Letter),
    NoMemory(Letter),
}

impl Inbox {
    ghost use Rattle.fol_inbox.specs.Ids.{inbox_id};
    ghost use Rattle.fol_inbox.specs.Receipts.{AreReceipts};
    ghost use Rattle.fol_inbox.specs.Drains.{Drains, IsSameDrainer, Steps, TakesUp};

    /// Posts letters, the one that is held first and then those of the queue in order, until so many are posted or there are no more. Over
    /// exactly where fewer are posted, Finish stands in the history and a letter is held; the next call begins with it. Out of memory
    /// loses nothing: each letter that was posted has its receipt, and one that was taken and not posted is held. The seat records the posts, and
    /// nothing else but Begins that it learns of.
    pub fn drain<R: Wait>(
        &self,
        rt: &R,
        drainer: &mut Drainer,
        live: &Live,
        max: u32,
    ) -> Result<Drained, AllocError>
        requires inbox { drainer.old.inbox ≡ inbox_id self.now }
        requires world { drainer.old.seat.lock ≡ live_id live.now }
        requires max { (1 ≤ max) × (max ≤ 65536) }
        ensures same { IsSameDrainer drainer.old drainer.new }
        ensures receipts { AreReceipts drainer.new }
        ensures drained { Drains max drainer.old drainer.new result }
    {
        for done in 0..max {
            match self.step(rt, drainer, live)? {
                Step::Posted => {}
                Step::Empty => return Ok(Drained::Empty(done)),
                Step::Over => return Ok(Drained::Over(done)),
            }
        }
        let _ = drainer.receipts();
        Ok(Drained::Moved(max))
    }

    /// Posts one letter. The room for its receipt is taken before it is taken from the queue.
    fn step<R: Wait>(&self, rt: &R, drainer: &mut Drainer, live: &Live) -> Result<Step, AllocError>
        requires inbox { drainer.old.inbox ≡ inbox_id self.now }
        requires world { drainer.old.seat.lock ≡ live_id live.now }
        ensures same { IsSameDrainer drainer.old drainer.new }
        ensures receipts { AreReceipts drainer.new }
        ensures step { Steps drainer.old drainer.new result }
    {
        drainer.receipts.reserve(1)?;
        let held = drainer.held.take();
        let Some(letter) = self.next_letter(rt, &mut drainer.pass, held) else {
            return Ok(Step::Empty);
        };
        match post(rt, live, &mut drainer.seat, letter) {
            Attempt::Posted(receipt) => {
                drainer.receipts.push_reserved(receipt);
                Ok(Step::Posted)
            }
            Attempt::Over(letter) => {
                drainer.held = Some(letter);
                Ok(Step::Over)
            }
            Attempt::NoMemory(letter) => {
                drainer.held = Some(letter);
                Err(AllocError)
            }
        }
    }

    /// The letter that is held, or else the next one of the queue.
    fn next_letter<R: Wait>(&self, rt: &R, pass: &mut Pass, held: Option<Letter>) -> Option<Letter>
        requires pass { IsSegPassOf self.now.queue pass.old }
        requires notes { pass.old.me.view.client
            ≡ drainer_notes pass.old.me.view.client.dealt pass.old.me.view.client.taken [] }
        requires may { IfSome held CanPost }
        ensures pass { IsSegPassOf self.now.queue pass.new }
        ensures may { IfSome result CanPost }
        ensures taken { TakesUp pass.old.me.view.client pass.new.me.view.client held result }
    {
        match held {
            Some(letter) => Some(letter),
            None => self.queue.pop_as::<Takes, R>(rt, pass),
        }
    }
}

/// Posts a letter, and hands it back where it was not posted.
fn post<R: Wait>(rt: &R, live: &Live, seat: &mut Seat, letter: Letter) -> Attempt
    requires world { seat.old.lock ≡ live_id live.now }
    requires may { CanPost letter }
    ensures { Attempts seat.old seat.new letter result }
{
    let Letter {
        sender,
        place,
        chunk,
        delay,
        action,
    } = letter;
    match live.post(rt, seat, chunk, delay, action) {
        Ok(Posting::Posted(number)) => {
            Attempt::Posted(receipt(seat, sender, place, Accept::Posted(number)))
        }
        Ok(Posting::Full { present, wanted }) => {
            Attempt::Posted(receipt(seat, sender, place, Accept::Full { present, wanted }))
        }
        Ok(Posting::Over(action)) => Attempt::Over(Letter {
            sender,
            place,
            chunk,
            delay,
            action,
        }),
        Err(action) => Attempt::NoMemory(Letter {
            sender,
            place,
            chunk,
            delay,
            action,
        }),
    }
}

/// The receipt of the entry that the seat has seen last.
fn receipt(seat: &Seat, sender: u32, place: u64, answer: Accept) -> Receipt
    requires { 0 < length seat.now.seen }
    ensures letter { (result.sender ≡ sender) × (result.place ≡ place) }
    ensures answer { result.answer ≡ answer }
    ensures entry { result.entry + 1 ≡ length seat.now.seen }
{
    Receipt {
        sender,
        place,
        entry: seat.front() - 1,
        answer,
    }
}

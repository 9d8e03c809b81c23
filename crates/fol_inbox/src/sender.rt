//! Those who send.

ghost use Rattle.std.specs.Prelude.{◌≡◌, ◌∷◌, [], ◌++◌, length, IsTrue, IfOk, IfErr};
ghost use Rattle.fol_model.specs.Geometry.{is_chunk};
ghost use Rattle.fol_model.specs.Limits.{is_action, is_delay, may_post};
ghost use Rattle.fol_inbox.specs.Letters.{letter};

use crate::inbox::Inbox;
use crate::letter::Letter;
use crate::rule::{Pass, Sends};
use fol_model::{Action, ChunkPos};
use std::marker::Model;
use std::sync::Wait;

/// The right to send under one number. Contracts see its inbox, its number, and all letters that it `sends`, in order.
#[derive(Drop)]
pub struct Sender {
    pub(crate) number: u32,
    /// How many letters it sent.
    pub(crate) next: u64,
    pub(crate) pass: Pass,
}

impl Model for Sender {
    ghost use Rattle.fol_inbox.specs.Sending.{IsSender, Sending, sending};

    ghost Value = { Sending };

    ghost view = { λ s. sending s.number s.pass };

    ghost invariant = { λ s. IsSender s.number s.next s.pass };
}

impl Sender {
    /// The sender's number, from 0. It never changes.
    pub fn number(&self) -> u32
        ensures { result ≡ self.now.number }
    {
        self.number
    }
}

impl Inbox {
    ghost use Rattle.fol_inbox.specs.Ids.{inbox_id};

    /// Sends a letter, and returns its place among the letters of this sender, from 0. Never takes the lock of the world. Out of memory
    /// hands the action back, and nothing was sent.
    pub fn send<R: Wait>(
        &self,
        rt: &R,
        sender: &mut Sender,
        c: ChunkPos,
        delay: u32,
        action: Action,
    ) -> Result<u64, Action>
        requires inbox { sender.old.inbox ≡ inbox_id self.now }
        requires in_range { IsTrue (is_chunk c) }
        requires delay { IsTrue (is_delay delay) }
        requires action { IsTrue (is_action action) }
        requires may_be_posted { IsTrue (may_post action) }
        ensures inbox { sender.new.inbox ≡ sender.old.inbox }
        ensures number { sender.new.number ≡ sender.old.number }
        ensures place { IfOk result (λ n. n ≡ length sender.old.sends) }
        ensures sent { IfOk result (λ n. sender.new.sends
            ≡ sender.old.sends ++ letter sender.old.number n c delay action ∷ []) }
        ensures refused { IfErr result (λ a. (a ≡ action) × (sender.new.sends ≡ sender.old.sends)) }
    {
        let place = sender.next;
        if place == u64::MAX {
            return Err(action);
        }
        let letter = Letter {
            sender: sender.number,
            place,
            chunk: c,
            delay,
            action,
        };
        match self.queue.push_as::<Sends, R>(rt, &mut sender.pass, letter) {
            Ok(()) => {
                sender.next = place + 1;
                Ok(place)
            }
            Err(back) => Err(back.action),
        }
    }
}

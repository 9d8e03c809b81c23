//! The passes of all senders, joined into one.

ghost use Rattle.std.specs.Prelude.{◌≡◌, [], All};
ghost use Rattle.crossbeam_queue.specs.SegTies.{IsSegPassOf};
ghost use Rattle.fol_inbox.specs.Notes.{drainer_notes};
ghost use Rattle.fol_inbox.specs.Sending.{HasClaim, Sending};
ghost use Rattle.fol_inbox.specs.Rule.{ClaimsAll};
ghost use Rattle.fol_inbox.specs.Rest.{TakesOne};

use crate::letter::Letter;
use crate::rule::{Gather, Pass, Queue, TakesFirst};
use crate::sender::Sender;
use std::sync::Wait;

/// The drainer's pass, joined with those of these senders.
pub(crate) fn gather(queue: &Queue, mut pass: Pass, mut senders: Vec<Sender>) -> Pass
    requires pass { IsSegPassOf queue.now pass }
    requires notes { pass.me.view.client
        ≡ drainer_notes pass.me.view.client.dealt pass.me.view.client.taken [] }
    requires senders { All (λ (s : Sending). s.inbox ≡ queue.now) senders.items }
    ensures pass { IsSegPassOf queue.now result }
    ensures notes { result.me.view.client
        ≡ drainer_notes pass.me.view.client.dealt pass.me.view.client.taken
        result.me.view.client.claims }
    ensures claims { All (HasClaim result.me.view.client.claims) senders.items }
{
    while let Some(sender) = senders.pop() {
        let Sender {
            number: _,
            next: _,
            pass: other,
        } = sender;
        queue.absorb::<Gather>(&mut pass, other);
    }
    pass
}

/// The first letter that is left, taken by a pass that was joined with those of all senders: what is left then is known.
pub(crate) fn take_first<R: Wait>(rt: &R, queue: &Queue, pass: &mut Pass) -> Option<Letter>
    requires pass { IsSegPassOf queue.now pass.old }
    requires notes { pass.old.me.view.client
        ≡ drainer_notes pass.old.me.view.client.dealt pass.old.me.view.client.taken
        pass.old.me.view.client.claims }
    requires all { ClaimsAll pass.old.me.view.client.dealt pass.old.me.view.client.claims }
    ensures pass { IsSegPassOf queue.now pass.new }
    ensures taken { TakesOne pass.old.me.view.client pass.new.me.view.client result }
{
    queue.pop_as::<TakesFirst, R>(rt, pass)
}

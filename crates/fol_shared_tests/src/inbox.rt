//! Senders, a drainer and a world, as a user has them.

ghost use Rattle.std.specs.Prelude.{◌≡◌, ◌≤◌, All};
ghost use Rattle.fol_live.specs.Lives.{live_id};
ghost use Rattle.fol_inbox.specs.Ids.{inbox_id};

use crate::compare::same;
use crate::world::{finish, last, start_standing};
use fol_inbox::{Closed, Drained, Drainer, Inbox, InboxParts, Receipt, Sender};
use fol_live::{Finish, Live, LiveAndSeats, Seat};
use fol_model::{Accept, Action, ChunkPos};
use std::alloc::Global;
use std::process::Abort;
use std::sync::Wait;
use std::thread::{Threads, join};

/// A world with a seat for the caller and one for the drainer of an inbox with two senders.
struct Scene {
    live: Live,
    caller: Seat,
    inbox: Inbox,
    zero: Sender,
    one: Sender,
    drainer: Drainer,
}

/// The last sender that is left, which is this one.
fn last_sender(rt: &impl Abort, inbox: &Inbox, senders: &mut Vec<Sender>, number: u32) -> Sender
    requires own { All (λ s. s.inbox ≡ inbox_id inbox.now) senders.old.items }
    ensures rest { All (λ s. s.inbox ≡ inbox_id inbox.now) senders.new.items }
    ensures own { result.inbox ≡ inbox_id inbox.now }
    ensures number { result.number ≡ number }
{
    let Some(sender) = senders.pop() else {
        panic!(rt; "a sender is left");
    };
    assert_eq!(rt; sender.number(), number);
    sender
}

/// What each test starts with.
fn make_scene(rt: &impl Abort, alloc: Global) -> Scene
    ensures caller { result.caller.lock ≡ live_id result.live }
    ensures zero { (result.zero.inbox ≡ inbox_id result.inbox) × (result.zero.number ≡ 0) }
    ensures one { (result.one.inbox ≡ inbox_id result.inbox) × (result.one.number ≡ 1) }
    ensures drainer { (result.drainer.inbox ≡ inbox_id result.inbox)
        × (result.drainer.senders ≡ 2) }
    ensures world { result.drainer.seat.lock ≡ live_id result.live }
{
    let LiveAndSeats { live, mut seats } = start_standing(rt, alloc, 2);
    let seat = last(rt, &live, &mut seats, 1);
    let caller = last(rt, &live, &mut seats, 0);
    let Ok(
        InboxParts {
            inbox,
            mut senders,
            drainer,
        },
    ) = Inbox::start(alloc, seat, 2)
    else {
        panic!(rt; "memory");
    };
    let one = last_sender(rt, &inbox, &mut senders, 1);
    let zero = last_sender(rt, &inbox, &mut senders, 0);
    Scene {
        live,
        caller,
        inbox,
        zero,
        one,
        drainer,
    }
}

/// Sends a letter that asks for an unload, which has this place.
#[tactic(auto, unfolding(fol_model::specs::Geometry::is_chunk, fol_model::specs::Limits::is_delay, fol_model::specs::Limits::is_action, fol_model::specs::Limits::may_post))]
fn send<R: Abort + Wait>(rt: &R, inbox: &Inbox, sender: &mut Sender, place: u64)
    requires own { sender.old.inbox ≡ inbox_id inbox.now }
    ensures own { sender.new.inbox ≡ inbox_id inbox.now }
    ensures number { sender.new.number ≡ sender.old.number }
{
    let chunk = ChunkPos { x: 0, z: 0 };
    match inbox.send(rt, sender, chunk, 1, Action::Unload(chunk)) {
        Ok(found) => same(rt, &found, &place),
        Err(_) => panic!(rt; "memory"),
    }
}

/// The letters that `send_three` sends, each with whose it is and its place, in the order in which they come.
const THREE: [(u32, u64); 3] = [(0, 0), (1, 0), (0, 1)];

/// Sends two letters of sender 0, and between them one of sender 1.
fn send_three<R: Abort + Wait>(rt: &R, inbox: &Inbox, zero: &mut Sender, one: &mut Sender)
    requires zero { zero.old.inbox ≡ inbox_id inbox.now }
    requires one { one.old.inbox ≡ inbox_id inbox.now }
    ensures zero { zero.new.inbox ≡ inbox_id inbox.now }
    ensures zero_number { zero.new.number ≡ zero.old.number }
    ensures one { one.new.inbox ≡ inbox_id inbox.now }
    ensures one_number { one.new.number ≡ one.old.number }
{
    send(rt, inbox, zero, 0);
    send(rt, inbox, one, 0);
    send(rt, inbox, zero, 1);
}

/// Posts at most so many letters, and is answered this.
fn drain<R: Abort + Wait>(
    rt: &R,
    inbox: &Inbox,
    drainer: &mut Drainer,
    live: &Live,
    max: u32,
    wanted: Drained,
)
    requires own { drainer.old.inbox ≡ inbox_id inbox.now }
    requires world { drainer.old.seat.lock ≡ live_id live.now }
    requires max { (1 ≤ max) × (max ≤ 65536) }
    ensures own { drainer.new.inbox ≡ inbox_id inbox.now }
    ensures world { drainer.new.seat.lock ≡ live_id live.now }
    ensures senders { drainer.new.senders ≡ drainer.old.senders }
{
    same(rt, &inbox.drain(rt, drainer, live, max), &Ok(wanted));
}

/// Ends an inbox with two senders.
fn close<R: Abort + Wait>(
    rt: &R,
    alloc: Global,
    inbox: Inbox,
    zero: Sender,
    one: Sender,
    drainer: Drainer,
) -> Closed
    requires zero { (zero.inbox ≡ inbox_id inbox) × (zero.number ≡ 0) }
    requires one { (one.inbox ≡ inbox_id inbox) × (one.number ≡ 1) }
    requires drainer { (drainer.inbox ≡ inbox_id inbox) × (drainer.senders ≡ 2) }
{
    let senders = Vec::from_array(alloc, [zero, one]).expect(rt, "memory");
    inbox.close(rt, senders, drainer)
}

/// How many receipts are of these letters, each with whose it is and at what place, up to the first that is not. All were posted, one after
/// another from the first entry on.
fn count_same(receipts: &[Receipt], letters: &[(u32, u64)]) -> usize {
    let mut count = 0usize;
    let mut entry = 0_u64;
    for (receipt, (sender, place)) in receipts.iter().zip(letters) {
        let next = entry.saturating_add(1);
        let is_letter = receipt.sender == *sender && receipt.place == *place;
        if !is_letter || receipt.entry != entry || receipt.answer != Accept::Posted(next) {
            return count;
        }
        entry = next;
        count = count.saturating_add(1);
    }
    count
}

/// Compares the receipts with the letters that `send_three` sent.
fn compare(rt: &impl Abort, receipts: &[Receipt]) {
    same(rt, &(receipts.len(), count_same(receipts, &THREE)), &(3, 3));
}

/// Compares whose letter is held and at what place, and the place of the one that is left.
fn compare_rest<R: Abort + Wait>(
    rt: &R,
    closed: &mut Closed,
    held: Option<(u32, u64)>,
    left: Option<u64>,
) {
    let found = match &closed.held {
        Some(letter) => Some((letter.sender, letter.place)),
        None => None,
    };
    same(rt, &found, &held);
    let next = closed.rest.next(rt).map(|letter| letter.place);
    same(rt, &next, &left);
    same(rt, &closed.rest.next(rt).is_none(), &true);
}

#[test]
fn letters_are_posted_in_the_order_in_which_they_came(rt: HostRuntime) {
    let alloc = rt.alloc();
    let Scene {
        live,
        caller: _caller,
        inbox,
        mut zero,
        mut one,
        mut drainer,
    } = make_scene(&rt, alloc);
    send_three(&rt, &inbox, &mut zero, &mut one);
    drain(&rt, &inbox, &mut drainer, &live, 2, Drained::Moved(2));
    drain(&rt, &inbox, &mut drainer, &live, 8, Drained::Empty(1));
    send(&rt, &inbox, &mut zero, 2);
    let mut closed = close(&rt, alloc, inbox, zero, one, drainer);
    compare(&rt, closed.receipts.as_slice());
    compare_rest(&rt, &mut closed, None, Some(2));
}

#[test]
fn a_letter_that_comes_after_finish_is_held(rt: HostRuntime) {
    let alloc = rt.alloc();
    let Scene {
        live,
        mut caller,
        inbox,
        mut zero,
        mut one,
        mut drainer,
    } = make_scene(&rt, alloc);
    send_three(&rt, &inbox, &mut zero, &mut one);
    drain(&rt, &inbox, &mut drainer, &live, 8, Drained::Empty(3));
    finish(&rt, &live, &mut caller, Finish::Finished);
    send(&rt, &inbox, &mut one, 1);
    drain(&rt, &inbox, &mut drainer, &live, 1, Drained::Over(0));
    let mut closed = close(&rt, alloc, inbox, zero, one, drainer);
    compare(&rt, closed.receipts.as_slice());
    compare_rest(&rt, &mut closed, Some((1, 1)), None);
}

/// Sends so many letters, whose places rise by one.
fn send_often<R: Abort + Wait>(rt: &R, inbox: &Inbox, mut sender: Sender, times: u64) -> Sender
    requires { sender.inbox ≡ inbox_id inbox.now }
    ensures own { result.inbox ≡ inbox_id inbox.now }
    ensures number { result.number ≡ sender.number }
{
    for place in 0..times {
        send(rt, inbox, &mut sender, place);
    }
    sender
}

/// Two threads send so many letters each.
fn send_side_by_side<R: Threads + Abort + Wait + Sync>(
    rt: &R,
    inbox: &Inbox,
    zero: Sender,
    one: Sender,
    times: u64,
) -> (Sender, Sender)
    requires zero { zero.inbox ≡ inbox_id inbox.now }
    requires one { one.inbox ≡ inbox_id inbox.now }
    ensures zero { (result.0.inbox ≡ inbox_id inbox.now) × (result.0.number ≡ zero.number) }
    ensures one { (result.1.inbox ≡ inbox_id inbox.now) × (result.1.number ≡ one.number) }
{
    join(
        rt,
        || -> Sender
            requires { zero.inbox ≡ inbox_id inbox.now }
            ensures { (result.inbox ≡ inbox_id inbox.entry.now) × (result.number ≡ zero.number) }
        { send_often(rt, inbox, zero, times) },
        || -> Sender
            requires { one.inbox ≡ inbox_id inbox.now }
            ensures { (result.inbox ≡ inbox_id inbox.entry.now) × (result.number ≡ one.number) }
        { send_often(rt, inbox, one, times) },
    )
}

/// How many of the sender's receipts have the places 0, 1, 2 and so on, in this order.
fn count_in_order(receipts: &[Receipt], sender: u32) -> u64 {
    let mut next = 0_u64;
    for receipt in receipts {
        if receipt.sender == sender && receipt.place == next {
            next = next.saturating_add(1);
        }
    }
    next
}

#[test]
fn letters_of_two_threads_are_all_posted_each_thread_in_its_order(rt: HostRuntime) {
    let alloc = rt.alloc();
    let Scene {
        live,
        caller: _caller,
        inbox,
        zero,
        one,
        mut drainer,
    } = make_scene(&rt, alloc);
    let (zero, one) = send_side_by_side(&rt, &inbox, zero, one, 100);
    drain(&rt, &inbox, &mut drainer, &live, 1_000, Drained::Empty(200));
    let Closed {
        receipts,
        held: _held,
        rest: _rest,
        seat: _seat,
    } = close(&rt, alloc, inbox, zero, one, drainer);
    let counts = (
        receipts.len(),
        count_in_order(receipts.as_slice(), 0),
        count_in_order(receipts.as_slice(), 1),
    );
    drop(receipts);
    same(&rt, &counts, &(200, 100, 100));
}

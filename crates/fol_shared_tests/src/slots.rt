//! A keeper and its workers, on one thread and on several.

ghost use Rattle.std.specs.Prelude.{◌≡◌, ℕ, ◌<◌, None, IsSome, All, IfOk, vec_len};
ghost use Rattle.fol_slots.specs.Table.{slots_id, slot_count};
ghost use Rattle.fol_slots.specs.Shown.{place_at};
ghost use Rattle.fol_shared_tests.specs.declared.slots.TheConstants.{COUNT};

use crate::compare::same;
use fol_slots::{Body, Claim, Keep, KeeperSeat, Slots, SlotsAndSeats, Word, WorkerSeat};
use std::alloc::{AllocError, Global};
use std::test::Fail;
use std::thread::{Threads, join};

/// A body of which every value is fit.
#[derive(Drop)]
struct Number(u64);

impl Body for Number {
    ghost use Rattle.std.specs.Prelude.{⊤};

    ghost fit = { λ _. ⊤ };
}

/// Worker 1 claims the body of slot 0, worker 2 and the keeper find it there, and the keeper takes 8 in.
/// Gives the body that was claimed, and the one that was taken in; `None` where an answer is another one.
fn claim_and_take_in(
    slots: &Slots<Number>,
    keeper: &mut KeeperSeat<Number>,
    mut first: WorkerSeat<Number>,
    mut second: WorkerSeat<Number>,
) -> Option<(u64, u64)>
    requires some { 0 < slot_count slots.now }
    requires keeper { (keeper.old.slots ≡ slots_id slots.now)
        × IsSome (place_at keeper.old 0).kept }
    requires first { (first.slots ≡ slots_id slots.now) × (first.slot ≡ None) }
    requires second { (second.slots ≡ slots_id slots.now) × (second.slot ≡ None) }
{
    slots.offer(keeper, 0);
    let Claim::Claimed(claimed) = slots.try_claim(&mut first, 0) else {
        return None;
    };
    let Claim::Taken(Word::Ticking(1)) = slots.try_claim(&mut second, 0) else {
        return None;
    };
    let Keep::Busy(1) = slots.try_keep(keeper, 0) else {
        return None;
    };
    let first = slots.meet(first, keeper);
    let _first = slots.take_in(first, keeper, Number(8));
    let taken_in = slots.body(keeper, 0, Number(9));
    Some((claimed.0, taken_in.0))
}

#[test]
fn one_body_and_two_workers(rt: HostRuntime) -> Result<(), Fail> {
    let mut bodies = Vec::new(rt.alloc());
    bodies.push(Number(7))?;
    let SlotsAndSeats {
        slots,
        mut keeper,
        seats,
    } = Slots::new(rt.alloc(), bodies, 2)?;
    let mut seats = seats.into_vec();
    let Some(second) = seats.pop() else {
        panic!(rt; "two seats")
    };
    let Some(first) = seats.pop() else {
        panic!(rt; "two seats")
    };
    let found = claim_and_take_in(&slots, &mut keeper, first, second);
    same(&rt, &found, &Some((7, 8)));
    Ok(())
}

/// The keeper keeps a slot again that nobody claimed. Gives its body.
fn offer_and_keep(slots: &Slots<Number>, keeper: &mut KeeperSeat<Number>) -> Option<u64>
    requires some { 0 < slot_count slots.now }
    requires keeper { (keeper.old.slots ≡ slots_id slots.now)
        × IsSome (place_at keeper.old 0).kept }
{
    slots.offer(keeper, 0);
    let Keep::Kept = slots.try_keep(keeper, 0) else {
        return None;
    };
    Some(slots.body(keeper, 0, Number(9)).0)
}

#[test]
fn an_unclaimed_body_is_kept_again(rt: HostRuntime) -> Result<(), Fail> {
    let mut bodies = Vec::new(rt.alloc());
    bodies.push(Number(7))?;
    let SlotsAndSeats {
        slots,
        mut keeper,
        seats: _,
    } = Slots::new(rt.alloc(), bodies, 0)?;
    let kept = offer_and_keep(&slots, &mut keeper);
    same(&rt, &kept, &Some(7));
    Ok(())
}

/// How many slots the threads claim from.
const COUNT: u32 = 16;

/// Offers each slot; the keeper keeps them all.
fn offer_all(slots: &Slots<Number>, keeper: &mut KeeperSeat<Number>)
    requires count { slot_count slots.now ≡ COUNT }
    requires slots { keeper.old.slots ≡ slots_id slots.now }
    requires kept { (i : ℕ) → i < COUNT → IsSome (place_at keeper.old i).kept }
{
    for i in 0..COUNT {
        slots.offer(keeper, i);
    }
}

/// Tries each slot, with a seat of its own, and marks the bodies that it claims: bit k stands for body k.
fn claim_from_each(slots: &Slots<Number>, mut seats: Vec<WorkerSeat<Number>>) -> u64
    requires count { slot_count slots.now ≡ COUNT }
    requires free { All (λ s. (s.slots ≡ slots_id slots.now) × (s.slot ≡ None)) seats.items }
{
    let mut claimed = 0;
    for i in 0..COUNT {
        let Some(mut seat) = seats.pop() else {
            return claimed;
        };
        match slots.try_claim(&mut seat, i) {
            Claim::Claimed(body) => claimed |= 1 << (body.0 % 64),
            Claim::Taken(_) => {}
        }
    }
    claimed
}

/// What each of two threads claims.
fn claim_from_both<R: Threads>(
    rt: &R,
    slots: &Slots<Number>,
    first: Vec<WorkerSeat<Number>>,
    second: Vec<WorkerSeat<Number>>,
) -> (u64, u64)
    requires count { slot_count slots.now ≡ COUNT }
    requires first { All (λ s. (s.slots ≡ slots_id slots.now) × (s.slot ≡ None)) first.items }
    requires second { All (λ s. (s.slots ≡ slots_id slots.now) × (s.slot ≡ None)) second.items }
{
    join(
        rt,
        move || -> u64
            requires { (slot_count slots.now ≡ COUNT)
                × All (λ s. (s.slots ≡ slots_id slots.now) × (s.slot ≡ None)) first.items }
        { claim_from_each(slots, first) },
        move || -> u64
            requires { (slot_count slots.now ≡ COUNT)
                × All (λ s. (s.slots ≡ slots_id slots.now) × (s.slot ≡ None)) second.items }
        { claim_from_each(slots, second) },
    )
}

fn numbered_bodies(alloc: Global) -> Result<Vec<Number>, AllocError>
    ensures { IfOk result (λ bodies. vec_len bodies ≡ COUNT) }
{
    let mut bodies = Vec::new(alloc);
    for number in 0..COUNT {
        bodies.push(Number(number as u64))?;
    }
    Ok(bodies)
}

#[test]
fn two_threads_claim_each_body_once(rt: HostRuntime) -> Result<(), Fail> {
    let SlotsAndSeats {
        slots,
        mut keeper,
        seats,
    } = Slots::new(rt.alloc(), numbered_bodies(rt.alloc())?, 2 * COUNT)?;
    offer_all(&slots, &mut keeper);
    let mut seats = seats.into_vec();
    assert_eq!(rt; seats[0].number(), 1);
    let others = seats.split_off(COUNT as usize)?;
    let (first, second) = claim_from_both(&rt, &slots, seats, others);
    same(&rt, &(first & second, first | second), &(0, 0xffff));
    Ok(())
}

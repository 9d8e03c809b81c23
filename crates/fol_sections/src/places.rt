//! Numbers by place: how many holds each chunk has.

ghost use Rattle.std.specs.Prelude.{◌≡◌, ℤ, ◌+◌, ◌<◌, ◌≤◌, ◌-◌, ◌^◌, ◌&&◌, cond, Some, None, is_some, true, false, nat_lt, if◌then◌else◌};
ghost use Rattle.std.specs.Option.{unwrap_or};
ghost use Rattle.std.specs.Ordering.{int_eq};
ghost use Rattle.std.specs.HashMap.{hash_map_len, spare};
ghost use Rattle.fol_sections.specs.Places.{number_at, is_same};

use std::collections::HashMap;

/// Numbers by the `x` and `z` of a place.
pub type Numbers = HashMap<(i32, i32), u64>;

/// The number at a place.
pub fn number(numbers: &Numbers, x: i32, z: i32) -> Option<u64>
    ensures { result ≡ number_at numbers.now.entries x z }
{
    match numbers.get(&(x, z)) {
        Some(n) => Some(*n),
        None => None,
    }
}

/// Puts a number at a place, whether it had one or not.
pub fn put(numbers: &mut Numbers, x: i32, z: i32, n: u64)
    requires room { 0 < spare numbers.old }
    ensures put { (a b : ℤ) → number_at numbers.new.entries a b
        ≡ cond (is_same x z a b) (Some n) (number_at numbers.old.entries a b) }
    ensures len { hash_map_len numbers.new
        ≡ hash_map_len numbers.old + (if is_some (number_at numbers.old.entries x z) then 0
        else 1) }
    ensures room { spare numbers.old ≤ spare numbers.new + 1 }
{
    let _ = numbers.insert((x, z), n);
}

/// Adds one to the number at a place, which is 0 where it has none, and gives the number before.
pub fn raise(numbers: &mut Numbers, x: i32, z: i32) -> u64
    requires room { 0 < spare numbers.old }
    requires few { unwrap_or (number_at numbers.old.entries x z) 0 < 2 ^ 62 }
    ensures before { result ≡ unwrap_or (number_at numbers.old.entries x z) 0 }
    ensures put { (a b : ℤ) → number_at numbers.new.entries a b
        ≡ cond (is_same x z a b) (Some (unwrap_or (number_at numbers.old.entries x z) 0 + 1))
        (number_at numbers.old.entries a b) }
    ensures room { spare numbers.old ≤ spare numbers.new + 1 }
{
    match numbers.get_mut(&(x, z)) {
        Some(number) => {
            let before = *number;
            *number = before + 1;
            before
        }
        None => {
            let _ = numbers.insert((x, z), 1);
            0
        }
    }
}

/// Adds one to the number at a place where that is more than 0, and says whether it is.
pub fn raise_again(numbers: &mut Numbers, x: i32, z: i32) -> bool
    requires few { unwrap_or (number_at numbers.old.entries x z) 0 < 2 ^ 62 }
    ensures some { result ≡ nat_lt 0 (unwrap_or (number_at numbers.old.entries x z) 0) }
    ensures more { result ≡ true → (a b : ℤ) → number_at numbers.new.entries a b
        ≡ cond (is_same x z a b) (Some (unwrap_or (number_at numbers.old.entries x z) 0 + 1))
        (number_at numbers.old.entries a b) }
    ensures stays { result ≡ false → numbers.new.entries ≡ numbers.old.entries }
    ensures room { spare numbers.new ≡ spare numbers.old }
{
    match numbers.get_mut(&(x, z)) {
        Some(number) => {
            let is_held = *number > 0;
            if is_held {
                *number += 1;
            }
            is_held
        }
        None => false,
    }
}

/// Takes one off the number at a place where that is more than 1, and gives the number before: 0 where it has none.
pub fn lower(numbers: &mut Numbers, x: i32, z: i32) -> u64
    ensures before { result ≡ unwrap_or (number_at numbers.old.entries x z) 0 }
    ensures less { 1 < result → (a b : ℤ) → number_at numbers.new.entries a b
        ≡ cond (is_same x z a b) (Some (result - 1)) (number_at numbers.old.entries a b) }
    ensures stays { result ≤ 1 → numbers.new.entries ≡ numbers.old.entries }
    ensures room { spare numbers.new ≡ spare numbers.old }
{
    match numbers.get_mut(&(x, z)) {
        Some(number) => {
            let before = *number;
            if before > 1 {
                *number = before - 1;
            }
            before
        }
        None => 0,
    }
}

/// Takes out the number at a place, if it has one.
pub fn take_out(numbers: &mut Numbers, x: i32, z: i32)
    ensures out { (a b : ℤ) → number_at numbers.new.entries a b
        ≡ cond (is_same x z a b) None (number_at numbers.old.entries a b) }
    ensures len { hash_map_len numbers.new + (if is_some (number_at numbers.old.entries x z) then 1
        else 0) ≡ hash_map_len numbers.old }
    ensures room { spare numbers.old ≤ spare numbers.new }
{
    let _ = numbers.remove(&(x, z));
}

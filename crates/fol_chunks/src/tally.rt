//! How many entities stand in each chunk.

ghost use Rattle.std.specs.Prelude.{◌≡◌, ◌+◌, ◌≤◌, ◌<◌, ◌^◌, ℤ, true, cond};
ghost use Rattle.std.specs.HashMap.{spare};
ghost use Rattle.std.specs.List.Sorted.{IsStrictlySortedBy};
ghost use Rattle.fol_keyed.specs.Order.{chunk_cmp};
ghost use Rattle.fol_blocks.specs.Cells.{same_key};
ghost use Rattle.fol_chunks.specs.Tallies.{number_of, total_of, is_key_of};

use fol_blocks::key_of;
use fol_model::ChunkPos;
use std::collections::HashMap;

/// The number of each chunk in which an entity stands, by the x and the z of the chunk.
pub type Tally = HashMap<(i32, i32), usize>;

/// The number of a chunk.
fn number_at(tally: &Tally, key: (i32, i32)) -> usize
    ensures { result ≡ number_of tally.now.entries key }
{
    match tally.get(&key) {
        Some(number) => *number,
        None => 0,
    }
}

/// The numbers of the chunks together. Costs a look-up for each chunk, and nothing where no number is kept.
pub fn total(tally: &Tally, chunks: &[ChunkPos]) -> usize
    requires few { total_of tally.now.entries chunks.now < 2 ^ 64 }
    ensures { result ≡ total_of tally.now.entries chunks.now }
{
    if tally.is_empty() {
        return 0;
    }
    let mut total = 0;
    for c in chunks {
        total += number_at(tally, key_of(*c));
    }
    total
}

/// Raises the number of a chunk. Takes no memory.
pub fn raise(tally: &mut Tally, key: (i32, i32), more: usize)
    requires room { 0 < spare tally.old }
    requires few { number_of tally.old.entries key + more < 2 ^ 64 }
    ensures numbers { (q : ℤ × ℤ) → number_of tally.new.entries q
        ≡ number_of tally.old.entries q + cond (same_key key q) more 0 }
    ensures spare { spare tally.old ≤ spare tally.new + 1 }
{
    let number = number_at(tally, key) + more;
    match tally.insert(key, number) {
        Ok(_) => {}
        Err(_) => unreachable!(),
    }
}

/// Lowers the number of a chunk by one. Takes no memory.
pub fn lower(tally: &mut Tally, key: (i32, i32))
    requires { 0 < number_of tally.old.entries key }
    ensures numbers { (q : ℤ × ℤ) → number_of tally.new.entries q + cond (same_key key q) 1 0
        ≡ number_of tally.old.entries q }
    ensures spare { spare tally.old ≤ spare tally.new }
{
    if lower_there(tally, key) {
        let _ = tally.remove(&key);
    }
}

/// Lowers the number of a chunk by one, and says whether it is 0 then.
fn lower_there(tally: &mut Tally, key: (i32, i32)) -> bool
    requires { 0 < number_of tally.old.entries key }
    ensures numbers { (q : ℤ × ℤ) → number_of tally.new.entries q + cond (same_key key q) 1 0
        ≡ number_of tally.old.entries q }
    ensures zero { result ≡ true → number_of tally.new.entries key ≡ 0 }
    ensures spare { spare tally.old ≤ spare tally.new }
{
    match tally.get_mut(&key) {
        Some(number) => {
            *number -= 1;
            *number == 0
        }
        None => unreachable!(),
    }
}

/// Moves the numbers of the chunks, which stand by z, and then by x, and gives their sum. Costs a look-up for each chunk, and nothing where no
/// number is kept. Takes no memory.
pub fn move_listed(tally: &mut Tally, chunks: &[ChunkPos], into: &mut Tally) -> usize
    requires order { IsStrictlySortedBy chunk_cmp chunks.now }
    requires room { total_of tally.old.entries chunks.now ≤ spare into.old }
    requires few { total_of tally.old.entries chunks.now < 2 ^ 64 }
    requires few_each { (q : ℤ × ℤ)
        → number_of into.old.entries q + number_of tally.old.entries q < 2 ^ 64 }
    ensures total { result ≡ total_of tally.old.entries chunks.now }
    ensures left { (q : ℤ × ℤ) → number_of tally.new.entries q
        ≡ cond (is_key_of chunks.now q) 0 (number_of tally.old.entries q) }
    ensures moved { (q : ℤ × ℤ) → number_of into.new.entries q ≡ number_of into.old.entries q
        + cond (is_key_of chunks.now q) (number_of tally.old.entries q) 0 }
    ensures spare { spare tally.old ≤ spare tally.new }
    ensures into_spare { spare into.old
        ≤ spare into.new + total_of tally.old.entries chunks.now }
{
    if tally.is_empty() {
        return 0;
    }
    let mut moved = 0;
    for c in chunks {
        moved += move_number(tally, key_of(*c), into);
    }
    moved
}

/// Moves the number of a chunk, and gives it. Takes no memory.
fn move_number(tally: &mut Tally, key: (i32, i32), into: &mut Tally) -> usize
    requires room { number_of tally.old.entries key ≤ spare into.old }
    requires few { number_of into.old.entries key + number_of tally.old.entries key < 2 ^ 64 }
    ensures number { result ≡ number_of tally.old.entries key }
    ensures left { (q : ℤ × ℤ) → number_of tally.new.entries q
        ≡ cond (same_key key q) 0 (number_of tally.old.entries q) }
    ensures moved { (q : ℤ × ℤ) → number_of into.new.entries q
        ≡ number_of into.old.entries q + cond (same_key key q) (number_of tally.old.entries key) 0 }
    ensures spare { spare tally.old ≤ spare tally.new }
    ensures into_spare { spare into.old ≤ spare into.new + result }
{
    let number = tally.remove(&key).unwrap_or(0);
    if number > 0 {
        raise(into, key, number);
    }
    number
}

//! Lists in order: how they join, and how they are parted.

ghost use Rattle.std.specs.Prelude.{◌≡◌, ◌+◌, ◌≤◌, not, length, take, ◌++◌, filter, count_by, vec_len};
ghost use Rattle.std.specs.Vec.{vec_capacity};
ghost use Rattle.std.specs.List.Sorted.{IsStrictlySortedBy, IsPermutation};
ghost use Rattle.std.specs.Ordering.{is_gt};
ghost use Rattle.fol_keyed.specs.Apart.{Untied};
ghost use Rattle.fol_keyed.specs.Members.{is_listed};

use crate::{ChunkList, Row};

/// How many of the rows lie in the chunks of the list.
pub fn count_listed<T: Row>(rows: &[T], list: &ChunkList) -> usize
    ensures { result ≡ count_by (λ r. is_listed list.now.chunks.now (T.place r)) rows.now }
{
    rows.iter().filter(|row| list.has(row.chunk())).count()
}

/// Takes the rows of another list in, of which none ties with one that is there.
pub fn join<T: Row>(rows: &mut Vec<T>, others: &[T])
    requires room { vec_len rows.old + length others.now ≤ vec_capacity rows.old }
    requires order { IsStrictlySortedBy T.order rows.old.items }
    requires others_order { IsStrictlySortedBy T.order others.now }
    requires apart { Untied T.order rows.old.items others.now }
    ensures same { IsPermutation (rows.old.items ++ others.now) rows.new.items }
    ensures order { IsStrictlySortedBy T.order rows.new.items }
    ensures capacity { vec_capacity rows.old ≤ vec_capacity rows.new }
{
    let kept = rows.len();
    match rows.extend_from_slice(others) {
        Ok(()) => {}
        Err(_) => unreachable!(),
    }
    merge(rows, kept, others);
}

/// Puts the others among the first rows, from the end on, so that each row is read before its place is written.
fn merge<T: Row>(rows: &mut [T], kept: usize, others: &[T])
    requires len { length rows.old ≡ kept + length others.now }
    requires order { IsStrictlySortedBy T.order (take kept rows.old) }
    requires others_order { IsStrictlySortedBy T.order others.now }
    requires apart { Untied T.order (take kept rows.old) others.now }
    ensures same { IsPermutation (take kept rows.old ++ others.now) rows.new }
    ensures order { IsStrictlySortedBy T.order rows.new }
{
    let mut i = kept;
    let mut j = others.len();
    while j > 0 {
        if i > 0 && is_after(&rows[i - 1], &others[j - 1]) {
            i -= 1;
            rows[i + j] = rows[i];
        } else {
            j -= 1;
            rows[i + j] = others[j];
        }
    }
}

/// Whether a row stands after another.
fn is_after<T: Row>(row: &T, other: &T) -> bool
    ensures { result ≡ is_gt (T.order row.now other.now) }
{
    row.compare(other).is_gt()
}

/// Moves the rows that lie in the chunks of the list into another list, in which none ties with them.
pub fn move_listed<T: Row>(rows: &mut Vec<T>, list: &ChunkList, into: &mut Vec<T>)
    requires room { vec_len into.old + count_by (λ r. is_listed list.now.chunks.now (T.place r))
        rows.old.items ≤ vec_capacity into.old }
    requires order { IsStrictlySortedBy T.order rows.old.items }
    requires into_order { IsStrictlySortedBy T.order into.old.items }
    requires apart { Untied T.order into.old.items
        (filter (λ r. is_listed list.now.chunks.now (T.place r)) rows.old.items) }
    ensures left { rows.new.items ≡ filter (λ r. not (is_listed list.now.chunks.now (T.place r)))
        rows.old.items }
    ensures moved { IsPermutation (into.old.items
        ++ filter (λ r. is_listed list.now.chunks.now (T.place r)) rows.old.items) into.new.items }
    ensures into_order { IsStrictlySortedBy T.order into.new.items }
    ensures capacity { vec_capacity rows.old ≤ vec_capacity rows.new }
    ensures into_capacity { vec_capacity into.old ≤ vec_capacity into.new }
{
    let kept = into.len();
    copy_listed(rows, list, into);
    if into.len() == kept {
        return;
    }
    rows.retain(|row| !list.has(row.chunk()));
    let left = rows.len();
    match rows.extend_from_slice(&into[kept..]) {
        Ok(()) => {}
        Err(_) => unreachable!(),
    }
    merge(into, kept, &rows[left..]);
    rows.truncate(left);
}

/// Copies the rows that lie in the chunks of the list behind those of another list.
fn copy_listed<T: Row>(rows: &[T], list: &ChunkList, into: &mut Vec<T>)
    requires { vec_len into.old + count_by (λ r. is_listed list.now.chunks.now (T.place r)) rows.now
        ≤ vec_capacity into.old }
    ensures items { into.new.items ≡ into.old.items
        ++ filter (λ r. is_listed list.now.chunks.now (T.place r)) rows.now }
    ensures capacity { vec_capacity into.new ≡ vec_capacity into.old }
{
    for row in rows.iter() {
        if list.has(row.chunk()) {
            into.push_reserved(*row);
        }
    }
}

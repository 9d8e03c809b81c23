//! Elements in one vector, and the lists as spans of it.

ghost use Rattle.std.specs.Prelude.{◌≡◌, ℕ, ◌+◌, ◌*◌, ◌<◌, ◌≤◌, ◌^◌, [], ◌++◌, length, slice_set, sum_by, take};
ghost use Rattle.std.specs.List.{All, slice_index_or};
ghost use Rattle.std.specs.Vec.{vec_capacity};
ghost use Rattle.fol_lists.specs.Numbered.{shifted};
ghost use Rattle.fol_lists.specs.Spans.{AreApart, AreSpans, HasRoom, IsSpan, piece_of, pieces_of};

use crate::spans::Span;
use std::mem;

/// Writes one list behind those of another vector, and says where it is there. Most lists are empty, and nothing is copied for these.
fn write<T: Copy>(cells: &[T], span: Span, into: &mut Vec<T>) -> Span
    requires fit { IsSpan (length cells.now) span }
    requires room { length into.old.items + length (piece_of cells.now span)
        ≤ vec_capacity into.old }
    ensures written { into.new.items ≡ into.old.items ++ piece_of cells.now span }
    ensures from { result.from ≡ length into.old.items }
    ensures to { result.to ≡ length into.new.items }
    ensures end { result.end ≡ length into.new.items }
    ensures capacity { vec_capacity into.old ≤ vec_capacity into.new }
{
    let from = into.len();
    if span.from < span.to {
        let _ = into.extend_from_slice(&cells[span.from..span.to]);
    }
    Span {
        from,
        to: into.len(),
        end: into.len(),
    }
}

/// Writes all lists into an empty vector, one behind the other, with no free places.
fn write_all<T: Copy>(cells: &[T], spans: &mut [Span], into: &mut Vec<T>)
    requires fit { All (IsSpan (length cells.now)) spans.old }
    requires none { into.old.items ≡ [] }
    requires room { sum_by length (pieces_of cells.now spans.old) ≤ vec_capacity into.old }
    ensures lists { pieces_of into.new.items spans.new ≡ pieces_of cells.now spans.old }
    ensures fit { All (IsSpan (length into.new.items)) spans.new }
    ensures apart { AreApart spans.new }
    ensures used { length into.new.items ≡ sum_by length (pieces_of cells.now spans.old) }
    ensures capacity { vec_capacity into.old ≤ vec_capacity into.new }
{
    for i in 0..spans.len() {
        spans[i] = write(cells, spans[i], into);
    }
}

/// Writes the lists close together, where so many more places would not find room otherwise.
fn make_room<T: Copy>(
    cells: &mut Vec<T>,
    spare: &mut Vec<T>,
    spans: &mut [Span],
    room: usize,
    more: usize,
)
    requires lists { AreSpans cells.old.items spans.old room }
    requires none { spare.old.items ≡ [] }
    requires memory { HasRoom room (vec_capacity cells.old) (vec_capacity spare.old) }
    requires more { more ≤ 2 * room }
    ensures same { pieces_of cells.new.items spans.new ≡ pieces_of cells.old.items spans.old }
    ensures fit { All (IsSpan (length cells.new.items)) spans.new }
    ensures apart { AreApart spans.new }
    ensures room { length cells.new.items + more ≤ 4 * room }
    ensures none { spare.new.items ≡ [] }
    ensures memory { HasRoom room (vec_capacity cells.new) (vec_capacity spare.new) }
{
    if 4 * room - cells.len() < more {
        write_all(cells, spans, spare);
        mem::swap(cells, spare);
        spare.clear();
    }
}

/// Writes a list behind all others, with more elements and with as many free places as it has then.
fn move_longer<T: Copy>(
    cells: &mut Vec<T>,
    spare: &mut Vec<T>,
    spans: &mut [Span],
    n: usize,
    xs: &[T],
)
    requires fit { All (IsSpan (length cells.old.items)) spans.old }
    requires apart { AreApart spans.old }
    requires none { spare.old.items ≡ [] }
    requires number { n < length spans.old }
    requires room { length cells.old.items
        + 2 * length (slice_index_or (pieces_of cells.old.items spans.old) n [] ++ xs.now)
        ≤ vec_capacity cells.old }
    requires spare { length (slice_index_or (pieces_of cells.old.items spans.old) n [] ++ xs.now)
        ≤ vec_capacity spare.old }
    ensures grown { pieces_of cells.new.items spans.new
        ≡ slice_set (pieces_of cells.old.items spans.old) n
        (slice_index_or (pieces_of cells.old.items spans.old) n [] ++ xs.now) }
    ensures fit { All (IsSpan (length cells.new.items)) spans.new }
    ensures apart { AreApart spans.new }
    ensures used { length cells.new.items ≡ length cells.old.items
        + 2 * length (slice_index_or (pieces_of cells.old.items spans.old) n [] ++ xs.now) }
    ensures none { spare.new.items ≡ [] }
    ensures capacity { vec_capacity cells.old ≤ vec_capacity cells.new }
    ensures spare { vec_capacity spare.old ≤ vec_capacity spare.new }
{
    let span = spans[n];
    let from = cells.len();
    let _ = spare.extend_from_slice(&cells[span.from..span.to]);
    let _ = spare.extend_from_slice(xs);
    let _ = cells.extend_from_slice(spare);
    let to = cells.len();
    let _ = cells.extend_from_slice(spare);
    spare.clear();
    spans[n] = Span {
        from,
        to,
        end: cells.len(),
    };
}

/// Puts elements into the free places behind a list.
fn fill_free<T: Copy>(cells: &mut [T], spans: &mut [Span], n: usize, xs: &[T])
    requires fit { All (IsSpan (length cells.old)) spans.old }
    requires apart { AreApart spans.old }
    requires number { n < length spans.old }
    requires free { (d : Span) → (slice_index_or spans.old n d).to + length xs.now
        ≤ (slice_index_or spans.old n d).end }
    ensures grown { pieces_of cells.new spans.new ≡ slice_set (pieces_of cells.old spans.old) n
        (slice_index_or (pieces_of cells.old spans.old) n [] ++ xs.now) }
    ensures fit { All (IsSpan (length cells.new)) spans.new }
    ensures apart { AreApart spans.new }
    ensures len { length cells.new ≡ length cells.old }
{
    let start = spans[n].to;
    let to = start + xs.len();
    cells[start..to].copy_from_slice(xs);
    spans[n].to = to;
}

/// Puts elements behind those of a list.
pub fn grow<T: Copy>(
    cells: &mut Vec<T>,
    spare: &mut Vec<T>,
    spans: &mut [Span],
    room: usize,
    n: usize,
    xs: &[T],
)
    requires lists { AreSpans cells.old.items spans.old room }
    requires none { spare.old.items ≡ [] }
    requires memory { HasRoom room (vec_capacity cells.old) (vec_capacity spare.old) }
    requires number { n < length spans.old }
    requires room { sum_by length (pieces_of cells.old.items spans.old) + length xs.now ≤ room }
    ensures grown { pieces_of cells.new.items spans.new
        ≡ slice_set (pieces_of cells.old.items spans.old) n
        (slice_index_or (pieces_of cells.old.items spans.old) n [] ++ xs.now) }
    ensures lists { AreSpans cells.new.items spans.new room }
    ensures none { spare.new.items ≡ [] }
    ensures memory { HasRoom room (vec_capacity cells.new) (vec_capacity spare.new) }
{
    let span = spans[n];
    if xs.len() <= span.end - span.to {
        fill_free(cells, spans, n, xs);
        return;
    }
    make_room(cells, spare, spans, room, 2 * (span.len() + xs.len()));
    move_longer(cells, spare, spans, n, xs);
}

/// Moves elements up by so many places, and by as many more as others take that are put before them.
fn shift<T: Copy>(cells: &mut [T], start: usize, end: usize, by: usize, xs: &[T])
    requires rising { start ≤ end }
    requires within { end + by + length xs.now ≤ length cells.old }
    ensures { cells.new ≡ shifted cells.old start end by xs.now }
{
    let from = start + by;
    let to = from + xs.len();
    cells.copy_within(start..end, to);
    cells[from..to].copy_from_slice(xs);
}

/// The same within a list.
pub fn shift_list<T: Copy>(
    cells: &mut [T],
    spans: &[Span],
    n: usize,
    start: usize,
    end: usize,
    by: usize,
    xs: &[T],
)
    requires fit { All (IsSpan (length cells.old)) spans.now }
    requires apart { AreApart spans.now }
    requires number { n < length spans.now }
    requires rising { start ≤ end }
    requires within { end + by + length xs.now
        ≤ length (slice_index_or (pieces_of cells.old spans.now) n []) }
    ensures shifted { pieces_of cells.new spans.now ≡ slice_set (pieces_of cells.old spans.now) n
        (shifted (slice_index_or (pieces_of cells.old spans.now) n []) start end by xs.now) }
    ensures len { length cells.new ≡ length cells.old }
{
    let span = spans[n];
    shift(&mut cells[span.from..span.to], start, end, by, xs);
}

/// Leaves a list its first elements. The places of the others are free from then on.
pub fn cut<T: Copy>(cells: &[T], spans: &mut [Span], n: usize, len: usize)
    requires fit { All (IsSpan (length cells.now)) spans.old }
    requires number { n < length spans.old }
    requires few { len ≤ length (slice_index_or (pieces_of cells.now spans.old) n []) }
    ensures cut { pieces_of cells.now spans.new ≡ slice_set (pieces_of cells.now spans.old) n
        (take len (slice_index_or (pieces_of cells.now spans.old) n [])) }
    ensures lists { (room : ℕ) → AreSpans cells.now spans.old room
        → AreSpans cells.now spans.new room }
{
    spans[n] = spans[n].front(len);
}

//! Lists by number.

ghost use Rattle.std.specs.Prelude.{◌≡◌, ◌+◌, ◌<◌, ◌≤◌, ◌^◌, IfOk, OnOk, OnErr, [], ◌++◌, length, replicate, take};
ghost use Rattle.fol_lists.specs.Numbered.{Numbered, list_at, shifted, total, with_list, with_numbers};

use crate::cells::{cut, grow, shift_list};
use crate::spans::{Span, fill};
use std::alloc::{AllocError, Global};
use std::marker::Model;

/// A list for each number from 0 on. Contracts see them as a list of lists, beside how many elements they may hold together.
#[derive(Drop)]
pub struct Lists<T: Copy> {
    /// The elements. Each list is a span of them with free places behind it; what lies elsewhere was replaced.
    cells: Vec<T>,
    /// Where the lists are written close together once `cells` is used up. Empty between calls.
    spare: Vec<T>,
    /// Where each list is, up to the highest number that was ever written to. There is memory for all numbers.
    spans: Vec<Span>,
    /// How many lists there are. Those that have no span were never written to, and are empty.
    numbers: usize,
    /// How many elements the lists may hold together; the memory holds four times as many.
    room: usize,
}

impl<T: Copy> Model for Lists<T> {
    ghost use Rattle.std.specs.Prelude.{◌≡◌, [], length};
    ghost use Rattle.std.specs.Vec.{vec_capacity};
    ghost use Rattle.fol_lists.specs.Numbered.{Numbered};
    ghost use Rattle.fol_lists.specs.Spans.{AreSpans, HasNumbers, HasRoom, lists_of};

    ghost Value = { Numbered T };

    ghost view = { λ s. record { lists = lists_of s.cells.items s.spans.items s.numbers; room = s.room } };

    ghost invariant = { λ s. AreSpans s.cells.items s.spans.items s.room × (s.spare.items ≡ []) × HasRoom s.room (vec_capacity s.cells) (vec_capacity s.spare) × HasNumbers (length s.spans.items) s.numbers (vec_capacity s.spans) };
}

impl<T: Copy> Lists<T> {
    /// Empty lists with the numbers below `numbers`, with room for `room` elements together. Takes memory, but writes none of it.
    ///
    /// Writing the lists close together goes over all numbers up to the highest that was written to, so `room` should be no less than
    /// `numbers`.
    pub fn new(alloc: Global, numbers: usize, room: usize) -> Result<Lists<T>, AllocError>
        requires { room < 2 ^ 62 }
        ensures { IfOk result (λ v. v ≡ record { lists = replicate numbers []; room = room }) }
    {
        Ok(Lists {
            cells: Vec::with_capacity(alloc, 4 * room)?,
            spare: Vec::with_capacity(alloc, 4 * room)?,
            spans: Vec::with_capacity(alloc, numbers)?,
            numbers,
            room,
        })
    }

    /// How many lists there are, the empty ones too.
    pub fn numbers(&self) -> usize
        ensures { result ≡ length self.now.lists }
    {
        self.numbers
    }

    /// How many elements the lists may hold together.
    pub fn room(&self) -> usize
        ensures { result ≡ self.now.room }
    {
        self.room
    }

    /// The list with this number.
    pub fn get(&self, n: usize) -> &[T]
        requires { n < length self.now.lists }
        ensures { result.now ≡ list_at self.now n }
    {
        if n >= self.spans.len() {
            return &[];
        }
        let span = self.spans[n];
        &self.cells[span.from..span.to]
    }

    /// Makes a list empty.
    pub fn clear(&mut self, n: usize)
        requires { n < length self.old.lists }
        ensures { self.new ≡ with_list self.old n [] }
    {
        self.truncate(n, 0);
    }

    /// Leaves a list its first elements.
    pub fn truncate(&mut self, n: usize, len: usize)
        requires number { n < length self.old.lists }
        requires few { len ≤ length (list_at self.old n) }
        ensures { self.new ≡ with_list self.old n (take len (list_at self.old n)) }
    {
        if n >= self.spans.len() {
            return;
        }
        cut(&self.cells, &mut self.spans, n, len);
    }

    /// Puts elements behind those of a list. Takes no memory.
    pub fn extend(&mut self, n: usize, xs: &[T])
        requires number { n < length self.old.lists }
        requires room { total self.old + length xs.now ≤ self.old.room }
        ensures { self.new ≡ with_list self.old n (list_at self.old n ++ xs.now) }
    {
        fill(&mut self.spans, n + 1);
        grow(
            &mut self.cells,
            &mut self.spare,
            &mut self.spans,
            self.room,
            n,
            xs,
        );
    }

    /// Puts other elements in place of a list's own. Takes no memory.
    pub fn put(&mut self, n: usize, xs: &[T])
        requires number { n < length self.old.lists }
        requires room { total (with_list self.old n xs.now) ≤ self.old.room }
        ensures { self.new ≡ with_list self.old n xs.now }
    {
        self.clear(n);
        self.extend(n, xs);
    }

    /// Moves the elements of a list from `start` up to `end` up by `by` places and as many more as `xs` has, and puts these into the
    /// places before them. The list stays as long: what stood where these stand now is gone. Takes no memory.
    pub fn shift_in(&mut self, n: usize, start: usize, end: usize, by: usize, xs: &[T])
        requires number { n < length self.old.lists }
        requires rising { start ≤ end }
        requires within { end + by + length xs.now ≤ length (list_at self.old n) }
        ensures { self.new ≡ with_list self.old n
            (shifted (list_at self.old n) start end by xs.now) }
    {
        if n >= self.spans.len() {
            return;
        }
        shift_list(&mut self.cells, &self.spans, n, start, end, by, xs);
    }

    /// Makes room for so many elements together. The lists stay either way.
    pub fn reserve_room(&mut self, room: usize) -> Result<(), AllocError>
        requires { room < 2 ^ 62 }
        ensures lists { self.new.lists ≡ self.old.lists }
        ensures ok { OnOk result (room ≤ self.new.room) }
        ensures room { self.old.room ≤ self.new.room }
    {
        if room > self.room {
            self.cells.reserve(4 * room - self.cells.len())?;
            self.spare.reserve(4 * room)?;
            self.room = room;
        }
        Ok(())
    }

    /// Adds empty lists until there are `numbers`, if there are fewer. Nothing changes where memory is short.
    pub fn reserve_numbers(&mut self, numbers: usize) -> Result<(), AllocError>
        ensures ok { OnOk result (self.new ≡ with_numbers self.old numbers) }
        ensures err { OnErr result (self.new ≡ self.old) }
    {
        if numbers > self.numbers {
            self.spans.reserve(numbers - self.spans.len())?;
            self.numbers = numbers;
        }
        Ok(())
    }

    /// The same lists with the same room, in memory of their own. The only error is out of memory.
    pub fn copy(&self, alloc: Global) -> Result<Lists<T>, AllocError>
        ensures { IfOk result (λ v. v ≡ self.now) }
    {
        let mut cells = Vec::with_capacity(alloc, 4 * self.room)?;
        cells.extend_from_slice(&self.cells)?;
        let mut spans = Vec::with_capacity(alloc, self.numbers)?;
        spans.extend_from_slice(&self.spans)?;
        Ok(Lists {
            cells,
            spare: Vec::with_capacity(alloc, 4 * self.room)?,
            spans,
            numbers: self.numbers,
            room: self.room,
        })
    }
}

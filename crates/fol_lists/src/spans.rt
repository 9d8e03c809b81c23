//! Where a list begins and ends among all elements, and which places behind it are its own.

ghost use Rattle.std.specs.Prelude.{◌≡◌, ◌+◌, ◌-◌, ◌≤◌, ◌<◌, ◌^◌, ◌++◌, length, replicate};
ghost use Rattle.std.specs.Vec.{vec_capacity};

/// From a place on, up to but not including another.
#[derive(Clone, Copy)]
pub struct Span {
    /// The first place.
    pub from: usize,
    /// The place behind the last one.
    pub to: usize,
    /// The place behind the free places that follow.
    pub end: usize,
}

impl Span {
    /// Where an empty list is.
    pub const EMPTY: Span = Span {
        from: 0,
        to: 0,
        end: 0,
    };

    /// How many places the span has.
    pub fn len(self) -> usize
        requires { self.from ≤ self.to }
        ensures { result ≡ self.to - self.from }
    {
        self.to - self.from
    }

    /// The first places, so many of them. The others are free.
    pub fn front(self, len: usize) -> Span
        requires { len ≤ self.to - self.from }
        ensures { result ≡ record { «from» = self.from; to = self.from + len; end = self.end } }
    {
        Span {
            from: self.from,
            to: self.from + len,
            end: self.end,
        }
    }
}

/// Adds empty spans until there are `count`, if there are fewer. Takes no memory.
pub fn fill(spans: &mut Vec<Span>, count: usize)
    requires room { count ≤ vec_capacity spans.old }
    ensures filled { spans.new.items ≡ spans.old.items
        ++ replicate (count - length spans.old.items) (record { «from» = 0; to = 0; end = 0 }) }
    ensures capacity { vec_capacity spans.old ≤ vec_capacity spans.new }
{
    if spans.len() < count {
        let _ = spans.resize(count, Span::EMPTY);
    }
}

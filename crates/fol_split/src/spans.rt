//! Where a part begins and ends in the list of all parts' sections.

/// From a place on, up to but not including another.
#[derive(Clone, Copy)]
pub struct Span {
    pub from: usize,
    pub to: usize,
}

//! What the rule of a lock notes of each seat. No value of these types is ever made: only proofs speak of them.
use std::collections::LinkedList;

/// What is known of one seat number.
pub struct Claim<O, E> {
    /// The number of the seat.
    pub number: u32,

    /// The origin of the state; a spent view has none.
    pub origin: Option<O>,

    /// The log as far as the seat has seen it.
    pub seen: LinkedList<E>,

    /// The entries that the seat gave.
    pub mine: LinkedList<E>,
}

/// What one seat at the table knows and has. Two of the fields are numbers, since the rule adds them up over all seats.
pub struct View<O, E> {
    /// 1, or 0 once the seat was joined into another: its view is then spent.
    pub live: u64,

    /// 1 from the draw of a ticket until the turn is passed on, and else 0.
    pub draws: u64,

    /// Whether this is the seat that deals the others.
    pub deals: bool,

    /// Whether the seat has the turn, and so the state.
    pub turn: bool,

    /// The ticket that was drawn last, counted without end.
    pub ticket: u64,

    /// The claim under its own number.
    pub own: Claim<O, E>,

    /// The claims of the seats that were joined into this one.
    pub joined: LinkedList<Claim<O, E>>,
}

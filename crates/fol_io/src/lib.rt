//! The world outside: where the bytes of a run come from and where they go to.
//!
//! A [`Shelf`] gives the bytes held under a name, a [`Sink`] receives bytes, and a [`Gate`] is called once
//! in each tick. Each of them counts: a shelf its faults by name and the bytes that it took, a sink its
//! faults. A call may fail only where a count rose, so a program that is generic over the three can say
//! why it stopped, and what it read and wrote, without knowing which device it was given.
//!
//! `MemShelf` and `MemSink` keep their bytes in memory and fail at the calls that they were told to;
//! `FileShelf` and `StdSink` are a few lines over files and the standard streams, of whose content no
//! contract can tell; `QuietGate` does nothing. The top call reads its texts from a shelf and writes its
//! output by [`put_all_in_pieces`], where its parts lie one behind the other, or by [`put_source`], where a [`Source`]
//! makes it while it is put; whoever runs a tick passes the gate.
#![tactic(auto)]

mod bytes;
mod file_shelf;
mod gate;
mod left;
mod mem_shelf;
mod mem_sink;
mod pieces;
mod shelf;
mod sink;
mod source;
mod std_sink;
#[cfg(test)]
mod tests;
mod text;

pub use bytes::Bytes;
pub use file_shelf::FileShelf;
pub use gate::{Gate, QuietGate};
pub use mem_shelf::{MemShelf, NamedBytes};
pub use mem_sink::MemSink;
pub use pieces::{put_all_in_pieces, put_in_pieces, put_source};
pub use shelf::{Read, Shelf};
pub use sink::{Put, Sink};
pub use source::{PIECE_SIZE, Source};
pub use std_sink::StdSink;
pub use text::Text;

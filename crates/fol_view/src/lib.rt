//! Who owns which section, for readers that take no lock.
//!
//! A **publication** is the length of a beginning of the history and the owners after it. One writer, which has a seat of a shared world,
//! publishes what stands after all that its seat has seen; up to 64 readers, each on a thread of its own, look sections up in it and never
//! take the world's lock. A look-up costs a search by halves among the present sections. Publishing costs a copy of their rows, which the
//! copies of a publication share.
//!
//! A reader may be behind the writer, but never goes back: its list of publications only grows, and a look-up is of the last of it. What the
//! writer tells of its list, a reader may learn; its later look-ups are of that publication or of a later one.
//!
//! The calls that a user makes first, in this order:
//! 1. `View::start` takes a seat, and gives the view, its writer and its readers.
//! 2. `OwnerReader::owner`, with a reader on any thread, looks a section up.
//! 3. `OwnerWriter::refresh` publishes the owners as they are now.
//! 4. `OwnerWriter::tell` and `OwnerReader::learn` let a reader see that publication from now on.
//! 5. `close` takes the writer and all readers back, and gives the seat.
#![tactic(auto)]

mod board;
mod deal;
mod laws;
mod publication;
mod publications;
mod publish;
mod read;
mod reader;
mod rule;
mod start;
mod writer;

pub use board::SeenOwner;
pub use laws::fronts_never_fall;
pub use reader::OwnerReader;
pub use start::{View, ViewParts, close};
pub use writer::{OwnerWriter, Told};

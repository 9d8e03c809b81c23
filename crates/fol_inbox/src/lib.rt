//! Posts for a shared world that don't wait for its lock. A thread that calls `Live::post` waits for its turn; here it has a sender, which
//! puts a letter into a queue and goes on. One drainer posts the letters through its seat, in the order in which they came. At the end
//! each letter that was sent has a receipt, is held or is left, and is so once.
//!
//! The calls that a user makes first, in this order:
//! 1. `Inbox::start` takes a seat, and gives the inbox, its senders and its drainer.
//! 2. `Inbox::send`, with a sender on any thread, puts a letter into the queue and returns its place among the letters of this sender.
//! 3. `Inbox::drain` posts letters, at most so many, and returns how many it posted and why it stopped.
//! 4. `Inbox::close` takes all senders and the drainer back, and gives the receipts, the held letter, what is left and the seat.
//! 5. `Rest::next` gives the next letter that is left.
#![tactic(auto)]

mod close;
mod drain;
mod drainer;
mod gather;
mod inbox;
mod letter;
mod notes;
mod rule;
mod sender;

pub use close::{Closed, Rest};
pub use drain::Drained;
pub use drainer::Drainer;
pub use inbox::{Inbox, InboxParts};
pub use letter::{Letter, Receipt};
pub use sender::Sender;

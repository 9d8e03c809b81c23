//! Slots that hold bodies, each with one word that says in whose hands its body is.
//!
//! A worker claims the body of a slot by one compare and exchange, without a lock: Ready becomes Ticking with the
//! worker's number. The keeper, whose seat lies behind a lock, offers bodies (Kept to Ready), keeps slots again
//! (Ready to Kept), meets workers that hold a slot and takes bodies in from them (Ticking to Kept).
//!
//! The promise is one pair of hands, at each atomic step: a body is at home in its slot, or with the one worker whose
//! number stands in the word, or with the keeper within one of its calls. Each body that is noted as offered is fit,
//! whatever became of it, and so is each claimed one. Where the seats of a worker and of the keeper meet, the claimed
//! body is the one last offered there. Only `Slots::new` takes memory, and no call waits.
//!
//! A slot can be a place for a region, and a body the tick of that region.
#![tactic(auto)]

mod answer;
mod body;
mod keeper;
mod meeting;
mod rule;
mod seat;
mod seats;
mod slots;
mod view;
mod word;
mod worker;

pub use answer::{Claim, Keep};
pub use body::Body;
pub use seat::{KeeperSeat, WorkerSeat};
pub use seats::WorkerSeats;
pub use slots::{Slots, SlotsAndSeats};
pub use word::Word;

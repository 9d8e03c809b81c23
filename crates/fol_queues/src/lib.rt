//! Tasks that wait for the ticks of one region, each with a deadline.
//!
//! A queue stands for a list of tasks, by number, with their rests: the rest of a task is its deadline without the number of
//! ticks that the region has begun so far. So a begin changes no task that stays, and what moves to another region's queue
//! has its deadlines moved by one offset.
//!
//! The crate promises that `accept` adds exactly the task, that `take_due` takes exactly the tasks whose deadline has come, in order of
//! number, that `give_back` lets such tasks wait again, and that `move_listed` moves exactly the tasks on the chunks of a list. Only
//! `reserve` takes memory. It serves the data of a region.
#![tactic(auto)]

mod again;
mod dated;
mod due;
mod heap;
mod queues;
mod walks;

pub use dated::Dated;
pub use queues::Queues;

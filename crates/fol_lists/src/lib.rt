//! Lists by number, in memory that is taken once.
//!
//! A [`Lists`] holds a list for each number from 0 on. Its lists hold at most so many elements together as it has room for, and
//! no call but `new`, `copy` and the two that reserve takes memory.
//!
//! Each list has free places behind it, and grows into these where it lies, as elements move within it where it lies. One that has
//! too few is written behind all others, with as many free places as it has elements then. So it moves again only once it has
//! doubled, and moves take at most four places for each element that is put in.
//!
//! There is memory for four times the room. Where it is used up, all lists are written close together with no free places, which
//! takes at most the room; the first moves after that take at most twice the room besides those four places for each element. So at
//! least a quarter of the room is put in before it comes again, and a growth costs, on average of many, a few copies for each of its
//! elements.
//!
//! The region table keeps the sections of each region in such lists.
#![tactic(auto)]

mod cells;
mod lists;
mod spans;

pub use lists::Lists;

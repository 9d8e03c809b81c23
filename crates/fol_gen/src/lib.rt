//! Made texts: a world, and a script of so many clusters, which play the same at each run whatever the order of ticks.
//!
//! A cluster is three tickets in a row of chunks, three chunks apart, and four tasks. Its sections make one region, which ticks five
//! times; then the ticket in the middle is taken back, and after one more tick the region falls into two, which tick once each.
//! `make` promises both texts byte for byte: `specs/MadeTexts` has their lines as lists of words. This crate serves the top call,
//! which runs what is made here and sums it up.
#![tactic(auto)]

mod clusters;
mod laws;
mod texts;

pub use laws::made_script_law;
pub use texts::{Made, make};

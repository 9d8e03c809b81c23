//! The tables of the regions: which region owns each section, what each region may do, and which one waits for which.
//!
//! A [`Tables`] stands for a book: an owner of each present section, a state of each region, the pairs of regions of which one waits
//! for the other, and by region the lists of these, in order. Each step changes one state, one pair, or what a list of sections or
//! one region has, and nothing else; which steps an added hold or the end of a tick takes is for `fol_regions`, which stands on this.
//!
//! Owners lie in pages of 32 sections side by side in a row. A page of which no section has an owner any more stays, since the sections mostly come
//! back; such pages are thrown out together where `reserve` finds too little room. Regions that are not Dead lie in slots, and a vector by
//! id says in which. No step takes memory: `new` takes it for 16,384 sections in lists, `reserve` for what is to come, `copy` for the copy,
//! and `live` for its list.
#![tactic(auto)]

mod links;
mod living;
mod owners;
mod pages;
mod parting;
mod rows;
mod slots;
mod tables;
mod weave;

pub use tables::Tables;

//! The tests of the tables of regions: small worlds, event by event, through the calls of `fol_sections` and `fol_regions`, and the
//! parts and lists under them, through those of `fol_split` and `fol_lists`.
//!
//! They stand in a crate of their own since the tests of a crate are proved with all of its functions once more.
#![tactic(auto)]

#[cfg(test)]
mod lists;
#[cfg(test)]
mod regions;
#[cfg(test)]
mod sections;
#[cfg(test)]
mod splits;

//! The tests of texts: given worlds, scripts and reports, and made games, through the calls of `fol_script`, `fol_events` and
//! `fol_gen`.
//!
//! They stand in a crate of their own since the tests of a crate are proved with all of its functions once more.
#![tactic(auto)]

#[cfg(test)]
mod events;
#[cfg(test)]
mod made;
#[cfg(test)]
mod scripts;
#[cfg(test)]
mod shares;

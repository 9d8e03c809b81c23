//! What follows from the definitions of the model alone.
//!
//! Each law is the contract of a function with no parameters and an empty body, so that it is proved like any other contract; its
//! statement has a name in `specs/`, and a lemma of the function's own name in `proofs/` gives it to the crates above. No code of
//! the program stands below this crate: the laws speak of the states, steps and histories of `fol_model`.
//!
//! `regions` has the steps of the grid over any state that keeps its rules. The others speak of every point of every history:
//! `rules`, `holds`, `places`, `growth` and `phases` of the world there, `ownership` and `detached` of a region from the Begin of
//! its tick to the End, `due` of each accepted task, `late` of a Begin that is recorded later than it was made, `outcomes` and
//! `histories` of what a history is read for. `orders` says that the lists over which the model counts are complete and in order.
#![tactic(auto)]

pub mod detached;
pub mod due;
pub mod growth;
pub mod histories;
pub mod holds;
pub mod late;
pub mod orders;
pub mod outcomes;
pub mod ownership;
pub mod phases;
pub mod places;
pub mod regions;
pub mod rules;

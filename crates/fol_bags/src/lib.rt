//! What a store is made of: the bags of the regions, the spots of the chunks, and the places that say where what lies on a chunk may be.
//!
//! A bag has the data of a region, with the chunks for which it was gathered; `Bags` holds them by the ids of the regions, each behind a
//! pointer. A spot has what lies on one chunk and in no bag. `Places` names the spot and the bag of each chunk. `slots` has what is done
//! to one bag or to two, and `spots` what is done to a spot.
//!
//! Each call promises what it does to its bag or spot, and that all others stay as they are. What moves from one to another is exactly
//! what lies on the chunks, with its rests; if memory runs out, nothing has moved. A bag with nothing in it that no region has any more
//! gives its memory back. It serves `fol_store`, which keeps bags, spots and places in step.
#![tactic(auto)]

mod bags;
mod difference;
mod kept;
mod labels;
mod places;
mod recalled;
mod shift;
mod slot;
pub mod slots;
pub mod spots;
mod taken;
mod union;
mod waiting;

pub use bags::Bags;
pub use kept::Kept;
pub use places::{Place, Places, has_bag};
pub use slot::Slot;
pub use slots::Listing;
pub use taken::Taken;

//! Boxes for ticks.

use fol_data::Tick;
use fol_model::{Sequence, Task};
use fol_world::begins::blank;
use std::alloc::{AllocError, Global};
use std::mem;

/// Boxes whose ticks are over. Each tick that is offered is made in one of them, with the lists of the tick that ended there. So memory is
/// taken only where more ticks are out at once than boxes were made so far, or where such a list is too short.
#[derive(Drop)]
pub(crate) struct Boxes {
    spare: Vec<Box<Tick>>,
    /// How many boxes were made, for which there is room here.
    made: usize,
    alloc: Global,
}

impl Boxes {
    /// None yet. Takes no memory.
    pub(crate) fn new(alloc: Global) -> Boxes {
        Boxes {
            spare: Vec::new(alloc),
            made: 0,
            alloc,
        }
    }

    /// A box, with a tick that is of no use.
    pub(crate) fn take(&mut self) -> Result<Box<Tick>, AllocError> {
        match self.spare.pop() {
            Some(boxed) => Ok(boxed),
            None => self.make(),
        }
    }

    /// The list for due tasks of the box that comes next, where there is one, or else a list without memory.
    pub(crate) fn take_list(&mut self) -> Vec<Task> {
        match self.spare.last_mut() {
            Some(boxed) => mem::replace(&mut boxed.due, Sequence::new(self.alloc)).into_vec(),
            None => Vec::new(self.alloc),
        }
    }

    /// Makes a box, where none is there, with room to keep it.
    fn make(&mut self) -> Result<Box<Tick>, AllocError> {
        let made = self.made.saturating_add(1);
        self.spare.reserve(made)?;
        let boxed = Box::new(self.alloc, blank(self.alloc))?;
        self.made = made;
        Ok(boxed)
    }

    /// Keeps a box whose tick is of no use any more, if there is room. Takes no memory.
    pub(crate) fn put(&mut self, boxed: Box<Tick>) {
        if self.spare.len() < self.spare.capacity() {
            self.spare.push_reserved(boxed);
        }
    }
}

//! The turn at a lock.

ghost use Rattle.std.specs.Prelude.{◌≡◌};

/// The right to change the state. It can't be dropped: only `Lock::give` spends it.
pub struct Turn<S> {
    pub(crate) state: S,
}

impl<S> Turn<S> {
    ghost use Rattle.std.specs.Borrow.{sem};
    ghost use Rattle.fol_lock.specs.Turn.{state_of, LendsState};

    /// Lends the state. When the loan ends, the turn has what was written through it.
    pub fn state(&mut self) -> &mut S
        ensures* writes_back { sem 𝓛 (LendsState S.row self.entry result) }
        ensures value { result.now ≡ state_of self.old }
    {
        &mut self.state
    }

    /// The state, to look at.
    pub fn state_ref(&self) -> &S
        ensures { result.now ≡ state_of self.now }
    {
        &self.state
    }
}

//! In whose hands a slot is, and how that is stored.

ghost use Rattle.std.specs.Prelude.{◌≡◌, ◌<◌, ◌+◌, ◌-◌};
ghost use Rattle.fol_slots.specs.Words.{code_of, word_of};

/// In whose hands the body of a slot is.
#[derive(Clone, Copy)]
pub enum Word {
    /// The keeper has the slot, and its body is at home.
    Kept,
    /// The body is at home, and the first worker that claims it has it.
    Ready,
    /// The worker of this number has the body.
    Ticking(u32),
}

/// The stored form of Kept.
pub(crate) const KEPT: u64 = 0;

/// The stored form of Ready.
pub(crate) const READY: u64 = 1;

/// The stored form of Ticking.
pub(crate) fn ticking(number: u32) -> u64
    ensures { result ≡ number + 1 }
{
    number as u64 + 1
}

/// The number of the worker in the stored form of Ticking.
pub(crate) fn worker_in(stored: u64) -> u32
    requires { (1 < stored) × (stored < 4294967296) }
    ensures { result ≡ stored - 1 }
{
    (stored - 1) as u32
}

/// The word of a stored form.
pub(crate) fn read_word(stored: u64) -> Word
    requires { stored < 4294967296 }
    ensures { result ≡ word_of stored }
{
    match stored {
        KEPT => Word::Kept,
        READY => Word::Ready,
        _ => Word::Ticking(worker_in(stored)),
    }
}

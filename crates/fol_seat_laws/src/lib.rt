//! What follows from the definitions alone when several seats made one history: each seat knows what it recorded and what it has seen,
//! and all of them together tell that the history is a legal one of its script.
#![tactic(auto)]

pub mod late;

ghost use Rattle.fol_seat_laws.specs.Worked.{SeatsMakeLegal};

/// A history of which caller 0 tells that it carried out the commands of a script and finished, and each worker that its ticks are
/// whole, is a legal one of that script. A Begin may be recorded by any seat; all else that names a caller or a worker is recorded
/// by the seat of that number.
pub fn seats_make_legal()
    ensures { SeatsMakeLegal }
{}

//! One look at what is shown.

ghost use Rattle.std.specs.Prelude.{◌≡◌};
ghost use Rattle.left_right.specs.Sides.{view};
ghost use Rattle.fol_view.specs.Looks.{Finds, KnowsBook};

use crate::board::Found;
use crate::publications::Publications;
use crate::rule::{Reader, Reads};
use fol_model::SectionPos;
use std::sync::Wait;
use std::thread::yield_now;

/// Looks a section up. Tries again where the reader is handed back, and where what is shown is older than what is known.
pub(crate) fn read<R: Wait>(
    rt: &R,
    reader: Reader,
    known: &Publications,
    s: SectionPos,
) -> (Reader, Found)
    requires { KnowsBook (view reader.place) known.now.book }
    ensures reader { KnowsBook (view result.0.place) known.now.book }
    ensures found { Finds known.now s result.1 }
{
    let mut reader = reader;
    for _ in rt.forever() {
        match reader.enter_as::<Reads>() {
            Ok(reading) => {
                let found = reading.get().look(known, s);
                reader = reading.leave();
                if let Some(found) = found {
                    return (reader, found);
                }
            }
            Err(back) => reader = back,
        }
        yield_now();
    }
    unreachable!()
}

//! What a view begins with: its first publication and its readers.

ghost use Rattle.std.specs.Prelude.{◌≡◌, ◌<◌, ◌≤◌, [], drop, All, IfOk, None, vec_capacity, vec_len};
ghost use Rattle.left_right.specs.Sides.{view as known};
ghost use Rattle.fol_view.specs.Publications.{Listed};
ghost use Rattle.fol_view.specs.Looks.{KnowsBook};
ghost use Rattle.fol_view.specs.Rows.{AreInOrder};

use crate::board::Board;
use crate::publication::Publication;
use crate::publications::Publications;
use crate::reader::OwnerReader;
use crate::rule::{Hear, Reader, Tell, Writer};
use fol_live::Owners;
use std::alloc::{AllocError, Global};
use std::sync::Wait;
use std::thread::yield_now;

/// A publication of these owners, twice.
pub(crate) fn twice(alloc: Global, owners: Owners) -> Result<(Publication, Publication), AllocError>
    requires { AreInOrder owners.rows.items }
    ensures front { IfOk result (λ t. t.0.front ≡ owners.front) }
    ensures rows { IfOk result (λ t. t.0.rows ≡ owners.rows.items) }
    ensures same { IfOk result (λ t. t.1 ≡ t.0) }
{
    let publication = Publication::of(alloc, owners)?;
    let copy = publication.again()?;
    Ok((publication, copy))
}

/// Two copies that show nothing, with room for so many readers.
pub(crate) fn begin(alloc: Global, readers: u32) -> Result<Writer, AllocError>
    requires { (0 < readers) × (readers ≤ 64) }
    ensures { IfOk result (λ w. (w.desk.shown.value ≡ None) × (drop w.behind w.log.items ≡ [])) }
{
    Writer::new(
        alloc,
        Board { shown: None },
        Board { shown: None },
        readers as usize,
    )
}

/// So many readers, each of which begins with these publications.
pub(crate) fn deal<R: Wait>(
    rt: &R,
    writer: &mut Writer,
    all: &Publications,
    count: u32,
    mut readers: Vec<OwnerReader>,
) -> Vec<OwnerReader>
    requires writer { KnowsBook (known writer.old.desk.place) all.now.book }
    requires room { (readers.items ≡ []) × (count ≤ vec_capacity readers) }
    ensures shown { writer.new.desk.shown.value ≡ writer.old.desk.shown.value }
    ensures readers { All (λ (r : Listed). r ≡ all.now) result.items }
    ensures count { vec_len result ≡ count }
{
    for number in 0..count {
        readers.push_reserved(OwnerReader {
            reader: reader(rt, writer),
            all: all.again(),
        });
    }
    readers
}

/// A reader that knows what the writer knows. A refusal does not mean that memory ran out, and is tried again.
fn reader<R: Wait>(rt: &R, writer: &mut Writer) -> Reader
    ensures shown { writer.new.desk.shown.value ≡ writer.old.desk.shown.value }
    ensures view { known writer.new.desk.place ≡ known writer.old.desk.place }
    ensures reader { known result.place ≡ known writer.old.desk.place }
{
    for _ in rt.forever() {
        if let Ok(mut reader) = writer.factory().reader() {
            reader.learn::<Hear>(writer.tell::<Tell>());
            return reader;
        }
        yield_now();
    }
    unreachable!()
}

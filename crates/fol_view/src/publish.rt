//! How a publication comes to be shown.

ghost use Rattle.std.specs.Prelude.{◌≡◌, ◌<◌, ◌^◌, ◌∷◌, [], ◌++◌, length, drop};
ghost use Rattle.left_right.specs.Sides.{view};
ghost use Rattle.fol_view.specs.Publications.{MayFollow, head_of};
ghost use Rattle.fol_view.specs.Boards.{CanPublish, HasShown, MayShow, Published};

use crate::board::Shown;
use crate::publication::Publication;
use crate::publications::{Head, Publications};
use crate::rule::{Shows, Writer};
use std::sync::Wait;
use std::thread::yield_now;

/// Adds a publication to the history, whose only writer this is, and returns a copy of the longer list. The history is never longer
/// than the list of its only writer; a proof can't see that, so it would wait for ever.
pub(crate) fn add<R: Wait>(
    rt: &R,
    all: &mut Publications,
    head: &Head,
    publication: &Publication,
) -> Publications
    requires head { head.now ≡ head_of all.old.book }
    requires room { length all.old.list < 2 ^ 62 }
    requires next { MayFollow all.old.list publication.now }
    ensures book { all.new.book ≡ all.old.book }
    ensures list { all.new.list ≡ all.old.list ++ publication.now ∷ [] }
    ensures copy { result ≡ all.new }
{
    if all.add(head, publication) {
        return all.again();
    }
    for _ in rt.forever() {
        yield_now();
    }
    unreachable!()
}

/// Shows a publication to the readers. A refusal is tried again.
pub(crate) fn show<R: Wait>(rt: &R, writer: Writer, shown: Shown) -> Writer
    requires { MayShow writer.desk.shown.value shown }
    ensures { HasShown result.desk.shown.value shown }
{
    let mut writer = writer;
    let mut shown = shown;
    for _ in rt.forever() {
        match writer.append(shown) {
            Ok(()) => return publish(rt, writer),
            Err(back) => shown = back,
        }
        yield_now();
    }
    unreachable!()
}

/// Shows readers the last of what was appended. A refusal of the copies does not mean that memory ran out, and is tried again.
pub(crate) fn publish<R: Wait>(rt: &R, writer: Writer) -> Writer
    requires { CanPublish writer.desk.shown.value (drop writer.behind writer.log.items) }
    ensures { Published (drop writer.behind writer.log.items) result.desk.shown.value
        (view result.desk.place) }
{
    let mut writer = writer;
    for _ in rt.forever() {
        let (next, done) = writer.publish_as::<Shows, R>(rt);
        writer = next;
        if done.is_ok() {
            return writer;
        }
        yield_now();
    }
    unreachable!()
}

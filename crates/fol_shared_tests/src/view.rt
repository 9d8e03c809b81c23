//! A view on seat 2 of a world that seat 0 changes.

ghost use Rattle.std.specs.Prelude.{◌≡◌};
ghost use Rattle.fol_live.specs.Lives.{live_id};

use crate::compare::same;
use crate::world::{last, load, start_standing};
use fol_live::{Live, LiveAndSeats, Seat};
use fol_model::{Loaded, SectionPos};
use fol_view::{OwnerReader, OwnerWriter, SeenOwner, View, ViewParts, close};
use std::alloc::Global;
use std::process::Abort;
use std::sync::Wait;
use std::thread::{Threads, join_mut, yield_now};

/// A view with one reader, and the world.
struct Scene {
    live: Live,
    caller: Seat,
    view: View,
    writer: OwnerWriter,
    reader: OwnerReader,
}

/// Starts a view with one reader, after one chunk was loaded; then a second one is.
fn make_scene<R: Abort + Wait>(rt: &R, alloc: Global) -> Scene
    ensures caller { result.caller.lock ≡ live_id result.live }
    ensures one { result.view.readers ≡ 1 }
    ensures world { result.writer.seat.lock ≡ live_id result.live }
    ensures writer { result.writer.book ≡ result.view.book }
    ensures reader { result.reader.book ≡ result.view.book }
{
    let LiveAndSeats { live, mut seats } = start_standing(rt, alloc, 3);
    let seat = last(rt, &live, &mut seats, 2);
    drop(last(rt, &live, &mut seats, 1));
    let mut caller = last(rt, &live, &mut seats, 0);
    load(rt, &live, &mut caller, 0, Loaded::Counted);
    let Ok(
        ViewParts {
            view,
            writer,
            mut readers,
        },
    ) = View::start(rt, alloc, &live, seat, 1)
    else {
        panic!(rt; "memory");
    };
    let reader = readers.remove(0);
    load(rt, &live, &mut caller, 6, Loaded::Counted);
    Scene {
        live,
        caller,
        view,
        writer,
        reader,
    }
}

/// Publishes anew, after so many entries.
fn refresh<R: Abort + Wait>(
    rt: &R,
    alloc: Global,
    live: &Live,
    writer: &mut OwnerWriter,
    front: u64,
)
    requires own { writer.old.seat.lock ≡ live_id live.now }
    ensures own { writer.new.seat.lock ≡ live_id live.now }
    ensures book { writer.new.book ≡ writer.old.book }
{
    same(rt, &writer.refresh(rt, alloc, live), &Ok(front));
}

/// Looks a section of the row z = 0 up, in the owners after so many entries.
fn look<R: Abort + Wait>(rt: &R, reader: &mut OwnerReader, x: i32, front: u64, owner: Option<u64>)
    ensures { reader.new.book ≡ reader.old.book }
{
    let seen = reader.owner(rt, SectionPos { x, z: 0 });
    same(rt, &seen, &SeenOwner { front, owner });
}

/// Sees what the writer published last, after so many entries.
fn learn(rt: &impl Abort, reader: &mut OwnerReader, writer: &mut OwnerWriter, front: u64)
    requires own { reader.old.book ≡ writer.old.book }
    ensures writer { writer.new ≡ writer.old }
    ensures book { reader.new.book ≡ reader.old.book }
{
    let told = writer.tell();
    let shown = told.front();
    reader.learn(told);
    same(rt, &shown, &front);
}

/// Ends it, after so many entries.
fn end<R: Abort + Wait>(
    rt: &R,
    alloc: Global,
    view: View,
    writer: OwnerWriter,
    reader: OwnerReader,
    front: u64,
)
    requires one { view.readers ≡ 1 }
    requires writer { writer.book ≡ view.book }
    requires reader { reader.book ≡ view.book }
{
    let readers = Vec::from_array(alloc, [reader]).expect(rt, "memory");
    let seat = close(rt, view, writer, readers);
    same(rt, &seat.front(), &front);
}

#[test]
fn a_reader_sees_what_it_learnt(rt: HostRuntime) {
    let alloc = rt.alloc();
    let Scene {
        live,
        mut caller,
        view,
        mut writer,
        mut reader,
    } = make_scene(&rt, alloc);
    look(&rt, &mut reader, 0, 1, Some(1));
    look(&rt, &mut reader, 6, 1, None);
    refresh(&rt, alloc, &live, &mut writer, 2);
    learn(&rt, &mut reader, &mut writer, 2);
    look(&rt, &mut reader, 6, 2, Some(2));
    load(&rt, &live, &mut caller, 3, Loaded::Counted);
    refresh(&rt, alloc, &live, &mut writer, 3);
    learn(&rt, &mut reader, &mut writer, 3);
    look(&rt, &mut reader, 6, 3, Some(1));
    end(&rt, alloc, view, writer, reader, 3);
}

/// Looks until the owners after two entries are shown, and tells whether no look went back.
fn wait_for_two<R: Wait>(rt: &R, reader: &mut OwnerReader) -> (bool, SeenOwner)
    ensures { reader.new.book ≡ reader.old.book }
{
    let mut front = 0;
    for _ in rt.forever() {
        let seen = reader.owner(rt, SectionPos { x: 6, z: 0 });
        if seen.front < front || seen.front >= 2 {
            return (seen.front >= front, seen);
        }
        front = seen.front;
        yield_now();
    }
    unreachable!()
}

/// Another thread looks while this one publishes.
fn look_beside<R: Abort + Threads + Wait + Sync>(
    rt: &R,
    alloc: Global,
    live: &Live,
    writer: &mut OwnerWriter,
    reader: &mut OwnerReader,
) -> (bool, SeenOwner)
    requires own { writer.old.seat.lock ≡ live_id live.now }
    ensures writer { writer.new.book ≡ writer.old.book }
    ensures reader { reader.new.book ≡ reader.old.book }
{
    let mut look = || -> (bool, SeenOwner)
        ensures { reader.exit.now.book ≡ reader.entry.now.book }
    { wait_for_two(rt, reader) };
    let mut publish = ||
        requires { writer.now.seat.lock ≡ live_id live.now }
        ensures { writer.exit.now.book ≡ writer.entry.now.book }
    { refresh(rt, alloc, live, writer, 2) };
    let (found, ()) = join_mut(rt, &mut look, &mut publish);
    found
}

#[test]
fn a_reader_in_its_own_thread_never_goes_back(rt: HostRuntime) {
    let alloc = rt.alloc();
    let Scene {
        live,
        caller: _caller,
        view,
        mut writer,
        mut reader,
    } = make_scene(&rt, alloc);
    let seen = look_beside(&rt, alloc, &live, &mut writer, &mut reader);
    end(&rt, alloc, view, writer, reader, 2);
    let wanted = SeenOwner {
        front: 2,
        owner: Some(2),
    };
    same(&rt, &seen, &(true, wanted));
}

//! Look-ups of an owner in a view, beside those in the same rows under a lock of std's; and publications, by how many sections there are.

ghost use Rattle.std.specs.Prelude.{◌≡◌, ◌<◌, ◌≤◌, All};
ghost use Rattle.fol_live.specs.Lives.{live_id};
ghost use Rattle.fol_view.specs.Publications.{Listed};

use crate::rate::per_second;
use crate::world::{start, take_seat};
use fol_keyed::compare_sections;
use fol_live::{Live, LiveAndSeats, Seat};
use fol_model::{ChunkPos, OwnerRow, SectionPos};
use fol_view::{OwnerReader, OwnerWriter, View, ViewParts, close};
use std::alloc::{AllocError, Global};
use std::io;
use std::rt::Clock;
use std::sync::atomic::{AtomicU64, Ordering};
use std::sync::{Mutex, RwLock, Wait};
use std::thread::{Threads, for_each_mut};
use std::time::{Duration, Instant};

/// How often each thread looks.
const LOOKS: u64 = 500_000;

/// How often the owners are published.
const REFRESHES: u64 = 200;

/// How many regions the world has in which threads look, each of nine sections.
const REGIONS: u32 = 100;

/// The most threads that a comparison has.
const MOST_THREADS: usize = 4;

/// How far apart the regions lie.
const STEP: u32 = 4;

/// Prints how many look-ups a second there are by one, two and four threads, and how many publications a second of 9, 900 and 16,002 sections.
pub fn run<R: Threads + Wait + Sync + Clock + Print>(rt: &R, alloc: Global) -> io::Result<()> {
    compare(rt, alloc, 1)?;
    compare(rt, alloc, 2)?;
    compare(rt, alloc, 4)?;
    publish(rt, alloc, 1)?;
    publish(rt, alloc, 100)?;
    publish(rt, alloc, 1_778)
}

/// Look-ups by so many threads at once.
fn compare<R: Threads + Wait + Sync + Clock + Print>(
    rt: &R,
    alloc: Global,
    threads: u32,
) -> io::Result<()>
    requires { (0 < threads) × (threads ≤ 64) }
{
    let LiveAndSeats { live, mut seats } = start(alloc, 2)?;
    let seat = take_seat(&live, &mut seats);
    let mut caller = take_seat(&live, &mut seats);
    let compared = compare_in(rt, alloc, &live, seat, &mut caller, threads);
    drop(live);
    compared
}

/// Look-ups by so many threads at once, in a world in which the regions are then loaded.
fn compare_in<R: Threads + Wait + Sync + Clock + Print>(
    rt: &R,
    alloc: Global,
    live: &Live,
    seat: Seat,
    caller: &mut Seat,
    threads: u32,
) -> io::Result<()>
    requires threads { (0 < threads) × (threads ≤ 64) }
    requires view { seat.lock ≡ live_id live.now }
    requires caller { caller.old.lock ≡ live_id live.now }
{
    let rows = load_rows(rt, live, caller, REGIONS)?;
    let found = AtomicU64::new(0);
    let view = time_view(rt, alloc, live, seat, threads, &found);
    let rows = Mutex::new(rows);
    let mutex = time_mutex(rt, alloc, threads, &rows, &found);
    let rows = RwLock::new(rows.into_inner());
    let rw_lock = time_rw_lock(rt, alloc, threads, &rows, &found);
    drop(rows);
    show_looks(rt, threads, view?, mutex?, rw_lock?)
}

/// Prints how many look-ups a second so many threads made in these times.
fn show_looks<R: Print>(
    rt: &R,
    threads: u32,
    view: Duration,
    mutex: Duration,
    rw_lock: Duration,
) -> io::Result<()> {
    let all = u64::from(threads) * LOOKS;
    let view = per_second(all, view);
    let mutex = per_second(all, mutex);
    let rw_lock = per_second(all, rw_lock);
    println!(rt;
        "view, threads {threads}: {view} look-ups a second, under Mutex {mutex}, under RwLock {rw_lock}"
    )
}

/// Publications of the owners of so many regions.
fn publish<R: Wait + Clock + Print>(rt: &R, alloc: Global, regions: u32) -> io::Result<()>
    requires { regions ≤ 10000 }
{
    let LiveAndSeats { live, mut seats } = start(alloc, 2)?;
    let seat = take_seat(&live, &mut seats);
    let mut caller = take_seat(&live, &mut seats);
    let published = publish_in(rt, alloc, &live, seat, &mut caller, regions);
    drop(live);
    published
}

/// Publications of the owners of so many regions, in a world in which they are then loaded.
fn publish_in<R: Wait + Clock + Print>(
    rt: &R,
    alloc: Global,
    live: &Live,
    seat: Seat,
    caller: &mut Seat,
    regions: u32,
) -> io::Result<()>
    requires regions { regions ≤ 10000 }
    requires view { seat.lock ≡ live_id live.now }
    requires caller { caller.old.lock ≡ live_id live.now }
{
    let sections = load_rows(rt, live, caller, regions)?.len();
    let rate = per_second(REFRESHES, time_refreshes(rt, alloc, live, seat)?);
    println!(rt; "view, sections {sections}: {rate} publications a second")
}

/// The rows of the owners, once a chunk is loaded for each of so many regions.
fn load_rows<R: Wait>(
    rt: &R,
    live: &Live,
    caller: &mut Seat,
    regions: u32,
) -> Result<Vec<OwnerRow>, AllocError>
    requires regions { regions ≤ 10000 }
    requires own { caller.old.lock ≡ live_id live.now }
{
    load(rt, live, caller, regions)?;
    Ok(live.owner_rows(rt, caller)?.rows)
}

/// Loads a chunk for each of so many regions.
#[tactic(auto, unfolding(fol_model::specs::Geometry::is_chunk))]
fn load<R: Wait>(rt: &R, live: &Live, caller: &mut Seat, regions: u32) -> Result<(), AllocError>
    requires regions { regions ≤ 10000 }
    requires own { caller.old.lock ≡ live_id live.now }
    ensures own { caller.new.lock ≡ live_id live.now }
{
    for number in 0..regions {
        let _answer = live.load(
            rt,
            caller,
            ChunkPos {
                x: (number * STEP) as i32,
                z: 0,
            },
        )?;
    }
    Ok(())
}

/// How long so many threads look in a view.
fn time_view<R: Threads + Wait + Sync + Clock>(
    rt: &R,
    alloc: Global,
    live: &Live,
    seat: Seat,
    threads: u32,
    found: &AtomicU64,
) -> io::Result<Duration>
    requires threads { (0 < threads) × (threads ≤ 64) }
    requires own { seat.lock ≡ live_id live.now }
{
    let Ok(
        ViewParts {
            view,
            writer,
            mut readers,
        },
    ) = View::start(rt, alloc, live, seat, threads)
    else {
        return Err(AllocError.into());
    };
    let time = look_together(rt, &view, &mut readers, found);
    drop(close(rt, view, writer, readers));
    time
}

fn look_together<R: Threads + Wait + Sync + Clock>(
    rt: &R,
    view: &View,
    readers: &mut [OwnerReader],
    found: &AtomicU64,
) -> io::Result<Duration>
    requires { All (λ (r : Listed). r.book ≡ view.now.book) readers.old }
    ensures { All (λ (r : Listed). r.book ≡ view.now.book) readers.new }
{
    let _of = view;
    let start = Instant::now(rt)?;
    for_each_mut(
        rt,
        readers,
        MOST_THREADS,
        &|_, reader: &mut OwnerReader| look_often(rt, reader, found),
    );
    start.elapsed(rt)
}

/// Looks, and adds to the count how many sections had an owner.
fn look_often<R: Wait>(rt: &R, reader: &mut OwnerReader, found: &AtomicU64)
    ensures { reader.new.book ≡ reader.old.book }
{
    let mut owned = 0;
    for look in 0..LOOKS {
        if reader.owner(rt, site(look)).owner.is_some() {
            owned += 1;
        }
    }
    found.fetch_add(owned, Ordering::SeqCst);
}

/// How long so many threads look in rows under a mutex.
fn time_mutex<R: Threads + Wait + Sync + Clock>(
    rt: &R,
    alloc: Global,
    threads: u32,
    rows: &Mutex<Vec<OwnerRow>>,
    found: &AtomicU64,
) -> io::Result<Duration> {
    let mut marks = vec![in alloc; 0u8; threads as usize]?;
    let start = Instant::now(rt)?;
    for_each_mut(
        rt,
        &mut marks,
        MOST_THREADS,
        &|_, mark: &mut u8| {
            look_in_mutex(rt, rows, found);
            *mark = 1;
        },
    );
    start.elapsed(rt)
}

fn look_in_mutex<R: Wait>(rt: &R, rows: &Mutex<Vec<OwnerRow>>, found: &AtomicU64) {
    let mut owned = 0;
    for look in 0..LOOKS {
        if is_owned(&rows.lock(rt), site(look)) {
            owned += 1;
        }
    }
    found.fetch_add(owned, Ordering::SeqCst);
}

/// How long so many threads look in rows under a lock that they share.
fn time_rw_lock<R: Threads + Wait + Sync + Clock>(
    rt: &R,
    alloc: Global,
    threads: u32,
    rows: &RwLock<Vec<OwnerRow>>,
    found: &AtomicU64,
) -> io::Result<Duration> {
    let mut marks = vec![in alloc; 0u8; threads as usize]?;
    let start = Instant::now(rt)?;
    for_each_mut(
        rt,
        &mut marks,
        MOST_THREADS,
        &|_, mark: &mut u8| {
            look_in_rw_lock(rt, rows, found);
            *mark = 1;
        },
    );
    start.elapsed(rt)
}

fn look_in_rw_lock<R: Wait>(rt: &R, rows: &RwLock<Vec<OwnerRow>>, found: &AtomicU64) {
    let mut owned = 0;
    for look in 0..LOOKS {
        if is_owned(&rows.read(rt), site(look)) {
            owned += 1;
        }
    }
    found.fetch_add(owned, Ordering::SeqCst);
}

/// Whether a row names the section, by the search that a view makes.
fn is_owned(rows: &[OwnerRow], s: SectionPos) -> bool {
    rows.binary_search_by(|row| compare_sections(row.at, s))
        .is_ok()
}

/// The section of one of the regions: all of them in turn.
fn site(look: u64) -> SectionPos {
    SectionPos {
        x: (look % 100 * 4) as i32,
        z: 0,
    }
}

/// How long it takes to publish the owners so often.
fn time_refreshes<R: Wait + Clock>(
    rt: &R,
    alloc: Global,
    live: &Live,
    seat: Seat,
) -> io::Result<Duration>
    requires own { seat.lock ≡ live_id live.now }
{
    let Ok(
        ViewParts {
            view,
            mut writer,
            readers,
        },
    ) = View::start(rt, alloc, live, seat, 1)
    else {
        return Err(AllocError.into());
    };
    let time = refresh_often(rt, alloc, live, &mut writer);
    drop(close(rt, view, writer, readers));
    time
}

fn refresh_often<R: Wait + Clock>(
    rt: &R,
    alloc: Global,
    live: &Live,
    writer: &mut OwnerWriter,
) -> io::Result<Duration>
    requires own { writer.old.seat.lock ≡ live_id live.now }
    ensures book { writer.new.book ≡ writer.old.book }
{
    let start = Instant::now(rt)?;
    for _ in 0..REFRESHES {
        let _front = writer.refresh(rt, alloc, live)?;
    }
    start.elapsed(rt)
}

//! What the reader tells of given reports.

use fol_events::{EventLines, read_events};
use fol_model::{
    Accept, Action, BlockPos, ChunkPos, EventRef, Loaded, Outcome, PackedEntry, Ran, Unloaded,
};
use std::alloc::{AllocError, Global};
use std::process::Abort;

/// A report with an event of each kind, and the line behind its events.
const SESSION: &str = "report 1\nevents 13\n\
    load 0 0 -4 counted\n\
    load 7 -1000000 1000000 full 16380 9\n\
    post 0 0 0 1 posted 1 every 2 3 set 0 64 0 4\n\
    post 0 0 0 2 full 16383 2 every 3 2 post 0 0 1 copy 0 64 0 1 64 0\n\
    open 6\n\
    begin 1 18446744073709551615\n\
    unload 1 5 5 noticket\n\
    unload 1 0 -4 lowered\n\
    end 1 1 tick 4 ran 3 3 noticket 4 done 5 foreign accepted 2 posted 9 full 1 16384\n\
    close\n\
    stop 4294967295\n\
    post 3 1 2 1000000 posted 12 send 4294967295 -16000000 255 16000015\n\
    finish\n\
    regions 0\n";

/// A report, and its first line that is not as it must be.
const HEADS_AND_COUNTS: &[(&str, Option<u64>)] = &[
    ("", Some(1)),
    ("report 1", Some(1)),
    ("report 2\nevents 0\n", Some(1)),
    ("report 1 \nevents 0\n", Some(1)),
    ("report 1\r\nevents 0\n", Some(1)),
    ("\nreport 1\nevents 0\n", Some(1)),
    ("report 1\n", Some(2)),
    ("report 1\nevents 0", Some(2)),
    ("report 1\nevents\n", Some(2)),
    ("report 1\nevents 00\n", Some(2)),
    ("report 1\nevents -1\n", Some(2)),
    ("report 1\nevents 0 \n", Some(2)),
    ("report 1\nevents 16777217\n", Some(2)),
    ("report 1\nevents 18446744073709551616\n", Some(2)),
    ("report 1\nregions 0\n", Some(2)),
    ("report 1\nevents 0\n", None),
    ("report 1\nevents 0\nanything", None),
    ("report 1\nevents 16777216\n", Some(3)),
    ("report 1\nevents 1\nclose", Some(3)),
    ("report 1\nevents 2\nclose\n", Some(4)),
    ("report 1\nevents 2\nclose\n\n", Some(4)),
    ("report 1\nevents 2\nclose\nfinish", Some(4)),
    ("report 1\nevents 1\nclose\nfinish", None),
    ("report 1\nevents 3\nclose\nclosed\nclose\n", Some(4)),
];

/// Lines of events that are no posts and no ends.
const EVENTS: &[&str] = &[
    "close",
    "finish",
    "stop 4294967295",
    "open 4294967295",
    "begin 4294967295 18446744073709551615",
    "load 0 -1000000 1000000 counted",
    "load 0 0 0 full 4294967295 4294967295",
    "unload 0 0 0 noticket",
    "unload 0 0 0 lowered",
];

/// Lines of no event, much like these.
const NO_EVENTS: &[&str] = &[
    "",
    "close ",
    " close",
    "Close",
    "stop 4294967296",
    "stop",
    "stop 1 1",
    "open 4294967296",
    "open -1",
    "open 01",
    "begin 1 18446744073709551616",
    "begin 1  1",
    "begin 1\t1",
    "load 0 -1000001 0 counted",
    "load 0 0 1000001 counted",
    "load 0 -0 0 counted",
    "load 0 +1 0 counted",
    "load -1 0 0 counted",
    "load 0 0 0 over",
    "load 0 0 0 lowered",
    "load 0 0 0 full 4294967296 0",
    "load 0 0 0 full 1",
    "load 0 0 0 full 1 1 1",
    "unload 0 0 0 counted",
    "unload 0 0 0 lowered 1",
];

/// Lines of posts.
const POSTS: &[&str] = &[
    "post 0 0 0 1 posted 1 load 0 0",
    "post 0 0 0 1000000 posted 18446744073709551615 load 0 0",
    "post 0 0 0 1 full 1 2 load 0 0",
    "post 0 0 0 1 posted 1 set 16000015 255 -16000000 65535",
    "post 0 0 0 1 posted 1 copy 0 0 0 0 0 0",
    "post 0 0 0 1 posted 1 send 0 0 0 0",
    "post 0 0 0 1 posted 1 every 1000000 10000 unload 0 0",
];

/// Lines of no post, much like these.
const NO_POSTS: &[&str] = &[
    "post 0 0 0 0 posted 1 load 0 0",
    "post 0 0 0 1000001 posted 1 load 0 0",
    "post 0 0 0 1 posted 18446744073709551616 load 0 0",
    "post 0 0 0 1 full 1 load 0 0",
    "post 0 0 0 1 load 0 0",
    "post 0 0 0 1 posted 1",
    "post 0 0 0 1 posted 1 run 1",
    "post 0 0 0 1 posted 1 arrive 1 0 0 0",
    "post 0 0 0 1 posted 1 set 16000016 0 0 0",
    "post 0 0 0 1 posted 1 set 0 256 0 0",
    "post 0 0 0 1 posted 1 set 0 -1 0 0",
    "post 0 0 0 1 posted 1 set 0 0 0 65536",
    "post 0 0 0 1 posted 1 copy 0 0 0 0 0",
    "post 0 0 0 1 posted 1 copy 0 0 0 0 0 0 0",
    "post 0 0 0 1 posted 1 send 4294967296 0 0 0",
    "post 0 0 0 1 posted 1 post 0 0 0 unload 0 0",
    "post 0 0 0 1 posted 1 every 0 1 unload 0 0",
    "post 0 0 0 1 posted 1 every 1 10001 unload 0 0",
    "post 0 0 0 1 posted 1 every 1 1 every 1 1 unload 0 0",
    "post 0 0 0 1 posted 1 post 0 0 1 every 1 1 unload 0 0",
    "post 0 0 0 1 posted 1 every 1 1 arrive 1 0 0 0",
];

/// Lines of ends.
const ENDS: &[&str] = &[
    "end 1 1 tick 1 ran 0 accepted 0",
    "end 1 1 tick 1 ran 1 1 absent accepted 0",
    "end 1 1 tick 1 ran 1 1 full accepted 1 full 1 2",
];

/// Lines of no end, much like these.
const NO_ENDS: &[&str] = &[
    "end 1 1 tick 1 ran 2 1 done accepted 0",
    "end 1 1 tick 1 ran 0 1 done accepted 0",
    "end 1 1 tick 1 ran 0 accepted 1",
    "end 1 1 tick 1 ran 0 accepted 0 posted 1",
    "end 1 1 tick 1 ran 0",
    "end 1 1 ticks 1 ran 0 accepted 0",
    "end 1 1 tick 1 ran 18446744073709551615 accepted 0",
    "end 1 1 tick 1 ran 0 accepted 18446744073709551615 posted 1",
];

/// The line that is not as it must be, if there is one.
fn fault(alloc: Global, text: &str) -> Result<Option<u64>, AllocError> {
    match read_events(alloc, text.as_bytes())? {
        EventLines::Events(_) => Ok(None),
        EventLines::Text(line) => Ok(Some(line)),
    }
}

/// The same in a report with one event line.
fn line_fault(alloc: Global, line: &str) -> Result<Option<u64>, AllocError> {
    let text = format!(in alloc; "report 1\nevents 1\n{line}\n")?;
    fault(alloc, text.as_str())
}

/// Compares the fault that was told of a text with the one that it has.
fn expect(rt: &impl Abort, text: &str, told: Result<Option<u64>, AllocError>, wanted: Option<u64>) {
    assert_eq!(rt; told, Ok(wanted), "{text}");
}

/// Compares the fault of each report with one of these lines.
fn expect_lines(rt: &impl Abort, alloc: Global, lines: &[&str], wanted: Option<u64>) {
    for line in lines {
        expect(rt, line, line_fault(alloc, line), wanted);
    }
}

/// Whether this is the load at this place of the session.
fn is_load(place: usize, caller: u32, chunk: ChunkPos, answer: Loaded) -> bool {
    match place {
        0 => caller == 0 && chunk.x == 0 && chunk.z == -4 && answer == Loaded::Counted,
        1 => {
            let full = Loaded::Full {
                present: 16380,
                wanted: 9,
            };
            caller == 7 && chunk.x == -1_000_000 && chunk.z == 1_000_000 && answer == full
        }
        _ => false,
    }
}

/// Whether this is the action that is asked for at this place of the session.
fn is_action(place: usize, action: &Action) -> bool {
    match (place, action) {
        (
            2,
            Action::Every {
                period: 2,
                left: 3,
                action,
            },
        ) => matches!(action.get(), Action::Set { id: 4, .. }),
        (
            3,
            Action::Every {
                period: 3,
                left: 2,
                action,
            },
        ) => is_post_of_copy(action.get()),
        (
            11,
            Action::Send {
                entity: u32::MAX,
                to,
            },
        ) => to.x == -16_000_000 && to.y == 255 && to.z == 16_000_015,
        _ => false,
    }
}

/// Whether an action posts a copy for the next tick.
fn is_post_of_copy(action: &Action) -> bool {
    match action {
        Action::Post {
            delay: 1,
            action,
            ..
        } => matches!(action.get(), Action::Copy { .. }),
        _ => false,
    }
}

/// Whether this is what came of the post at this place of the session.
fn is_posted(place: usize, caller: u32, delay: u32, answer: Accept) -> bool {
    match place {
        2 => caller == 0 && delay == 1 && answer == Accept::Posted(1),
        3 => {
            let full = Accept::Full {
                present: 16383,
                wanted: 2,
            };
            caller == 0 && delay == 2 && answer == full
        }
        11 => caller == 3 && delay == 1_000_000 && answer == Accept::Posted(12),
        _ => false,
    }
}

/// Whether these are the tasks that the end of the session ran, and the answers to their posts.
fn is_end(ran: &[Ran], accepts: &[Accept]) -> bool {
    ran.len() == 3 && accepts.len() == 2 && ran[2].number == 5 && ran[2].outcome == Outcome::Foreign
}

/// Whether this is the event at this place of the session.
fn is_told(place: usize, event: EventRef) -> bool {
    match event {
        EventRef::Load {
            caller,
            chunk,
            answer,
        } => is_load(place, caller, chunk, answer),
        EventRef::Unload { caller, answer, .. } => match answer {
            Unloaded::NoTicket => place == 6 && caller == 1,
            Unloaded::Lowered => place == 7 && caller == 1,
            Unloaded::Over => false,
        },
        EventRef::Post {
            caller,
            delay,
            action,
            answer,
            ..
        } => is_posted(place, caller, delay, answer) && is_action(place, action),
        EventRef::PhaseOpen(ticks) => place == 4 && ticks == 6,
        EventRef::Begin { worker, region } => place == 5 && worker == 1 && region == u64::MAX,
        EventRef::End {
            worker,
            region,
            tick,
            ran,
            accepts,
        } => { place == 8 && worker == 1 && region == 1 && tick == 4 && is_end(ran, accepts) }
        EventRef::PhaseClose => place == 9,
        EventRef::Stop { caller } => place == 10 && caller == u32::MAX,
        EventRef::Finish => place == 12,
    }
}

/// How many of the events are those of the session, up to the first that is not.
fn count_told(entries: &[PackedEntry]) -> usize {
    let mut place = 0usize;
    for entry in entries {
        if entry.by() != 0 || !is_told(place, entry.event()) {
            return place;
        }
        place = place.wrapping_add(1);
    }
    place
}

/// The same of what was read, and none where a line is said to be wrong.
fn count_read(lines: &EventLines) -> usize {
    match lines {
        EventLines::Events(entries) => count_told(entries.as_slice()),
        EventLines::Text(_) => 0,
    }
}

#[test]
fn a_history_is_told(rt: HostRuntime) -> Result<(), AllocError> {
    let told = count_read(&read_events(rt.alloc(), SESSION.as_bytes())?);
    assert_eq!(rt; told, 13);
    Ok(())
}

#[test]
fn heads_and_counts(rt: HostRuntime) {
    for (text, line) in HEADS_AND_COUNTS {
        expect(&rt, text, fault(rt.alloc(), text), *line);
    }
}

#[test]
fn event_lines(rt: HostRuntime) {
    expect_lines(&rt, rt.alloc(), EVENTS, None);
    expect_lines(&rt, rt.alloc(), NO_EVENTS, Some(3));
}

#[test]
fn posts(rt: HostRuntime) {
    expect_lines(&rt, rt.alloc(), POSTS, None);
    expect_lines(&rt, rt.alloc(), NO_POSTS, Some(3));
}

#[test]
fn ends(rt: HostRuntime) {
    expect_lines(&rt, rt.alloc(), ENDS, None);
    expect_lines(&rt, rt.alloc(), NO_ENDS, Some(3));
}

/// The fault of a line with so many posts, of which the last unloads a chunk.
fn nested_fault(alloc: Global, head: &str, posts: usize) -> Result<Option<u64>, AllocError> {
    let posts = "post 0 0 1 ".repeat(alloc, posts)?;
    let line = format!(in alloc; "{head}{posts}unload 0 0")?;
    line_fault(alloc, line.as_str())
}

/// The head of a line, so many posts behind it, and the fault.
const NESTED: &[(&str, usize, Option<u64>)] = &[
    ("post 0 0 0 1 posted 1 ", 7, None),
    ("post 0 0 0 1 posted 1 ", 8, Some(3)),
    ("post 0 0 0 1 posted 1 every 1 1 ", 7, None),
    ("post 0 0 0 1 posted 1 every 1 1 ", 8, Some(3)),
    ("post 0 0 0 1 posted 1 ", 200, Some(3)),
];

#[test]
fn seven_posts_nest(rt: HostRuntime) {
    for (head, posts, wanted) in NESTED {
        expect(&rt, head, nested_fault(rt.alloc(), head, *posts), *wanted);
    }
}

/// What stands before and behind a number in a line.
const AROUND_NUMBERS: &[(&str, &str)] = &[
    ("open ", ""),
    ("begin 1 ", ""),
    ("load 0 -", " 0 counted"),
    ("end 1 1 tick 1 ran ", " 1 done"),
];

/// The fault of a line with these digits in it.
fn digits_fault(
    alloc: Global,
    digits: &str,
    before: &str,
    behind: &str,
) -> Result<Option<u64>, AllocError> {
    let line = format!(in alloc; "{before}{digits}{behind}")?;
    line_fault(alloc, line.as_str())
}

/// The fault of a report with so many events.
fn count_fault(alloc: Global, digits: &str) -> Result<Option<u64>, AllocError> {
    let text = format!(in alloc; "report 1\nevents {digits}\n")?;
    fault(alloc, text.as_str())
}

/// Compares the fault of each line and of a count with such digits, more than any number has.
fn expect_too_long(rt: &impl Abort, alloc: Global, digits: &str) {
    for (before, behind) in AROUND_NUMBERS {
        let told = digits_fault(alloc, digits, before, behind);
        expect(rt, before, told, Some(3));
    }
    expect(rt, "events", count_fault(alloc, digits), Some(2));
}

#[test]
fn numbers_of_a_thousand_digits(rt: HostRuntime) -> Result<(), AllocError> {
    let digits = "9".repeat(rt.alloc(), 1000)?;
    expect_too_long(&rt, rt.alloc(), digits.as_str());
    Ok(())
}

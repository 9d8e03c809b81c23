//! What the readers answer to given texts, and what the printers give back.

ghost use Rattle.std.specs.Prelude.{◌≤◌};

use fol_model::Cause;
use fol_script::{ReadError, print_script, print_world, read_script, read_world};
use std::alloc::{AllocError, Global};
use std::process::Abort;
use std::test::Fail;

/// A text, and its first bad line with what is wrong there, if it has one.
type Case = (&'static str, Option<(u64, Cause)>);

const WORLDS: &[Case] = &[
    ("", Some((1, Cause::Missing))),
    ("world 1\n", Some((2, Cause::Missing))),
    ("\n# a comment\nworld 1", Some((4, Cause::Missing))),
    ("world 1\ngrid 0 1 1 2 1\n", Some((2, Cause::Count))),
    ("world 3\ngrid 0 1 1 2 1 6\n", Some((1, Cause::Range))),
    ("world 1\ngrid -1 1 1 2 1 6\n", Some((2, Cause::Number))),
    ("world 1\ngrid 6 1 1 2 1 6\n", Some((2, Cause::Range))),
    ("grid 0 1 1 2 1 6\nworld 1\n", Some((1, Cause::Order))),
    ("world 1\nblock 0 0 0 1\n", Some((2, Cause::Order))),
    ("worlds 1\n", Some((1, Cause::Word))),
    ("load 0 0\n", Some((1, Cause::Word))),
    ("world 1\r\ngrid 0 1 1 2 1 6\r\n", Some((1, Cause::Text))),
    ("\r\nworld 1\n", Some((1, Cause::Text))),
];

const HEAD: &str = "world 1\ngrid 0 1 1 2 1 6\n";

/// Lines behind the head of a world.
const WORLD_LINES: &[Case] = &[
    ("block 0 0 0 0\nblock 0 0 0 1\n", Some((4, Cause::Twice))),
    ("block 0 0 0 1\nblock 0 0 0 1\n", Some((4, Cause::Twice))),
    ("block 16000015 255 -16000000 65535\n", None),
    ("block 16000016 0 0 1\n", Some((3, Cause::Range))),
    ("block 0 0 -16000001 1\n", Some((3, Cause::Range))),
    ("block 0 0 0 65536\n", Some((3, Cause::Range))),
    ("block 0 0 0 -1\n", Some((3, Cause::Number))),
    ("entity 1 0 64 0 16 -16\n", None),
    ("entity 1 0 64 0 17 0\n", Some((3, Cause::Range))),
    ("entity 0 0 64 0 0 0\n", Some((3, Cause::Range))),
    (
        "entity 5 0 0 0 0 0\nblock 0 0 0 1\nentity 5 1 0 0 0 0",
        Some((5, Cause::Twice)),
    ),
    ("world 1\n", Some((3, Cause::Order))),
];

/// Scripts of one line.
const SCRIPT_LINES: &[Case] = &[
    ("load 00 0\n", Some((1, Cause::Number))),
    ("load -0 0\n", Some((1, Cause::Number))),
    ("load +1 0\n", Some((1, Cause::Number))),
    ("load 0\n", Some((1, Cause::Count))),
    ("load 0 0 0\n", Some((1, Cause::Count))),
    ("load 0  0\n", Some((1, Cause::Text))),
    (" load 0 0\n", Some((1, Cause::Text))),
    ("load 0 0 \n", Some((1, Cause::Text))),
    ("load 0 0 # no comment\n", Some((1, Cause::Count))),
    (
        "load 0 99999999999999999999999999\n",
        Some((1, Cause::Range)),
    ),
    (
        "load 0 -99999999999999999999999999\n",
        Some((1, Cause::Range)),
    ),
    ("load 1000001 0\n", Some((1, Cause::Range))),
    ("load -1000000 1000000\n", None),
    ("post 0 0 set 0 0 0 1\n", Some((1, Cause::Word))),
    ("post 0 0 1\n", Some((1, Cause::Count))),
    ("post 0 0 1 arrive 1 0 0 0\n", Some((1, Cause::Word))),
    ("post 0 0 1 every 1 1 load 0 0\n", Some((1, Cause::Word))),
];

const SCRIPTS: &[Case] = &[
    ("", None),
    (
        "load 0 0\nload 0 0\nunload 9 9\npost 0 0 0 set 0 0 0 1",
        Some((4, Cause::Range)),
    ),
    ("load 0 0\nload 0 0\nunload 9 9", None),
    (
        "load 0 0\nevery 0 0 1 2 3 set 0 0 0 4\nrun 5\nend\n",
        Some((2, Cause::Word)),
    ),
    ("run 9999\nend\nrun 2\n", Some((3, Cause::Total))),
    ("run 9999\nend\nrun 1\nend\n", None),
    ("run 1\n", Some((2, Cause::Missing))),
    ("run 1\n# later\n\n", Some((4, Cause::Missing))),
    ("run 1\nrun 1\n", Some((2, Cause::Order))),
    ("end\n", Some((1, Cause::Order))),
    ("end 1\n", Some((1, Cause::Order))),
];

/// What is wrong with a world text.
fn world_fault(alloc: Global, text: &[u8]) -> Option<ReadError> {
    match read_world(alloc, text) {
        Ok(_) => None,
        Err(error) => Some(error),
    }
}

/// What is wrong with a world text of these lines behind its head.
fn world_line_fault(alloc: Global, lines: &str) -> Option<ReadError> {
    match format!(in alloc; "{HEAD}{lines}") {
        Ok(text) => world_fault(alloc, text.as_bytes()),
        Err(_) => Some(ReadError::NoMemory),
    }
}

/// What is wrong with a script text of this version.
fn script_fault(alloc: Global, text: &[u8], version: u8) -> Option<ReadError>
    requires low { 1 ≤ version }
    requires high { version ≤ 2 }
{
    match read_script(alloc, text, version) {
        Ok(_) => None,
        Err(error) => Some(error),
    }
}

/// Compares what a reader told of a text with what it must tell.
fn expect(rt: &impl Abort, text: &str, told: Option<ReadError>, fault: Option<(u64, Cause)>) {
    let wanted = match fault {
        Some((line, cause)) => Some(ReadError::BadLine { line, cause }),
        None => None,
    };
    assert_eq!(rt; told, wanted, "{text}");
}

/// Reads scripts of version 1.
fn expect_scripts(rt: &impl Abort, alloc: Global, cases: &[Case]) {
    for (text, fault) in cases {
        expect(rt, text, script_fault(alloc, text.as_bytes(), 1), *fault);
    }
}

#[test]
fn worlds_and_their_first_bad_lines(rt: HostRuntime) {
    for (text, fault) in WORLDS {
        expect(&rt, text, world_fault(rt.alloc(), text.as_bytes()), *fault);
    }
}

#[test]
fn block_and_entity_lines(rt: HostRuntime) {
    for (lines, fault) in WORLD_LINES {
        expect(&rt, lines, world_line_fault(rt.alloc(), lines), *fault);
    }
}

#[test]
fn script_lines_by_themselves(rt: HostRuntime) {
    expect_scripts(&rt, rt.alloc(), SCRIPT_LINES);
}

#[test]
fn scripts_and_their_first_bad_lines(rt: HostRuntime) {
    expect_scripts(&rt, rt.alloc(), SCRIPTS);
}

/// A line with so many posts, of which the last unloads a chunk.
fn nested(alloc: Global, posts: u8) -> Result<String, AllocError> {
    let mut line = String::new(alloc);
    for _ in 0..posts {
        line.push_str("post 0 0 1 ")?;
    }
    line.push_str("unload 0 0")?;
    Ok(line)
}

#[test]
fn eight_posts_nest_and_nine_do_not(rt: HostRuntime) -> Result<(), AllocError> {
    for (posts, fault) in [(8, None), (9, Some((1, Cause::Nest)))] {
        let line = nested(rt.alloc(), posts)?;
        let told = script_fault(rt.alloc(), line.as_bytes(), 1);
        expect(&rt, line.as_str(), told, fault);
    }
    Ok(())
}

/// Whether a script of version 2 is printed as it was read.
fn is_printed_again(alloc: Global, text: &str) -> Result<bool, ReadError> {
    let script = read_script(alloc, text.as_bytes(), 2)?;
    let printed = print_script(alloc, &script);
    drop(script);
    Ok(printed?.as_slice() == text.as_bytes())
}

#[test]
fn the_second_version_has_repeated_tasks(rt: HostRuntime) -> Result<(), Fail> {
    let text = "load 0 0\nevery 0 0 1 2 3 set 0 0 0 4\nrun 5\nend\n";
    assert!(rt; is_printed_again(rt.alloc(), text)?);
    let none = "every 0 0 1 0 3 set 0 0 0 4\n";
    let told = script_fault(rt.alloc(), none.as_bytes(), 2);
    expect(&rt, none, told, Some((1, Cause::Range)));
    Ok(())
}

/// Whether a world is printed as the other text.
fn is_printed_as(alloc: Global, text: &str, wanted: &str) -> Result<bool, ReadError> {
    let world = read_world(alloc, text.as_bytes())?;
    let printed = print_world(alloc, &world);
    drop(world);
    Ok(printed?.as_slice() == wanted.as_bytes())
}

#[test]
fn a_world_is_printed_in_order_and_without_skipped_lines(rt: HostRuntime) -> Result<(), Fail> {
    let text =
        "# made by hand\nworld 2\n\ngrid 5 8 4 16384 1000 1000\nentity 7 0 1 2 -16 16\nblock 1 0 0 1\nblock 0 9 -1 2\nentity 3 -5 0 0 0 0\nblock 0 9 -2 65535\nblock 5 5 5 0\nblock -1 255 0 7";
    let sorted =
        "world 2\ngrid 5 8 4 16384 1000 1000\nblock -1 255 0 7\nblock 0 9 -2 65535\nblock 0 9 -1 2\nblock 1 0 0 1\nentity 3 -5 0 0 0 0\nentity 7 0 1 2 -16 16\n";
    assert!(rt; is_printed_as(rt.alloc(), text, sorted)?);
    Ok(())
}

#[test]
fn bytes_that_are_no_text_are_refused_outside_comments(rt: HostRuntime) {
    let comment = b"#\0\xff\r  \nend";
    let told = script_fault(rt.alloc(), comment, 1);
    expect(&rt, "an end with no run", told, Some((2, Cause::Order)));
    let told = script_fault(rt.alloc(), b"\0\n", 1);
    expect(&rt, "a zero byte", told, Some((1, Cause::Text)));
}

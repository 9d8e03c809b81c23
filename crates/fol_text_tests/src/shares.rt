//! Long scripts, of which several threads read a share each.

use fol_model::Cause;
use fol_script::{ReadError, print_script, read_script_in_shares};
use std::alloc::{AllocError, Global};
use std::test::Fail;
use std::thread::Threads;

/// Twenty thousand lines, each of which unloads a chunk of its own, and then these.
fn long_text(alloc: Global, last: &str) -> Result<String, AllocError> {
    let mut text = String::new(alloc);
    for x in 0..20_000 {
        let line = format!(in alloc; "unload {x} -4\n")?;
        text.push_str(line.as_str())?;
    }
    text.push_str(last)?;
    Ok(text)
}

/// Whether a script of version 2 is printed as four threads read it.
fn is_printed_again<R: Threads + Sync>(
    rt: &R,
    alloc: Global,
    text: &[u8],
) -> Result<bool, ReadError> {
    let script = read_script_in_shares(rt, alloc, 4, text, 2)?;
    let printed = print_script(alloc, &script);
    drop(script);
    Ok(printed?.as_slice() == text)
}

/// What is wrong with a script of version 2 that four threads read.
fn fault_in_shares<R: Threads + Sync>(rt: &R, alloc: Global, text: &[u8]) -> Option<ReadError> {
    match read_script_in_shares(rt, alloc, 4, text, 2) {
        Ok(_) => None,
        Err(error) => Some(error),
    }
}

#[test]
fn a_long_script_is_read_in_order(rt: HostRuntime) -> Result<(), Fail> {
    let text = long_text(rt.alloc(), "run 1\nend\n")?;
    assert!(rt; is_printed_again(&rt, rt.alloc(), text.as_bytes())?);
    Ok(())
}

#[test]
fn a_long_script_has_its_first_bad_line(rt: HostRuntime) -> Result<(), AllocError> {
    for (last, line, cause) in [
        ("load 0\nend\n", 20_001, Cause::Count),
        ("run 1\nend\nend\n", 20_003, Cause::Order),
        ("run 1\n", 20_002, Cause::Missing),
    ] {
        let text = long_text(rt.alloc(), last)?;
        let told = fault_in_shares(&rt, rt.alloc(), text.as_bytes());
        assert_eq!(rt; told, Some(ReadError::BadLine { line, cause }), "{last}");
    }
    Ok(())
}

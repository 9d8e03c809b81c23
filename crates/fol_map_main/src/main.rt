//! The program `fol-map WORLD REPORT`.
//!
//! It gives the call of `fol_map` the real files and the standard streams, and ends with the code of its ending. Where memory for the words
//! of the command line is not found, it ends as that call does where it finds none.
#![tactic(auto)]

ghost use Rattle.std.specs.Prelude.{◌≡◌};

use fol_io::{FileShelf, Sink, StdSink};
use fol_map::run;
use std::alloc::{AllocError, Global};
use std::process::ExitCode;
use std::{env, io};

/// The exit code where memory was not found.
const NO_MEMORY: u8 = 7;

fn main(rt: HostRuntime) -> io::Result<ExitCode> {
    let Ok(arguments) = arguments(&rt) else {
        return Ok(ExitCode::from(tell_no_memory(&rt)));
    };
    let Ok(words) = words_of(rt.alloc(), &arguments) else {
        return Ok(ExitCode::from(tell_no_memory(&rt)));
    };
    let mut shelf = FileShelf::new(&rt);
    let mut out = StdSink::out(&rt);
    let mut err = StdSink::err(&rt);
    let ending = run(rt.alloc(), words.as_slice(), &mut shelf, &mut out, &mut err);
    Ok(ExitCode::from(ending.code()))
}

/// The command line without the program's own name; a line that is no text, since a word of it is not UTF-8, is one of no words, which is
/// no command either.
fn arguments(rt: &HostRuntime) -> Result<Vec<String>, AllocError> {
    let mut arguments = Vec::new(rt.alloc());
    match env::args(rt) {
        Ok(all) => {
            for argument in all.skip(1) {
                arguments.push(argument)?;
            }
        }
        Err(error) if error.kind() == io::ErrorKind::OutOfMemory => return Err(AllocError),
        Err(_) => {}
    }
    Ok(arguments)
}

/// The arguments as the top call takes them.
fn words_of<'a>(alloc: Global, arguments: &'a [String]) -> Result<Vec<&'a str>, AllocError> {
    let mut words = Vec::new(alloc);
    for argument in arguments.iter() {
        words.push(argument.as_str())?;
    }
    Ok(words)
}

/// Tells that memory was not found, and returns the exit code for it. A fault of the standard error changes nothing.
fn tell_no_memory(rt: &HostRuntime) -> u8
    ensures { result ≡ 7 }
{
    let _answer = StdSink::err(rt).put("fol-map: no memory\n".as_bytes());
    NO_MEMORY
}

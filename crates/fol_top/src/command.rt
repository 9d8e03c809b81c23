//! The words of the command line.

ghost use Rattle.std.specs.Prelude.{◌≡◌, ◌≤◌, pos, map, Some, None, IfSome, MatchOption};
ghost use Rattle.fol_model.specs.TextNumbers.{reading};
ghost use Rattle.fol_top.specs.Asked.{IsWithin, asked};
ghost use Rattle.fol_top.specs.Command.{check_asked, form_in, is_check, is_name, is_run, make_of, request_in, run_asked, workers_in};

use crate::form::Form;
use fol_model::Reading;
use fol_script::read_number;

/// The names of a world and of a script.
#[derive(Clone, Copy)]
pub(crate) struct Names<'a> {
    pub(crate) world: &'a str,
    pub(crate) script: &'a str,
}

/// What a command asks for.
#[derive(Clone, Copy)]
pub(crate) enum Request<'a> {
    /// A run of two files by so many workers, from 1 to 64, to be written in this form.
    Run {
        names: Names<'a>,
        workers: u32,
        form: Form,
    },
    /// A check of the report of this name against two files.
    Check {
        names: Names<'a>,
        report: &'a str,
    },
    /// A run of the made texts of so many clusters, from 1 to 500.
    Make(u32),
}

/// What `run WORLD SCRIPT WORKERS`, `run WORLD SCRIPT WORKERS json`, `check WORLD SCRIPT REPORT` or `make N` asks for; `None` exactly where the words are no command.
pub(crate) fn request_in<'a>(words: &[&'a str]) -> Option<Request<'a>>
    ensures request { MatchOption result (request_in (map (λ w. w.now) words.now) ≡ None) (λ r.
        request_in (map (λ w. w.now) words.now) ≡ Some (asked r)) }
    ensures within { IfSome result IsWithin }
{
    match words {
        [command, number] => {
            if *command == "make" {
                make_of(number)
            } else {
                None
            }
        }
        [command, world, script, last, more @ ..] => {
            if *command == "check" {
                check_asked(command, world, script, last, more)
            } else {
                run_asked(command, world, script, last, more)
            }
        }
        _ => None,
    }
}

/// What `run WORLD SCRIPT WORKERS` asks for, with what stands behind it; `None` where the words are no such command.
#[tactic(auto, unfolding(crate::specs::Command::run_asked))]
fn run_asked<'a>(
    command: &str,
    world: &'a str,
    script: &'a str,
    workers: &str,
    more: &[&str],
) -> Option<Request<'a>>
    ensures request { MatchOption result
        (run_asked command.now world.now script.now workers.now (map (λ w. w.now) more.now)
        ≡ None) (λ r. run_asked command.now world.now script.now workers.now
        (map (λ w. w.now) more.now) ≡ Some (asked r)) }
    ensures within { IfSome result IsWithin }
{
    if !is_run(command, world, script) {
        return None;
    }
    let workers = workers_in(workers)?;
    let form = form_in(more)?;
    let names = Names { world, script };
    Some(Request::Run {
        names,
        workers,
        form,
    })
}

/// Whether the words are `run WORLD SCRIPT`.
fn is_run(command: &str, world: &str, script: &str) -> bool
    ensures { result ≡ is_run command.now world.now script.now }
{
    command == "run" && is_name(world) && is_name(script)
}

/// What `check WORLD SCRIPT REPORT` asks for, with what stands behind it; `None` where the words are no such command.
#[tactic(auto, unfolding(crate::specs::Command::check_asked))]
fn check_asked<'a>(
    command: &str,
    world: &'a str,
    script: &'a str,
    report: &'a str,
    more: &[&str],
) -> Option<Request<'a>>
    ensures request { MatchOption result
        (check_asked command.now world.now script.now report.now (map (λ w. w.now) more.now)
        ≡ None) (λ r. check_asked command.now world.now script.now report.now
        (map (λ w. w.now) more.now) ≡ Some (asked r)) }
    ensures within { IfSome result IsWithin }
{
    if is_check(command, world, script, report) && more.is_empty() {
        let names = Names { world, script };
        Some(Request::Check { names, report })
    } else {
        None
    }
}

/// Whether the words are `check WORLD SCRIPT REPORT`.
fn is_check(command: &str, world: &str, script: &str, report: &str) -> bool
    ensures { result ≡ is_check command.now world.now script.now report.now }
{
    command == "check" && is_name(world) && is_name(script) && is_name(report)
}

/// The number of workers, from 1 to 64; `None` where the word is no such number.
fn workers_in(word: &str) -> Option<u32>
    ensures value { result ≡ workers_in (reading (pos 1) (pos 64) word.now) }
    ensures within { IfSome result (λ n. (1 ≤ n) × (n ≤ 64)) }
{
    match read_number(word.as_bytes(), 1, 64) {
        Reading::Is(workers) => Some(workers as u32),
        _ => None,
    }
}

/// Whether the word can name a file: it is not empty, and does not begin with `-`.
fn is_name(word: &str) -> bool
    ensures { result ≡ is_name word.now }
{
    match word.as_bytes() {
        [] => false,
        [first, ..] => *first != b'-',
    }
}

/// The form that the words behind `run WORLD SCRIPT WORKERS` ask for; `None` where they ask for none.
fn form_in(more: &[&str]) -> Option<Form>
    ensures { result ≡ form_in (map (λ w. w.now) more.now) }
{
    match more {
        [] => Some(Form::Text),
        [form] if *form == "json" => Some(Form::Json),
        _ => None,
    }
}

/// What `make` asks for with this word; `None` where the word is no number from 1 to 500.
fn make_of<'a>(number: &str) -> Option<Request<'a>>
    ensures request { MatchOption result (make_of (reading (pos 1) (pos 500) number.now)
        ≡ None) (λ r. make_of (reading (pos 1) (pos 500) number.now) ≡ Some (asked r)) }
    ensures within { IfSome result IsWithin }
{
    match read_number(number.as_bytes(), 1, 500) {
        Reading::Is(clusters) => Some(Request::Make(clusters as u32)),
        _ => None,
    }
}

//! The commands of `bedrock`: the verdict on an image of microcode, drawn traces, replays of an image over a trace
//! (docs/COMMANDS.md). The exit code is the status of `bk_cmd`, and standard error tells of a fault.
#![tactic(auto)]

ghost use Rattle.std.specs.Prelude.{◌≡◌, ◌≢◌, IsTrue};
ghost use Rattle.std.specs.IoError.{error_kind};
ghost use Rattle.bk_cmd.specs.Outcomes.{is_status};

use bk_cmd::{MEMORY, OK, Outcome, USAGE, fault_line, is_threads, run_plain, run_threads};
use bk_lce::{Victim, WayView, oldest};
use bk_outer::{FileShelf, Free, StdSink};
use std::alloc::Global;
use std::env;
use std::io::{self, ErrorKind};
use std::process::ExitCode;
use std::rt::Files;
use std::sync::Wait;
use std::thread::Threads;

#[cfg(test)]
mod threaded;

/// The words of the command line without the program's name.
fn words_of(rt: &HostRuntime) -> io::Result<Vec<String>> {
    let mut words = Vec::new(rt.alloc());
    for word in env::args(rt)?.skip(1) {
        words.push(word)?;
    }
    Ok(words)
}

/// Words that are not UTF-8 are no command, and else there was no memory for them.
fn no_words(alloc: Global, error: &io::Error) -> Outcome
    ensures no_text { error_kind error.now ≡ ErrorKind.InvalidData → result.status ≡ USAGE }
    ensures no_memory { error_kind error.now ≢ ErrorKind.InvalidData → result.status ≡ MEMORY }
{
    let status = match error.kind() {
        ErrorKind::InvalidData => USAGE,
        _ => MEMORY,
    };
    Outcome {
        status,
        file: 0,
        at: 0,
        column: 0,
        kind: 0,
        refusal: None,
        events: Vec::new(alloc),
        written: 0,
    }
}

/// How the command of the words ended, over the files and the output of the system.
fn run<R: Files + Print + Threads + Wait + Sync>(rt: &R, alloc: Global, words: &[String]) -> Outcome
    ensures { IsTrue (is_status result.status) }
{
    let mut shelf = FileShelf::make(rt);
    let mut sink = StdSink::make(rt);
    let victim = Victim::store(|views: &[WayView]| oldest(views));
    if is_threads(words) {
        run_threads(rt, alloc, words, &mut shelf, &mut sink, victim, &Free)
    } else {
        run_plain(alloc, words, &mut shelf, &mut sink, victim)
    }
}

fn main(rt: HostRuntime) -> ExitCode {
    let outcome = match words_of(&rt) {
        Ok(words) => run(&rt, rt.alloc(), &words),
        Err(error) => no_words(rt.alloc(), &error),
    };
    if outcome.status != OK {
        let _ = eprintln!(rt; "{}", fault_line(&outcome));
    }
    ExitCode::from(outcome.status)
}

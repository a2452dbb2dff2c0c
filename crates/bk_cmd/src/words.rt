ghost use Rattle.std.specs.Prelude.{◌≡◌, ◌↔◌, Some, None, MatchOption, IfSome, IsSome, IsTrue};
ghost use Rattle.bk_cmd.specs.Words.{output_of, generate_in, file_command, source_command, generate_of, replay_of, command_of};
ghost use Rattle.bk_cmd.specs.Threads.{threads_of};
ghost use Rattle.bk_cmd.specs.Told.{told, HasFewOperations};

use crate::numbers::{below, config_in};
use bk_base::Config;
use bk_proto::source;

/// The first word of a verdict.
const VERIFY: &str = "verify";
/// The first word of an assembly.
const ASSEMBLE: &str = "asm";
/// The first word of a disassembly.
const DISASSEMBLE: &str = "dis";
/// The first word of a program's source.
const SOURCE: &str = "proto";
/// The first word of a drawn trace.
const GENERATE: &str = "gen";
/// One more than the greatest seed.
const SEED_LIMIT: u64 = 1 << 32;
/// One more than the most operations of a trace.
const OPERATIONS_LIMIT: u64 = 10_001;
/// The first word of a replay.
const REPLAY: &str = "replay";
/// The second word of a replay that writes the report.
const SERIAL: &str = "serial";
/// The second word of a replay that writes the log and the report.
const LOG: &str = "log";
/// The second word of a replay by agents side by side.
const THREADS: &str = "threads";

/// What is asked of one file.
#[derive(Clone, Copy, Debug, PartialEq, Eq)]
pub(crate) enum Question {
    /// The verdict on an image.
    Verdict,
    /// The image of a text.
    Assembly,
    /// The canonical text of an image.
    Disassembly,
}

/// What a replay writes.
#[derive(Clone, Copy, Debug, PartialEq, Eq)]
pub(crate) enum Output {
    /// The report of the run.
    Report,
    /// The log of the run, and then its report.
    LogAndReport,
}

/// What a command line asks for, with the names of its files.
#[derive(Clone, Copy)]
pub(crate) enum Command<'a> {
    /// `verify IMAGE`, `asm TEXT` and `dis IMAGE`: a question on one file.
    OfFile {
        question: Question,
        name: &'a str,
    },
    /// `proto NAME`: the source of a program.
    Source {
        text: &'static [u8],
    },
    /// `gen SEED CACHES SETS WAYS OPS`: a trace of so many operations, at most 10,000, that is drawn from a seed.
    Generate {
        seed: u32,
        config: Config,
        operations: u32,
    },
    /// `replay serial IMAGE TRACE` and `replay log IMAGE TRACE`: the greedy run of an image over a trace.
    Replay {
        output: Output,
        image: &'a str,
        trace: &'a str,
    },
}

/// What the second word of a replay asks for.
fn output_of(mode: &str) -> Option<Output>
    ensures { result ≡ output_of mode.now }
{
    if mode == SERIAL {
        Some(Output::Report)
    } else if mode == LOG {
        Some(Output::LogAndReport)
    } else {
        None
    }
}

/// The drawing of these words, where each is a number in its range.
fn generate_in<'a>(
    seed: &str,
    caches: &str,
    sets: &str,
    ways: &str,
    operations: &str,
) -> Option<Command<'a>>
    ensures value { MatchOption result
        (generate_in seed.now caches.now sets.now ways.now operations.now ≡ None)
        (λ command. generate_in seed.now caches.now sets.now ways.now operations.now ≡ Some (told command)) }
    ensures few { IfSome result HasFewOperations }
{
    let seed = below(SEED_LIMIT, seed);
    let config = config_in(caches, sets, ways);
    let operations = below(OPERATIONS_LIMIT, operations);
    match (seed, config, operations) {
        (Some(seed), Some(config), Some(operations)) => Some(Command::Generate {
            seed: seed as u32,
            config,
            operations: operations as u32,
        }),
        _ => None,
    }
}

/// The words behind `verify`, `asm` and `dis`: a file.
fn file_command(question: Question, words: &[String]) -> Option<Command<'_>>
    ensures value { MatchOption result (file_command question words.now ≡ None)
        (λ command. file_command question words.now ≡ Some (told command)) }
    ensures few { IfSome result HasFewOperations }
{
    match words {
        [name] => Some(Command::OfFile {
            question,
            name: name.as_str(),
        }),
        _ => None,
    }
}

/// The words behind `proto`: the name of a program.
fn source_command(words: &[String]) -> Option<Command<'_>>
    ensures value { MatchOption result (source_command words.now ≡ None) (λ command. source_command words.now ≡ Some (told command)) }
    ensures few { IfSome result HasFewOperations }
{
    match words {
        [name] => match source(name.as_str()) {
            Some(text) => Some(Command::Source { text }),
            None => None,
        },
        _ => None,
    }
}

/// The words behind `gen`: a seed, a configuration and a number of operations.
fn generate_of(words: &[String]) -> Option<Command<'_>>
    ensures value { MatchOption result (generate_of words.now ≡ None) (λ command. generate_of words.now ≡ Some (told command)) }
    ensures few { IfSome result HasFewOperations }
{
    match words {
        [seed, caches, sets, ways, operations] => generate_in(
            seed.as_str(),
            caches.as_str(),
            sets.as_str(),
            ways.as_str(),
            operations.as_str(),
        ),
        _ => None,
    }
}

/// The words behind `replay`: what is written, an image and a trace.
fn replay_of(words: &[String]) -> Option<Command<'_>>
    ensures value { MatchOption result (replay_of words.now ≡ None) (λ command. replay_of words.now ≡ Some (told command)) }
    ensures few { IfSome result HasFewOperations }
{
    match words {
        [mode, image, trace] => match output_of(mode.as_str()) {
            Some(output) => Some(Command::Replay {
                output,
                image: image.as_str(),
                trace: trace.as_str(),
            }),
            None => None,
        },
        _ => None,
    }
}

/// The command of the words, or none where they are no command.
pub(crate) fn command_of(words: &[String]) -> Option<Command<'_>>
    ensures value { MatchOption result (command_of words.now ≡ None) (λ command. command_of words.now ≡ Some (told command)) }
    ensures few { IfSome result HasFewOperations }
{
    let [command, rest @ ..] = words else {
        return None;
    };
    if command.as_str() == VERIFY {
        return file_command(Question::Verdict, rest);
    }
    if command.as_str() == ASSEMBLE {
        return file_command(Question::Assembly, rest);
    }
    if command.as_str() == DISASSEMBLE {
        return file_command(Question::Disassembly, rest);
    }
    if command.as_str() == SOURCE {
        return source_command(rest);
    }
    if command.as_str() == GENERATE {
        return generate_of(rest);
    }
    if command.as_str() == REPLAY {
        return replay_of(rest);
    }
    None
}

/// The names of the image and the trace of `replay threads IMAGE TRACE`, or none where the words are others.
pub(crate) fn threads_of(words: &[String]) -> Option<(&str, &str)>
    ensures { MatchOption result (threads_of words.now ≡ None) (λ names. threads_of words.now ≡ Some (names.0.now, names.1.now)) }
{
    match words {
        [command, mode, image, trace] if command.as_str() == REPLAY && mode.as_str() == THREADS => {
            Some((image.as_str(), trace.as_str()))
        }
        _ => None,
    }
}

/// Whether the words are `replay threads IMAGE TRACE`, which [`crate::run_threads`] does.
pub fn is_threads(words: &[String]) -> bool
    ensures { IsTrue result ↔ IsSome (threads_of words.now) }
{
    threads_of(words).is_some()
}

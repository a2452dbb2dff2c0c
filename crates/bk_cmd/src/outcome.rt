ghost use Rattle.std.specs.Prelude.{◌≡◌, []};
ghost use Rattle.bk_cmd.specs.Outcomes.{is_limit, facts_of, facts_of_stop, after_run};

use bk_check::Refusal;
use bk_system::Event;
use std::alloc::Global;

// The statuses, which are also the program's exit codes.

/// All that was due was written; a run is complete.
pub const OK: u8 = 0;
/// Memory ran out.
pub const MEMORY: u8 = 1;
/// The words are no command.
pub const USAGE: u8 = 2;
/// An image is not accepted.
pub const REFUSED: u8 = 3;
/// A file is not of its grammar.
pub const MALFORMED: u8 = 4;
/// There is no file of a name.
pub const ABSENT: u8 = 5;
/// A file could not be read.
pub const READ_FAULT: u8 = 6;
/// What was due could not be written.
pub const WRITE_FAULT: u8 = 7;
/// A file, or a list in it, is over its limit.
pub const TOO_LONG: u8 = 8;
/// The trace of a replay has more caches than the limit of its image.
pub const LIMIT: u8 = 10;

/// How a command ended. What a status doesn't use is 0, none or empty.
#[derive(Debug, Drop)]
pub struct Outcome {
    /// One of the statuses.
    pub status: u8,
    /// 1 or 2: the first or the second file that the words name, where the status is of a file.
    pub file: u8,
    /// Where the fault of a file lies: the byte of an image, the line of a text.
    pub at: u64,
    /// The column of the fault in its line, and 0 in an image.
    pub column: u64,
    /// The kind of a file's fault, and 0 where the file as a whole is too long.
    pub kind: u8,
    /// Why the image is refused.
    pub refusal: Option<Refusal>,
    /// The events of a replay's run, wherever one ended.
    pub events: Vec<Event>,
    /// How many of the bytes that were due the sink took.
    pub written: u64,
}

/// Why a file gave no bytes.
#[derive(Clone, Copy, Debug, PartialEq, Eq)]
pub(crate) enum Unread {
    /// There is no such file.
    Absent,
    /// The read failed.
    Failed,
    /// The file has too many bytes.
    TooLong,
}

/// Why nothing was due.
#[derive(Clone, Copy, Debug, PartialEq, Eq)]
pub(crate) enum Stop {
    /// Memory ran out.
    Memory,
    /// The words are no command.
    Usage,
    /// The file of this number gave no bytes.
    Unread {
        file: u8,
        cause: Unread,
    },
    /// The file of this number has a fault of this kind at this place.
    Bad {
        file: u8,
        at: u64,
        column: u64,
        kind: u8,
    },
    /// The image is not accepted.
    Refused {
        refusal: Refusal,
    },
    /// The trace has more caches than the limit of the image.
    Limit,
}

/// Whether a fault of this kind is that a list is over its limit.
fn is_limit(kind: u8) -> bool
    ensures { result ≡ is_limit kind }
{
    kind == bk_image::Kind::TooMany.code()
        || kind == bk_asm::Kind::TooMany.code()
        || kind == bk_trace::Kind::TooMany.code()
}

/// The outcome of a command that was not begun, with this status of a file, or of none.
fn no_run(alloc: Global, status: u8, file: u8, refusal: Option<Refusal>) -> Outcome
    ensures facts { facts_of result
        ≡ record { status = status; file = file; at = 0; column = 0; kind = 0; refusal = refusal; written = 0 } }
    ensures no_events { result.events.items ≡ [] }
{
    Outcome {
        status,
        file,
        at: 0,
        column: 0,
        kind: 0,
        refusal,
        events: Vec::new(alloc),
        written: 0,
    }
}

/// The outcome where nothing was due.
pub(crate) fn stopped(alloc: Global, stop: Stop) -> Outcome
    ensures facts { facts_of result ≡ facts_of_stop stop }
    ensures no_events { result.events.items ≡ [] }
{
    match stop {
        Stop::Memory => no_run(alloc, MEMORY, 0, None),
        Stop::Usage => no_run(alloc, USAGE, 0, None),
        Stop::Unread { file, cause } => match cause {
            Unread::Absent => no_run(alloc, ABSENT, file, None),
            Unread::Failed => no_run(alloc, READ_FAULT, file, None),
            Unread::TooLong => no_run(alloc, TOO_LONG, file, None),
        },
        Stop::Bad {
            file,
            at,
            column,
            kind,
        } => {
            let status = if is_limit(kind) { TOO_LONG } else { MALFORMED };
            Outcome {
                at,
                column,
                kind,
                ..no_run(alloc, status, file, None)
            }
        }
        Stop::Refused { refusal } => no_run(alloc, REFUSED, 0, Some(refusal)),
        Stop::Limit => no_run(alloc, LIMIT, 0, None),
    }
}

/// The outcome after a run with these events, or none, where the sink took so many of the bytes due.
pub(crate) fn ended(status: u8, events: Vec<Event>, written: u64) -> Outcome
    ensures facts { facts_of result ≡ after_run status written }
    ensures events { result.events.items ≡ events.items }
{
    Outcome {
        status,
        file: 0,
        at: 0,
        column: 0,
        kind: 0,
        refusal: None,
        events,
        written,
    }
}

use bk_base::Addr;
use bk_msg::Message;

/// The class of a choice at an instruction other than `wfq`, which is offered no head.
pub const CLASS_NONE: u8 = 0;
/// The class of responses.
pub const CLASS_RESPONSE: u8 = 1;
/// The class of messages of memory.
pub const CLASS_MEMORY: u8 = 2;
/// The class of requests.
pub const CLASS_REQUEST: u8 = 3;

/// A channel's head that `wfq` takes: its class, one of `CLASS_RESPONSE`, `CLASS_MEMORY` and `CLASS_REQUEST`, and its source,
/// a cache or, of memory, 0. At other instructions the choice is `CLASS_NONE` with source 0.
#[derive(Clone, Copy, Debug, PartialEq, Eq)]
pub struct Choice {
    pub class: u8,
    pub source: u8,
}

/// A copy of a channel's head, with the channel that it stands in.
#[derive(Clone, Copy, Debug, PartialEq, Eq)]
pub struct Head {
    pub choice: Choice,
    pub message: Message,
}

/// What a request asks for.
#[derive(Clone, Copy, Debug, PartialEq, Eq)]
pub enum RequestKind {
    Rd,
    Wr,
    UcRd,
    UcWr,
    Evict,
}

/// The request that the engine works on.
#[derive(Clone, Copy, Debug, PartialEq, Eq)]
pub struct Held {
    pub kind: RequestKind,
    /// The cache that asked.
    pub source: u8,
    /// The way that it has set apart; 0 for an uncached request.
    pub way: u8,
    pub addr: Addr,
    /// The word to be written by an uncached store, else 0.
    pub value: u64,
}

/// A dirty block on its way to memory. Its address is that of its first word.
#[derive(Clone, Copy, Debug, PartialEq, Eq)]
pub struct DirtyBlock {
    pub addr: Addr,
    pub words: [u64; 8],
}

/// The directory wasn't read for the request.
pub const NOT_READ: u8 = 0;
/// The request's row of the directory was read.
pub const ROW_READ: u8 = 1;
/// The row was summed up: own, owner, others and victim are known.
pub const SUMMED_UP: u8 = 2;

/// The engine's parts but its directory and the pending bits.
#[derive(Clone, Copy, Debug, PartialEq, Eq)]
pub struct Core {
    /// The place of the next instruction.
    pub place: u32,
    pub head: Option<Head>,
    pub held: Option<Held>,
    /// How far the directory was read for the request: `NOT_READ`, `ROW_READ` or `SUMMED_UP`.
    pub summ: u8,
    /// How many acknowledgements of invalidations are to come.
    pub acks: u64,
    pub dirty: Option<DirtyBlock>,
    /// The words of the block that memory has answered.
    pub got: Option<[u64; 8]>,
    pub registers: [u64; 8],
    pub flags: [bool; 4],
}

impl Core {
    ghost use Rattle.std.specs.Prelude.{◌≡◌};
    ghost use Rattle.bk_engine.specs.Engine.{new_core};

    /// The engine at its start.
    pub fn new() -> Core
        ensures { result ≡ new_core }
    {
        Core {
            place: 0,
            head: None,
            held: None,
            summ: NOT_READ,
            acks: 0,
            dirty: None,
            got: None,
            registers: [0; 8],
            flags: [false; 4],
        }
    }
}

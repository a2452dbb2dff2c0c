use bk_base::Op;
use bk_engine::Choice;

/// How many messages an event sends at the most: an `inv` sends one to each of sixteen caches at the most, any other instruction and
/// a step of a cache or of the memory at most one.
pub const MOST_SENT: usize = 16;

/// One local step of one agent.
#[derive(Clone, Copy, Debug, PartialEq, Eq)]
pub enum Event {
    /// A cache begins an operation; `way` is the way of a victim, which only a cached operation uses.
    Issue { cache: u8, way: u8, op: Op },
    /// A cache takes the head of its command channel.
    Command { cache: u8 },
    /// A cache takes the head of the fill channel from another.
    Fill { to: u8, from: u8 },
    /// The memory takes the head of its channel.
    Memory,
    /// The engine runs one instruction.
    Engine { choice: Choice },
}

/// Where a request comes from: its cache, and the way group of its address.
#[derive(Clone, Copy, Debug, PartialEq, Eq)]
pub struct Origin {
    pub cache: u8,
    pub group: u8,
}

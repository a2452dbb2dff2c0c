/// A channel of a system: by network, and within it by the cache that it is from or to. Each keeps its messages in order.
///
/// Channels lead from agent to agent, and these have numbers: the caches theirs, then the engine, then the memory.
#[derive(Clone, Copy, Debug, PartialEq, Eq)]
pub enum Channel {
    /// Requests of a cache to the engine.
    Request { from: u8 },
    /// Commands of the engine to a cache.
    Command { to: u8 },
    /// Blocks that one cache sends to another.
    Fill { to: u8, from: u8 },
    /// Responses of a cache to the engine.
    Response { from: u8 },
    /// What the engine asks of the memory.
    Memout,
    /// What the memory answers.
    Memin,
}

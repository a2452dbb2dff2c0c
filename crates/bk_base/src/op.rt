use crate::addr::Addr;

/// An operation of a processor on its cache.
#[derive(Clone, Copy, Debug, PartialEq, Eq)]
pub enum Op {
    /// Reads a word through the cache.
    Load(Addr),
    /// Writes a word through the cache.
    Store(Addr, u64),
    /// Reads a word past the cache.
    UcLoad(Addr),
    /// Writes a word past the cache.
    UcStore(Addr, u64),
    /// Gives a block up.
    Evict(Addr),
}

/// An operation that has completed: an entry of the history.
#[derive(Clone, Copy, Debug, PartialEq, Eq)]
pub struct Done {
    /// The cache whose operation it is, below the number of caches.
    pub cache: u8,
    pub op: Op,
    /// The value that a `Load` or `UcLoad` has read, else 0.
    pub answer: u64,
}

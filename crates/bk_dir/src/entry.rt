use bk_base::Coh;

/// What the directory says of one way of a cache.
#[derive(Clone, Copy, Debug, PartialEq, Eq)]
pub struct Entry {
    /// The tag of the block that was put there last. Where the state is `I` it says nothing.
    pub tag: u64,
    pub state: Coh,
}

/// What a request asks the directory about: a block, for a cache.
#[derive(Clone, Copy, Debug, PartialEq, Eq)]
pub struct Query {
    /// The cache that asks.
    pub cache: u8,
    /// The set of the block, which is its way group.
    pub set: u8,
    /// The tag of the block.
    pub tag: u64,
    /// The way that the cache has set apart.
    pub way: u8,
    /// Whether the answer puts a block there: true for `Rd` and `Wr`.
    pub placed: bool,
}

/// What the directory says of a block, for a cache that asks.
#[derive(Clone, Copy, Debug, PartialEq, Eq)]
pub struct Summary {
    /// The state of the cache's own entry of the block: that of the least way that holds it, `I` where none does.
    pub own: Coh,
    /// The way of that entry, 0 where `own` is `I`.
    pub own_way: u8,
    /// The least other cache whose entry of the block is in `E`, `F`, `M` or `O`, with the least such way.
    pub owner: Option<(u8, u8)>,
    /// The state of the owner's entry, `I` where there is no owner.
    pub owner_state: Coh,
    /// The other caches with an entry `S` of the block: a bit for each cache, cache 0 in the lowest.
    pub others: u16,
    /// The state of the entry that stands where the block is to be placed, `I` where none does or it is the block's own.
    pub victim: Coh,
}

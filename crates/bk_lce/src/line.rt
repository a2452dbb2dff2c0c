use bk_base::{Coh, Done, Op};
use bk_msg::Message;

/// A cache line: the copy of a block at one way of a set.
#[derive(Clone, Copy, Debug, PartialEq, Eq)]
pub struct Line {
    /// The tag of the block that was put there last. Where the state is `I`, tag and words say nothing.
    pub tag: u64,
    pub state: Coh,
    pub words: [u64; 8],
}

/// An operation that a cache has begun and that isn't complete.
#[derive(Clone, Copy, Debug, PartialEq, Eq)]
pub struct InProgress {
    pub op: Op,
    /// The way that the cache has set apart for it; 0 for an operation past the caches.
    pub way: u8,
}

/// What a victim policy is told of one way of a set.
#[derive(Clone, Copy, Debug, PartialEq, Eq)]
pub struct WayView {
    pub state: Coh,
    /// How many ways of the set were used more recently, 0 to 7.
    pub age: u8,
}

/// What a call on a cache gave.
#[derive(Clone, Copy, Debug, PartialEq, Eq)]
pub struct CacheStep {
    /// The message that the cache sends.
    pub sent: Option<Message>,
    /// The operation that has completed, with its answer.
    pub done: Option<Done>,
    /// The way of the operation that was begun, or that a message completed; else 0. An `Evict` of a block that isn't
    /// there has way 0, and so has an operation past the caches.
    pub way: u8,
}

/// The cache has an operation in progress, so it takes no other.
#[derive(Clone, Copy, Debug, PartialEq, Eq)]
pub struct Busy;

/// The cache has no row for the message.
#[derive(Clone, Copy, Debug, PartialEq, Eq)]
pub struct Foreign;

impl Default for WayView {
    ghost use Rattle.std.specs.Prelude.{◌≡◌};
    ghost use Rattle.bk_base.specs.declared.coh.Coh.TheVariants.{I};

    ghost is_default = { λ view. (view.state ≡ I) × (view.age ≡ 0) };

    /// A way in `I` of age 0. It fills the unused places of fixed arrays.
    fn default() -> WayView {
        WayView {
            state: Coh::I,
            age: 0,
        }
    }
}

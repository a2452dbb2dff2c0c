ghost use Rattle.std.specs.Prelude.{◌≡◌, ◌*◌, ◌<◌, ◌≤◌, vec_len};
ghost use Rattle.bk_base.specs.declared.config.TheConstants.{MOST_CACHES, MOST_WAYS};
ghost use Rattle.bk_lce.specs.Lists.{HasWay, AreListed};

use crate::line::{InProgress, Line};
use bk_base::{Config, MOST_CACHES, MOST_WAYS};

/// All of a cache but its policy: its lines, their recency, and the operation that it has begun. Contracts see what it
/// holds, as `state_of` tells, with its configuration and its number.
#[derive(Drop)]
pub struct CacheArrays {
    pub(crate) config: Config,
    /// The number of the cache, below the number of caches.
    pub(crate) number: u8,
    /// By set and way: the line of a way has the place `set * ways + way`.
    pub(crate) lines: Vec<Line>,
    /// By set: its ways, most recently used first. The way at place i stands in bits 3 * i to 3 * i + 2; all other bits are 0.
    pub(crate) recency: Vec<u32>,
    pub(crate) busy: Option<InProgress>,
    ghost few_caches: { config.caches ≤ MOST_CACHES },
    ghost some_ways: { 1 ≤ config.ways },
    ghost few_ways: { config.ways ≤ MOST_WAYS },
    ghost numbered: { number < config.caches },
    ghost lines_each: { vec_len lines ≡ config.sets * config.ways },
    ghost recency_each: { vec_len recency ≡ config.sets },
    ghost has_way: { HasWay config busy },
    ghost listed: { AreListed config recency.items },
}

impl CacheArrays {
    ghost use Rattle.std.specs.Prelude.{IfSome, is_some};
    ghost use Rattle.bk_lce.specs.CacheArrays.{state_of};

    /// How many ways each set has.
    pub(crate) fn ways(&self) -> u8
        ensures { result ≡ self.now.config.ways }
    {
        self.config.ways
    }

    /// The operation in progress.
    #[tactic(auto, unfolding(crate::specs::CacheArrays::state_of))]
    pub(crate) fn in_progress(&self) -> Option<InProgress>
        ensures value { result ≡ (state_of self.now).busy }
        ensures within { IfSome result (λ busy. busy.way < self.now.config.ways) }
    {
        self.busy
    }

    /// Whether the cache has an operation in progress.
    #[tactic(auto, unfolding(crate::specs::CacheArrays::state_of))]
    pub fn busy(&self) -> bool
        ensures { result ≡ is_some (state_of self.now).busy }
    {
        self.busy.is_some()
    }
}

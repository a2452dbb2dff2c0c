ghost use Rattle.std.specs.Prelude.{◌≡◌, ◌≤◌, ◌<◌, ℕ, [], length, vec_len, IfOk};
ghost use Rattle.bk_base.specs.declared.config.TheConstants.{MOST_CACHES};
ghost use Rattle.bk_system.specs.Channels.{channel_count};
ghost use Rattle.bk_system.specs.Numbering.{AreCounts};
ghost use Rattle.bk_system.specs.declared.hardware.TheConstants.{FILL_CHANNELS};

use crate::bounds::cache_count;
use crate::caches::Caches;
use crate::channels::Channels;
use crate::event::{MOST_SENT, Origin};
use crate::memory::MainMemory;
use crate::sending::SENDERS;
use arrayvec::ArrayVec;
use bk_base::{Config, Done, MOST_CACHES};
use bk_engine::Engine;
use bk_lce::CacheArrays;
use bk_msg::Message;
use std::alloc::{AllocError, Global};

/// How many fill channels there are: one for each receiver and sender.
pub const FILL_CHANNELS: u16 = SENDERS as u16 * SENDERS as u16;

/// The caches, the engine and the memory of a system, the channels between them, and what has happened in
/// it. Contracts see the state that it stands for, as `state_of` tells, and its configuration.
#[derive(Drop)]
pub struct Hardware {
    pub(crate) config: Config,
    pub(crate) caches: Caches,
    pub(crate) engine: Engine,
    pub(crate) requests: Channels,
    pub(crate) commands: Channels,
    pub(crate) responses: Channels,
    /// The channels between caches: that to a cache from another has the place `to * SENDERS + from`.
    pub(crate) fills: Channels,
    /// The one channel from the engine to the memory, and the one back.
    pub(crate) memout: Channels,
    pub(crate) memin: Channels,
    pub(crate) memory: MainMemory,
    pub(crate) history: Vec<Done>,
    /// How many entries each cache has in the history.
    pub(crate) completed: Vec<usize>,
    pub(crate) taken: Vec<Origin>,
    pub(crate) settled: Vec<Origin>,
    /// What the last event has sent, where it ran. It is no part of the state that the hardware stands for: it is kept here since
    /// making and moving a list of sixteen messages takes many times as long as an event.
    pub(crate) sent: ArrayVec<Message, MOST_SENT>,
    ghost few_caches: { config.caches ≤ MOST_CACHES },
    ghost some_caches: { 0 < config.caches },
    ghost caches_config: { caches.config ≡ config },
    ghost engine_config: { engine.config ≡ config },
    ghost requests_config: { requests.config ≡ config },
    ghost requests_each: { channel_count requests ≡ config.caches },
    ghost commands_config: { commands.config ≡ config },
    ghost commands_each: { channel_count commands ≡ config.caches },
    ghost responses_config: { responses.config ≡ config },
    ghost responses_each: { channel_count responses ≡ config.caches },
    ghost fills_config: { fills.config ≡ config },
    ghost fills_each: { channel_count fills ≡ FILL_CHANNELS },
    ghost memout_config: { memout.config ≡ config },
    ghost memout_one: { channel_count memout ≡ 1 },
    ghost memin_config: { memin.config ≡ config },
    ghost memin_one: { channel_count memin ≡ 1 },
    ghost completed_each: { vec_len completed ≡ config.caches },
    ghost counted: { AreCounts config.caches completed.items history.items },
}

/// A count of 0 for each of so many caches.
fn zeros(alloc: Global, count: u8) -> Result<Vec<usize>, AllocError>
    ensures count { IfOk result (λ v. vec_len v ≡ count) }
    ensures zero { IfOk result (λ v. AreCounts count v.items []) }
{
    let mut counts = Vec::new(alloc);
    for _ in 0..count {
        counts.push(0)?;
    }
    Ok(counts)
}

impl Hardware {
    ghost use Rattle.bk_lce.specs.CacheArrays as caches;
    ghost use Rattle.bk_system.specs.Runs.{completed_by};
    ghost use Rattle.bk_system.specs.State.{opening};
    ghost use Rattle.bk_system.specs.Systems.{state_of};

    /// A system at its opening: empty caches, memory of zeros, empty channels, the engine at its start.
    ///
    /// # Errors
    ///
    /// `AllocError` if the memory runs out.
    pub fn make(alloc: Global, config: Config) -> Result<Hardware, AllocError>
        ensures state { IfOk result (λ y. state_of y ≡ opening config) }
        ensures config { IfOk result (λ y. y.config ≡ config) }
    {
        let caches = cache_count(config);
        let count = caches as u16;
        Ok(Hardware {
            config,
            caches: Caches::make(alloc, config)?,
            engine: Engine::make(alloc, config)?,
            requests: Channels::make(alloc, config, count)?,
            commands: Channels::make(alloc, config, count)?,
            responses: Channels::make(alloc, config, count)?,
            fills: Channels::make(alloc, config, FILL_CHANNELS)?,
            memout: Channels::make(alloc, config, 1)?,
            memin: Channels::make(alloc, config, 1)?,
            memory: MainMemory::make(alloc),
            history: Vec::new(alloc),
            completed: zeros(alloc, caches)?,
            taken: Vec::new(alloc),
            settled: Vec::new(alloc),
            sent: ArrayVec::new(),
        })
    }

    /// The configuration: how many caches, sets and ways there are.
    pub fn config(&self) -> Config
        ensures { result ≡ self.now.config }
    {
        self.config
    }

    /// The operations that have completed, the oldest first.
    pub fn history(&self) -> &[Done]
        ensures { result.now ≡ (state_of self.now).history }
    {
        &self.history
    }

    /// How many operations a cache has completed.
    pub fn completed(&self, cache: u8) -> usize
        requires { cache < self.now.config.caches }
        ensures { result ≡ length (completed_by cache (state_of self.now).history) }
    {
        self.completed[cache as usize]
    }

    /// How many caches there are.
    pub fn cache_count(&self) -> u8
        ensures value { result ≡ self.now.config.caches }
        ensures few { result ≤ MOST_CACHES }
    {
        cache_count(self.config)
    }

    /// The cache of a number.
    pub fn cache(&self, cache: u8) -> &CacheArrays
        requires { cache < self.now.config.caches }
        ensures state { caches.state_of result.now ≡ (state_of self.now).caches cache }
        ensures config { result.now.config ≡ self.now.config }
        ensures number { result.now.number ≡ cache }
    {
        self.caches.cache(cache)
    }
}

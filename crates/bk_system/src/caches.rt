ghost use Rattle.std.specs.Prelude.{◌≡◌, ◌<◌, ◌≤◌, vec_len, IfOk, is_some, MatchOption};
ghost use Rattle.bk_base.specs.Tables.{put};
ghost use Rattle.bk_base.specs.declared.config.TheConstants.{MOST_CACHES};
ghost use Rattle.bk_msg.specs.Within.{IsWithin};
ghost use Rattle.bk_lce.specs.CacheTable.{SendsWithin, CompletesOwn};
ghost use Rattle.bk_system.specs.Numbering.{AreCaches, AreIdle, caches_of};

use crate::bits::{first_bit, marked};
use crate::bounds::cache_count;
use bk_base::{Config, Op};
use bk_lce::{Busy, CacheArrays, CacheStep, Foreign};
use bk_msg::Message;
use std::alloc::{AllocError, Global};

/// The caches of a system, by their numbers.
#[derive(Drop)]
pub struct Caches {
    pub(crate) config: Config,
    arrays: Vec<CacheArrays>,
    /// Bit c is set where cache c has no operation in progress.
    idle: u64,
    ghost few: { config.caches ≤ MOST_CACHES },
    ghost each: { vec_len arrays ≡ config.caches },
    ghost own: { AreCaches config arrays.items },
    ghost idlers: { AreIdle config.caches idle (caches_of config arrays.items) },
}

impl Caches {
    ghost use Rattle.bk_lce.specs.CacheState.{opening};
    ghost use Rattle.bk_lce.specs.CacheTable.{Gives, issue, command, fill};
    ghost use Rattle.bk_lce.specs.CacheArrays.{state_of};
    ghost use Rattle.bk_system.specs.CacheStates.{states_of};
    ghost use Rattle.bk_system.specs.Lookups.{is_idle};
    ghost use Rattle.bk_system.specs.Next.{IsNextOf, IsNoneFrom};

    /// As many caches as the configuration has, which were never used.
    pub fn make(alloc: Global, config: Config) -> Result<Caches, AllocError>
        ensures state { IfOk result (λ caches. states_of caches ≡ λ c. opening config) }
        ensures config { IfOk result (λ caches. caches.config ≡ config) }
    {
        let mut arrays = Vec::new(alloc);
        let mut idle = 0;
        for cache in 0..cache_count(config) {
            let made = CacheArrays::make(alloc, config, cache)?;
            arrays.push(made)?;
            idle = marked(idle, cache, true);
        }
        Ok(Caches {
            config,
            arrays,
            idle,
        })
    }

    /// The cache of a number.
    pub fn cache(&self, cache: u8) -> &CacheArrays
        requires { cache < self.now.config.caches }
        ensures state { state_of result.now ≡ states_of self.now cache }
        ensures config { result.now.config ≡ self.now.config }
        ensures number { result.now.number ≡ cache }
    {
        &self.arrays[cache as usize]
    }

    /// The least cache from a start on that has no operation in progress.
    pub fn next_idle(&self, start: u8) -> Option<u8>
        ensures { MatchOption result (IsNoneFrom self.now.config.caches start (is_idle (states_of self.now)))
            (IsNextOf self.now.config.caches start (is_idle (states_of self.now))) }
    {
        first_bit(self.idle, start)
    }

    /// Gives a cache an operation, with the way of a victim.
    pub fn issue_at(&mut self, cache: u8, op: Op, way: u8) -> Result<CacheStep, Busy>
        requires cache { cache < self.old.config.caches }
        requires way { way < self.old.config.ways }
        ensures gives { Gives (issue self.old.config (states_of self.old cache) cache op way) (states_of self.old cache)
            (states_of self.new cache) result }
        ensures others { states_of self.new ≡ put (states_of self.old) cache (states_of self.new cache) }
        ensures within { IfOk result (SendsWithin self.old.config) }
        ensures own { IfOk result (CompletesOwn cache) }
        ensures config { self.new.config ≡ self.old.config }
    {
        let arrays = &mut self.arrays[cache as usize];
        let step = arrays.issue_at(op, way);
        let is_idle = !arrays.busy();
        self.idle = marked(self.idle, cache, is_idle);
        step
    }

    /// Hands a cache a message of the command network.
    pub fn command(&mut self, cache: u8, message: &Message) -> Result<CacheStep, Foreign>
        requires cache { cache < self.old.config.caches }
        requires within { IsWithin self.old.config message.now }
        ensures gives { Gives (command self.old.config (states_of self.old cache) cache message.now) (states_of self.old cache)
            (states_of self.new cache) result }
        ensures others { states_of self.new ≡ put (states_of self.old) cache (states_of self.new cache) }
        ensures within { IfOk result (SendsWithin self.old.config) }
        ensures own { IfOk result (CompletesOwn cache) }
        ensures config { self.new.config ≡ self.old.config }
    {
        let arrays = &mut self.arrays[cache as usize];
        let step = arrays.command(message);
        let is_idle = !arrays.busy();
        self.idle = marked(self.idle, cache, is_idle);
        step
    }

    /// Hands a cache a message of the fill network.
    pub fn fill(&mut self, cache: u8, message: &Message) -> Result<CacheStep, Foreign>
        requires cache { cache < self.old.config.caches }
        requires within { IsWithin self.old.config message.now }
        ensures gives { Gives (fill self.old.config (states_of self.old cache) cache message.now) (states_of self.old cache)
            (states_of self.new cache) result }
        ensures others { states_of self.new ≡ put (states_of self.old) cache (states_of self.new cache) }
        ensures within { IfOk result (SendsWithin self.old.config) }
        ensures own { IfOk result (CompletesOwn cache) }
        ensures config { self.new.config ≡ self.old.config }
    {
        let arrays = &mut self.arrays[cache as usize];
        let step = arrays.fill(message);
        let is_idle = !arrays.busy();
        self.idle = marked(self.idle, cache, is_idle);
        step
    }
}

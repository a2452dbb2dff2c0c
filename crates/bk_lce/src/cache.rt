ghost use Rattle.std.specs.Prelude.{◌≡◌, ◌<◌, IfOk, is_some};
ghost use Rattle.std.specs.Fn.{FnReturnsAt};
ghost use Rattle.bk_msg.specs.Within.{IsWithin};
ghost use Rattle.bk_lce.specs.Policies.{IsPolicy, IssuedBy, views};
ghost use Rattle.bk_lce.specs.CacheTable.{address_of, Gives, issue, command, fill, has_row, SendsWithin, CompletesOwn};
ghost use Rattle.bk_lce.specs.CacheState.{opening, packed};
ghost use Rattle.bk_lce.specs.CacheArrays.{state_of};

use crate::cache_arrays::CacheArrays;
use crate::line::{Busy, CacheStep, Foreign, Line, WayView};
use crate::policy::Victim;
use bk_base::{Addr, Config, Op, group_of};
use bk_msg::Message;
use std::alloc::{AllocError, Global};

/// The address that an operation is about.
pub fn address_of(op: &Op) -> Addr
    ensures { result ≡ address_of op.now }
{
    match op {
        Op::Load(addr) => *addr,
        Op::Store(addr, _) => *addr,
        Op::UcLoad(addr) => *addr,
        Op::UcStore(addr, _) => *addr,
        Op::Evict(addr) => *addr,
    }
}

/// A cache with its victim policy.
#[derive(Drop)]
pub struct Cache<F> {
    pub(crate) arrays: CacheArrays,
    pub(crate) victim: Victim<F>,
}

impl<F: Fn(&[WayView]) -> u8 + Copy + Send> Cache<F> {
    /// A cache that was never used, with its number and its policy. It is an error where memory runs out.
    pub fn make(
        alloc: Global,
        config: Config,
        number: u8,
        victim: Victim<F>,
    ) -> Result<Cache<F>, AllocError>
        requires { number < config.caches }
        ensures state { IfOk result (λ cache. state_of cache.arrays ≡ opening config) }
        ensures config { IfOk result (λ cache. cache.arrays.config ≡ config) }
        ensures number { IfOk result (λ cache. cache.arrays.number ≡ number) }
        ensures victim { IfOk result (λ cache. cache.victim ≡ victim) }
    {
        let arrays = CacheArrays::make(alloc, config, number)?;
        Ok(Cache { arrays, victim })
    }

    /// What the stored policy answers to the views of a set.
    pub fn choose(&self, set: u8) -> u8
        requires policy { IsPolicy F.Fn self.now.victim.pick }
        requires set { set < self.now.arrays.config.sets }
        ensures answer { FnReturnsAt F.Fn self.now.victim.pick (views self.now.arrays.config (state_of self.now.arrays) set) result }
        ensures within { result < self.now.arrays.config.ways }
    {
        self.victim.choose(&self.arrays, set)
    }

    /// Gives the cache an operation, with the way that the stored policy answers to the views of the address's set.
    /// An error is `Busy`: an operation is in progress, and nothing has changed.
    pub fn issue(&mut self, op: Op) -> Result<CacheStep, Busy>
        requires { IsPolicy F.Fn self.old.victim.pick }
        ensures gives { IssuedBy (FnReturnsAt F.Fn self.old.victim.pick) self.old.arrays.config self.old.arrays.number op
            (state_of self.old.arrays) (state_of self.new.arrays) result }
        ensures within { IfOk result (SendsWithin self.old.arrays.config) }
        ensures own { IfOk result (CompletesOwn self.old.arrays.number) }
        ensures config { self.new.arrays.config ≡ self.old.arrays.config }
        ensures number { self.new.arrays.number ≡ self.old.arrays.number }
        ensures victim { self.new.victim ≡ self.old.victim }
    {
        let set = group_of(self.arrays.config, address_of(&op));
        let way = self.choose(set);
        self.arrays.issue_at(op, way)
    }

    /// Gives the cache an operation, with the way of the victim for a Load or Store of a block that isn't there.
    /// An error is `Busy`: an operation is in progress, and nothing has changed.
    pub fn issue_at(&mut self, op: Op, way: u8) -> Result<CacheStep, Busy>
        requires { way < self.old.arrays.config.ways }
        ensures gives { Gives (issue self.old.arrays.config (state_of self.old.arrays) self.old.arrays.number op way)
            (state_of self.old.arrays) (state_of self.new.arrays) result }
        ensures within { IfOk result (SendsWithin self.old.arrays.config) }
        ensures own { IfOk result (CompletesOwn self.old.arrays.number) }
        ensures config { self.new.arrays.config ≡ self.old.arrays.config }
        ensures number { self.new.arrays.number ≡ self.old.arrays.number }
        ensures victim { self.new.victim ≡ self.old.victim }
    {
        self.arrays.issue_at(op, way)
    }

    /// Hands the cache a message of the command network. An error is `Foreign`: there is no row for the message,
    /// and nothing has changed.
    pub fn command(&mut self, message: &Message) -> Result<CacheStep, Foreign>
        requires { IsWithin self.old.arrays.config message.now }
        ensures gives { Gives (command self.old.arrays.config (state_of self.old.arrays) self.old.arrays.number message.now)
            (state_of self.old.arrays) (state_of self.new.arrays) result }
        ensures within { IfOk result (SendsWithin self.old.arrays.config) }
        ensures own { IfOk result (CompletesOwn self.old.arrays.number) }
        ensures config { self.new.arrays.config ≡ self.old.arrays.config }
        ensures number { self.new.arrays.number ≡ self.old.arrays.number }
        ensures victim { self.new.victim ≡ self.old.victim }
    {
        self.arrays.command(message)
    }

    /// Hands the cache a message of the fill network. An error is `Foreign`: there is no row for the message,
    /// and nothing has changed.
    pub fn fill(&mut self, message: &Message) -> Result<CacheStep, Foreign>
        requires { IsWithin self.old.arrays.config message.now }
        ensures gives { Gives (fill self.old.arrays.config (state_of self.old.arrays) self.old.arrays.number message.now)
            (state_of self.old.arrays) (state_of self.new.arrays) result }
        ensures within { IfOk result (SendsWithin self.old.arrays.config) }
        ensures own { IfOk result (CompletesOwn self.old.arrays.number) }
        ensures config { self.new.arrays.config ≡ self.old.arrays.config }
        ensures number { self.new.arrays.number ≡ self.old.arrays.number }
        ensures victim { self.new.victim ≡ self.old.victim }
    {
        self.arrays.fill(message)
    }

    /// Whether a message has a row: one of the command or fill network.
    pub fn has_row(&self, message: &Message) -> bool
        requires { IsWithin self.now.arrays.config message.now }
        ensures { result ≡ has_row self.now.arrays.config (state_of self.now.arrays) self.now.arrays.number message.now }
    {
        self.arrays.has_row(message)
    }

    /// Whether the cache has an operation in progress.
    pub fn busy(&self) -> bool
        ensures { result ≡ is_some (state_of self.now.arrays).busy }
    {
        self.arrays.busy()
    }

    /// The line at a way of a set.
    pub fn line(&self, set: u8, way: u8) -> Line
        requires set { set < self.now.arrays.config.sets }
        requires way { way < self.now.arrays.config.ways }
        ensures { result ≡ (state_of self.now.arrays).lines set way }
    {
        self.arrays.line(set, way)
    }

    /// The recency list of a set as one word: the way at place i of the list stands in bits 3 * i to 3 * i + 2,
    /// and all other bits are 0. The list has the most recently used way first.
    pub fn recency(&self, set: u8) -> u32
        requires { set < self.now.arrays.config.sets }
        ensures { result ≡ packed ((state_of self.now.arrays).recency set) }
    {
        self.arrays.recency(set)
    }
}

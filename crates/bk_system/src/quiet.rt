ghost use Rattle.std.specs.Prelude.{◌≡◌, ◌≤◌, ◌<◌, not, is_none};
ghost use Rattle.bk_base.specs.Counting.{all_below, is_nil};
ghost use Rattle.bk_system.specs.Channels.{queue, channel_count};
ghost use Rattle.bk_system.specs.Numbering.{fills_of};

use crate::bounds::set_count;
use crate::channels::Channels;
use crate::hardware::Hardware;
use crate::heads::{is_wait, names_requests};
use crate::sending::fill_place;
use bk_base::MOST_CACHES;
use bk_isa::Instr;

// Whether the system is quiet, and whether it has come to rest.

/// Whether the fill channels to a cache from the caches are empty.
fn are_empty_to(fills: &Channels, caches: u8, to: u8) -> bool
    requires caches { caches ≤ MOST_CACHES }
    requires to { to < MOST_CACHES }
    ensures { result ≡ all_below caches (λ from. is_nil (fills_of (queue fills.now) to from)) }
{
    for from in 0..caches {
        if fills.head(fill_place(to, from)).is_some() {
            return false;
        }
    }
    true
}

/// Whether the fill channels between the caches are empty.
fn are_empty(fills: &Channels, caches: u8) -> bool
    requires { caches ≤ MOST_CACHES }
    ensures { result ≡ all_below caches (λ to. all_below caches (λ from. is_nil (fills_of (queue fills.now) to from))) }
{
    for to in 0..caches {
        if !are_empty_to(fills, caches, to) {
            return false;
        }
    }
    true
}

impl Hardware {
    ghost use Rattle.bk_system.specs.Systems.{state_of};
    ghost use Rattle.bk_system.specs.Runs.{is_quiet, is_rested};

    /// Whether all channels are empty and the engine stands at a `wfq`.
    pub fn quiet(&self, program: &[Instr]) -> bool
        ensures { result ≡ is_quiet self.now.config program.now (state_of self.now) }
    {
        self.requests.is_empty()
            & self.commands.is_empty()
            & self.responses.is_empty()
            & are_empty(&self.fills, self.cache_count())
            & self.memout.is_empty()
            & self.memin.is_empty()
            & is_wait(program, self.engine.place())
    }

    /// Whether no way group is pending.
    fn none_pending(&self) -> bool
        ensures { result ≡ all_below self.now.config.sets (λ g. not ((state_of self.now).engine.directory.pending g)) }
    {
        let directory = self.engine.directory();
        for group in 0..set_count(self.config) {
            if directory.pending(group) {
                return false;
            }
        }
        true
    }

    /// Whether no cache has an operation in progress.
    fn all_idle(&self) -> bool
        ensures { result ≡ all_below self.now.config.caches (λ c. is_none ((state_of self.now).caches c).busy) }
    {
        for cache in 0..self.cache_count() {
            if self.cache(cache).busy() {
                return false;
            }
        }
        true
    }

    /// Whether the system has come to rest: it is quiet, the engine waits for requests, no way group is
    /// pending, and no cache has an operation in progress.
    pub fn rested(&self, program: &[Instr]) -> bool
        ensures { result ≡ is_rested self.now.config program.now (state_of self.now) }
    {
        self.quiet(program)
            & names_requests(program, self.engine.place())
            & self.none_pending()
            & self.all_idle()
    }
}

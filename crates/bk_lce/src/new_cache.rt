ghost use Rattle.std.specs.Prelude.{◌≡◌, ◌≤◌, ◌<◌, ◌*◌, ℕ, IfOk, vec_len};
ghost use Rattle.bk_lce.specs.CacheState.{ways_in_order, opening, empty_line, packed};
ghost use Rattle.bk_lce.specs.Lists.{AreOpening, AreOrdered};
ghost use Rattle.bk_lce.specs.CacheArrays.{state_of};

use crate::cache_arrays::CacheArrays;
use crate::line::Line;
use bk_base::{Coh, Config, MOST_CACHES, MOST_WAYS};
use std::alloc::{AllocError, Global};

/// A line that was never written.
const EMPTY_LINE: Line = Line {
    tag: 0,
    state: Coh::I,
    words: [0; 8],
};

/// The ways of a set in the order of their numbers, as a word.
#[tactic(auto, using(crate::proofs::Unused::ordered_word))]
fn ways_in_order(ways: u8) -> u32
    requires { ways ≤ 8 }
    ensures { result ≡ packed (ways_in_order ways) }
{
    0o76543210 % (1u32 << (3 * ways as u32))
}

/// The lines of a cache that was never used.
fn opening_lines(alloc: Global, sets: u8, ways: u8) -> Result<Vec<Line>, AllocError>
    ensures lines { IfOk result (λ v. AreOpening ways v.items) }
    ensures each { IfOk result (λ v. vec_len v ≡ sets * ways) }
{
    vec![in alloc; EMPTY_LINE; sets as usize * ways as usize]
}

/// The recency of a cache that was never used.
fn opening_recency(alloc: Global, sets: u8, ways: u8) -> Result<Vec<u32>, AllocError>
    requires { ways ≤ 8 }
    ensures recency { IfOk result (λ v. AreOrdered ways v.items) }
    ensures each { IfOk result (λ v. vec_len v ≡ sets) }
{
    vec![in alloc; ways_in_order(ways); sets as usize]
}

impl CacheArrays {
    /// The arrays of a cache that was never used, with its number. It is an error where memory runs out.
    pub fn make(alloc: Global, config: Config, number: u8) -> Result<CacheArrays, AllocError>
        requires { number < config.caches }
        ensures state { IfOk result (λ a. state_of a ≡ opening config) }
        ensures config { IfOk result (λ a. a.config ≡ config) }
        ensures number { IfOk result (λ a. a.number ≡ number) }
    {
        prove!(config.caches <= MOST_CACHES);
        prove!(1 <= config.ways && config.ways <= MOST_WAYS);
        let lines = opening_lines(alloc, config.sets, config.ways)?;
        let recency = opening_recency(alloc, config.sets, config.ways)?;
        Ok(CacheArrays {
            config,
            number,
            lines,
            recency,
            busy: None,
        })
    }
}

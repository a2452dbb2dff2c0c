ghost use Rattle.std.specs.Prelude.{◌≡◌, ◌<◌, ◌≤◌, [], length, map, slice_get, IfOk};
ghost use Rattle.std.specs.List.{All};
ghost use Rattle.std.specs.Option.{option_copied};
ghost use Rattle.bk_base.specs.Places.{InProfile};
ghost use Rattle.bk_trace.specs.Traces.{Parts, operations_of, places_from, index_of, IsLine, IsTrace};

use bk_base::{Config, Op};
use std::alloc::{AllocError, Global};
use std::marker::Model;

/// The most operations that a trace may have.
pub const OPERATION_LIMIT: usize = 10_000;

/// A configuration and at most [`OPERATION_LIMIT`] operations, each of one of its caches.
/// Contracts see the configuration and the list of operations.
#[derive(Debug, Drop)]
pub struct Trace {
    config: Config,
    lines: Vec<(u8, Op)>,
    /// The numbers in `lines` of the lines of cache 0, of cache 1, and so on, ascending.
    places: Vec<Vec<u16>>,
}

impl Model for Trace {
    ghost use Rattle.std.specs.Prelude.{◌≡◌, map};
    ghost use Rattle.bk_trace.specs.Traces.{Parts, index_of, IsTrace};

    ghost Value = { Parts };

    ghost view = { λ t. record { config = t.config; lines = t.lines.items } };

    ghost invariant = { λ t. IsTrace (record { config = t.config; lines = t.lines.items })
        × (map (λ places. places.items) t.places.items ≡ index_of t.config.caches t.lines.items) };
}

/// The operations of one cache, in order.
fn operations_of(alloc: Global, cache: u8, lines: &[(u8, Op)]) -> Result<Vec<Op>, AllocError>
    ensures { IfOk result (λ v. v.items ≡ operations_of cache lines.now) }
{
    let mut operations = Vec::new(alloc);
    for (at, op) in lines {
        if *at == cache {
            operations.push(*op)?;
        }
    }
    Ok(operations)
}

/// The places of no lines, for each cache.
fn no_places(alloc: Global, caches: u8) -> Result<Vec<Vec<u16>>, AllocError>
    ensures { IfOk result (λ v. map (λ places. places.items) v.items ≡ index_of caches []) }
{
    let mut index = Vec::new(alloc);
    for _ in 0..caches {
        index.push(Vec::new(alloc))?;
    }
    Ok(index)
}

/// The numbers of the lines of cache 0, of cache 1, and so on.
fn index_of(alloc: Global, caches: u8, lines: &[(u8, Op)]) -> Result<Vec<Vec<u16>>, AllocError>
    requires few { length lines.now ≤ 10000 }
    requires each { All (λ line. IsLine caches line) lines.now }
    ensures { IfOk result (λ v. map (λ places. places.items) v.items ≡ index_of caches lines.now) }
{
    let mut index = no_places(alloc, caches)?;
    for number in 0..lines.len() {
        let cache = lines[number].0;
        let places = &mut index[cache as usize];
        places.push(number as u16)?;
    }
    Ok(index)
}

impl Trace {
    /// The trace of these operations.
    pub(crate) fn make(
        alloc: Global,
        config: Config,
        lines: Vec<(u8, Op)>,
    ) -> Result<Trace, AllocError>
        requires { IsTrace (record { config = config; lines = lines.items }) }
        ensures { IfOk result (λ t. t ≡ record { config = config; lines = lines.items }) }
    {
        let places = index_of(alloc, config.caches, &lines)?;
        Ok(Trace {
            config,
            lines,
            places,
        })
    }

    /// The configuration.
    pub fn config(&self) -> Config
        ensures value { result ≡ self.now.config }
        ensures profile { InProfile result }
    {
        self.config
    }

    /// All operations in order, each with its cache.
    pub fn lines(&self) -> &[(u8, Op)]
        ensures value { result.now ≡ self.now.lines }
        ensures few { length result.now ≤ 10000 }
        ensures below { All (λ line. line.0 < self.now.config.caches) result.now }
        ensures each { All (λ line. IsLine self.now.config.caches line) result.now }
    {
        &self.lines
    }

    /// The numbers of a cache's lines.
    fn places(&self, cache: u8) -> &[u16]
        requires { cache < self.now.config.caches }
        ensures value { result.now ≡ places_from 0 cache self.now.lines }
        ensures few { length result.now ≤ 10000 }
    {
        &self.places[cache as usize]
    }

    /// How many operations a cache has, in constant time.
    #[tactic(auto, using(crate::proofs::Index::length_places))]
    pub fn count(&self, cache: u8) -> usize
        requires { cache < self.now.config.caches }
        ensures value { result ≡ length (operations_of cache self.now.lines) }
        ensures few { result ≤ 10000 }
    {
        self.places(cache).len()
    }

    /// The number of the line with this operation of a cache.
    fn place(&self, cache: u8, number: usize) -> Option<u16>
        requires { cache < self.now.config.caches }
        ensures { result ≡ slice_get (places_from 0 cache self.now.lines) number }
    {
        self.places(cache).get(number).copied()
    }

    /// The operation of this number among a cache's own, in constant time; none if the cache has no more than that many.
    #[tactic(auto, using(crate::proofs::Index::operation_at, crate::proofs::Index::operation_found, crate::proofs::Index::place_within))]
    pub fn operation(&self, cache: u8, number: usize) -> Option<&Op>
        requires { cache < self.now.config.caches }
        ensures { option_copied result ≡ slice_get (operations_of cache self.now.lines) number }
    {
        match self.place(cache, number) {
            None => None,
            Some(place) => Some(&self.lines[place as usize].1),
        }
    }

    /// A copy of one cache's operations, in order.
    #[tactic(auto, using(crate::proofs::Index::length_operations_of))]
    pub fn operations(&self, alloc: Global, cache: u8) -> Result<Vec<Op>, AllocError>
        ensures value { IfOk result (λ v. v.items ≡ operations_of cache self.now.lines) }
        ensures few { IfOk result (λ v. length v.items ≤ 10000) }
    {
        operations_of(alloc, cache, &self.lines)
    }
}

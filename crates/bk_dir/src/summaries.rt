ghost use Rattle.std.specs.Prelude.{◌≡◌, ◌≢◌, ◌<◌, ◌&&◌, ◌||◌, ◌+◌, ◌^◌, if◌then◌else◌, IfSome, unwrap_or};
ghost use Rattle.bk_base.specs.Counting.{or_else};
ghost use Rattle.bk_base.specs.States.{is_owner_like};
ghost use Rattle.bk_dir.specs.Contents.{Contents};
ghost use Rattle.bk_dir.specs.Directories.{contents_of};
ghost use Rattle.bk_dir.specs.Segments.{entry_in, HasCode};
ghost use Rattle.bk_dir.specs.Summaries.{AgreeElsewhere, bits_below, found, holds, is_other, is_shared, owner, owner_at, owner_state, owner_way, shares, state_at, summary, victim_of, with_cache};

use crate::directory::Directory;
use crate::entry::{Entry, Query, Summary};
use crate::segment::{SEGMENT_WAYS, code_in, tag_in};
use bk_base::{Coh, MOST_CACHES};

/// The code of `I`.
const INVALID: u64 = 0;
/// The code of `S`.
const SHARED: u64 = 1;

/// Whether a field is that of an entry that holds the block with a tag: it has the tag, in a state other than `I`.
fn holds(field: u64, tag: u64) -> bool
    requires { HasCode field }
    ensures { result ≡ holds (entry_in field) tag }
{
    tag_in(field) == tag && code_in(field) != INVALID
}

/// Whether the state in a field is `S`.
fn is_shared(field: u64) -> bool
    requires { HasCode field }
    ensures { result ≡ is_shared (entry_in field).state }
{
    code_in(field) == SHARED
}

/// What a cache has of a block, for another cache.
#[derive(Clone, Copy)]
struct Copies {
    /// The least way that holds the block and answers for it.
    owner: Option<u8>,
    /// Whether a way holds the block in `S`.
    is_shared: bool,
}

/// The first of two answers that is there.
fn or_else<T: Copy>(first: Option<T>, later: Option<T>) -> Option<T>
    ensures { result ≡ or_else first later }
{
    match first {
        None => later,
        Some(answer) => Some(answer),
    }
}

/// What a cache has of a block, with one way more.
fn with_way(copies: Copies, way: u8, field: u64, tag: u64) -> Copies
    requires { HasCode field }
    ensures owner { let entry = entry_in field in
        result.owner ≡ or_else copies.owner (if holds entry tag && is_owner_like entry.state then Some way else None) }
    ensures is_shared { let entry = entry_in field in
        result.is_shared ≡ (copies.is_shared || (holds entry tag && is_shared entry.state)) }
{
    if !holds(field, tag) {
        return copies;
    }
    if is_shared(field) {
        return Copies {
            is_shared: true,
            ..copies
        };
    }
    Copies {
        owner: or_else(copies.owner, Some(way)),
        ..copies
    }
}

/// What the cache that asks has of a block, and what has to leave for it.
#[derive(Clone, Copy)]
struct Own {
    /// The state of the least way that holds the block, `I` where none does.
    state: Coh,
    /// That way, 0 where there is none.
    way: u8,
    /// The state of the entry that has to leave, `I` where none has to.
    victim: Coh,
}

/// What the other caches have of a block.
#[derive(Clone, Copy)]
struct Others {
    /// The least cache that answers for the block, with its least such way.
    owner: Option<(u8, u8)>,
    /// The caches with an entry `S` of it: a bit for each.
    sharers: u16,
}

/// A cache with a way, where there is one.
fn with_cache(cache: u8, way: Option<u8>) -> Option<(u8, u8)>
    ensures { result ≡ with_cache cache way }
{
    match way {
        None => None,
        Some(way) => Some((cache, way)),
    }
}

/// What has to leave so that a block may be placed at an entry: its state, or `I` where nothing has to.
fn victim_of(placed: bool, tag: u64, entry: Entry) -> Coh
    ensures { result ≡ victim_of placed tag entry }
{
    if placed && entry.tag != tag {
        entry.state
    } else {
        Coh::I
    }
}

/// The bits with one more, where there is one.
fn with_bit(bits: u16, place: u8, is_set: bool) -> u16
    requires place { place < MOST_CACHES }
    requires bits { bits < 2 ^ place }
    ensures value { result ≡ bits + (if is_set then 2 ^ place else 0) }
    ensures small { result < 2 ^ (place + 1) }
{
    if is_set { bits + (1 << place) } else { bits }
}

impl Directory {
    /// The least way of a cache that holds the block with a tag, none where no way does.
    pub fn find(&self, cache: u8, set: u8, tag: u64) -> Option<u8>
        requires cache { cache < self.now.config.caches }
        requires set { set < self.now.config.sets }
        ensures value { result ≡ found self.now.config (contents_of self.now) cache set tag }
        ensures within { IfSome result (λ w. w < self.now.config.ways) }
    {
        // All the ways of a segment, so that where each begins is known when this is compiled.
        for way in 0..SEGMENT_WAYS {
            if holds(self.field(cache, set, way), tag) {
                return Some(way);
            }
        }
        None
    }

    /// What the directory says of a block, for a cache that asks.
    pub fn summary(&self, query: Query) -> Summary
        requires cache { query.cache < self.now.config.caches }
        requires set { query.set < self.now.config.sets }
        requires way { query.way < self.now.config.ways }
        ensures value { result ≡ summary self.now.config (contents_of self.now) query }
        ensures own_way { result.own_way < self.now.config.ways }
        ensures owner { IfSome result.owner (λ at. (at.0 < self.now.config.caches) × (at.1 < self.now.config.ways)) }
        ensures owner_is_other { IfSome result.owner (λ at. at.0 ≢ query.cache) }
        ensures others { result.others < 2 ^ self.now.config.caches }
    {
        let own = self.own(query);
        let others = self.others(query);
        Summary {
            own: own.state,
            own_way: own.way,
            owner: others.owner,
            owner_state: self.owner_state(query.set, others.owner),
            others: others.sharers,
            victim: own.victim,
        }
    }

    /// What the directory says of a block now, where `kept` is what it said before entries of the asking cache alone were
    /// written: what the other caches have of the block is taken over and not looked up.
    pub fn renewed(&self, query: Query, kept: &Summary) -> Summary
        requires cache { query.cache < self.now.config.caches }
        requires set { query.set < self.now.config.sets }
        requires way { query.way < self.now.config.ways }
        ensures { (before : Contents) → kept.now ≡ summary self.now.config before query
            → AgreeElsewhere before (contents_of self.now) query.cache query.set
            → result ≡ summary self.now.config (contents_of self.now) query }
    {
        let own = self.own(query);
        Summary {
            own: own.state,
            own_way: own.way,
            victim: own.victim,
            ..*kept
        }
    }

    /// What the cache that asks has of a block, and what has to leave for it.
    fn own(&self, query: Query) -> Own
        requires cache { query.cache < self.now.config.caches }
        requires set { query.set < self.now.config.sets }
        requires way { query.way < self.now.config.ways }
        ensures state { let found = found self.now.config (contents_of self.now) query.cache query.set query.tag in
            result.state ≡ state_at (contents_of self.now) query.cache query.set found }
        ensures way { let found = found self.now.config (contents_of self.now) query.cache query.set query.tag in
            result.way ≡ unwrap_or found 0 }
        ensures within { result.way < self.now.config.ways }
        ensures victim { let entry = (contents_of self.now).entries query.cache query.set query.way in
            result.victim ≡ victim_of query.placed query.tag entry }
    {
        let found = self.find(query.cache, query.set, query.tag);
        Own {
            state: self.state_at(query.cache, query.set, found),
            way: found.unwrap_or(0),
            victim: victim_of(
                query.placed,
                query.tag,
                self.entry(query.cache, query.set, query.way),
            ),
        }
    }

    /// How many caches there are.
    fn caches(&self) -> u8
        ensures { result ≡ self.now.config.caches }
    {
        self.config.caches
    }

    /// The state at a way, `I` where there is none.
    fn state_at(&self, cache: u8, set: u8, way: Option<u8>) -> Coh
        requires cache { cache < self.now.config.caches }
        requires set { set < self.now.config.sets }
        requires way { IfSome way (λ w. w < self.now.config.ways) }
        ensures { result ≡ state_at (contents_of self.now) cache set way }
    {
        match way {
            None => Coh::I,
            Some(way) => self.entry(cache, set, way).state,
        }
    }

    /// What a cache has of a block, for another cache.
    fn copies(&self, cache: u8, set: u8, tag: u64) -> Copies
        requires cache { cache < self.now.config.caches }
        requires set { set < self.now.config.sets }
        ensures owner { result.owner ≡ owner_way self.now.config (contents_of self.now) cache set tag }
        ensures is_shared { result.is_shared ≡ shares self.now.config (contents_of self.now) cache set tag }
    {
        let mut copies = Copies {
            owner: None,
            is_shared: false,
        };
        for way in 0..SEGMENT_WAYS {
            copies = with_way(copies, way, self.field(cache, set, way), tag);
        }
        copies
    }

    /// What a cache has of a block for the cache that asks, which has nothing for itself.
    fn copies_for(&self, query: Query, cache: u8) -> Copies
        requires cache { cache < self.now.config.caches }
        requires set { query.set < self.now.config.sets }
        ensures owner { with_cache cache result.owner ≡ owner_at self.now.config (contents_of self.now) query cache }
        ensures is_shared { result.is_shared ≡ is_other self.now.config (contents_of self.now) query cache }
    {
        if cache == query.cache {
            return Copies {
                owner: None,
                is_shared: false,
            };
        }
        self.copies(cache, query.set, query.tag)
    }

    /// The state of the owner's entry, `I` where there is no owner.
    fn owner_state(&self, set: u8, at: Option<(u8, u8)>) -> Coh
        requires set { set < self.now.config.sets }
        requires within { IfSome at (λ o. (o.0 < self.now.config.caches) × (o.1 < self.now.config.ways)) }
        ensures { result ≡ owner_state (contents_of self.now) set at }
    {
        match at {
            None => Coh::I,
            Some((cache, way)) => self.entry(cache, set, way).state,
        }
    }

    /// What the other caches have of a block: the owner, and those with an entry `S`, in one pass over the caches.
    fn others(&self, query: Query) -> Others
        requires { query.set < self.now.config.sets }
        ensures owner { result.owner ≡ owner self.now.config (contents_of self.now) query }
        ensures within { IfSome result.owner (λ at. (at.0 < self.now.config.caches) × (at.1 < self.now.config.ways)) }
        ensures is_other { IfSome result.owner (λ at. at.0 ≢ query.cache) }
        ensures sharers { result.sharers ≡ bits_below self.now.config.caches (is_other self.now.config (contents_of self.now) query) }
        ensures small { result.sharers < 2 ^ self.now.config.caches }
    {
        let mut others = Others {
            owner: None,
            sharers: 0,
        };
        for cache in 0..self.caches() {
            let copies = self.copies_for(query, cache);
            others = Others {
                owner: or_else(others.owner, with_cache(cache, copies.owner)),
                sharers: with_bit(others.sharers, cache, copies.is_shared),
            };
        }
        others
    }
}

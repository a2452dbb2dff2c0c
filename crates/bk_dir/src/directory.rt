ghost use Rattle.std.specs.Prelude.{◌≡◌, ◌+◌, ◌*◌, ◌^◌, ◌<◌, ◌≤◌, true, false, vec_len, IfOk};
ghost use Rattle.bk_base.specs.Places.{tag_limit};
ghost use Rattle.bk_base.specs.declared.config.TheConstants.{MOST_CACHES};
ghost use Rattle.bk_dir.specs.Lists.{AreFields, place_of};

use crate::entry::Entry;
use crate::segment::{SEGMENT_WORDS, entry_in, field, field_of, words_of, write_field};
use bk_base::{Coh, Config, MOST_CACHES};
use std::alloc::{AllocError, Global};

/// How far apart the segments of two sets stand: a set has room for as many caches as a system may have.
const SET_STRIDE: usize = MOST_CACHES as usize;

/// A directory by duplicate tags: it has an entry for each way of each cache, and a pending bit for each way group.
/// Contracts see what it holds, as `contents_of` tells, and its configuration.
#[derive(Drop)]
pub struct Directory {
    pub(crate) config: Config,
    /// By set * 16 + cache, so that what the caches have of one set stands together.
    segments: Vec<[u64; 5]>,
    /// By way group, a bit each, group 0 in the lowest.
    pending: u64,
    ghost few_caches: { config.caches ≤ MOST_CACHES },
    ghost few_ways: { config.ways ≤ 8 },
    ghost few_sets: { config.sets ≤ 64 },
    ghost segments_each: { vec_len segments ≡ config.sets * MOST_CACHES },
    ghost fields: { AreFields config segments.items },
    ghost pending_each: { pending < 2 ^ config.sets },
}

/// The place of a segment in the list.
fn place_of(cache: u8, set: u8) -> usize
    ensures { result ≡ place_of cache set }
{
    set as usize * SET_STRIDE + cache as usize
}

impl Directory {
    ghost use Rattle.bk_dir.specs.Directories.{contents_of};
    ghost use Rattle.bk_dir.specs.Contents.{opening, with_entry, with_state, with_pending};
    ghost use Rattle.bk_dir.specs.Segments.{entry_in, segment_of, IsField};
    ghost use Rattle.bk_dir.specs.Summaries.{bits_below};

    /// A directory for a configuration: no entry is valid and no way group is pending.
    /// It takes all the memory that it will ever need.
    ///
    /// # Errors
    ///
    /// `AllocError` if the memory runs out.
    pub fn make(alloc: Global, config: Config) -> Result<Directory, AllocError>
        ensures state { IfOk result (λ d. contents_of d ≡ opening) }
        ensures config { IfOk result (λ d. d.config ≡ config) }
    {
        let empty = [0; SEGMENT_WORDS];
        let segments = vec![in alloc; empty; config.sets as usize * SET_STRIDE]?;
        Ok(Directory {
            config,
            segments,
            pending: 0,
        })
    }

    /// The bits that the directory keeps of a way of a cache. A way that the configuration doesn't have has none set.
    pub(crate) fn field(&self, cache: u8, set: u8, way: u8) -> u64
        requires cache { cache < self.now.config.caches }
        requires set { set < self.now.config.sets }
        requires way { way < 8 }
        ensures entry { entry_in result ≡ (contents_of self.now).entries cache set way }
        ensures is_field { IsField self.now.config way result }
    {
        field(&self.segments[place_of(cache, set)], way)
    }

    /// What the directory says of a way of a cache. Its tag is one of a block.
    pub fn entry(&self, cache: u8, set: u8, way: u8) -> Entry
        requires cache { cache < self.now.config.caches }
        requires set { set < self.now.config.sets }
        requires way { way < self.now.config.ways }
        ensures value { result ≡ (contents_of self.now).entries cache set way }
        ensures tag { result.tag < tag_limit self.now.config }
    {
        entry_in(self.field(cache, set, way))
    }

    /// Whether a way group is pending: a transaction of it is in progress.
    pub fn pending(&self, set: u8) -> bool
        requires { set < self.now.config.sets }
        ensures { result ≡ (contents_of self.now).pending set }
    {
        (self.pending >> set) % 2 == 1
    }

    /// Writes what the directory says of a way of a cache.
    pub fn write_entry(&mut self, cache: u8, set: u8, way: u8, entry: Entry)
        requires cache { cache < self.old.config.caches }
        requires set { set < self.old.config.sets }
        requires way { way < self.old.config.ways }
        requires tag { entry.tag < tag_limit self.old.config }
        ensures state { contents_of self.new ≡ with_entry (contents_of self.old) cache set way entry }
        ensures config { self.new.config ≡ self.old.config }
    {
        write_field(
            &mut self.segments[place_of(cache, set)],
            way,
            field_of(entry),
        );
    }

    /// Writes the state of a way of a cache. Its tag stays.
    pub fn write_state(&mut self, cache: u8, set: u8, way: u8, state: Coh)
        requires cache { cache < self.old.config.caches }
        requires set { set < self.old.config.sets }
        requires way { way < self.old.config.ways }
        ensures state { contents_of self.new ≡ with_state (contents_of self.old) cache set way state }
        ensures config { self.new.config ≡ self.old.config }
    {
        let tag = self.entry(cache, set, way).tag;
        self.write_entry(cache, set, way, Entry { tag, state });
    }

    /// Marks a way group as pending.
    pub fn set_pending(&mut self, set: u8)
        requires { set < self.old.config.sets }
        ensures state { contents_of self.new ≡ with_pending (contents_of self.old) set true }
        ensures config { self.new.config ≡ self.old.config }
    {
        self.pending |= 1 << set;
    }

    /// Marks a way group as pending no more.
    pub fn clear_pending(&mut self, set: u8)
        requires { set < self.old.config.sets }
        ensures state { contents_of self.new ≡ with_pending (contents_of self.old) set false }
        ensures config { self.new.config ≡ self.old.config }
    {
        self.pending &= !(1 << set);
    }

    /// The words that the directory keeps of a cache and a set, the lowest first. Way w has bits 37 * w to 37 * w + 36 of
    /// the number that they make: three bits of state code, then 34 bits of tag. All other bits are 0.
    pub fn segment(&self, cache: u8, set: u8) -> [u64; 5]
        requires cache { cache < self.now.config.caches }
        requires set { set < self.now.config.sets }
        ensures { result ≡ segment_of self.now.config.ways ((contents_of self.now).entries cache set) }
    {
        words_of(&self.segments[place_of(cache, set)])
    }

    /// The pending bits: a bit for each way group, group 0 in the lowest. All other bits are 0.
    pub fn pending_word(&self) -> u64
        ensures { result ≡ bits_below self.now.config.sets (contents_of self.now).pending }
    {
        self.pending
    }
}

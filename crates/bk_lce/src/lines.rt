ghost use Rattle.std.specs.Prelude.{◌≡◌, ◌<◌, ◌*◌, IfSome, vec_len};
ghost use Rattle.bk_base.specs.Places.{group_of, tag_at};
ghost use Rattle.bk_lce.specs.CacheState.{holds, line_at, found, with_line};
ghost use Rattle.bk_lce.specs.CacheArrays.{state_of};
ghost use Rattle.bk_lce.specs.Lists.{place_of};

use crate::cache_arrays::CacheArrays;
use crate::line::Line;
use bk_base::{Addr, group_of, tag_at};

/// Whether a line holds the block with a tag.
pub(crate) fn holds(line: &Line, tag: u64) -> bool
    ensures { result ≡ holds line.now tag }
{
    line.tag == tag && line.state.readable()
}

impl CacheArrays {
    /// The place of a line in the vector of lines.
    #[tactic(auto, using(crate::proofs::Written::place_within))]
    pub(crate) fn place(&self, set: u8, way: u8) -> usize
        requires set { set < self.now.config.sets }
        requires way { way < self.now.config.ways }
        ensures value { result ≡ place_of self.now.config.ways set way }
        ensures within { result < vec_len self.now.lines }
    {
        set as usize * self.config.ways as usize + way as usize
    }

    /// The line at a way of a set, where it stands.
    #[tactic(auto, unfolding(crate::specs::CacheArrays::state_of))]
    pub(crate) fn kept(&self, set: u8, way: u8) -> &Line
        requires set { set < self.now.config.sets }
        requires way { way < self.now.config.ways }
        ensures { result.now ≡ (state_of self.now).lines set way }
    {
        &self.lines[self.place(set, way)]
    }

    /// The line at a way of an address's set, where it stands.
    pub(crate) fn kept_at(&self, addr: Addr, way: u8) -> &Line
        requires { way < self.now.config.ways }
        ensures { result.now ≡ line_at self.now.config (state_of self.now) addr way }
    {
        self.kept(group_of(self.config, addr), way)
    }

    /// The line at a way of a set.
    pub fn line(&self, set: u8, way: u8) -> Line
        requires set { set < self.now.config.sets }
        requires way { way < self.now.config.ways }
        ensures { result ≡ (state_of self.now).lines set way }
    {
        *self.kept(set, way)
    }

    /// Writes one line.
    #[tactic(auto, using(crate::proofs::Written::lines_of_set), unfolding(crate::specs::CacheArrays::state_of))]
    pub(crate) fn write_line(&mut self, set: u8, way: u8, line: Line)
        requires set { set < self.old.config.sets }
        requires way { way < self.old.config.ways }
        ensures state { state_of self.new ≡ with_line (state_of self.old) set way line }
        ensures config { self.new.config ≡ self.old.config }
        ensures number { self.new.number ≡ self.old.number }
    {
        let place = self.place(set, way);
        self.lines[place] = line;
    }

    /// The least way that holds the block of an address.
    pub(crate) fn found(&self, addr: Addr) -> Option<u8>
        ensures value { result ≡ found self.now.config (state_of self.now) addr }
        ensures within { IfSome result (λ w. w < self.now.config.ways) }
    {
        let set = group_of(self.config, addr);
        let tag = tag_at(self.config, addr);
        for way in 0..self.config.ways {
            if holds(self.kept(set, way), tag) {
                return Some(way);
            }
        }
        None
    }
}

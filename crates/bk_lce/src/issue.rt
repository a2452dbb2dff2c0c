ghost use Rattle.std.specs.Prelude.{◌≡◌, ◌<◌, IfSome, Some, None};
ghost use Rattle.bk_lce.specs.CacheState.{found, with_line};
ghost use Rattle.bk_lce.specs.CacheTable.{request_row, hit_row, stored_line, load_row, store_hit, store_row, evict_row, issue_row, Takes};
ghost use Rattle.bk_lce.specs.CacheArrays.{state_of};

use crate::cache_arrays::CacheArrays;
use crate::line::{CacheStep, InProgress, Line};
use bk_base::{Addr, Coh, Done, Op, group_of, word_of};
use bk_msg::Message;

/// A line after a store of a word.
pub(crate) fn stored_line(line: Line, addr: Addr, value: u64) -> Line
    ensures { result ≡ stored_line line addr value }
{
    let mut words = line.words;
    words[word_of(addr) as usize] = value;
    Line {
        tag: line.tag,
        state: Coh::M,
        words,
    }
}

impl CacheArrays {
    /// Begins an operation with a way, and sends its request.
    #[tactic(auto, unfolding(crate::specs::CacheArrays::state_of))]
    fn request_row(&mut self, op: Op, way: u8, message: Message) -> CacheStep
        requires { way < self.old.config.ways }
        ensures gives { Takes (request_row (state_of self.old) op way message) (state_of self.new) result }
        ensures config { self.new.config ≡ self.old.config }
        ensures number { self.new.number ≡ self.old.number }
    {
        self.busy = Some(InProgress { op, way });
        CacheStep {
            sent: Some(message),
            done: None,
            way,
        }
    }

    /// Completes an operation at once.
    fn hit_row(&self, op: Op, answer: u64, way: u8) -> CacheStep
        ensures { Takes (hit_row (state_of self.now) self.now.number op answer way) (state_of self.now) result }
    {
        CacheStep {
            sent: None,
            done: Some(Done {
                cache: self.number,
                op,
                answer,
            }),
            way,
        }
    }

    /// Loads a word of the copy at a way, or asks for the block.
    fn load_row(&mut self, addr: Addr, way: u8, at: Option<u8>) -> CacheStep
        requires way { way < self.old.config.ways }
        requires at { IfSome at (λ w. w < self.old.config.ways) }
        ensures gives { Takes (load_row self.old.config (state_of self.old) self.old.number addr way at) (state_of self.new) result }
        ensures config { self.new.config ≡ self.old.config }
        ensures number { self.new.number ≡ self.old.number }
    {
        match at {
            None => self.request_row(Op::Load(addr), way, Message::rd(self.number, way, addr)),
            Some(at) => {
                let answer = self.kept_at(addr, at).words[word_of(addr) as usize];
                self.use_way(group_of(self.config, addr), at);
                self.hit_row(Op::Load(addr), answer, at)
            }
        }
    }

    /// Stores a word into the line at a way of a set.
    fn store_word(&mut self, set: u8, way: u8, addr: Addr, value: u64)
        requires set { set < self.old.config.sets }
        requires way { way < self.old.config.ways }
        ensures state { state_of self.new ≡ with_line (state_of self.old) set way
            (stored_line ((state_of self.old).lines set way) addr value) }
        ensures config { self.new.config ≡ self.old.config }
        ensures number { self.new.number ≡ self.old.number }
    {
        let place = self.place(set, way);
        let line = &mut self.lines[place];
        line.state = Coh::M;
        line.words[word_of(addr) as usize] = value;
    }

    /// Stores a word into the copy at a way.
    fn store_hit(&mut self, addr: Addr, value: u64, at: u8) -> CacheStep
        requires { at < self.old.config.ways }
        ensures gives { Takes (store_hit self.old.config (state_of self.old) self.old.number addr value at) (state_of self.new) result }
        ensures config { self.new.config ≡ self.old.config }
        ensures number { self.new.number ≡ self.old.number }
    {
        let set = group_of(self.config, addr);
        self.store_word(set, at, addr, value);
        self.use_way(set, at);
        self.hit_row(Op::Store(addr, value), 0, at)
    }

    /// Stores a word into the copy at a way where it is in `E` or `M`, or asks for the block.
    fn store_row(&mut self, addr: Addr, value: u64, way: u8, at: Option<u8>) -> CacheStep
        requires way { way < self.old.config.ways }
        requires at { IfSome at (λ w. w < self.old.config.ways) }
        ensures gives { Takes (store_row self.old.config (state_of self.old) self.old.number addr value way at) (state_of self.new) result }
        ensures config { self.new.config ≡ self.old.config }
        ensures number { self.new.number ≡ self.old.number }
    {
        match at {
            None => self.request_row(
                Op::Store(addr, value),
                way,
                Message::wr(self.number, way, addr),
            ),
            Some(at) => {
                if self.kept_at(addr, at).state.writable() {
                    self.store_hit(addr, value, at)
                } else {
                    self.request_row(
                        Op::Store(addr, value),
                        at,
                        Message::wr(self.number, at, addr),
                    )
                }
            }
        }
    }

    /// Asks for the copy at a way to be given up.
    fn evict_row(&mut self, addr: Addr, at: Option<u8>) -> CacheStep
        requires { IfSome at (λ w. w < self.old.config.ways) }
        ensures gives { Takes (evict_row (state_of self.old) self.old.number addr at) (state_of self.new) result }
        ensures config { self.new.config ≡ self.old.config }
        ensures number { self.new.number ≡ self.old.number }
    {
        match at {
            None => self.hit_row(Op::Evict(addr), 0, 0),
            Some(at) => self.request_row(
                Op::Evict(addr),
                at,
                Message::evict(self.number, at, addr),
            ),
        }
    }

    /// What an idle cache does when it is given an operation.
    pub(crate) fn issue_row(&mut self, op: Op, way: u8) -> CacheStep
        requires { way < self.old.config.ways }
        ensures gives { Takes (issue_row self.old.config (state_of self.old) self.old.number op way) (state_of self.new) result }
        ensures config { self.new.config ≡ self.old.config }
        ensures number { self.new.number ≡ self.old.number }
    {
        match op {
            Op::Load(addr) => self.load_row(addr, way, self.found(addr)),
            Op::Store(addr, value) => self.store_row(addr, value, way, self.found(addr)),
            Op::UcLoad(addr) => self.request_row(op, 0, Message::uc_rd(self.number, addr)),
            Op::UcStore(addr, value) => self.request_row(
                op,
                0,
                Message::uc_wr(self.number, addr, value),
            ),
            Op::Evict(addr) => self.evict_row(addr, self.found(addr)),
        }
    }
}

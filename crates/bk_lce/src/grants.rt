ghost use Rattle.std.specs.Prelude.{◌≡◌, ◌<◌, ℕ, List, Option, is_some};
ghost use Rattle.bk_lce.specs.CacheTable.{Gives, completion_row, filled_row, grant_row, grant_for, wake_row, wake_for, word_row, written_row, evicted_row, by_operation, Takes};
ghost use Rattle.bk_lce.specs.CacheArrays.{state_of};

use crate::cache_arrays::CacheArrays;
use crate::issue::stored_line;
use crate::line::{CacheStep, Foreign, InProgress, Line};
use crate::lines::holds;
use bk_base::{Addr, Coh, Done, Op, block_of, group_of, tag_at, word_of};
use bk_msg::Message;

impl CacheArrays {
    /// Completes the operation in progress, and settles its request.
    #[tactic(auto, unfolding(crate::specs::CacheArrays::state_of))]
    fn completion_row(&mut self, op: Op, addr: Addr, answer: u64, way: u8) -> CacheStep
        ensures gives { Takes (completion_row (state_of self.old) self.old.number op addr answer way) (state_of self.new) result }
        ensures config { self.new.config ≡ self.old.config }
        ensures number { self.new.number ≡ self.old.number }
    {
        self.busy = None;
        CacheStep {
            sent: Some(Message::coh_ack(self.number, addr)),
            done: Some(Done {
                cache: self.number,
                op,
                answer,
            }),
            way,
        }
    }

    /// Writes a line, makes its way the most recently used, and completes the operation in progress.
    fn filled_row(&mut self, op: Op, addr: Addr, answer: u64, way: u8, line: Line) -> CacheStep
        requires { way < self.old.config.ways }
        ensures gives { Takes (filled_row self.old.config (state_of self.old) self.old.number op addr answer way line)
            (state_of self.new) result }
        ensures config { self.new.config ≡ self.old.config }
        ensures number { self.new.number ≡ self.old.number }
    {
        let set = group_of(self.config, addr);
        self.write_line(set, way, line);
        self.use_way(set, way);
        self.completion_row(op, addr, answer, way)
    }

    /// `Blk` or `Fill` at the way of the operation in progress: the block is placed.
    fn grant_row(
        &mut self,
        way: u8,
        state: Coh,
        addr: Addr,
        words: [u64; 8],
        op: Op,
    ) -> Result<CacheStep, Foreign>
        requires { way < self.old.config.ways }
        ensures gives { Gives (grant_row self.old.config (state_of self.old) self.old.number way state addr words op) (state_of self.old)
            (state_of self.new) result }
        ensures config { self.new.config ≡ self.old.config }
        ensures number { self.new.number ≡ self.old.number }
    {
        match op {
            Op::Load(at) => {
                if block_of(at) != block_of(addr) {
                    return Err(Foreign);
                }
                let tag = tag_at(self.config, at);
                let answer = words[word_of(at) as usize];
                Ok(self.filled_row(op, at, answer, way, Line { tag, state, words }))
            }
            Op::Store(at, value) => {
                if block_of(at) != block_of(addr) || !state.writable() {
                    return Err(Foreign);
                }
                let tag = tag_at(self.config, at);
                let line = stored_line(Line { tag, state, words }, at, value);
                Ok(self.filled_row(op, at, 0, way, line))
            }
            _ => Err(Foreign),
        }
    }

    /// `Blk` or `Fill`.
    pub(crate) fn grant_for(
        &mut self,
        way: u8,
        state: Coh,
        addr: Addr,
        words: [u64; 8],
        busy: Option<InProgress>,
    ) -> Result<CacheStep, Foreign>
        requires { way < self.old.config.ways }
        ensures gives { Gives (grant_for self.old.config (state_of self.old) self.old.number way state addr words busy) (state_of self.old)
            (state_of self.new) result }
        ensures config { self.new.config ≡ self.old.config }
        ensures number { self.new.number ≡ self.old.number }
    {
        match busy {
            None => Err(Foreign),
            Some(busy) => {
                if busy.way == way {
                    self.grant_row(way, state, addr, words, busy.op)
                } else {
                    Err(Foreign)
                }
            }
        }
    }

    /// `StWake` at the way of the operation in progress: the word is stored into the copy that stands there.
    fn wake_row(&mut self, way: u8, addr: Addr, op: Op) -> Result<CacheStep, Foreign>
        requires { way < self.old.config.ways }
        ensures gives { Gives (wake_row self.old.config (state_of self.old) self.old.number way addr op) (state_of self.old)
            (state_of self.new) result }
        ensures config { self.new.config ≡ self.old.config }
        ensures number { self.new.number ≡ self.old.number }
    {
        match op {
            Op::Store(at, value) => {
                let line = self.kept_at(at, way);
                if block_of(at) != block_of(addr) || !holds(line, tag_at(self.config, at)) {
                    return Err(Foreign);
                }
                let stored = stored_line(*line, at, value);
                Ok(self.filled_row(op, at, 0, way, stored))
            }
            _ => Err(Foreign),
        }
    }

    /// `StWake`.
    pub(crate) fn wake_for(
        &mut self,
        way: u8,
        addr: Addr,
        busy: Option<InProgress>,
    ) -> Result<CacheStep, Foreign>
        requires { way < self.old.config.ways }
        ensures gives { Gives (wake_for self.old.config (state_of self.old) self.old.number way addr busy) (state_of self.old)
            (state_of self.new) result }
        ensures config { self.new.config ≡ self.old.config }
        ensures number { self.new.number ≡ self.old.number }
    {
        match busy {
            None => Err(Foreign),
            Some(busy) => {
                if busy.way == way {
                    self.wake_row(way, addr, busy.op)
                } else {
                    Err(Foreign)
                }
            }
        }
    }

    /// `UcBlk`, for an operation in progress.
    fn word_row(&mut self, way: u8, addr: Addr, word: u64, op: Op) -> Result<CacheStep, Foreign>
        ensures gives { Gives (word_row (state_of self.old) self.old.number way addr word op) (state_of self.old)
            (state_of self.new) result }
        ensures config { self.new.config ≡ self.old.config }
        ensures number { self.new.number ≡ self.old.number }
    {
        match op {
            Op::UcLoad(at) => {
                if at.value() == addr.value() {
                    Ok(self.completion_row(op, at, word, way))
                } else {
                    Err(Foreign)
                }
            }
            _ => Err(Foreign),
        }
    }

    /// `UcDone`, for an operation in progress.
    fn written_row(&mut self, way: u8, addr: Addr, op: Op) -> Result<CacheStep, Foreign>
        ensures gives { Gives (written_row (state_of self.old) self.old.number way addr op) (state_of self.old) (state_of self.new) result }
        ensures config { self.new.config ≡ self.old.config }
        ensures number { self.new.number ≡ self.old.number }
    {
        match op {
            Op::UcStore(at, _) => {
                if at.value() == addr.value() {
                    Ok(self.completion_row(op, at, 0, way))
                } else {
                    Err(Foreign)
                }
            }
            _ => Err(Foreign),
        }
    }

    /// `Done`, for an operation in progress.
    fn evicted_row(&mut self, way: u8, addr: Addr, op: Op) -> Result<CacheStep, Foreign>
        ensures gives { Gives (evicted_row (state_of self.old) self.old.number way addr op) (state_of self.old) (state_of self.new) result }
        ensures config { self.new.config ≡ self.old.config }
        ensures number { self.new.number ≡ self.old.number }
    {
        match op {
            Op::Evict(at) => {
                if block_of(at) == block_of(addr) {
                    Ok(self.completion_row(op, at, 0, way))
                } else {
                    Err(Foreign)
                }
            }
            _ => Err(Foreign),
        }
    }

    /// `UcBlk`.
    pub(crate) fn word_comes(
        &mut self,
        addr: Addr,
        word: u64,
        busy: Option<InProgress>,
    ) -> Result<CacheStep, Foreign>
        ensures gives { Gives (by_operation busy (λ way op. word_row (state_of self.old) self.old.number way addr word op))
            (state_of self.old) (state_of self.new) result }
        ensures config { self.new.config ≡ self.old.config }
        ensures number { self.new.number ≡ self.old.number }
    {
        match busy {
            None => Err(Foreign),
            Some(busy) => self.word_row(busy.way, addr, word, busy.op),
        }
    }

    /// `UcDone`.
    pub(crate) fn word_is_written(
        &mut self,
        addr: Addr,
        busy: Option<InProgress>,
    ) -> Result<CacheStep, Foreign>
        ensures gives { Gives (by_operation busy (λ way op. written_row (state_of self.old) self.old.number way addr op))
            (state_of self.old) (state_of self.new) result }
        ensures config { self.new.config ≡ self.old.config }
        ensures number { self.new.number ≡ self.old.number }
    {
        match busy {
            None => Err(Foreign),
            Some(busy) => self.written_row(busy.way, addr, busy.op),
        }
    }

    /// `Done`.
    pub(crate) fn block_is_evicted(
        &mut self,
        addr: Addr,
        busy: Option<InProgress>,
    ) -> Result<CacheStep, Foreign>
        ensures gives { Gives (by_operation busy (λ way op. evicted_row (state_of self.old) self.old.number way addr op))
            (state_of self.old) (state_of self.new) result }
        ensures config { self.new.config ≡ self.old.config }
        ensures number { self.new.number ≡ self.old.number }
    {
        match busy {
            None => Err(Foreign),
            Some(busy) => self.evicted_row(busy.way, addr, busy.op),
        }
    }
}

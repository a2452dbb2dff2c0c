ghost use Rattle.std.specs.Prelude.{◌≡◌, ◌<◌, IfSome, true};
ghost use Rattle.bk_base.specs.Places.{tag_at};
ghost use Rattle.bk_msg.specs.declared.table.States.TheVariants.{Received};
ghost use Rattle.bk_msg.specs.Table.{holds as suits};
ghost use Rattle.bk_lce.specs.CacheState.{with_line};
ghost use Rattle.bk_lce.specs.CacheTable.{Gives, answer_row, wiped_line, with_invalid_block, with_line_state, flush_answer, flush_row, transfer_row, Takes};
ghost use Rattle.bk_lce.specs.CacheArrays.{state_of};

use crate::cache_arrays::CacheArrays;
use crate::line::{CacheStep, Foreign, Line};
use crate::lines::holds;
use bk_base::{Addr, Coh, group_of, tag_at};
use bk_msg::Message;

impl CacheArrays {
    /// Answers a message, and completes nothing.
    pub(crate) fn answer_row(&self, message: Message) -> CacheStep
        ensures { Takes (answer_row (state_of self.now) message) (state_of self.now) result }
    {
        CacheStep {
            sent: Some(message),
            done: None,
            way: 0,
        }
    }

    /// Sets the state of the line at a way of a set.
    fn set_state(&mut self, set: u8, way: u8, state: Coh)
        requires set { set < self.old.config.sets }
        requires way { way < self.old.config.ways }
        ensures state { state_of self.new ≡ with_line (state_of self.old) set way
            (record ((state_of self.old).lines set way) { state = state }) }
        ensures config { self.new.config ≡ self.old.config }
        ensures number { self.new.number ≡ self.old.number }
    {
        let place = self.place(set, way);
        self.lines[place].state = state;
    }

    /// Drops the line at a way where it holds the block with a tag.
    fn wipe(&mut self, set: u8, way: u8, tag: u64)
        requires set { set < self.old.config.sets }
        requires way { way < self.old.config.ways }
        ensures state { state_of self.new ≡ with_line (state_of self.old) set way (wiped_line tag ((state_of self.old).lines set way)) }
        ensures config { self.new.config ≡ self.old.config }
        ensures number { self.new.number ≡ self.old.number }
    {
        if holds(self.kept(set, way), tag) {
            self.set_state(set, way, Coh::I);
        }
    }

    /// Drops each line that holds the block of an address.
    pub(crate) fn invalidate(&mut self, addr: Addr)
        ensures state { state_of self.new ≡ with_invalid_block self.old.config (state_of self.old) addr }
        ensures config { self.new.config ≡ self.old.config }
        ensures number { self.new.number ≡ self.old.number }
    {
        let set = group_of(self.config, addr);
        let tag = tag_at(self.config, addr);
        for way in 0..self.ways() {
            self.wipe(set, way, tag);
        }
    }

    /// Sets the state of the line at a way of an address's set.
    fn lower(&mut self, addr: Addr, way: u8, state: Coh)
        requires { way < self.old.config.ways }
        ensures state { state_of self.new ≡ with_line_state self.old.config (state_of self.old) addr way state }
        ensures config { self.new.config ≡ self.old.config }
        ensures number { self.new.number ≡ self.old.number }
    {
        self.set_state(group_of(self.config, addr), way, state);
    }

    /// What is sent for a copy that is flushed: the words of a dirty one.
    fn flush_answer(&self, addr: Addr, line: &Line) -> Message
        ensures { result ≡ flush_answer self.now.number addr line.now }
    {
        if line.state.dirty() {
            Message::wb(self.number, addr, line.words)
        } else {
            Message::null_wb(self.number, addr)
        }
    }

    /// `StWb`: the copy at a way takes a state, and is sent where it is dirty.
    pub(crate) fn flush_row(
        &mut self,
        addr: Addr,
        state: Coh,
        at: Option<u8>,
    ) -> Result<CacheStep, Foreign>
        requires { IfSome at (λ w. w < self.old.config.ways) }
        ensures gives { Gives (flush_row self.old.config (state_of self.old) self.old.number addr state at) (state_of self.old)
            (state_of self.new) result }
        ensures config { self.new.config ≡ self.old.config }
        ensures number { self.new.number ≡ self.old.number }
    {
        match at {
            None => Err(Foreign),
            Some(at) => {
                let answer = self.flush_answer(addr, self.kept_at(addr, at));
                self.lower(addr, at, state);
                Ok(self.answer_row(answer))
            }
        }
    }

    /// `StTr`: the copy at a way takes a state, and fills a way of a peer.
    pub(crate) fn transfer_row(
        &mut self,
        addr: Addr,
        state: Coh,
        peer: u8,
        peer_way: u8,
        peer_state: Coh,
        at: Option<u8>,
    ) -> Result<CacheStep, Foreign>
        requires peer { peer < self.old.config.caches }
        requires peer_way { peer_way < self.old.config.ways }
        requires peer_state { suits Received peer_state ≡ true }
        requires at { IfSome at (λ w. w < self.old.config.ways) }
        ensures gives { Gives (transfer_row self.old.config (state_of self.old) self.old.number addr state peer peer_way peer_state at)
            (state_of self.old) (state_of self.new) result }
        ensures config { self.new.config ≡ self.old.config }
        ensures number { self.new.number ≡ self.old.number }
    {
        match at {
            None => Err(Foreign),
            Some(at) => {
                if peer == self.number {
                    return Err(Foreign);
                }
                let words = self.kept_at(addr, at).words;
                self.lower(addr, at, state);
                Ok(self.answer_row(Message::fill(
                    self.number,
                    peer,
                    peer_way,
                    peer_state,
                    addr,
                    words,
                )))
            }
        }
    }
}

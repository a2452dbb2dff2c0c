ghost use Rattle.std.specs.Prelude.{◌≡◌, ◌<◌, IfOk};
ghost use Rattle.bk_base.specs.Places.{block_start};
ghost use Rattle.bk_msg.specs.declared.row.Row.TheVariants.{InvAck};
ghost use Rattle.bk_msg.specs.declared.row.TheConstants.{ENGINE};
ghost use Rattle.bk_msg.specs.Spelling.{IsMessage};
ghost use Rattle.bk_msg.specs.Within.{IsWithin};
ghost use Rattle.bk_lce.specs.CacheTable.{Gives, Takes, SendsWithin, CompletesOwn, answer_row, with_invalid_block, issue, command, fill};
ghost use Rattle.bk_lce.specs.CacheArrays.{state_of};

use crate::cache_arrays::CacheArrays;
use crate::line::{Busy, CacheStep, Foreign};
use bk_base::{Addr, Op};
use bk_msg::{Message, Row};

// The table of a cache: what it does with an operation, and with a message of each kind. The rows of operations stand in `issue`,
// those of messages that ask something of a cache in `commands`, those of messages that complete its operation in `grants`.

impl CacheArrays {
    /// Gives the cache an operation, with the way of the victim for a Load or Store of a block that isn't there.
    /// An error is `Busy`: an operation is in progress, and nothing has changed.
    pub fn issue_at(&mut self, op: Op, way: u8) -> Result<CacheStep, Busy>
        requires { way < self.old.config.ways }
        ensures gives { Gives (issue self.old.config (state_of self.old) self.old.number op way) (state_of self.old)
            (state_of self.new) result }
        ensures within { IfOk result (SendsWithin self.old.config) }
        ensures own { IfOk result (CompletesOwn self.old.number) }
        ensures config { self.new.config ≡ self.old.config }
        ensures number { self.new.number ≡ self.old.number }
    {
        if self.busy() {
            return Err(Busy);
        }
        Ok(self.issue_row(op, way))
    }

    /// Hands the cache a message of the command network. An error is `Foreign`: there is no row for the message,
    /// and nothing has changed.
    pub fn command(&mut self, message: &Message) -> Result<CacheStep, Foreign>
        requires { IsWithin self.old.config message.now }
        ensures gives { Gives (command self.old.config (state_of self.old) self.old.number message.now) (state_of self.old)
            (state_of self.new) result }
        ensures within { IfOk result (SendsWithin self.old.config) }
        ensures own { IfOk result (CompletesOwn self.old.number) }
        ensures config { self.new.config ≡ self.old.config }
        ensures number { self.new.number ≡ self.old.number }
    {
        self.command_row(message.row())
    }

    /// Hands the cache a message of the fill network. An error is `Foreign`: there is no row for the message,
    /// and nothing has changed.
    pub fn fill(&mut self, message: &Message) -> Result<CacheStep, Foreign>
        requires { IsWithin self.old.config message.now }
        ensures gives { Gives (fill self.old.config (state_of self.old) self.old.number message.now) (state_of self.old)
            (state_of self.new) result }
        ensures within { IfOk result (SendsWithin self.old.config) }
        ensures own { IfOk result (CompletesOwn self.old.number) }
        ensures config { self.new.config ≡ self.old.config }
        ensures number { self.new.number ≡ self.old.number }
    {
        self.fill_row(message.row())
    }

    /// `Inv`: the block of an address is dropped.
    fn invalidate_row(&mut self, addr: Addr) -> CacheStep
        ensures gives { Takes
            (answer_row (with_invalid_block self.old.config (state_of self.old) addr) (InvAck self.old.number ENGINE (block_start addr)))
            (state_of self.new) result }
        ensures config { self.new.config ≡ self.old.config }
        ensures number { self.new.number ≡ self.old.number }
    {
        self.invalidate(addr);
        self.answer_row(Message::inv_ack(self.number, addr))
    }

    /// A message of the command network that comes to the cache.
    pub(crate) fn command_row(&mut self, row: Row) -> Result<CacheStep, Foreign>
        requires message { IsMessage row }
        requires within { IsWithin self.old.config row }
        ensures gives { Gives (command self.old.config (state_of self.old) self.old.number row) (state_of self.old)
            (state_of self.new) result }
        ensures config { self.new.config ≡ self.old.config }
        ensures number { self.new.number ≡ self.old.number }
    {
        match row {
            Row::Inv { addr, .. } => Ok(self.invalidate_row(addr)),
            Row::StWb { state, addr, .. } => self.flush_row(addr, state, self.found(addr)),
            Row::StTr {
                state,
                peer,
                peer_way,
                peer_state,
                addr,
                ..
            } => self.transfer_row(addr, state, peer, peer_way, peer_state, self.found(addr)),
            Row::Blk {
                way,
                state,
                addr,
                words,
                ..
            } => self.grant_for(way, state, addr, words, self.in_progress()),
            Row::StWake { way, addr, .. } => self.wake_for(way, addr, self.in_progress()),
            Row::UcBlk { addr, word, .. } => self.word_comes(addr, word, self.in_progress()),
            Row::UcDone { addr, .. } => self.word_is_written(addr, self.in_progress()),
            Row::Done { addr, .. } => self.block_is_evicted(addr, self.in_progress()),
            _ => Err(Foreign),
        }
    }

    /// A message of the fill network that comes to the cache.
    pub(crate) fn fill_row(&mut self, row: Row) -> Result<CacheStep, Foreign>
        requires within { IsWithin self.old.config row }
        ensures gives { Gives (fill self.old.config (state_of self.old) self.old.number row) (state_of self.old)
            (state_of self.new) result }
        ensures config { self.new.config ≡ self.old.config }
        ensures number { self.new.number ≡ self.old.number }
    {
        match row {
            Row::Fill {
                way,
                state,
                addr,
                words,
                ..
            } => self.grant_for(way, state, addr, words, self.in_progress()),
            _ => Err(Foreign),
        }
    }
}

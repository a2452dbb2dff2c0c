ghost use Rattle.std.specs.Prelude.{◌≡◌, ◌<◌, is_some};
ghost use Rattle.bk_msg.specs.Within.{IsWithin};
ghost use Rattle.bk_lce.specs.CacheTable.{wake_row, wake_for, command, fill, has_row};
ghost use Rattle.bk_lce.specs.CacheArrays.{state_of};
ghost use Rattle.bk_lce.specs.HasRow.{CanFlush, CanTransfer, CanGrantAt, CanGrant, CanTakeWordOf, CanTakeWord, CanBeWrittenOf, CanBeWritten, CanBeEvictedOf, CanBeEvicted};

use crate::cache_arrays::CacheArrays;
use crate::line::InProgress;
use crate::lines::holds;
use bk_base::{Addr, Coh, Op, block_of, tag_at};
use bk_msg::{Message, Row};

// Whether a message has a row, without making it. Each test answers for whatever else the message says.

/// Whether `StWb` has a row, where a copy stands at a way or nowhere.
fn can_flush(at: Option<u8>) -> bool
    ensures { CanFlush at result }
{
    at.is_some()
}

/// Whether `StTr` has a row at a cache, where a copy stands at a way or nowhere.
fn can_transfer(number: u8, peer: u8, at: Option<u8>) -> bool
    ensures { CanTransfer number peer at result }
{
    match at {
        None => false,
        Some(_) => peer != number,
    }
}

/// Whether `Blk` or `Fill` has a row at the way of the operation in progress.
fn can_grant_at(state: Coh, addr: Addr, op: Op) -> bool
    ensures { CanGrantAt state addr op result }
{
    match op {
        Op::Load(at) => block_of(at) == block_of(addr),
        Op::Store(at, _) => block_of(at) == block_of(addr) && state.writable(),
        _ => false,
    }
}

/// Whether `Blk` or `Fill` has a row.
fn can_grant(way: u8, state: Coh, addr: Addr, busy: Option<InProgress>) -> bool
    ensures { CanGrant way state addr busy result }
{
    match busy {
        None => false,
        Some(busy) => busy.way == way && can_grant_at(state, addr, busy.op),
    }
}

/// Whether `UcBlk` has a row for an operation.
fn can_take_word_of(addr: Addr, op: Op) -> bool
    ensures { CanTakeWordOf addr op result }
{
    match op {
        Op::UcLoad(at) => at.value() == addr.value(),
        _ => false,
    }
}

/// Whether `UcBlk` has a row.
fn can_take_word(addr: Addr, busy: Option<InProgress>) -> bool
    ensures { CanTakeWord addr busy result }
{
    match busy {
        None => false,
        Some(busy) => can_take_word_of(addr, busy.op),
    }
}

/// Whether `UcDone` has a row for an operation.
fn can_be_written_of(addr: Addr, op: Op) -> bool
    ensures { CanBeWrittenOf addr op result }
{
    match op {
        Op::UcStore(at, _) => at.value() == addr.value(),
        _ => false,
    }
}

/// Whether `UcDone` has a row.
fn can_be_written(addr: Addr, busy: Option<InProgress>) -> bool
    ensures { CanBeWritten addr busy result }
{
    match busy {
        None => false,
        Some(busy) => can_be_written_of(addr, busy.op),
    }
}

/// Whether `Done` has a row for an operation.
fn can_be_evicted_of(addr: Addr, op: Op) -> bool
    ensures { CanBeEvictedOf addr op result }
{
    match op {
        Op::Evict(at) => block_of(at) == block_of(addr),
        _ => false,
    }
}

/// Whether `Done` has a row.
fn can_be_evicted(addr: Addr, busy: Option<InProgress>) -> bool
    ensures { CanBeEvicted addr busy result }
{
    match busy {
        None => false,
        Some(busy) => can_be_evicted_of(addr, busy.op),
    }
}

impl CacheArrays {
    /// Whether `StWake` has a row at the way of the operation in progress.
    fn can_wake_at(&self, way: u8, addr: Addr, op: Op) -> bool
        requires { way < self.now.config.ways }
        ensures { result ≡ is_some (wake_row self.now.config (state_of self.now) self.now.number way addr op) }
    {
        match op {
            Op::Store(at, _) => {
                let line = self.kept_at(at, way);
                block_of(at) == block_of(addr) && holds(line, tag_at(self.config, at))
            }
            _ => false,
        }
    }

    /// Whether `StWake` has a row.
    fn can_wake(&self, way: u8, addr: Addr, busy: Option<InProgress>) -> bool
        requires { way < self.now.config.ways }
        ensures { result ≡ is_some (wake_for self.now.config (state_of self.now) self.now.number way addr busy) }
    {
        match busy {
            None => false,
            Some(busy) => busy.way == way && self.can_wake_at(way, addr, busy.op),
        }
    }

    /// Whether a message of the command network has a row.
    pub fn can_command(&self, message: &Message) -> bool
        requires { IsWithin self.now.config message.now }
        ensures { result ≡ is_some (command self.now.config (state_of self.now) self.now.number message.now) }
    {
        match message.row() {
            Row::Inv { .. } => true,
            Row::StWb { addr, .. } => can_flush(self.found(addr)),
            Row::StTr { peer, addr, .. } => can_transfer(self.number, peer, self.found(addr)),
            Row::Blk {
                way,
                state,
                addr,
                ..
            } => can_grant(way, state, addr, self.in_progress()),
            Row::StWake { way, addr, .. } => self.can_wake(way, addr, self.in_progress()),
            Row::UcBlk { addr, .. } => can_take_word(addr, self.in_progress()),
            Row::UcDone { addr, .. } => can_be_written(addr, self.in_progress()),
            Row::Done { addr, .. } => can_be_evicted(addr, self.in_progress()),
            _ => false,
        }
    }

    /// Whether a message of the fill network has a row.
    pub fn can_fill(&self, message: &Message) -> bool
        ensures { result ≡ is_some (fill self.now.config (state_of self.now) self.now.number message.now) }
    {
        match message.row() {
            Row::Fill {
                way,
                state,
                addr,
                ..
            } => can_grant(way, state, addr, self.in_progress()),
            _ => false,
        }
    }

    /// Whether a message has a row: one of the command or fill network.
    pub fn has_row(&self, message: &Message) -> bool
        requires { IsWithin self.now.config message.now }
        ensures { result ≡ has_row self.now.config (state_of self.now) self.now.number message.now }
    {
        let command = self.can_command(message);
        let fill = self.can_fill(message);
        command || fill
    }
}

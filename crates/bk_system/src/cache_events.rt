ghost use Rattle.std.specs.Prelude.{◌≡◌, ◌<◌, ◌≤◌, OnOk, IfSome, vec_len, vec_capacity};
ghost use Rattle.std.specs.Option.{option_to_list};
ghost use Rattle.bk_lce.specs.CacheTable.{SendsWithin, CompletesOwn};
ghost use Rattle.bk_system.specs.Channels.{room};
ghost use Rattle.bk_system.specs.EventCalls.{peer_of, peer_in};
ghost use Rattle.bk_system.specs.Numbering.{fill_place};

use crate::bounds::{has_cache, has_way};
use crate::event::MOST_SENT;
use crate::hardware::Hardware;
use crate::sending::{add_done, fill_place, reserve_fill, send};
use arrayvec::ArrayVec;
use bk_base::Op;
use bk_lce::CacheStep;
use bk_msg::{Message, Row};
use std::alloc::AllocError;

// Issue, Command and Fill: a cache does a row of its table. An event makes room first for what the row may
// send and complete, so that nothing changes where memory runs out: an Issue sends a request, and a message is answered by a
// response, or by a fill to the peer that it names.

/// Makes a list that of the one message that was sent, if any.
pub(crate) fn put_sent(list: &mut ArrayVec<Message, MOST_SENT>, sent: &Option<Message>)
    ensures { list.new.items ≡ option_to_list sent.now }
{
    list.clear();
    if let Some(message) = sent {
        list.push(*message);
    }
}

/// The cache to which a message asks for a fill, if it does.
fn peer_of(message: &Message) -> Option<u8>
    ensures { result ≡ peer_of message.now }
{
    match message.row() {
        Row::StTr { peer, .. } => Some(peer),
        _ => None,
    }
}

impl Hardware {
    ghost use Rattle.bk_system.specs.Systems.{state_of};
    ghost use Rattle.bk_system.specs.Events.{first, cache_row, issue_taken, command_taken, fill_taken, without_command, without_fill};
    ghost use Rattle.bk_system.specs.EventCalls.{HasRoomFor, with_step, Answers, Happens};

    /// Makes room for a request of a cache, and for an operation that completes. Nothing changes where memory runs out.
    fn reserve_request(&mut self, cache: u8) -> Result<(), AllocError>
        requires { cache < self.old.config.caches }
        ensures state { state_of self.new ≡ state_of self.old }
        ensures request { OnOk result (1 ≤ room self.new.requests cache) }
        ensures history { OnOk result (vec_len self.new.history < vec_capacity self.new.history) }
        ensures config { self.new.config ≡ self.old.config }
    {
        self.requests.reserve(cache, 1)?;
        self.history.reserve(1)
    }

    /// Makes room for a response of a cache, and for an operation that completes. Nothing changes where memory runs out.
    fn reserve_response(&mut self, cache: u8) -> Result<(), AllocError>
        requires { cache < self.old.config.caches }
        ensures state { state_of self.new ≡ state_of self.old }
        ensures response { OnOk result (1 ≤ room self.new.responses cache) }
        ensures history { OnOk result (vec_len self.new.history < vec_capacity self.new.history) }
        ensures config { self.new.config ≡ self.old.config }
    {
        self.responses.reserve(cache, 1)?;
        self.history.reserve(1)
    }

    /// Makes room for a cache's answer to a message that names this peer, if it names one, and for an operation that completes.
    /// Nothing changes where memory runs out.
    fn reserve_answer(&mut self, cache: u8, peer: Option<u8>) -> Result<(), AllocError>
        requires cache { cache < self.old.config.caches }
        requires peer { IfSome peer (λ to. to < self.old.config.caches) }
        ensures state { state_of self.new ≡ state_of self.old }
        ensures response { OnOk result (1 ≤ room self.new.responses cache) }
        ensures fill { OnOk result (IfSome peer (λ to. 1 ≤ room self.new.fills (fill_place to cache))) }
        ensures history { OnOk result (vec_len self.new.history < vec_capacity self.new.history) }
        ensures config { self.new.config ≡ self.old.config }
    {
        self.responses.reserve(cache, 1)?;
        self.history.reserve(1)?;
        reserve_fill(&mut self.fills, peer, cache)
    }

    /// Sends what a step of a cache sends, and notes the operation that it completes. Room was made.
    fn conclude(&mut self, cache: u8, step: &CacheStep)
        requires cache { cache < self.old.config.caches }
        requires room { HasRoomFor self.old cache step.now.sent }
        requires sends { SendsWithin self.old.config step.now }
        requires own { CompletesOwn cache step.now }
        ensures state { state_of self.new ≡ with_step (state_of self.old) cache step.now.sent step.now.done }
        ensures sent { self.new.sent.items ≡ option_to_list step.now.sent }
        ensures config { self.new.config ≡ self.old.config }
    {
        send(
            &mut self.requests,
            &mut self.responses,
            &mut self.fills,
            cache,
            &step.sent,
        );
        put_sent(&mut self.sent, &step.sent);
        add_done(&mut self.completed, &mut self.history, cache, &step.done);
    }

    /// A cache is given an operation. Room was made.
    fn take_operation(&mut self, cache: u8, op: Op, way: u8) -> bool
        requires cache { cache < self.old.config.caches }
        requires way { way < self.old.config.ways }
        requires request { 1 ≤ room self.old.requests cache }
        requires history { vec_len self.old.history < vec_capacity self.old.history }
        ensures happens { Answers (cache_row (state_of self.old) cache (issue_taken self.old.config (state_of self.old) cache op way))
            (state_of self.old) (state_of self.new) self.new.sent.items result }
        ensures config { self.new.config ≡ self.old.config }
    {
        match self.caches.issue_at(cache, op, way) {
            Err(_) => false,
            Ok(step) => {
                self.conclude(cache, &step);
                true
            }
        }
    }

    /// An Issue.
    pub(crate) fn issue(&mut self, cache: u8, op: Op, way: u8) -> Result<bool, AllocError>
        ensures happens { Happens (cache_row (state_of self.old) cache (issue_taken self.old.config (state_of self.old) cache op way))
            (state_of self.old) (state_of self.new) self.new.sent.items result }
        ensures config { self.new.config ≡ self.old.config }
    {
        if !has_cache(self.config, cache) {
            return Ok(false);
        }
        if !has_way(self.config, way) {
            return Ok(false);
        }
        self.reserve_request(cache)?;
        Ok(self.take_operation(cache, op, way))
    }

    /// A cache takes the head of its command channel. Room was made.
    fn take_command(&mut self, cache: u8) -> bool
        requires cache { cache < self.old.config.caches }
        requires response { 1 ≤ room self.old.responses cache }
        requires fill { IfSome (peer_in (first ((state_of self.old).command cache)))
            (λ to. 1 ≤ room self.old.fills (fill_place to cache)) }
        requires history { vec_len self.old.history < vec_capacity self.old.history }
        ensures happens { Answers
            (cache_row (without_command (state_of self.old) cache) cache (command_taken self.old.config (state_of self.old) cache))
            (state_of self.old) (state_of self.new) self.new.sent.items result }
        ensures config { self.new.config ≡ self.old.config }
    {
        let Some(message) = self.commands.head(cache) else {
            return false;
        };
        match self.caches.command(cache, message) {
            Err(_) => false,
            Ok(step) => {
                self.commands.drop_head(cache);
                self.conclude(cache, &step);
                true
            }
        }
    }

    /// A Command.
    pub(crate) fn command(&mut self, cache: u8) -> Result<bool, AllocError>
        ensures happens { Happens
            (cache_row (without_command (state_of self.old) cache) cache (command_taken self.old.config (state_of self.old) cache))
            (state_of self.old) (state_of self.new) self.new.sent.items result }
        ensures config { self.new.config ≡ self.old.config }
    {
        if !has_cache(self.config, cache) {
            return Ok(false);
        }
        let Some(message) = self.commands.head(cache) else {
            return Ok(false);
        };
        let peer = peer_of(message);
        self.reserve_answer(cache, peer)?;
        Ok(self.take_command(cache))
    }

    /// A cache takes the head of the fill channel from another. Room was made.
    fn take_fill(&mut self, to: u8, from: u8) -> bool
        requires to { to < self.old.config.caches }
        requires from { from < self.old.config.caches }
        requires response { 1 ≤ room self.old.responses to }
        requires history { vec_len self.old.history < vec_capacity self.old.history }
        ensures happens { Answers
            (cache_row (without_fill (state_of self.old) to from) to (fill_taken self.old.config (state_of self.old) to from))
            (state_of self.old) (state_of self.new) self.new.sent.items result }
        ensures config { self.new.config ≡ self.old.config }
    {
        let place = fill_place(to, from);
        let Some(message) = self.fills.head(place) else {
            return false;
        };
        match self.caches.fill(to, message) {
            Err(_) => false,
            Ok(step) => {
                self.fills.drop_head(place);
                self.conclude(to, &step);
                true
            }
        }
    }

    /// A Fill.
    pub(crate) fn fill(&mut self, to: u8, from: u8) -> Result<bool, AllocError>
        ensures happens { Happens
            (cache_row (without_fill (state_of self.old) to from) to (fill_taken self.old.config (state_of self.old) to from))
            (state_of self.old) (state_of self.new) self.new.sent.items result }
        ensures config { self.new.config ≡ self.old.config }
    {
        if !has_cache(self.config, to) {
            return Ok(false);
        }
        if !has_cache(self.config, from) {
            return Ok(false);
        }
        self.reserve_response(to)?;
        Ok(self.take_fill(to, from))
    }
}

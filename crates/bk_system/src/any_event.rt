ghost use Rattle.std.specs.Prelude.{◌≡◌, ◌≤◌, length, IfOk, OnOk, OnErr, is_some};

use crate::bounds::{has_cache, has_way};
use crate::event::{Event, MOST_SENT};
use crate::hardware::Hardware;
use crate::heads::{is_choice, offered};
use crate::sending::fill_place;
use bk_base::Op;
use bk_engine::{CLASS_NONE, Choice};
use bk_isa::Instr;
use bk_msg::Message;
use std::alloc::AllocError;

// One event of any kind, and whether it is enabled.

impl Hardware {
    ghost use Rattle.bk_system.specs.Systems.{state_of};
    ghost use Rattle.bk_system.specs.Events.{issue_taken, command_taken, fill_taken, can_run, row};
    ghost use Rattle.bk_system.specs.EventCalls.{Answers, Happens};
    ghost use Rattle.bk_system.specs.Runs.{after, is_enabled};

    /// One event, by its kind: whether it ran. What it sent is then in `sent`.
    fn advance(&mut self, program: &[Instr], event: &Event) -> Result<bool, AllocError>
        requires { length program.now ≤ 256 }
        ensures happens { Happens (row self.old.config program.now (state_of self.old) event.now) (state_of self.old) (state_of self.new)
            self.new.sent.items result }
        ensures config { self.new.config ≡ self.old.config }
    {
        match event {
            Event::Issue { cache, way, op } => self.issue(*cache, *op, *way),
            Event::Command { cache } => self.command(*cache),
            Event::Fill { to, from } => self.fill(*to, *from),
            Event::Memory => self.access(),
            Event::Engine { choice } => self.run(program, *choice),
        }
    }

    /// One event: whether it was enabled. What it sent is then answered by `sent`. One that isn't enabled changes nothing.
    ///
    /// # Errors
    ///
    /// `AllocError` if the memory runs out; then nothing has changed.
    #[inline(always)]
    pub fn step(&mut self, program: &[Instr], event: &Event) -> Result<bool, AllocError>
        requires { length program.now ≤ 256 }
        ensures row { IfOk result
            (Answers (row self.old.config program.now (state_of self.old) event.now) (state_of self.old) (state_of self.new)
            self.new.sent.items) }
        ensures ran { IfOk result (λ ran. ran ≡ is_enabled self.old.config program.now (state_of self.old) event.now) }
        ensures state { OnOk result (state_of self.new ≡ after self.old.config program.now (state_of self.old) event.now) }
        ensures err { OnErr result (state_of self.new ≡ state_of self.old) }
        ensures config { self.new.config ≡ self.old.config }
    {
        match self.advance(program, event) {
            Ok(false) => Ok(false),
            Ok(true) => Ok(true),
            Err(e) => Err(e),
        }
    }

    /// The messages that the last event sent, in order, where `step` answered that it was enabled. After one that wasn't, or for which
    /// memory ran out, it says nothing.
    pub fn sent(&self) -> &[Message]
        ensures value { result.now ≡ self.now.sent.items }
        ensures few { length result.now ≤ MOST_SENT }
    {
        self.sent.as_slice()
    }

    /// Whether a cache may be given an operation with a way.
    fn can_issue(&self, cache: u8, op: &Op, way: u8) -> bool
        ensures { result ≡ is_some (issue_taken self.now.config (state_of self.now) cache op.now way) }
    {
        if !has_cache(self.config, cache) {
            return false;
        }
        if !has_way(self.config, way) {
            return false;
        }
        !self.cache(cache).busy()
    }

    /// Whether a cache has a row for the head of its command channel.
    fn can_command(&self, cache: u8) -> bool
        ensures { result ≡ is_some (command_taken self.now.config (state_of self.now) cache) }
    {
        if !has_cache(self.config, cache) {
            return false;
        }
        match self.commands.head(cache) {
            None => false,
            Some(message) => self.cache(cache).can_command(message),
        }
    }

    /// Whether a cache has a row for the head of the fill channel from another.
    fn can_fill(&self, to: u8, from: u8) -> bool
        ensures { result ≡ is_some (fill_taken self.now.config (state_of self.now) to from) }
    {
        if !has_cache(self.config, to) {
            return false;
        }
        if !has_cache(self.config, from) {
            return false;
        }
        match self.fills.head(fill_place(to, from)) {
            None => false,
            Some(message) => self.cache(to).can_fill(message),
        }
    }

    /// Whether the engine may run an instruction.
    fn can_run(&self, program: &[Instr], choice: Choice) -> bool
        requires { length program.now ≤ 256 }
        ensures { result ≡ can_run self.now.config program.now (state_of self.now) choice }
    {
        if !has_cache(self.config, choice.source) {
            return false;
        }
        let head = offered(&self.responses, &self.memin, &self.requests, choice);
        // A greedy schedule asks this of each channel in turn, and most of them are empty.
        if choice.class != CLASS_NONE && head.is_none() {
            return false;
        }
        if !is_choice(program, self.engine.place(), choice) {
            return false;
        }
        self.engine.runs(program, choice, head)
    }

    /// Whether an event is enabled.
    pub fn enabled(&self, program: &[Instr], event: &Event) -> bool
        requires { length program.now ≤ 256 }
        ensures { result ≡ is_enabled self.now.config program.now (state_of self.now) event.now }
    {
        match event {
            Event::Issue { cache, way, op } => self.can_issue(*cache, op, *way),
            Event::Command { cache } => self.can_command(*cache),
            Event::Fill { to, from } => self.can_fill(*to, *from),
            Event::Memory => self.memout.head(0).is_some(),
            Event::Engine { choice } => self.can_run(program, *choice),
        }
    }
}

ghost use Rattle.std.specs.Prelude.{◌≡◌, ◌+◌, ◌≤◌, ◌<◌, ℕ, length, vec_len, vec_capacity, OnOk, All, IfSome, slice_get, true, false};
ghost use Rattle.bk_engine.specs.Step.{IsOutward, internal_at};
ghost use Rattle.bk_system.specs.Channels.{room};
ghost use Rattle.bk_system.specs.Needs.{need_at, command_count, memory_count, origin_count};

use crate::bounds::has_cache;
use crate::hardware::Hardware;
use crate::heads::{note_origin, offered, take_answer_off, take_off};
use crate::needs::{MOST_INVALIDATIONS, Need, need_with};
use crate::sending::{reserve_each, send_all};
use bk_engine::{CLASS_REQUEST, CLASS_RESPONSE, Choice, HEAD_COH_ACK, HEAD_REQUEST, Stepped};
use bk_isa::Instr;
use std::alloc::AllocError;

// Engine: the engine runs one instruction. Room is made first for all that it may send and note, so that nothing changes where memory
// runs out. Most instructions send and note nothing.

impl Hardware {
    ghost use Rattle.bk_system.specs.Systems.{state_of};
    ghost use Rattle.bk_system.specs.Events.{engine_row, is_choice, no_channel};
    ghost use Rattle.bk_system.specs.EventCalls.{HasRoomForNeed, with_sent, with_popped, Answers, Happens};

    /// Makes room for so many messages in the command channel of each cache. Nothing changes where memory runs out.
    fn reserve_commands(&mut self, more: usize) -> Result<(), AllocError>
        ensures state { state_of self.new ≡ state_of self.old }
        ensures room { OnOk result ((c : ℕ) → c < self.new.config.caches → more ≤ room self.new.commands c) }
        ensures config { self.new.config ≡ self.old.config }
    {
        let count = self.cache_count();
        reserve_each(&mut self.commands, count, more)
    }

    /// Makes room for the origin of a head. Nothing changes where memory runs out.
    fn reserve_origins(&mut self) -> Result<(), AllocError>
        ensures state { state_of self.new ≡ state_of self.old }
        ensures taken { OnOk result (vec_len self.new.taken + 1 ≤ vec_capacity self.new.taken) }
        ensures settled { OnOk result (vec_len self.new.settled + 1 ≤ vec_capacity self.new.settled) }
        ensures config { self.new.config ≡ self.old.config }
    {
        self.taken.reserve(1)?;
        self.settled.reserve(1)
    }

    /// Makes room for what an instruction may do outside of the engine. Nothing changes where memory runs out.
    fn reserve_for(&mut self, need: Need) -> Result<(), AllocError>
        ensures state { state_of self.new ≡ state_of self.old }
        ensures room { OnOk result (HasRoomForNeed self.new need) }
        ensures config { self.new.config ≡ self.old.config }
    {
        match need {
            Need::Nothing => Ok(()),
            Need::Command => self.reserve_commands(1),
            Need::Invalidations => self.reserve_commands(MOST_INVALIDATIONS),
            Need::Memory => self.memout.reserve(0, 1),
            Need::Origin => self.reserve_origins(),
        }
    }

    /// Sends what an instruction has put into `sent`. Room was made.
    fn send_sent(&mut self)
        requires commands { (c : ℕ) → c < self.old.config.caches → command_count self.old.sent.items ≤ room self.old.commands c }
        requires memout { memory_count self.old.sent.items ≤ room self.old.memout 0 }
        requires sent { All (IsOutward self.old.config) self.old.sent.items }
        ensures state { state_of self.new ≡ with_sent (state_of self.old) self.old.sent.items }
        ensures sent { self.new.sent.items ≡ self.old.sent.items }
        ensures taken { self.new.taken ≡ self.old.taken }
        ensures settled { self.new.settled ≡ self.old.settled }
        ensures config { self.new.config ≡ self.old.config }
    {
        let sent = self.sent.as_slice();
        send_all(&mut self.commands, &mut self.memout, sent);
    }

    /// Takes the head that an instruction has popped, if any, off its channel, and notes its origin. Room was
    /// made.
    fn pop_head(&mut self, popped: Option<Choice>)
        requires source { IfSome popped (λ choice. choice.source < self.old.config.caches) }
        requires taken { vec_len self.old.taken + origin_count popped ≤ vec_capacity self.old.taken }
        requires settled { vec_len self.old.settled + origin_count popped ≤ vec_capacity self.old.settled }
        ensures state { state_of self.new ≡ with_popped self.old.config (state_of self.old) popped }
        ensures sent { self.new.sent.items ≡ self.old.sent.items }
        ensures config { self.new.config ≡ self.old.config }
    {
        let Some(choice) = popped else {
            return;
        };
        let head = offered(&self.responses, &self.memin, &self.requests, choice);
        let source = choice.source;
        note_origin(&mut self.taken, self.config, HEAD_REQUEST, source, head);
        note_origin(&mut self.settled, self.config, HEAD_COH_ACK, source, head);
        take_off(&mut self.responses, CLASS_RESPONSE, choice);
        take_answer_off(&mut self.memin, choice);
        take_off(&mut self.requests, CLASS_REQUEST, choice);
    }

    /// The engine runs an instruction, where it has no reason not to. Room was made.
    fn run_choice(&mut self, program: &[Instr], choice: Choice) -> bool
        requires few { length program.now ≤ 256 }
        requires source { choice.source < self.old.config.caches }
        requires choice { is_choice (slice_get program.now (state_of self.old).engine.core.place) choice ≡ true }
        requires room { HasRoomForNeed self.old (need_at (slice_get program.now (state_of self.old).engine.core.place)) }
        ensures happens { Answers (engine_row self.old.config program.now (state_of self.old) choice) (state_of self.old)
            (state_of self.new) self.new.sent.items result }
        ensures config { self.new.config ≡ self.old.config }
    {
        let head = offered(&self.responses, &self.memin, &self.requests, choice);
        self.sent.clear();
        match self.engine.step_into(program, choice, head, &mut self.sent) {
            Stepped::Ran { popped } => {
                self.send_sent();
                self.pop_head(popped);
                true
            }
            Stepped::Waits(_) => false,
            Stepped::Halted(_) => false,
        }
    }

    /// The engine runs the instruction at its place, if it is internal: on registers and flags alone, or a branch, that has no reason
    /// not to run. Answers whether it did: then that was the Engine event that names no channel, and `sent` answers nothing. If not,
    /// nothing has changed.
    #[inline(always)]
    pub fn step_internal(&mut self, program: &[Instr]) -> bool
        requires { length program.now ≤ 256 }
        ensures internal { let core = (state_of self.old).engine.core in
            result ≡ internal_at core (slice_get program.now core.place) }
        ensures row { result ≡ true → engine_row self.old.config program.now (state_of self.old) no_channel
            ≡ Some (record { state = state_of self.new; sent = self.new.sent.items }) }
        ensures still { result ≡ false → state_of self.new ≡ state_of self.old }
        ensures config { self.new.config ≡ self.old.config }
    {
        if !self.engine.step_internal(program) {
            return false;
        }
        self.sent.clear();
        true
    }

    /// The engine runs an instruction.
    pub(crate) fn run(&mut self, program: &[Instr], choice: Choice) -> Result<bool, AllocError>
        requires { length program.now ≤ 256 }
        ensures happens { Happens (engine_row self.old.config program.now (state_of self.old) choice) (state_of self.old)
            (state_of self.new) self.new.sent.items result }
        ensures config { self.new.config ≡ self.old.config }
    {
        if !has_cache(self.config, choice.source) {
            return Ok(false);
        }
        let Some(need) = need_with(program, self.engine.place(), choice) else {
            return Ok(false);
        };
        self.reserve_for(need)?;
        Ok(self.run_choice(program, choice))
    }
}

ghost use Rattle.std.specs.Prelude.{◌≡◌, ◌≢◌, ◌≤◌, ◌+◌, ◌-◌, ◌^◌, ◌⊎◌, length, true, false, IfOk, OnOk};
ghost use Rattle.std.specs.Fn.{FnReturnsAt};
ghost use Rattle.bk_lce.specs.Policies.{IsPolicy};
ghost use Rattle.bk_system.specs.State.{State};
ghost use Rattle.bk_system.specs.Systems.{state_of};
ghost use Rattle.bk_rounds.specs.Agents.{Works, IsFresh, IsSame};
ghost use Rattle.bk_rounds.specs.Ends.{AreInlets, AreOutlets};
ghost use Rattle.bk_rounds.specs.Moves.{Notes};
ghost use Rattle.bk_rounds.specs.Tasks.{task_of, IsIdle};
ghost use Rattle.bk_rounds.specs.Work.{IsSent};
ghost use Rattle.bk_rounds.specs.declared.turns.Turn.TheVariants.{Idle, Made, Stopped};

use crate::acting::act;
use crate::agent::Agent;
use bk_isa::Instr;
use bk_lce::{Victim, WayView};
use bk_outer::Gate;
use bk_threads::Stamped;
use bk_trace::Trace;
use std::alloc::AllocError;
use std::sync::Wait;
use std::thread;

/// How many events an agent makes in a round at the most.
pub const TURNS: usize = 64;

/// How many times in a round an agent that has nothing to do takes again, before its round ends.
pub const PATIENCE: usize = 128;

/// How a turn ended.
#[derive(Clone, Copy, Debug, PartialEq, Eq)]
enum Turn {
    /// An event was made, and all that it sends was sent.
    Made,
    /// No event is enabled.
    Idle,
    /// The agent can't go on in this round: a channel has no room, or its clock is at its last value.
    Stopped,
}

impl Agent {
    /// Makes an event of the agent, with this stamp, and notes it in the journal. Answers whether one was enabled; if not, nothing has
    /// changed.
    fn make<F: Fn(&[WayView]) -> u8 + Copy + Send>(
        &mut self,
        stamp: u64,
        victim: &Victim<F>,
        program: &[Instr],
        trace: &Trace,
    ) -> Result<bool, AllocError>
        requires few { length program.now ≤ 256 }
        requires config { trace.now.config ≡ self.old.hardware.config }
        requires number { self.old.number ≤ self.old.hardware.config.caches + 1 }
        requires policy { IsPolicy F.Fn victim.now.pick }
        ensures makes { IfOk result (λ made. Notes (task_of (FnReturnsAt F.Fn victim.now.pick) program.now trace.now) self.old.number stamp
            (state_of self.old.hardware) (state_of self.new.hardware) self.old.clock self.new.clock self.old.entries.items
            self.new.entries.items made) }
        ensures inlets { self.new.inlets ≡ self.old.inlets }
        ensures outlets { self.new.outlets ≡ self.old.outlets }
        ensures number { self.new.number ≡ self.old.number }
        ensures config { self.new.hardware.config ≡ self.old.hardware.config }
    {
        match act(&mut self.hardware, self.number, victim, program, trace) {
            Err(e) => Err(e),
            Ok(None) => Ok(false),
            Ok(Some(event)) => {
                self.clock = stamp;
                self.entries.push(Stamped { stamp, event })?;
                Ok(true)
            }
        }
    }

    /// A turn of the agent: it passes the gate, takes what its channels bring, makes one event, and sends what the event sends.
    fn turn<R: Wait, F: Fn(&[WayView]) -> u8 + Copy + Send, G: Gate>(
        &mut self,
        rt: &R,
        victim: &Victim<F>,
        program: &[Instr],
        trace: &Trace,
        gate: &G,
    ) -> Result<Turn, AllocError>
        requires few { length program.now ≤ 256 }
        requires config { trace.now.config ≡ self.old.hardware.config }
        requires number { self.old.number ≤ self.old.hardware.config.caches + 1 }
        requires policy { IsPolicy F.Fn victim.now.pick }
        requires inlets { AreInlets self.old.hardware.config self.old.number self.old.inlets.items }
        requires outlets { AreOutlets self.old.hardware.config self.old.number self.old.outlets.items }
        requires sent { IsSent self.old.hardware.config self.old.number (state_of self.old.hardware) }
        ensures works { OnOk result ((begun : State)
            → Works (task_of (FnReturnsAt F.Fn victim.now.pick) program.now trace.now) begun self.old
            → Works (task_of (FnReturnsAt F.Fn victim.now.pick) program.now trace.now) begun self.new) }
        ensures sent { IfOk result (λ turn. (begun : State)
            → Works (task_of (FnReturnsAt F.Fn victim.now.pick) program.now trace.now) begun self.old
            → (turn ≡ Stopped) ⊎ IsSent self.old.hardware.config self.old.number (state_of self.new.hardware)) }
        ensures idle { IfOk result (λ turn. turn ≡ Idle
            → IsIdle self.old.hardware.config program.now trace.now.lines (state_of self.new.hardware) self.old.number) }
        ensures made { IfOk result (λ turn. turn ≡ Made → length self.old.entries.items + 1 ≤ length self.new.entries.items) }
        ensures stopped { IfOk result (λ turn. turn ≡ Stopped → (self.new.clock ≡ 2 ^ 64 - 1)
            ⊎ (length self.old.entries.items + 1 ≤ length self.new.entries.items)) }
        ensures longer { OnOk result (length self.old.entries.items ≤ length self.new.entries.items) }
        ensures same { IsSame self.old self.new }
    {
        gate.pass(self.number, self.turns);
        self.turns = self.turns.saturating_add(1);
        self.take(rt)?;
        let Some(stamp) = self.clock.checked_add(1) else {
            return Ok(Turn::Stopped);
        };
        if !self.make(stamp, victim, program, trace)? {
            return Ok(Turn::Idle);
        }
        self.hardware.channels_are_within();
        if self.send(rt) {
            Ok(Turn::Made)
        } else {
            Ok(Turn::Stopped)
        }
    }

    /// A round of the agent, on ends of channels from which nothing was taken and to which nothing was sent (`IsFresh`): turns, until it
    /// has made 64 events, or has found 128 times that none is enabled, or can't go on. Answers whether it found at last that none is
    /// enabled.
    /// What it has done is `IsWork` (docs/THREADS.md, "A round"). It may wait, as its channels may.
    ///
    /// # Errors
    ///
    /// `AllocError` where the memory runs out; nothing is promised of the agent then.
    pub fn round<R: Wait, F: Fn(&[WayView]) -> u8 + Copy + Send, G: Gate>(
        &mut self,
        rt: &R,
        victim: &Victim<F>,
        program: &[Instr],
        trace: &Trace,
        gate: &G,
    ) -> Result<bool, AllocError>
        requires few { length program.now ≤ 256 }
        requires config { trace.now.config ≡ self.old.hardware.config }
        requires number { self.old.number ≤ self.old.hardware.config.caches + 1 }
        requires policy { IsPolicy F.Fn victim.now.pick }
        requires inlets { AreInlets self.old.hardware.config self.old.number self.old.inlets.items }
        requires outlets { AreOutlets self.old.hardware.config self.old.number self.old.outlets.items }
        requires fresh { IsFresh self.old }
        ensures works { OnOk result (Works (task_of (FnReturnsAt F.Fn victim.now.pick) program.now trace.now) (state_of self.old.hardware)
            self.new) }
        ensures idle { IfOk result (λ idle. idle ≡ true
            → IsIdle self.old.hardware.config program.now trace.now.lines (state_of self.new.hardware) self.old.number) }
        // Where it answers otherwise, it has made events, or it had no next stamp to give.
        ensures busy { IfOk result (λ idle. idle ≡ false → (self.new.clock ≡ 2 ^ 64 - 1) ⊎ (1 ≤ length self.new.entries.items)) }
        ensures same { IsSame self.old self.new }
    {
        let mut patience = PATIENCE;
        let mut left = TURNS;
        for _ in 0..TURNS + PATIENCE {
            match self.turn(rt, victim, program, trace, gate)? {
                Turn::Made => {
                    left -= 1;
                    if left == 0 {
                        return Ok(false);
                    }
                }
                Turn::Idle => {
                    patience -= 1;
                    if patience == 0 {
                        return Ok(true);
                    }
                    thread::yield_now();
                }
                Turn::Stopped => return Ok(false),
            }
        }
        Ok(false)
    }
}

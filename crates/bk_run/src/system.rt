ghost use Rattle.std.specs.Prelude.{◌≡◌, ◌≤◌, length, IfOk, OnOk, OnErr, MatchOption};
ghost use Rattle.std.specs.Fn.{FnReturnsAt};
ghost use Rattle.bk_lce.specs.Policies.{IsPolicy};
ghost use Rattle.bk_run.specs.Greedy.{IsLeast, IsEnd};
ghost use Rattle.bk_system.specs.Runs.{after, is_enabled, is_quiet, is_rested};
ghost use Rattle.bk_system.specs.State.{opening};
ghost use Rattle.bk_system.specs.Systems.{state_of};

use crate::greedy::least_of;
use bk_base::Config;
use bk_isa::Instr;
use bk_lce::{Victim, WayView};
use bk_system::{Event, Hardware};
use bk_trace::Trace;
use std::alloc::{AllocError, Global};

/// A system: its hardware, and the victim policy of its caches, of which only the greedy schedule asks. Contracts see the
/// state that the hardware stands for, and the stored policy.
#[derive(Drop)]
pub struct System<F> {
    pub(crate) hardware: Hardware,
    pub(crate) victim: Victim<F>,
}

impl<F: Fn(&[WayView]) -> u8 + Copy + Send> System<F> {
    /// A system at its opening: empty caches and directory, memory of zeros, empty channels, the engine at its start.
    pub fn make(alloc: Global, config: Config, victim: Victim<F>) -> Result<System<F>, AllocError>
        ensures state { IfOk result (λ system. state_of system.hardware ≡ opening config) }
        ensures config { IfOk result (λ system. system.hardware.config ≡ config) }
        ensures victim { IfOk result (λ system. system.victim ≡ victim) }
    {
        let hardware = Hardware::make(alloc, config)?;
        Ok(System { hardware, victim })
    }

    /// One event: whether it was enabled. One that isn't changes nothing, and neither does one for which memory runs out.
    pub fn step(&mut self, program: &[Instr], event: &Event) -> Result<bool, AllocError>
        requires { length program.now ≤ 256 }
        ensures ran { IfOk result (λ ran. ran ≡ is_enabled self.old.hardware.config program.now (state_of self.old.hardware) event.now) }
        ensures state { OnOk result (state_of self.new.hardware
            ≡ after self.old.hardware.config program.now (state_of self.old.hardware) event.now) }
        ensures err { OnErr result (state_of self.new.hardware ≡ state_of self.old.hardware) }
        ensures config { self.new.hardware.config ≡ self.old.hardware.config }
        ensures victim { self.new.victim ≡ self.old.victim }
    {
        self.hardware.step(program, event)
    }

    /// Whether an event is enabled.
    pub fn enabled(&self, program: &[Instr], event: &Event) -> bool
        requires { length program.now ≤ 256 }
        ensures { result ≡ is_enabled self.now.hardware.config program.now (state_of self.now.hardware) event.now }
    {
        self.hardware.enabled(program, event)
    }

    /// Whether all channels are empty and the engine stands at a `wfq`.
    pub fn quiet(&self, program: &[Instr]) -> bool
        ensures { result ≡ is_quiet self.now.hardware.config program.now (state_of self.now.hardware) }
    {
        self.hardware.quiet(program)
    }

    /// Whether the system has come to rest: it is quiet, the engine waits for requests, no way group is
    /// pending, and no cache has an operation in progress.
    pub fn rested(&self, program: &[Instr]) -> bool
        ensures { result ≡ is_rested self.now.hardware.config program.now (state_of self.now.hardware) }
    {
        self.hardware.rested(program)
    }

    /// The least enabled event of the greedy order, each Issue being of its cache's next operation in the trace, with a
    /// way that the stored policy answers: Issue by cache; Engine, first without a class, then responses, memory and
    /// requests, each by source; Command by cache; Fill by receiver and sender; Memory. None exactly where none of them
    /// is enabled.
    pub fn least_enabled(&self, program: &[Instr], trace: &Trace) -> Option<Event>
        requires few { length program.now ≤ 256 }
        requires config { trace.now.config ≡ self.now.hardware.config }
        requires policy { IsPolicy F.Fn self.now.victim.pick }
        ensures { MatchOption result (IsEnd self.now.hardware.config program.now (state_of self.now.hardware) trace.now.lines)
            (IsLeast (FnReturnsAt F.Fn self.now.victim.pick) self.now.hardware.config program.now
            (state_of self.now.hardware) trace.now.lines) }
    {
        least_of(&self.hardware, &self.victim, program, trace)
    }
}

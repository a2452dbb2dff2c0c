ghost use Rattle.std.specs.Prelude.{◌≡◌, ◌<◌};
ghost use Rattle.bk_dir.specs.Directories.{contents_of};
ghost use Rattle.bk_engine.specs.Heads.{IsSound, IsSound-prop};
ghost use Rattle.bk_engine.specs.Summed.{IsSummed, IsSummed-prop};

use crate::parts::{Choice, Core};
use crate::step::{branch_runs, is_plain, run, run_branch, run_plain};
use crate::stop::{Halt, Stop, form_stop, stop_of};
use crate::summed::sum_up;
use arrayvec::ArrayVec;
use bk_base::Config;
use bk_dir::{Directory, Summary};
use bk_isa::Instr;
use bk_msg::Message;
use std::alloc::{AllocError, Global};

/// What a step of the engine did.
#[derive(Debug, Drop)]
pub enum EngineStep {
    /// The instruction ran: the messages that it sent, in order, and the head that it took off its channel.
    Ran {
        sent: ArrayVec<Message, 16>,
        popped: Option<Choice>,
    },
    /// A `wfq` of these classes was offered no head of one of them. Nothing has changed.
    Waits(u8),
    /// The engine can't run the instruction. Nothing has changed.
    Halted(Halt),
}

/// What a step of the engine did whose messages were put into a list of the caller.
#[derive(Clone, Copy, Debug, PartialEq, Eq)]
pub enum Stepped {
    /// The instruction ran, and took this head off its channel.
    Ran { popped: Option<Choice> },
    /// A `wfq` of these classes was offered no head of one of them. Nothing has changed.
    Waits(u8),
    /// The engine can't run the instruction. Nothing has changed.
    Halted(Halt),
}

/// The engine with its directory. Contracts see the state that it stands for, as `state_of` tells, and its configuration.
#[derive(Drop)]
pub struct Engine {
    pub(crate) config: Config,
    core: Core,
    directory: Directory,
    /// What the directory says of the held request's block, where it was summed up and stands.
    summed: Option<Summary>,
    ghost sound: { IsSound config core } by { IsSound-prop config core },
    ghost tells: { IsSummed config (contents_of directory) core.held summed } by { IsSummed-prop },
    ghost same: { directory.config ≡ config },
    ghost some_ways: { 0 < config.ways },
}

impl Engine {
    ghost use Rattle.std.specs.Prelude.{◌≤◌, IfOk, Some, [], length, true, false, slice_get};
    ghost use Rattle.std.specs.Option.{option_copied};
    ghost use Rattle.bk_msg.specs.declared.row.Row.{Row};
    ghost use Rattle.bk_msg.specs.Within.{IsWithin};
    ghost use Rattle.bk_dir.specs.Directories.{contents_of};
    ghost use Rattle.bk_engine.specs.Engine.{new_engine, state_of};
    ghost use Rattle.bk_engine.specs.Step.{IsStep, with_sent, SendsWhereRan, SendsWithin, PopsWithin, runs, internal_at, RunsInternally};

    /// An engine for a configuration, at its start: it stands at place 0, holds nothing, and its directory is empty.
    ///
    /// # Errors
    ///
    /// `AllocError` if the memory runs out.
    #[tactic(auto, using(crate::proofs::Sound::sound_new))]
    pub fn make(alloc: Global, config: Config) -> Result<Engine, AllocError>
        ensures state { IfOk result (λ e. state_of e ≡ new_engine) }
        ensures config { IfOk result (λ e. e.config ≡ config) }
    {
        let directory = Directory::make(alloc, config)?;
        Ok(Engine {
            config,
            core: Core::new(),
            directory,
            summed: None,
        })
    }

    /// Runs the instruction at the engine's place, or answers why it doesn't run. `head` is the head of the channel that the
    /// choice names, where it has one; `wfq` alone looks at it.
    pub fn step(&mut self, program: &[Instr], choice: Choice, head: Option<&Message>) -> EngineStep
        requires few { length program.now ≤ 256 }
        requires source { choice.source < self.old.config.caches }
        requires within { (m : Row) → option_copied head ≡ Some m → IsWithin self.old.config m }
        ensures step { IsStep self.old.config program.now choice (option_copied head.entry)
            (state_of self.old) (state_of self.new) result }
        // Each message that is sent goes to a cache or the memory, and is of the configuration.
        ensures within { SendsWithin self.old.config result }
        ensures popped { PopsWithin self.old.config result }
        ensures config { self.new.config ≡ self.old.config }
    {
        let mut sent = ArrayVec::new();
        match self.step_into(program, choice, head, &mut sent) {
            Stepped::Ran { popped } => EngineStep::Ran { sent, popped },
            Stepped::Waits(classes) => EngineStep::Waits(classes),
            Stepped::Halted(reason) => EngineStep::Halted(reason),
        }
    }

    /// The same as `step`, for a caller that steps often: the messages are put into its own list, which is empty before. Making
    /// and moving a list of sixteen messages takes many times as long as an instruction.
    pub fn step_into(
        &mut self,
        program: &[Instr],
        choice: Choice,
        head: Option<&Message>,
        sent: &mut ArrayVec<Message, 16>,
    ) -> Stepped
        requires few { length program.now ≤ 256 }
        requires source { choice.source < self.old.config.caches }
        requires within { (m : Row) → option_copied head ≡ Some m → IsWithin self.old.config m }
        requires empty { sent.old.items ≡ [] }
        ensures step { IsStep self.old.config program.now choice (option_copied head.entry)
            (state_of self.old) (state_of self.new) (with_sent sent.new result) }
        ensures within { SendsWithin self.old.config (with_sent sent.new result) }
        ensures popped { PopsWithin self.old.config (with_sent sent.new result) }
        ensures sent { SendsWhereRan sent.new result }
        ensures config { self.new.config ≡ self.old.config }
    {
        if self.step_internal(program) {
            return Stepped::Ran { popped: None };
        }
        let Some(instr) = program.get(self.core.place as usize) else {
            return Stepped::Halted(Halt::NoInstruction);
        };
        let form = instr.form();
        sum_up(
            self.config,
            &self.core,
            &self.directory,
            &mut self.summed,
            form,
        );
        match form_stop(
            self.config,
            &self.core,
            &self.directory,
            &self.summed,
            form,
            choice,
            head,
        ) {
            Some(Stop::Waits(classes)) => Stepped::Waits(classes),
            Some(Stop::Halts(reason)) => Stepped::Halted(reason),
            None => {
                let popped = run(
                    self.config,
                    &mut self.core,
                    &mut self.directory,
                    &mut self.summed,
                    form,
                    choice,
                    head,
                    sent,
                );
                Stepped::Ran { popped }
            }
        }
    }

    /// Runs the instruction at the engine's place, if it is internal: on registers and flags alone, or a branch, that has no reason
    /// not to run. Answers whether it did. Such an instruction runs whatever is chosen, sends nothing and takes no head off its
    /// channel. If it is none, nothing has changed, and `step` tells what happens.
    #[inline(always)]
    pub fn step_internal(&mut self, program: &[Instr]) -> bool
        requires { length program.now ≤ 256 }
        ensures internal { result ≡ internal_at (state_of self.old).core (slice_get program.now (state_of self.old).core.place) }
        ensures ran { result ≡ true → RunsInternally self.old.config program.now (state_of self.old) (state_of self.new) }
        ensures still { result ≡ false → self.new ≡ self.old }
        ensures config { self.new.config ≡ self.old.config }
    {
        let Some(instr) = program.get(self.core.place as usize) else {
            return false;
        };
        let form = instr.form();
        if is_plain(form) {
            run_plain(&mut self.core, form);
            return true;
        }
        if !branch_runs(&self.core, form) {
            return false;
        }
        sum_up(
            self.config,
            &self.core,
            &self.directory,
            &mut self.summed,
            form,
        );
        run_branch(
            self.config,
            &mut self.core,
            &self.directory,
            &self.summed,
            form,
        );
        true
    }

    /// Whether a step with these arguments would run the instruction at the engine's place.
    pub fn runs(&self, program: &[Instr], choice: Choice, head: Option<&Message>) -> bool
        requires { length program.now ≤ 256 }
        ensures { result ≡ runs self.now.config (state_of self.now) program.now choice (option_copied head.entry) }
    {
        stop_of(
            self.config,
            &self.core,
            &self.directory,
            &self.summed,
            program,
            choice,
            head,
        )
        .is_none()
    }

    /// The place of the instruction that a step would run.
    pub fn place(&self) -> u32
        ensures { result ≡ (state_of self.now).core.place }
    {
        self.core.place
    }

    /// The engine's directory with the pending bits.
    pub fn directory(&self) -> &Directory
        ensures contents { contents_of result.now ≡ (state_of self.now).directory }
        ensures config { result.now.config ≡ self.now.config }
    {
        &self.directory
    }

    /// Whether a way group is pending: a transaction of it is in progress.
    pub fn pending(&self, set: u8) -> bool
        requires { set < self.now.config.sets }
        ensures { result ≡ (state_of self.now).directory.pending set }
    {
        self.directory.pending(set)
    }
}

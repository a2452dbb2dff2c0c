ghost use Rattle.bk_bridge.specs.Steps.{OpensEmpty, EventsAreSteps, ReachedStatesStep};
ghost use Rattle.bk_bridge.specs.Formed.{OpensFormed, EventsKeepForm, RunsKeepForm};
ghost use Rattle.bk_bridge.specs.Fronts.{EventsKeepFront, RunsHoldFront};
ghost use Rattle.bk_bridge.specs.Ranges.{EventsKeepRange, RunsInRange};
ghost use Rattle.bk_bridge.specs.Readings.{SummariesAlike};
ghost use Rattle.bk_bridge.specs.Effects.{InstructionsDo, PopsDo, InstructionsAside, PopsAside};
ghost use Rattle.bk_bridge.specs.Acting.{ActionsAlike, HeadsAlike};

/// Outside the engine the system is the abstract machine. The opening state is the empty machine. Each Issue, Command, Fill and
/// Memory event of a well-formed state, so of each state of a run, is a step of the machine, or it isn't enabled in both. An
/// operation's address has to be that of a word.
pub fn event_steps()
    ensures opens_empty { OpensEmpty }
    ensures steps { EventsAreSteps }
    ensures reached { ReachedStatesStep }
{}

/// What holds in each state of a run, with whatever events and program. It is well formed: messages stand in the channels of their
/// own networks, blocks have eight words, addresses are those of words, those of the history too, and the engine has four flags. The
/// head that the engine looks at stands first in its channel: no other agent takes it off. And it is in range: messages, engine and
/// directory name caches, sets and ways of the configuration alone, and no channel of another cache has a message.
pub fn reached_states()
    ensures opens_formed { OpensFormed }
    ensures events_form { EventsKeepForm }
    ensures runs_form { RunsKeepForm }
    ensures events_front { EventsKeepFront }
    ensures runs_front { RunsHoldFront }
    ensures events_range { EventsKeepRange }
    ensures runs_range { RunsInRange }
{}

/// What the engine reads of a request in its directory, own, owner, others and victim, is what the machine reads there, and it sends
/// an invalidation to just the caches of the machine's list.
pub fn engine_readings()
    ensures { SummariesAlike }
{}

/// What an instruction that runs does to the machine's state, the transaction aside: the messages that it sends and the entries that it
/// writes (`done_by`); and for `popq` the head that leaves its channel, the pending bit, and what is taken or settled (`pops_head`).
/// Neither reads the transaction.
pub fn engine_effects()
    ensures instructions { InstructionsDo }
    ensures pops { PopsDo }
    ensures instructions_aside { InstructionsAside }
    ensures pops_aside { PopsAside }
{}

/// An action of the machine for each instruction, for the transaction that the engine serves (`action_of`): what the instruction does to
/// the machine's state is what that action does, the transaction aside. Of two actions that differ in the transaction alone, as finishing
/// one and doing nothing, this doesn't say which it is; nor that the action is permitted. A `popq` takes a request or settles one with
/// `wp`, and collects an answer without it.
pub fn engine_actions()
    ensures actions { ActionsAlike }
    ensures heads { HeadsAlike }
{}

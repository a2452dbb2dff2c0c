ghost use Rattle.std.specs.Prelude.{◌≡◌, ◌≤◌, length, IfOk};
ghost use Rattle.std.specs.Fn.{FnReturnsAt};
ghost use Rattle.bk_lce.specs.Policies.{IsPolicy};
ghost use Rattle.bk_rounds.specs.Tasks.{task_of};
ghost use Rattle.bk_system.specs.State.{State};
ghost use Rattle.bk_parallel.specs.Joined.{AreBetween};
ghost use Rattle.bk_parallel.specs.Runs.{IsWholeRun};
ghost use Rattle.bk_parallel.specs.Stands.{Stand, Advances};

use crate::closing::close;
use crate::opening::open;
use crate::routes::all_channels;
use crate::sides::side_by_side;
use crate::team::{journals_of, make_team};
use bk_isa::Instr;
use bk_lce::{Victim, WayView};
use bk_outer::Gate;
use bk_rounds::Agent;
use bk_system::{Channel, Event};
use bk_threads::merge;
use bk_trace::Trace;
use std::alloc::{AllocError, Global};
use std::sync::Wait;
use std::thread::Threads;

/// What a round of all agents leaves.
#[derive(Drop)]
struct Round {
    agents: Vec<Agent>,
    /// The events of all, in one order.
    events: Vec<Event>,
    /// Whether the run has ended: no agent has made an event, and none has one that is enabled.
    last: bool,
}

/// A round of all agents: their channels are opened, they work side by side, the channels are closed, and the journals are merged.
fn make_round<R: Threads + Wait + Sync, F: Fn(&[WayView]) -> u8 + Copy + Send, G: Gate + Sync>(
    rt: &R,
    alloc: Global,
    channels: &[Channel],
    mut agents: Vec<Agent>,
    victim: Victim<F>,
    program: &[Instr],
    trace: &Trace,
    gate: &G,
) -> Result<Round, AllocError>
    requires few { length program.now ≤ 256 }
    requires policy { IsPolicy F.Fn victim.pick }
    requires channels { AreBetween trace.now.config channels.now }
    requires stand { (s : State) × Stand trace.now.config s agents.items }
    ensures { IfOk result (λ round. (s : State) → Stand trace.now.config s agents.items
        → Advances (task_of (FnReturnsAt F.Fn victim.pick) program.now trace.now) s round.events.items round.agents.items round.last) }
{
    let config = trace.config();
    open(alloc, config, &mut agents, channels)?;
    let (mut worked, idle) = side_by_side(rt, alloc, agents, victim, program, trace, gate)?;
    close(rt, config, &mut worked, channels)?;
    let journals = journals_of(alloc, config, &mut worked)?;
    let events = merge(alloc, &journals)?;
    let last = idle && events.is_empty();
    Ok(Round {
        agents: worked,
        events,
        last,
    })
}

/// Runs a program of at most 256 instructions over a trace, in its configuration, by agents that work side by side: each cache, the engine
/// and the memory, in rounds, each agent of a round in a thread of its own where one can be made (docs/THREADS.md). Each agent passes the
/// gate before each of its turns. Answers the events of all, in one order in which the system could have made them one at a time: each was
/// enabled where it stands, each cache's operations were issued in order, each with a way that the victim policy answers, and nothing is
/// enabled after the last.
///
/// It may wait, as its agents do for one another, and it returns only if the run ends. That of an accepted image does.
///
/// # Errors
///
/// `AllocError` where memory runs out.
pub fn run_agents<R: Threads + Wait + Sync, F: Fn(&[WayView]) -> u8 + Copy + Send, G: Gate + Sync>(
    rt: &R,
    alloc: Global,
    program: &[Instr],
    trace: &Trace,
    victim: Victim<F>,
    gate: &G,
) -> Result<Vec<Event>, AllocError>
    requires few { length program.now ≤ 256 }
    requires policy { IsPolicy F.Fn victim.pick }
    ensures { IfOk result (λ events. IsWholeRun (task_of (FnReturnsAt F.Fn victim.pick) program.now trace.now) events.items) }
{
    let config = trace.config();
    let channels = all_channels(alloc, config)?;
    let mut agents = make_team(alloc, config)?;
    let mut events = Vec::new(alloc);
    for _ in rt.forever() {
        let made = make_round(rt, alloc, &channels, agents, victim, program, trace, gate)?;
        if made.last {
            return Ok(events);
        }
        agents = made.agents;
        events.extend_from_slice(&made.events)?;
    }
    unreachable!()
}

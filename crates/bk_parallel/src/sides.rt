ghost use Rattle.std.specs.Prelude.{◌≡◌, ◌≢◌, ℕ, ◌≤◌, ◌<◌, true, length, map, All, slice_get, slice_index_or, Some, IfOk};
ghost use Rattle.std.specs.Fn.{FnReturnsAt};
ghost use Rattle.bk_lce.specs.Policies.{IsPolicy};
ghost use Rattle.bk_rounds.specs.Tasks.{task_of};
ghost use Rattle.bk_rounds.specs.declared.agent.Agent as seated;
ghost use Rattle.bk_parallel.specs.Teams.{IsTeam};
ghost use Rattle.bk_parallel.specs.Rounds.{IsReady, HasWorked, CanWork, EndsRound};
ghost use Rattle.bk_parallel.specs.declared.sides.Seat as places;
ghost use Rattle.bk_parallel.specs.declared.sides.Ending.TheVariants.{Idle, OutOfMemory};

use bk_isa::Instr;
use bk_lce::{Victim, WayView};
use bk_outer::Gate;
use bk_rounds::Agent;
use bk_trace::Trace;
use std::alloc::{AllocError, Global};
use std::sync::Wait;
use std::thread;
use std::thread::Threads;

/// How the round of an agent has ended.
#[derive(Clone, Copy, Debug, PartialEq, Eq)]
enum Ending {
    /// None of its events is enabled.
    Idle,
    /// Another event of it may be.
    Busy,
    /// Memory ran out.
    OutOfMemory,
}

/// An agent in a round, with a victim policy of its own: a policy can be handed to another thread, but need not be shared by two.
#[derive(Drop)]
struct Seat<F> {
    agent: Agent,
    victim: Victim<F>,
    ending: Ending,
}

impl<F: Fn(&[WayView]) -> u8 + Copy + Send> Seat<F> {
    /// The round of the seat's agent.
    fn round<R: Wait, G: Gate>(&mut self, rt: &R, program: &[Instr], trace: &Trace, gate: &G)
        requires few { length program.now ≤ 256 }
        requires policy { IsPolicy F.Fn self.old.victim.pick }
        requires can { CanWork trace.now.config self.old.agent }
        ensures ends { EndsRound (task_of (FnReturnsAt F.Fn self.old.victim.pick) program.now trace.now) self.new.ending self.old.agent
            self.new.agent }
    {
        self.ending = match self.agent.round(rt, &self.victim, program, trace, gate) {
            Ok(true) => Ending::Idle,
            Ok(false) => Ending::Busy,
            Err(_) => Ending::OutOfMemory,
        };
    }
}

/// A seat for each agent.
fn seats_of<F: Fn(&[WayView]) -> u8 + Copy + Send>(
    alloc: Global,
    agents: Vec<Agent>,
    victim: Victim<F>,
) -> Result<Vec<Seat<F>>, AllocError>
    ensures agents { IfOk result (λ made. map (λ (seat : places.Seat F). seat.agent) made.items ≡ agents.items) }
    ensures victims { IfOk result (λ made. All (λ (seat : places.Seat F). seat.victim ≡ victim) made.items) }
{
    let mut seats = Vec::new(alloc);
    for agent in agents {
        seats.push(Seat {
            agent,
            victim,
            ending: Ending::Busy,
        })?;
    }
    Ok(seats)
}

/// The agents of seats, and whether all ended idle.
fn agents_of<F: Fn(&[WayView]) -> u8 + Copy + Send>(
    alloc: Global,
    seats: Vec<Seat<F>>,
) -> Result<(Vec<Agent>, bool), AllocError>
    ensures agents { IfOk result (λ r. r.0.items ≡ map (λ (seat : places.Seat F). seat.agent) seats.items) }
    ensures ended { IfOk result (λ r. All (λ (seat : places.Seat F). (seat.ending ≢ OutOfMemory)
        × (r.1 ≡ true → seat.ending ≡ Idle))
        seats.items) }
{
    let mut agents = Vec::new(alloc);
    let mut idle = true;
    for seat in seats {
        match seat.ending {
            Ending::Idle => {}
            Ending::Busy => idle = false,
            Ending::OutOfMemory => return Err(AllocError),
        }
        agents.push(seat.agent)?;
    }
    Ok((agents, idle))
}

/// The rounds of the agents of all seats, each in a thread of its own.
fn work_all<R: Threads + Wait + Sync, F: Fn(&[WayView]) -> u8 + Copy + Send, G: Gate + Sync>(
    rt: &R,
    seats: &mut [Seat<F>],
    program: &[Instr],
    trace: &Trace,
    gate: &G,
)
    requires few { length program.now ≤ 256 }
    requires policies { (n : ℕ) (d : places.Seat F) → n < length seats.old
        → IsPolicy F.Fn (slice_index_or seats.old n d).victim.pick }
    requires can { (n : ℕ) (d : places.Seat F) → n < length seats.old
        → CanWork trace.now.config (slice_index_or seats.old n d).agent }
    ensures count { length seats.new ≡ length seats.old }
    ensures ends { (n : ℕ) (d : places.Seat F) → n < length seats.old
        → EndsRound (task_of (FnReturnsAt F.Fn (slice_index_or seats.old n d).victim.pick) program.now trace.now)
        (slice_index_or seats.new n d).ending (slice_index_or seats.old n d).agent (slice_index_or seats.new n d).agent }
{
    let count = seats.len();
    if count == 0 {
        return;
    }
    thread::for_each_mut(
        rt,
        seats,
        count,
        &|_place, seat: &mut Seat<F>|
            requires { (length program.now ≤ 256) × IsPolicy F.Fn seat.now.victim.pick × CanWork trace.now.config seat.now.agent }
            ensures { EndsRound (task_of (FnReturnsAt F.Fn seat.entry.now.victim.pick) program.entry.now trace.entry.now)
                seat.exit.now.ending seat.entry.now.agent seat.exit.now.agent }
        { seat.round(rt, program, trace, gate) },
    );
}

/// A round of all agents, each in a thread of its own, and whether none has an event that is enabled.
pub(crate) fn side_by_side<
    R: Threads + Wait + Sync,
    F: Fn(&[WayView]) -> u8 + Copy + Send,
    G: Gate + Sync,
>(
    rt: &R,
    alloc: Global,
    agents: Vec<Agent>,
    victim: Victim<F>,
    program: &[Instr],
    trace: &Trace,
    gate: &G,
) -> Result<(Vec<Agent>, bool), AllocError>
    requires few { length program.now ≤ 256 }
    requires policy { IsPolicy F.Fn victim.pick }
    requires team { IsTeam trace.now.config agents.items }
    requires ready { (n : ℕ) (agent : seated.Agent) → slice_get agents.items n ≡ Some agent → IsReady trace.now.config agent }
    ensures count { IfOk result (λ r. length r.0.items ≡ length agents.items) }
    ensures worked { IfOk result (λ r. (n : ℕ) (old new : seated.Agent)
        → slice_get agents.items n ≡ Some old → slice_get r.0.items n ≡ Some new
        → HasWorked (task_of (FnReturnsAt F.Fn victim.pick) program.now trace.now) r.1 old new) }
{
    let mut seats = seats_of(alloc, agents, victim)?;
    work_all(rt, &mut seats, program, trace, gate);
    agents_of(alloc, seats)
}

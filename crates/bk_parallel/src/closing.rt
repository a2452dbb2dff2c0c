ghost use Rattle.std.specs.Prelude.{◌≡◌, ◌≢◌, ℕ, List, [], ◌∷◌, ◌++◌, drop, OnOk};
ghost use Rattle.atomic_table.specs.Seated.{TableId};
ghost use Rattle.bk_msg.specs.declared.row.Row.{Row};
ghost use Rattle.bk_msg.specs.Within.{IsWithin};
ghost use Rattle.bk_system.specs.declared.channel.Channel as routes;
ghost use Rattle.bk_system.specs.Routes.{begins_at, ends_at};
ghost use Rattle.bk_threads.specs.Agents as threads;
ghost use Rattle.bk_threads.specs.System.{messages_of};
ghost use Rattle.bk_rounds.specs.Reading.{packets_in};
ghost use Rattle.bk_parallel.specs.Teams.{IsTeam, AreApart, inlets_at, outlets_at, entries_at};
ghost use Rattle.bk_parallel.specs.Joined.{IsBetween, AreBetween, AreJoined, AreClosed};
ghost use Rattle.bk_parallel.specs.ClosesOne.{at_end, at_beginning, KeepsEnds, IsMoved, TakesOutlet, TakesInlet, ClosesOne};

use crate::routes::{begins_at, ends_at};
use bk_base::Config;
use bk_msg::Message;
use bk_net::{Closed, close as close_queue};
use bk_rounds::{Agent, Inlet, Outlet, read};
use bk_system::Channel;
use std::alloc::AllocError;
use std::sync::Wait;

/// Puts a message at the end of a channel, in the hardware of the agent at its end.
fn put_at_end(
    config: Config,
    agents: &mut [Agent],
    channel: Channel,
    message: &Message,
) -> Result<(), AllocError>
    requires team { IsTeam config agents.old }
    requires between { IsBetween config channel }
    requires within { IsWithin config message.now }
    ensures team { IsTeam config agents.new }
    ensures ends { KeepsEnds agents.old agents.new }
    ensures moved { OnOk result (IsMoved config channel agents.old agents.new
        (at_end config agents.old channel ++ message.now ∷ []) (at_beginning config agents.old channel)) }
{
    let to = ends_at(config, channel);
    agents[to as usize].hardware.deliver(channel, message)
}

/// Takes the oldest message of a channel off it, in the hardware of the agent at its beginning.
fn drop_at_beginning(config: Config, agents: &mut [Agent], channel: Channel)
    requires team { IsTeam config agents.old }
    requires between { IsBetween config channel }
    ensures team { IsTeam config agents.new }
    ensures ends { KeepsEnds agents.old agents.new }
    ensures moved { IsMoved config channel agents.old agents.new
        (at_end config agents.old channel) (drop 1 (at_beginning config agents.old channel)) }
{
    let from = begins_at(config, channel);
    agents[from as usize].hardware.drop_head(channel);
}

/// Puts what the packets that are left of a channel say at its end in the hardware of the agent there.
fn deliver_left<R: Wait>(
    rt: &R,
    config: Config,
    agents: &mut [Agent],
    channel: Channel,
    mut left: Closed,
) -> Result<(), AllocError>
    requires team { IsTeam config agents.old }
    requires between { IsBetween config channel }
    ensures team { IsTeam config agents.new }
    ensures ends { KeepsEnds agents.old agents.new }
    ensures moved { OnOk result (IsMoved config channel agents.old agents.new
        (at_end config agents.old channel ++ messages_of (packets_in config left)) (at_beginning config agents.old channel)) }
{
    for _ in rt.forever() {
        let Some(packet) = left.next(rt) else {
            return Ok(());
        };
        if let Some(message) = read(config, &packet) {
            put_at_end(config, agents, channel, &message)?;
        }
    }
    unreachable!()
}

/// Moves what the hardware of the agent at the beginning of a channel has in it to that of the agent at its end.
fn hand_over<R: Wait>(
    rt: &R,
    config: Config,
    agents: &mut [Agent],
    channel: Channel,
) -> Result<(), AllocError>
    requires team { IsTeam config agents.old }
    requires between { IsBetween config channel }
    ensures team { IsTeam config agents.new }
    ensures ends { KeepsEnds agents.old agents.new }
    ensures moved { OnOk result (IsMoved config channel agents.old agents.new
        (at_end config agents.old channel ++ at_beginning config agents.old channel) []) }
{
    let from = begins_at(config, channel);
    for _ in rt.forever() {
        let Some(&message) = agents[from as usize].hardware.head(channel) else {
            return Ok(());
        };
        put_at_end(config, agents, channel, &message)?;
        drop_at_beginning(config, agents, channel);
    }
    unreachable!()
}

/// Takes the last outlet of the agent at the beginning of a channel.
fn take_outlet(config: Config, agents: &mut [Agent], channel: Channel) -> Outlet
    requires team { IsTeam config agents.old }
    requires between { IsBetween config channel }
    requires some { outlets_at agents.old (begins_at config channel) ≢ [] }
    ensures team { IsTeam config agents.new }
    ensures taken { TakesOutlet config channel agents.old agents.new result }
{
    let from = begins_at(config, channel);
    let Some(outlet) = agents[from as usize].outlets.pop() else {
        unreachable!()
    };
    outlet
}

/// Takes the last inlet of the agent at the end of a channel.
fn take_inlet(config: Config, agents: &mut [Agent], channel: Channel) -> Inlet
    requires team { IsTeam config agents.old }
    requires between { IsBetween config channel }
    requires some { inlets_at agents.old (ends_at config channel) ≢ [] }
    ensures team { IsTeam config agents.new }
    ensures taken { TakesInlet config channel agents.old agents.new result }
{
    let to = ends_at(config, channel);
    let Some(inlet) = agents[to as usize].inlets.pop() else {
        unreachable!()
    };
    inlet
}

/// Closes a channel whose two ends are the last ones that its agents have.
fn close_one<R: Wait>(
    rt: &R,
    config: Config,
    agents: &mut [Agent],
    channel: Channel,
) -> Result<(), AllocError>
    requires team { IsTeam config agents.old }
    requires between { IsBetween config channel }
    requires joined { (rest : List routes.Channel) × (queues : routes.Channel → TableId)
        × AreJoined config (rest ++ channel ∷ []) queues agents.old }
    ensures team { IsTeam config agents.new }
    ensures entries { (n : ℕ) → entries_at agents.new n ≡ entries_at agents.old n }
    ensures closes { OnOk result (ClosesOne config channel agents.old agents.new) }
{
    let Outlet { sender, .. } = take_outlet(config, agents, channel);
    let Inlet { receiver, .. } = take_inlet(config, agents, channel);
    let left = close_queue(rt, sender, receiver);
    deliver_left(rt, config, agents, channel, left)?;
    hand_over(rt, config, agents, channel)
}

/// Closes all channels after a round: of each, the agent at its end gets what was left in its queue, and then what the agent at its
/// beginning has not sent.
pub(crate) fn close<R: Wait>(
    rt: &R,
    config: Config,
    agents: &mut [Agent],
    channels: &[Channel],
) -> Result<(), AllocError>
    requires team { IsTeam config agents.old }
    requires channels { AreBetween config channels.now }
    requires joined { (queues : routes.Channel → TableId) × AreJoined config channels.now queues agents.old }
    ensures team { IsTeam config agents.new }
    ensures apart { OnOk result (AreApart agents.new) }
    ensures closed { OnOk result ((left : threads.Channels routes.Channel Row) × AreClosed config agents.old agents.new left) }
    ensures entries { (n : ℕ) → entries_at agents.new n ≡ entries_at agents.old n }
{
    for place in (0..channels.len()).rev() {
        close_one(rt, config, agents, channels[place])?;
    }
    Ok(())
}

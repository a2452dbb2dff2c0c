ghost use Rattle.std.specs.Prelude.{◌≡◌, ℕ, OnOk};
ghost use Rattle.atomic_table.specs.Seated.{TableId};
ghost use Rattle.bk_system.specs.declared.channel.Channel as routes;
ghost use Rattle.bk_parallel.specs.Teams.{IsTeam, AreApart, state_at, entries_at};
ghost use Rattle.bk_parallel.specs.Joined.{IsBetween, AreBetween, AreJoined, AreUnused};
ghost use Rattle.bk_parallel.specs.Opens.{Opens};
ghost use Rattle.bk_rounds.specs.declared.ends.Inlet as inlets;
ghost use Rattle.bk_rounds.specs.declared.ends.Outlet as outlets;

use crate::routes::{begins_at, ends_at};
use bk_base::Config;
use bk_net::channel as queue;
use bk_rounds::{Agent, Inlet, Outlet};
use bk_system::Channel;
use std::alloc::{AllocError, Global};

/// How many packets the queue of a channel has room for in a round.
const CAPACITY: usize = 64;

/// Gives the two ends of a new queue to the agents at the ends of a channel, behind the ends that they have.
fn open_one(
    alloc: Global,
    config: Config,
    agents: &mut [Agent],
    channel: Channel,
) -> Result<(), AllocError>
    requires team { IsTeam config agents.old }
    requires between { IsBetween config channel }
    ensures team { IsTeam config agents.new }
    ensures opens { OnOk result ((inlet : inlets.Inlet) × (outlet : outlets.Outlet)
        × Opens config channel inlet outlet agents.old agents.new) }
    ensures states { (n : ℕ) → state_at config agents.new n ≡ state_at config agents.old n }
    ensures entries { (n : ℕ) → entries_at agents.new n ≡ entries_at agents.old n }
{
    let (sender, receiver) = queue(alloc, CAPACITY)?;
    let outlets = &mut agents[begins_at(config, channel) as usize].outlets;
    outlets.push(Outlet { channel, sender })?;
    let inlets = &mut agents[ends_at(config, channel) as usize].inlets;
    inlets.push(Inlet { channel, receiver })?;
    Ok(())
}

/// Opens all channels for a round: each agent gets the ends of its own, of queues of which nothing was taken and to which nothing was sent.
pub(crate) fn open(
    alloc: Global,
    config: Config,
    agents: &mut [Agent],
    channels: &[Channel],
) -> Result<(), AllocError>
    requires team { IsTeam config agents.old }
    requires apart { AreApart agents.old }
    requires channels { AreBetween config channels.now }
    ensures team { IsTeam config agents.new }
    ensures joined { OnOk result ((queues : routes.Channel → TableId) × AreJoined config channels.now queues agents.new) }
    ensures unused { OnOk result (AreUnused agents.new) }
    ensures states { (n : ℕ) → state_at config agents.new n ≡ state_at config agents.old n }
    ensures entries { (n : ℕ) → entries_at agents.new n ≡ entries_at agents.old n }
{
    for &channel in channels {
        open_one(alloc, config, agents, channel)?;
    }
    Ok(())
}

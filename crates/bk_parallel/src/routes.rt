ghost use Rattle.std.specs.Prelude.{◌≡◌, IfOk, OnOk};
ghost use Rattle.bk_system.specs.Routes.{begins_at, ends_at, IsChannel};
ghost use Rattle.bk_parallel.specs.Joined.{AreBetween};
ghost use Rattle.bk_parallel.specs.Opens.{AreSome, Adds};

use bk_base::Config;
use bk_system::Channel;
use std::alloc::{AllocError, Global};

/// The agent that sends on a channel.
pub(crate) fn begins_at(config: Config, channel: Channel) -> u8
    ensures { result ≡ begins_at config channel }
{
    let caches = config.caches;
    match channel {
        Channel::Request { from } | Channel::Fill { from, .. } | Channel::Response { from } => from,
        Channel::Command { .. } | Channel::Memout => caches,
        Channel::Memin => caches + 1,
    }
}

/// The agent that takes from a channel.
pub(crate) fn ends_at(config: Config, channel: Channel) -> u8
    ensures { result ≡ ends_at config channel }
{
    let caches = config.caches;
    match channel {
        Channel::Command { to } | Channel::Fill { to, .. } => to,
        Channel::Request { .. } | Channel::Response { .. } | Channel::Memin => caches,
        Channel::Memout => caches + 1,
    }
}

/// Puts a channel behind others, if it leads from one agent to another and isn't there yet.
fn add(config: Config, channels: &mut Vec<Channel>, channel: Channel) -> Result<(), AllocError>
    requires some { AreSome config channels.old.items }
    requires there { IsChannel config channel }
    ensures { OnOk result (Adds config channel channels.old.items channels.new.items) }
{
    let leads = begins_at(config, channel) != ends_at(config, channel);
    if leads && !channels.contains(&channel) {
        channels.push(channel)?;
    }
    Ok(())
}

/// All channels of a configuration that lead from one agent to another, each once.
pub(crate) fn all_channels(alloc: Global, config: Config) -> Result<Vec<Channel>, AllocError>
    ensures { IfOk result (λ channels. AreBetween config channels.items) }
{
    let mut channels = Vec::new(alloc);
    let caches = config.caches;
    for cache in 0..caches {
        add(config, &mut channels, Channel::Request { from: cache })?;
        add(config, &mut channels, Channel::Command { to: cache })?;
        add(config, &mut channels, Channel::Response { from: cache })?;
        for from in 0..caches {
            add(config, &mut channels, Channel::Fill { to: cache, from })?;
        }
    }
    add(config, &mut channels, Channel::Memout)?;
    add(config, &mut channels, Channel::Memin)?;
    Ok(channels)
}

ghost use Rattle.std.specs.Prelude.{◌≡◌, ◌<◌, ◌++◌, ◌∷◌, [], OnOk, OnErr, IfSome, drop};
ghost use Rattle.std.specs.Option.{option_copied};
ghost use Rattle.bk_base.specs.Tables.{put};
ghost use Rattle.bk_msg.specs.Within.{IsWithin};
ghost use Rattle.bk_system.specs.Channels.{queue, channel_count};
ghost use Rattle.bk_system.specs.Queues.{EachWithin};

use crate::channel::Channel;
use crate::channels::Channels;
use crate::hardware::Hardware;
use crate::sending::fill_place;
use bk_msg::Message;
use std::alloc::AllocError;

// Channels from outside. In a system whose agents work side by side, each has hardware of its own, and messages go from one to another.

/// Puts a message at the end of a channel. Nothing changes where memory runs out.
fn append(channels: &mut Channels, place: u8, message: &Message) -> Result<(), AllocError>
    requires place { place < channel_count channels.old }
    requires within { IsWithin channels.old.config message.now }
    ensures ok { OnOk result (queue channels.new ≡ put (queue channels.old) place (queue channels.old place ++ message.now ∷ [])) }
    ensures err { OnErr result (queue channels.new ≡ queue channels.old) }
    ensures count { channel_count channels.new ≡ channel_count channels.old }
    ensures config { channels.new.config ≡ channels.old.config }
{
    channels.reserve(place, 1)?;
    channels.push(place, message);
    Ok(())
}

impl Hardware {
    ghost use Rattle.bk_system.specs.Deliveries.{Holds};
    ghost use Rattle.bk_system.specs.Events.{first};
    ghost use Rattle.bk_system.specs.Routes.{channel_of, IsChannel};
    ghost use Rattle.bk_system.specs.Systems.{state_of};
    ghost use Rattle.bk_system.specs.declared.channel.Channel as channels;

    /// Each message in a channel names caches and ways of the configuration alone. The function is empty: it says what always holds.
    pub fn channels_are_within(&self)
        ensures { (channel : channels.Channel) → EachWithin self.now.config (channel_of (state_of self.now) channel) }
    {}

    /// Puts a message at the end of a channel. Nothing else changes.
    ///
    /// # Errors
    ///
    /// `AllocError` if the memory runs out; then nothing has changed.
    pub fn deliver(&mut self, channel: Channel, message: &Message) -> Result<(), AllocError>
        requires channel { IsChannel self.old.config channel }
        requires within { IsWithin self.old.config message.now }
        ensures ok { OnOk result (Holds (state_of self.old) (state_of self.new) channel
            (channel_of (state_of self.old) channel ++ message.now ∷ [])) }
        ensures err { OnErr result (state_of self.new ≡ state_of self.old) }
        ensures config { self.new.config ≡ self.old.config }
    {
        match channel {
            Channel::Request { from } => append(&mut self.requests, from, message),
            Channel::Command { to } => append(&mut self.commands, to, message),
            Channel::Fill { to, from } => append(&mut self.fills, fill_place(to, from), message),
            Channel::Response { from } => append(&mut self.responses, from, message),
            Channel::Memout => append(&mut self.memout, 0, message),
            Channel::Memin => append(&mut self.memin, 0, message),
        }
    }

    /// The oldest message of a channel.
    pub fn head(&self, channel: Channel) -> Option<&Message>
        requires { IsChannel self.now.config channel }
        ensures value { option_copied result ≡ first (channel_of (state_of self.now) channel) }
        ensures within { IfSome result (λ message. IsWithin self.now.config message.now) }
    {
        match channel {
            Channel::Request { from } => self.requests.head(from),
            Channel::Command { to } => self.commands.head(to),
            Channel::Fill { to, from } => self.fills.head(fill_place(to, from)),
            Channel::Response { from } => self.responses.head(from),
            Channel::Memout => self.memout.head(0),
            Channel::Memin => self.memin.head(0),
        }
    }

    /// Takes the oldest message of a channel off it, if there is one. Nothing else changes.
    pub fn drop_head(&mut self, channel: Channel)
        requires { IsChannel self.old.config channel }
        ensures rest { Holds (state_of self.old) (state_of self.new) channel (drop 1 (channel_of (state_of self.old) channel)) }
        ensures config { self.new.config ≡ self.old.config }
    {
        match channel {
            Channel::Request { from } => self.requests.drop_head(from),
            Channel::Command { to } => self.commands.drop_head(to),
            Channel::Fill { to, from } => self.fills.drop_head(fill_place(to, from)),
            Channel::Response { from } => self.responses.drop_head(from),
            Channel::Memout => self.memout.drop_head(0),
            Channel::Memin => self.memin.drop_head(0),
        }
    }
}

ghost use Rattle.std.specs.Prelude.{◌≡◌, ◌≤◌, ◌++◌, Some};
ghost use Rattle.std.specs.Option.{option_to_list};
ghost use Rattle.bk_msg.specs.Within.{IsWithin};
ghost use Rattle.bk_msg.specs.declared.row.Row.{Row};
ghost use Rattle.bk_system.specs.Channels.{queue, room, channel_count};

use crate::cache_events::put_sent;
use crate::channels::Channels;
use crate::hardware::Hardware;
use bk_msg::Message;
use std::alloc::AllocError;

// Memory: the memory takes the head of its channel.

/// Puts the memory's answer, if any, at the end of the channel to the engine. Room was made.
fn send_answer(memin: &mut Channels, answer: &Option<Message>)
    requires room { 1 ≤ room memin.old 0 }
    requires within { (m : Row) → answer.now ≡ Some m → IsWithin memin.old.config m }
    ensures queue { queue memin.new 0 ≡ queue memin.old 0 ++ option_to_list answer.now }
    ensures count { channel_count memin.new ≡ channel_count memin.old }
    ensures config { memin.new.config ≡ memin.old.config }
{
    if let Some(message) = answer {
        memin.push(0, message);
    }
}

impl Hardware {
    ghost use Rattle.bk_system.specs.Systems.{state_of};
    ghost use Rattle.bk_system.specs.Events.{first, access_row};
    ghost use Rattle.bk_system.specs.EventCalls.{Happens};

    /// The memory takes the head of its channel.
    pub(crate) fn access(&mut self) -> Result<bool, AllocError>
        ensures happens { Happens (access_row (state_of self.old) (first (state_of self.old).memout)) (state_of self.old)
            (state_of self.new) self.new.sent.items result }
        ensures config { self.new.config ≡ self.old.config }
    {
        let Some(message) = self.memout.head(0) else {
            return Ok(false);
        };
        self.memin.reserve(0, 1)?;
        let answer = self.memory.apply(message)?;
        send_answer(&mut self.memin, &answer);
        self.memout.drop_head(0);
        put_sent(&mut self.sent, &answer);
        Ok(true)
    }
}

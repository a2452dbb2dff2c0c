ghost use Rattle.std.specs.Prelude.{◌≡◌, ◌++◌, IfOk, OnOk, All, map};
ghost use Rattle.std.specs.Option.{option_to_list};
ghost use Rattle.bk_system.specs.Deliveries.{Holds};
ghost use Rattle.bk_system.specs.Routes.{channel_of, IsChannel};
ghost use Rattle.bk_system.specs.Systems.{state_of};
ghost use Rattle.bk_threads.specs.System.{messages_of};
ghost use Rattle.bk_rounds.specs.Reading.{packet_of};
ghost use Rattle.bk_rounds.specs.Ends.{took, inlet_channel, inlet_table, AreInlets};
ghost use Rattle.bk_rounds.specs.Moves.{Brings, Takes};

use crate::agent::Agent;
use crate::ends::Inlet;
use crate::reading::read;
use bk_msg::Packet;
use bk_system::{Channel, Hardware};
use std::alloc::AllocError;
use std::sync::Wait;

/// How many packets of a channel are taken at a time, at the most.
const TAKEN_AT_ONCE: usize = 16;

/// Puts what a packet says at the end of its channel in the hardware. A packet that says nothing is passed over.
fn put_in(hardware: &mut Hardware, channel: Channel, packet: &Packet) -> Result<(), AllocError>
    requires { IsChannel hardware.old.config channel }
    ensures ok { OnOk result (Holds (state_of hardware.old) (state_of hardware.new) channel
        (channel_of (state_of hardware.old) channel
        ++ messages_of (option_to_list (packet_of hardware.old.config packet.now)))) }
    ensures config { hardware.new.config ≡ hardware.old.config }
{
    match read(hardware.config(), packet) {
        None => Ok(()),
        Some(message) => hardware.deliver(channel, &message),
    }
}

/// Takes packets of a channel until there is none, but no more than a few, and puts what they say into the hardware. Answers the clock
/// after it: the greatest of the stamps and of the clock before.
fn take_from<R: Wait>(
    rt: &R,
    hardware: &mut Hardware,
    inlet: &mut Inlet,
    mut clock: u64,
) -> Result<u64, AllocError>
    requires { IsChannel hardware.old.config inlet.old.channel }
    ensures brings { IfOk result (Brings hardware.old.config inlet.old.channel (state_of hardware.old) (state_of hardware.new)
        inlet.old.receiver.taken inlet.new.receiver.taken clock) }
    ensures channel { inlet.new.channel ≡ inlet.old.channel }
    ensures table { inlet.new.receiver.channel ≡ inlet.old.receiver.channel }
    ensures config { hardware.new.config ≡ hardware.old.config }
{
    for _ in 0..TAKEN_AT_ONCE {
        let Some(packet) = inlet.receiver.take(rt) else {
            return Ok(clock);
        };
        clock = clock.max(packet.stamp);
        put_in(hardware, inlet.channel, &packet)?;
    }
    Ok(clock)
}

impl Agent {
    /// Takes packets of all channels that lead to the agent.
    pub(crate) fn take<R: Wait>(&mut self, rt: &R) -> Result<(), AllocError>
        requires { AreInlets self.old.hardware.config self.old.number self.old.inlets.items }
        ensures takes { OnOk result (Takes self.old.hardware.config self.old.number (state_of self.old.hardware)
            (state_of self.new.hardware) (took self.old.hardware.config self.old.inlets.items)
            (took self.old.hardware.config self.new.inlets.items) self.old.clock self.new.clock) }
        ensures inlets { map inlet_channel self.new.inlets.items ≡ map inlet_channel self.old.inlets.items }
        ensures tables { map inlet_table self.new.inlets.items ≡ map inlet_table self.old.inlets.items }
        ensures outlets { self.new.outlets ≡ self.old.outlets }
        ensures number { self.new.number ≡ self.old.number }
        ensures entries { self.new.entries ≡ self.old.entries }
        ensures config { self.new.hardware.config ≡ self.old.hardware.config }
    {
        for place in 0..self.inlets.len() {
            let inlet = &mut self.inlets[place];
            self.clock = take_from(rt, &mut self.hardware, inlet, self.clock)?;
        }
        Ok(())
    }
}

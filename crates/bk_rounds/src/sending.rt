ghost use Rattle.std.specs.Prelude.{◌≡◌, [], true, map, slice_get, Some};
ghost use Rattle.bk_base.specs.Places.{Shape};
ghost use Rattle.bk_msg.specs.Within.{IsWithin};
ghost use Rattle.bk_system.specs.Routes.{channel_of, IsChannel};
ghost use Rattle.bk_system.specs.Systems.{state_of};
ghost use Rattle.bk_system.specs.declared.channel.Channel as channels;
ghost use Rattle.bk_rounds.specs.Ends.{sent, outlet_channel, outlet_table, AreOutlets, IsOutward};
ghost use Rattle.bk_rounds.specs.Moves.{Sheds, Sends};
ghost use Rattle.bk_rounds.specs.Reading.{packet_of, with_stamp};

use crate::agent::Agent;
use crate::ends::Outlet;
use bk_msg::{Message, Packet, encode};
use bk_system::{Hardware, MOST_SENT};
use std::sync::Wait;

/// The packet of a message. What it says is the message, in any configuration that has all that the message names.
fn packet_with(message: &Message, stamp: u64) -> Packet
    ensures { (k : Shape) → IsWithin k message.now → packet_of k result ≡ Some (with_stamp stamp message.now) }
{
    // That its fields are in range, which `row` says, is why its bytes are read as the message.
    let _in_range = message.row();
    encode(message, stamp)
}

/// Sends the messages of a channel in the hardware, with the clock as their stamp, and answers whether all were sent. One for which there
/// was no room stays, with those behind it.
fn send_to<R: Wait>(rt: &R, hardware: &mut Hardware, outlet: &mut Outlet, clock: u64) -> bool
    requires { IsChannel hardware.old.config outlet.old.channel }
    ensures sheds { Sheds hardware.old.config outlet.old.channel (state_of hardware.old) (state_of hardware.new)
        outlet.old.sender.sent outlet.new.sender.sent clock }
    ensures all { result ≡ true → channel_of (state_of hardware.new) outlet.old.channel ≡ [] }
    ensures channel { outlet.new.channel ≡ outlet.old.channel }
    ensures table { outlet.new.sender.channel ≡ outlet.old.sender.channel }
    ensures config { hardware.new.config ≡ hardware.old.config }
{
    for _ in 0..MOST_SENT {
        let Some(message) = hardware.head(outlet.channel) else {
            return true;
        };
        let packet = packet_with(message, clock);
        if outlet.sender.send(rt, packet).is_err() {
            return false;
        }
        hardware.drop_head(outlet.channel);
    }
    hardware.head(outlet.channel).is_none()
}

impl Agent {
    /// Sends all messages that the agent's hardware holds for other agents, and answers whether it has. It ends at the first for which
    /// there was no room.
    pub(crate) fn send<R: Wait>(&mut self, rt: &R) -> bool
        requires { AreOutlets self.old.hardware.config self.old.number self.old.outlets.items }
        ensures sends { Sends self.old.hardware.config self.old.number (state_of self.old.hardware) (state_of self.new.hardware)
            (sent self.old.hardware.config self.old.outlets.items) (sent self.old.hardware.config self.new.outlets.items)
            self.old.clock }
        ensures all { result ≡ true → (channel : channels.Channel) → IsChannel self.old.hardware.config channel
            → IsOutward self.old.hardware.config self.old.number channel → channel_of (state_of self.new.hardware) channel ≡ [] }
        ensures outlets { map outlet_channel self.new.outlets.items ≡ map outlet_channel self.old.outlets.items }
        ensures tables { map outlet_table self.new.outlets.items ≡ map outlet_table self.old.outlets.items }
        ensures inlets { self.new.inlets ≡ self.old.inlets }
        ensures number { self.new.number ≡ self.old.number }
        ensures clock { self.new.clock ≡ self.old.clock }
        ensures entries { self.new.entries ≡ self.old.entries }
        ensures config { self.new.hardware.config ≡ self.old.hardware.config }
    {
        for place in 0..self.outlets.len() {
            let outlet = &mut self.outlets[place];
            if !send_to(rt, &mut self.hardware, outlet, self.clock) {
                return false;
            }
        }
        true
    }
}

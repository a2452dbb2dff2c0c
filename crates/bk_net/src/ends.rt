//! The two ends of a channel.
ghost use Rattle.std.specs.Prelude.{◌≡◌, ◌≤◌, [], ◌∷◌, ◌++◌, length, IfOk, IfErr, OnErr, OnOk, IfSome, IfNone};

use crate::rule::{EndPass, Queue, Sends, Takes, TwoEnds};
use bk_msg::Packet;
use std::alloc::{AllocError, Global};
use std::marker::Model;
use std::sync::{Arc, Wait};

/// The end of a channel that sends. Contracts see which channel it is of, how many packets that has room for, and the packets that were
/// sent, the oldest first.
#[derive(Drop)]
pub struct Sender {
    pub(crate) queue: Arc<Queue, Global>,
    pub(crate) pass: EndPass,
}

impl Model for Sender {
    ghost use Rattle.std.specs.Prelude.{◌≡◌, true};
    ghost use Rattle.std.specs.Arc.{arc_value};
    ghost use Rattle.bk_net.specs.Rule.{account_of};
    ghost use Rattle.crossbeam_queue.specs.Passes.{IsPassOf, ruled_capacity};
    ghost use Rattle.bk_net.specs.Ends.{Sending};

    ghost Value = { Sending };

    ghost view = { λ end. record {
      channel = end.pass.table_id;
      capacity = ruled_capacity (arc_value end.queue);
      sent = (account_of end.pass).sent;
    } };

    ghost invariant = { λ end. IsPassOf (arc_value end.queue) end.pass × ((account_of end.pass).may_send ≡ true) };
}

/// The end of a channel that takes. Contracts see which channel it is of, how many packets that has room for, and the packets that were
/// taken, the oldest first.
#[derive(Drop)]
pub struct Receiver {
    pub(crate) queue: Arc<Queue, Global>,
    pub(crate) pass: EndPass,
}

impl Model for Receiver {
    ghost use Rattle.std.specs.Prelude.{◌≡◌, true};
    ghost use Rattle.std.specs.Arc.{arc_value};
    ghost use Rattle.bk_net.specs.Rule.{account_of};
    ghost use Rattle.crossbeam_queue.specs.Passes.{IsPassOf, ruled_capacity};
    ghost use Rattle.bk_net.specs.Ends.{Taking};

    ghost Value = { Taking };

    ghost view = { λ end. record {
      channel = end.pass.table_id;
      capacity = ruled_capacity (arc_value end.queue);
      taken = (account_of end.pass).taken;
    } };

    ghost invariant = { λ end. IsPassOf (arc_value end.queue) end.pass × ((account_of end.pass).may_take ≡ true) };
}

/// A packet for which there was no room, handed back.
#[derive(Debug, Drop)]
pub struct Full {
    /// The packet that was to be sent.
    pub packet: Packet,
}

/// Makes a channel with room for `capacity` packets, 1 to 1,024, and gives its two ends. Nothing was sent and nothing taken.
///
/// Fails only where memory runs out.
pub fn channel(alloc: Global, capacity: usize) -> Result<(Sender, Receiver), AllocError>
    requires { (1 ≤ capacity) × (capacity ≤ 1024) }
    ensures one { IfOk result (λ ends. ends.1.channel ≡ ends.0.channel) }
    ensures capacity { IfOk result (λ ends. (ends.0.capacity ≡ capacity) × (ends.1.capacity ≡ capacity)) }
    ensures empty { IfOk result (λ ends. (ends.0.sent ≡ []) × (ends.1.taken ≡ [])) }
{
    let (queue, mut pass) = Queue::ruled(alloc, capacity)?;
    let other = queue.another::<TwoEnds>(&mut pass);
    let queue = Arc::new(alloc, queue)?;
    let theirs = Arc::try_clone(&queue)?;
    let sender = Sender { queue, pass };
    let receiver = Receiver {
        queue: theirs,
        pass: other,
    };
    Ok((sender, receiver))
}

impl Sender {
    /// Sends a packet, behind those that were sent before. It takes no memory, and may wait.
    ///
    /// Fails with `Full` where the queue held as many packets as it has room for, at one moment of the call: the packet is handed back, and
    /// nothing was sent. As these packets were all sent before, the first `capacity` packets of a channel find room.
    pub fn send<R: Wait>(&mut self, rt: &R, packet: Packet) -> Result<(), Full>
        ensures end { (self.new.channel ≡ self.old.channel) × (self.new.capacity ≡ self.old.capacity) }
        ensures sent { OnOk result (self.new.sent ≡ self.old.sent ++ packet ∷ []) }
        ensures unsent { OnErr result (self.new.sent ≡ self.old.sent) }
        ensures back { IfErr result (λ full. full.packet ≡ packet) }
        ensures full { OnErr result (self.old.capacity ≤ length self.old.sent) }
    {
        match self.queue.push_as::<Sends, R>(rt, &mut self.pass, packet) {
            Ok(()) => Ok(()),
            Err(packet) => Err(Full { packet }),
        }
    }
}

impl Receiver {
    /// Takes the oldest packet off the channel. It takes no memory, and may wait.
    ///
    /// It gives none where the queue was empty at one moment of the call. That is what the queue below promises; of what the other end had
    /// sent by then no clause can speak.
    pub fn take<R: Wait>(&mut self, rt: &R) -> Option<Packet>
        ensures end { (self.new.channel ≡ self.old.channel) × (self.new.capacity ≡ self.old.capacity) }
        ensures taken { IfSome result (λ packet. self.new.taken ≡ self.old.taken ++ packet ∷ []) }
        ensures none { IfNone result (self.new.taken ≡ self.old.taken) }
    {
        self.queue.pop_as::<Takes, R>(rt, &mut self.pass)
    }
}

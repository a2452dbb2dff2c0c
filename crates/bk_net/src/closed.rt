//! A channel whose two ends are together again, and what it still holds.
ghost use Rattle.std.specs.Prelude.{◌≡◌, [], ◌∷◌, ◌++◌, MatchOption};

use crate::ends::{Receiver, Sender};
use crate::rule::{EndPass, Queue, TakesRest, TwoEnds};
use bk_msg::Packet;
use std::alloc::Global;
use std::marker::Model;
use std::sync::{Arc, Wait};

/// A channel to which nothing is sent any more. Contracts see the packets that are left, the oldest first.
#[derive(Drop)]
pub struct Closed {
    queue: Arc<Queue, Global>,
    pass: EndPass,
}

impl Model for Closed {
    ghost use Rattle.std.specs.Prelude.{◌≡◌, true, List};
    ghost use Rattle.std.specs.Arc.{arc_value};
    ghost use Rattle.bk_net.specs.Rule.{account_of, left_of, IsBothEnds};
    ghost use Rattle.crossbeam_queue.specs.Passes.{IsPassOf};
    ghost use Rattle.bk_msg.specs.declared.codec.Packet.{Packet};

    ghost Value = { List Packet };

    ghost view = { λ closed. left_of (account_of closed.pass) };

    ghost invariant = { λ closed. IsPassOf (arc_value closed.queue) closed.pass × IsBothEnds (account_of closed.pass) };
}

/// Ends a channel whose two ends are handed in. The packets that were sent are those that were taken and then those that are left: what a
/// receiver has taken of a channel is the beginning of what was sent, in order, whole and once.
pub fn close<R: Wait>(_rt: &R, sender: Sender, receiver: Receiver) -> Closed
    requires { receiver.channel ≡ sender.channel }
    ensures { sender.sent ≡ receiver.taken ++ result }
{
    let Receiver { queue, mut pass } = receiver;
    let Sender { pass: theirs, .. } = sender;
    queue.absorb::<TwoEnds>(&mut pass, theirs);
    queue.learn_as::<TakesRest>(&mut pass);
    Closed { queue, pass }
}

impl Closed {
    /// Takes the oldest packet that is left, and gives none exactly where none is left. It takes no memory, and may wait.
    pub fn next<R: Wait>(&mut self, rt: &R) -> Option<Packet>
        ensures { MatchOption result ((self.old ≡ []) × (self.new ≡ [])) (λ packet. self.old ≡ packet ∷ self.new) }
    {
        self.queue.pop_as::<TakesRest, R>(rt, &mut self.pass)
    }
}

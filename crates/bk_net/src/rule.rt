//! The rule of a channel's queue, and what each end of the channel knows. But for the queue itself, all of it is for proofs alone and
//! takes no memory.
ghost use Rattle.std.specs.Prelude.{◌≡◌, ⊤, List, ◌++◌};
ghost use Rattle.bk_msg.specs.declared.codec.Packet.{Packet};
ghost use Rattle.bk_net.specs.Rule.{having_sent, having_taken, IsNext};

use bk_msg::Packet;
use crossbeam_queue::protocol::{Join, Lesson, Outcome, Protocol, Split};
use crossbeam_queue::{Pass, RuledArrayQueue};
use std::collections::LinkedList;

/// What an end of a channel may do, and the packets that it has sent and taken, the oldest first. No value of it is made.
pub(crate) struct Account {
    pub(crate) may_send: bool,
    pub(crate) may_take: bool,
    pub(crate) sent: LinkedList<Packet>,
    pub(crate) taken: LinkedList<Packet>,
}

/// First in, first out: what was sent is what was taken and then what the queue holds. A new queue's one pass may do both.
pub(crate) struct Fifo;

impl Protocol<Packet, Account> for Fifo {
    ghost use Rattle.std.specs.Prelude.{true, []};
    ghost use Rattle.bk_net.specs.Rule.{account, IsFifo};

    ghost holds = { IsFifo };

    ghost first = { account true true [] [] };
}

/// How one pass becomes two, of which one sends and the other takes, and how those become one again.
pub(crate) struct TwoEnds;

impl Split<Account> for TwoEnds {
    ghost use Rattle.std.specs.Prelude.{true, false, []};
    ghost use Rattle.bk_net.specs.Rule.{account};

    ghost left = { λ both. account true false both.sent [] };

    ghost right = { λ both. account false true [] both.taken };
}

impl Join<Account> for TwoEnds {
    ghost use Rattle.std.specs.Prelude.{true, false, []};
    ghost use Rattle.bk_net.specs.Rule.{account};

    ghost both = { λ receiver sender. account true true sender.sent receiver.taken };

    ghost spent = { account false false [] [] };
}

/// A packet goes in. Where none can, what the queue holds are the last packets that were sent.
pub(crate) struct Sends;

impl Outcome<Packet, Account> for Sends {
    ghost then = { λ old packet new. new ≡ having_sent old packet };
}

impl Lesson<Packet, Account> for Sends {
    ghost fact = { λ sender held. (before : List Packet) × (sender.sent ≡ before ++ held) };
}

/// A packet comes out. Where there is none, the receiver learns nothing of what was sent: it has no list of that.
pub(crate) struct Takes;

impl Outcome<Packet, Account> for Takes {
    ghost then = { λ old packet new. new ≡ having_taken old packet };
}

impl Lesson<Packet, Account> for Takes {
    ghost fact = { λ receiver held. ⊤ };
}

/// A packet comes out of a queue whose two ends are together, so that it is known to be the next one of those that were sent.
pub(crate) struct TakesRest;

impl Outcome<Packet, Account> for TakesRest {
    ghost then = { λ old packet new. (new ≡ having_taken old packet) × IsNext old packet };
}

impl Lesson<Packet, Account> for TakesRest {
    ghost fact = { λ both held. both.sent ≡ both.taken ++ held };
}

/// The queue of a channel.
pub(crate) type Queue = RuledArrayQueue<Packet, Account, Fifo>;

/// The right of an end to use the queue, with what it knows of it.
pub(crate) type EndPass = Pass<Packet, Account>;

ghost use Rattle.std.specs.Prelude.{◌≡◌, ◌+◌, ◌<◌, ◌≤◌, ◌^◌, [], ◌++◌, ℕ, List, length, take, Err, IfOk, OnErr};
ghost use Rattle.arrayvec.specs.ArrayVec.{array_vec_len};
ghost use Rattle.bk_msg.specs.declared.fault.MsgFault.{MsgFault};
ghost use Rattle.bk_msg.specs.declared.row.Row.{Row};
ghost use Rattle.bk_msg.specs.Reading.{decode};
ghost use Rattle.bk_msg.specs.Faults.{IsShort};
ghost use Rattle.bk_msg.specs.Feeds.{Kept, new_feed, stopped, answer_of, IsPartial, Splits, Reads, Outcome, FeedsAll, IsFedBy, joined, finish_of};

use crate::codec::{decode, push};
use crate::fault::MsgFault;
use crate::message::Message;
use arrayvec::ArrayVec;
use std::alloc::AllocError;
use std::marker::Model;

/// Why a feed takes no piece.
#[derive(Clone, Copy, Debug, PartialEq, Eq)]
pub enum FeedFault {
    /// At this place of the stream, where a message has to begin, none does, for this reason, which
    /// is never `Short`. A feed that has answered this answers it from then on.
    Bad(u64, MsgFault),
    /// Memory ran out: the feed and the messages are as before.
    Memory,
}

/// Why a stream doesn't end behind a whole message.
#[derive(Clone, Copy, Debug, PartialEq, Eq)]
pub enum FeedEnd {
    /// The fault that the feed has answered.
    Bad(u64, MsgFault),
    /// The stream ends within the message that begins at this place.
    Cut(u64),
}

/// Reads the messages of a stream that comes in pieces, cut anywhere. Contracts see how many bytes
/// were taken, the rest that is no whole message yet, and the fault that was met.
#[derive(Debug, Drop)]
pub struct Feed {
    fed: u64,
    rest: ArrayVec<u8, 96>,
    fault: Option<(u64, MsgFault)>,
}

impl Model for Feed {
    ghost use Rattle.bk_msg.specs.Feeds.{Kept, IsKept};

    ghost Value = { Kept };

    ghost view = { λ f. record { fed = f.fed; rest = f.rest.items; fault = f.fault } };

    ghost invariant = { λ f. IsKept (record { fed = f.fed; rest = f.rest.items; fault = f.fault }) };
}

/// Where reading stopped: the bytes from there on, which begin with no message, and why they don't.
#[derive(Drop)]
struct Stop {
    /// The first of these bytes.
    rest: ArrayVec<u8, 96>,
    /// How many more there are.
    left: usize,
    fault: MsgFault,
}

/// Appends the messages of a rest that is no whole message, followed by a piece.
fn read_messages(old: &[u8], piece: &[u8], out: &mut Vec<Message>) -> Result<Stop, AllocError>
    requires { IsPartial old.now }
    ensures ok { IfOk result (λ stop. Reads (old.now ++ piece.now) out.old.items out.new.items stop.rest.items stop.left stop.fault) }
    ensures err { OnErr result (take (length out.old.items) out.new.items ≡ out.old.items) }
{
    let mut rest = ArrayVec::new();
    push(&mut rest, old);
    let mut left = piece;
    loop {
        match decode(rest.as_slice()) {
            Ok((message, _length)) => {
                out.push(message)?;
                rest.clear();
            }
            Err(fault) => {
                let MsgFault::Short(needed) = fault else {
                    let left = left.len();
                    return Ok(Stop { rest, left, fault });
                };
                if left.is_empty() {
                    return Ok(Stop {
                        rest,
                        left: 0,
                        fault,
                    });
                }
                let (front, after) = left.split_at(left.len().min(needed - rest.len()));
                push(&mut rest, front);
                left = after;
            }
        }
    }
}

/// What is kept of a stop, after so many bytes.
fn kept(fed: u64, stop: Stop) -> Feed
    requires within { length stop.rest.items + stop.left ≤ fed }
    requires partial { IsShort stop.fault → decode stop.rest.items ≡ Err stop.fault }
    ensures { (rest : List ℕ) → length rest ≡ length stop.rest.items + stop.left → (IsShort stop.fault → rest ≡ stop.rest.items)
        → result ≡ stopped fed rest stop.fault }
{
    match stop.fault {
        MsgFault::Short(_needed) => Feed {
            fed,
            rest: stop.rest,
            fault: None,
        },
        fault => {
            let place = fed - (stop.rest.len() + stop.left) as u64;
            Feed {
                fed,
                rest: ArrayVec::new(),
                fault: Some((place, fault)),
            }
        }
    }
}

impl Feed {
    /// A feed that has taken nothing.
    pub fn new() -> Feed
        ensures { result ≡ new_feed }
    {
        Feed {
            fed: 0,
            rest: ArrayVec::new(),
            fault: None,
        }
    }

    /// How many bytes the pieces had that were taken so far. A piece that was refused for memory, or
    /// given after a bad message, isn't counted.
    pub fn fed(&self) -> u64
        ensures { result ≡ self.now.fed }
    {
        self.fed
    }

    /// Whether the stream ends behind a whole message.
    ///
    /// Fails with `Bad` where the feed has met one, and with `Cut` where the bytes since the last
    /// message are at least one and no whole message.
    pub fn finish(&self) -> Result<(), FeedEnd>
        ensures { result ≡ finish_of self.now }
    {
        if let Some((place, fault)) = self.fault {
            return Err(FeedEnd::Bad(place, fault));
        }
        if self.rest.is_empty() {
            return Ok(());
        }
        Err(FeedEnd::Cut(self.fed - self.rest.len() as u64))
    }

    /// The fault that is kept, if any.
    fn answer(&self) -> Result<(), FeedFault>
        ensures { result ≡ answer_of self.now.fault }
    {
        match self.fault {
            Some((place, fault)) => Err(FeedFault::Bad(place, fault)),
            None => Ok(()),
        }
    }

    /// Takes the next piece of the stream, and appends each message that is whole now.
    ///
    /// Fails with `Bad` where no message can begin at a place of the stream, once the messages before
    /// it are appended, and from then on. Fails with `Memory` where memory runs out: then nothing has
    /// changed, and the piece can be given again.
    pub fn feed(&mut self, piece: &[u8], out: &mut Vec<Message>) -> Result<(), FeedFault>
        requires { self.old.fed + length piece.now < 2 ^ 64 }
        ensures outcome { Outcome result self.old piece.now out.old.items self.new out.new.items }
        ensures count { self.new.fed ≤ self.old.fed + length piece.now }
    {
        self.answer()?;
        let before = out.len();
        let stop = match read_messages(self.rest.as_slice(), piece, out) {
            Ok(stop) => stop,
            Err(_error) => {
                out.truncate(before);
                return Err(FeedFault::Memory);
            }
        };
        let fed = self.fed + piece.len() as u64;
        *self = kept(fed, stop);
        self.answer()
    }
}

/// However a stream is cut into pieces, a new feed that takes them makes the same of it: it appends
/// the messages that the whole stream spells, up to a rest that begins with no message.
pub fn any_pieces()
    // What a feed appends and keeps is what the whole stream spells.
    ensures fed { (pieces : List (List ℕ)) (messages : List Row) (kept : Kept) → FeedsAll new_feed pieces messages kept
        → IsFedBy (joined pieces) messages kept }
    // A stream spells one list of messages, up to one rest that begins with none, for one reason.
    ensures one { (stream : List ℕ) (a b : List Row) (x y : List ℕ) (f g : MsgFault) → Splits stream a x f → Splits stream b y g
        → (a ≡ b) × (x ≡ y) × (f ≡ g) }
{}

ghost use Rattle.std.specs.Prelude.{◌≡◌, ◌↔◌, IfSome, IsSome, IsTrue, length};
ghost use Rattle.std.specs.List.{AllByRecursion};
ghost use Rattle.bk_base.specs.Places.{IsAddr};
ghost use Rattle.bk_msg.specs.declared.row.Row.TheVariants.{Done};
ghost use Rattle.bk_msg.specs.Table.{layout_of};
ghost use Rattle.bk_msg.specs.Spelling.{IsMessage, IsWord, IsPayload, FitsLayout, header_fits, front_fits};

use crate::fields::{Fields, Payload, fields_of};
use crate::row::{ENGINE, Row};
use crate::table::{Layout, Load, layout_of};
use bk_base::Addr;
use std::marker::Model;

/// A message: a row each of whose fields is in the range of its kind (docs/MESSAGES.md has the
/// ranges). Contracts see the row.
#[derive(Clone, Copy, Debug, PartialEq, Eq)]
pub struct Message {
    row: Row,
}

impl Model for Message {
    ghost use Rattle.bk_msg.specs.declared.row.Row.{Row};
    ghost use Rattle.bk_msg.specs.Spelling.{IsMessage};

    ghost Value = { Row };

    ghost view = { λ m. m.row };

    ghost invariant = { λ m. IsMessage m.row };

    ghost inverse = { λ r. record { row = r } };
}

/// Whether bytes 1 to 7 are as the line of the kind says.
fn header_fits(layout: Layout, fields: &Fields) -> bool
    ensures { result ≡ header_fits layout fields.now }
{
    layout.from.admits(fields.from)
        && layout.to.admits(fields.to)
        && layout.way.admits(fields.way)
        && layout.state.admits(fields.state)
        && layout.peer.admits(fields.peer)
        && layout.peer_way.admits(fields.peer_way)
        && layout.peer_state.admits(fields.peer_state)
}

/// Eight numbers of 64 bits.
#[tactic(auto, using(crate::proofs::Words::are_words))]
pub(crate) fn are_words(words: &[u64]) -> bool
    ensures count { IsTrue result ↔ (length words.now ≡ 8) }
    ensures words { AllByRecursion IsWord words.now }
{
    words.len() == 8
}

/// Whether the payload has the words that the line of the kind says.
fn carries(load: Load, payload: Payload) -> bool
    ensures { IsTrue result ↔ IsPayload load payload }
{
    match (load, payload) {
        (Load::Nothing, Payload::Nothing) => true,
        (Load::Word, Payload::Word(_word)) => true,
        (Load::Block, Payload::Block(words)) => are_words(&words),
        _ => false,
    }
}

/// Whether bytes 1 to 7 and the address are as the line of the kind says.
fn front_fits(layout: Layout, fields: &Fields) -> bool
    ensures value { result ≡ front_fits layout fields.now }
    ensures address { IsAddr fields.now.addr }
{
    let aligned = layout.address.divides(fields.addr.value());
    header_fits(layout, fields) && aligned
}

/// Whether each field is in the range that the line of its kind gives it.
fn fits(fields: Fields) -> bool
    ensures { IsTrue result ↔ FitsLayout (layout_of fields.kind) fields }
{
    let layout = layout_of(fields.kind);
    let front = front_fits(layout, &fields);
    front && carries(layout.load, fields.payload)
}

impl Message {
    /// The message of a row that is in range.
    pub(crate) fn of(row: Row) -> Message
        requires { IsMessage row }
        ensures { result ≡ row }
    {
        Message { row }
    }

    /// The message of a row, or none where a field is out of the range of its kind.
    pub fn make(row: Row) -> Option<Message>
        ensures value { IfSome result (λ m. m ≡ row) }
        ensures some { IsSome result ↔ IsMessage row }
    {
        let copy = row;
        if fits(fields_of(copy)) {
            Some(Message { row })
        } else {
            None
        }
    }

    /// The row of the message. Each field is in the range of its kind.
    pub fn row(self) -> Row
        ensures value { result ≡ self }
        ensures in_range { IsMessage result }
    {
        self.row
    }
}

impl Default for Message {
    ghost use Rattle.bk_msg.specs.declared.row.TheConstants.{ENGINE};

    ghost is_default = { λ m. m ≡ Done ENGINE 0 0 };

    /// `Done` to cache 0 for address 0. It fills the unused places of fixed arrays.
    fn default() -> Message
        ensures { result ≡ Done ENGINE 0 0 }
    {
        Message {
            row: Row::Done {
                from: ENGINE,
                to: 0,
                addr: Addr::make(0).unwrap(),
            },
        }
    }
}

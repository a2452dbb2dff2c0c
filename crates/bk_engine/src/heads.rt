ghost use Rattle.std.specs.Prelude.{◌≡◌, ◌<◌};
ghost use Rattle.bk_engine.specs.Heads.{head_number, head_value, request_of, kind_number, is_placed, has_value, names_class};

use crate::parts::{CLASS_NONE, CLASS_REQUEST, Head, Held, RequestKind};
use bk_msg::Row;

/// The value of the head where there is none.
pub const HEAD_NONE: u8 = 0;
/// The value of a request as a head.
pub const HEAD_REQUEST: u8 = 1;
/// The value of an `InvAck` as a head.
pub const HEAD_INV_ACK: u8 = 2;
/// The value of a `CohAck` as a head.
pub const HEAD_COH_ACK: u8 = 3;
/// The value of a `Wb` as a head.
pub const HEAD_WB: u8 = 4;
/// The value of a `NullWb` as a head.
pub const HEAD_NULL_WB: u8 = 5;
/// The value of a `Block` as a head.
pub const HEAD_BLOCK: u8 = 6;
/// The value of a message that is never a head.
pub const HEAD_OTHER: u8 = 7;

/// The value of a message as a head: `HEAD_REQUEST`, `HEAD_INV_ACK`, `HEAD_COH_ACK`, `HEAD_WB`, `HEAD_NULL_WB`, `HEAD_BLOCK`,
/// and `HEAD_OTHER` for what is never one.
pub fn head_number(message: &Row) -> u8
    ensures value { result ≡ head_number message.now }
    ensures small { result < 8 }
{
    match message {
        Row::Rd { .. } => HEAD_REQUEST,
        Row::Wr { .. } => HEAD_REQUEST,
        Row::UcRd { .. } => HEAD_REQUEST,
        Row::UcWr { .. } => HEAD_REQUEST,
        Row::Evict { .. } => HEAD_REQUEST,
        Row::InvAck { .. } => HEAD_INV_ACK,
        Row::CohAck { .. } => HEAD_COH_ACK,
        Row::Wb { .. } => HEAD_WB,
        Row::NullWb { .. } => HEAD_NULL_WB,
        Row::Block { .. } => HEAD_BLOCK,
        _ => HEAD_OTHER,
    }
}

/// The value of the engine's head, `HEAD_NONE` where there is none.
pub(crate) fn head_value(head: &Option<Head>) -> u8
    ensures value { result ≡ head_value head.now }
    ensures small { result < 8 }
{
    match head {
        None => HEAD_NONE,
        Some(head) => head_number(&head.message.row()),
    }
}

/// The request that a cache's message makes, if it makes one.
pub(crate) fn request_of(source: u8, message: &Row) -> Option<Held>
    ensures { result ≡ request_of source message.now }
{
    let (kind, way, addr, value) = match message {
        Row::Rd { way, addr, .. } => (RequestKind::Rd, *way, *addr, 0),
        Row::Wr { way, addr, .. } => (RequestKind::Wr, *way, *addr, 0),
        Row::UcRd { addr, .. } => (RequestKind::UcRd, 0, *addr, 0),
        Row::UcWr { addr, word, .. } => (RequestKind::UcWr, 0, *addr, *word),
        Row::Evict { way, addr, .. } => (RequestKind::Evict, *way, *addr, 0),
        _ => return None,
    };
    Some(Held {
        kind,
        source,
        way,
        addr,
        value,
    })
}

/// The value of a kind of request.
pub(crate) fn kind_number(kind: RequestKind) -> u8
    ensures value { result ≡ kind_number kind }
    ensures small { result < 8 }
{
    match kind {
        RequestKind::Rd => 0,
        RequestKind::Wr => 1,
        RequestKind::UcRd => 2,
        RequestKind::UcWr => 3,
        RequestKind::Evict => 4,
    }
}

/// Whether the answer to a request puts a block into a way.
pub(crate) fn is_placed(kind: RequestKind) -> bool
    ensures { result ≡ is_placed kind }
{
    matches!(kind, RequestKind::Rd | RequestKind::Wr)
}

/// Whether a set of values, one bit a value, has this one.
pub(crate) fn has_value(set: u8, value: u8) -> bool
    requires { value < 8 }
    ensures { result ≡ has_value set value }
{
    (set >> value) % 2 == 1
}

/// Whether the operand of a `wfq` names a class.
pub fn names_class(classes: u8, class: u8) -> bool
    ensures { result ≡ names_class classes class }
{
    CLASS_NONE < class && class <= CLASS_REQUEST && has_value(classes, class - 1)
}

ghost use Rattle.std.specs.Prelude.{◌≡◌};
ghost use Rattle.bk_msg.specs.Fields.{words_of, bare, fields_of, state, load_word, load_block, row_of};

use crate::kind::Kind;
use crate::row::Row;
use bk_base::{Addr, Coh};

/// The words behind the address.
#[derive(Clone, Copy)]
pub enum Payload {
    Nothing,
    /// One word.
    Word(u64),
    /// The eight words of a block.
    Block([u64; 8]),
}

/// What a message has at each place of its spelling: the kind, a byte for each of bytes 1 to 7,
/// the address and the payload. A byte of no field is 0.
#[derive(Clone, Copy)]
pub struct Fields {
    pub kind: Kind,
    pub from: u8,
    pub to: u8,
    pub way: u8,
    pub state: u8,
    pub peer: u8,
    pub peer_way: u8,
    pub peer_state: u8,
    pub addr: Addr,
    pub payload: Payload,
}

impl Payload {
    /// The words in order.
    pub fn words(&self) -> &[u64]
        ensures { result.now ≡ words_of self.now }
    {
        match self {
            Payload::Nothing => &[],
            Payload::Word(word) => std::slice::from_ref(word),
            Payload::Block(words) => words,
        }
    }

    /// The word, or 0 where there isn't one alone.
    fn word(self) -> u64
        ensures { result ≡ load_word self }
    {
        match self {
            Payload::Word(word) => word,
            _ => 0,
        }
    }

    /// The words of the block, or eight times 0 where there is none.
    fn block(self) -> [u64; 8]
        ensures { result ≡ load_block self }
    {
        match self {
            Payload::Block(words) => words,
            _ => [0; 8],
        }
    }
}

/// Only the two ends and the address are named, and nothing follows.
fn bare(kind: Kind, from: u8, to: u8, addr: Addr) -> Fields
    ensures { result ≡ bare kind from to addr }
{
    Fields {
        kind,
        from,
        to,
        way: 0,
        state: 0,
        peer: 0,
        peer_way: 0,
        peer_state: 0,
        addr,
        payload: Payload::Nothing,
    }
}

/// Where each field of the row is spelled.
pub fn fields_of(row: Row) -> Fields
    ensures { result ≡ fields_of row }
{
    match row {
        Row::Rd {
            from,
            to,
            way,
            addr,
        } => Fields {
            way,
            ..bare(Kind::Rd, from, to, addr)
        },
        Row::Wr {
            from,
            to,
            way,
            addr,
        } => Fields {
            way,
            ..bare(Kind::Wr, from, to, addr)
        },
        Row::UcRd { from, to, addr } => bare(Kind::UcRd, from, to, addr),
        Row::UcWr {
            from,
            to,
            addr,
            word,
        } => Fields {
            payload: Payload::Word(word),
            ..bare(Kind::UcWr, from, to, addr)
        },
        Row::Evict {
            from,
            to,
            way,
            addr,
        } => Fields {
            way,
            ..bare(Kind::Evict, from, to, addr)
        },
        Row::Inv { from, to, addr } => bare(Kind::Inv, from, to, addr),
        Row::StWb {
            from,
            to,
            state,
            addr,
        } => Fields {
            state: state.code(),
            ..bare(Kind::StWb, from, to, addr)
        },
        Row::StTr {
            from,
            to,
            state,
            peer,
            peer_way,
            peer_state,
            addr,
        } => Fields {
            state: state.code(),
            peer,
            peer_way,
            peer_state: peer_state.code(),
            ..bare(Kind::StTr, from, to, addr)
        },
        Row::Blk {
            from,
            to,
            way,
            state,
            addr,
            words,
        } => Fields {
            way,
            state: state.code(),
            payload: Payload::Block(words),
            ..bare(Kind::Blk, from, to, addr)
        },
        Row::StWake {
            from,
            to,
            way,
            state,
            addr,
        } => Fields {
            way,
            state: state.code(),
            ..bare(Kind::StWake, from, to, addr)
        },
        Row::UcBlk {
            from,
            to,
            addr,
            word,
        } => Fields {
            payload: Payload::Word(word),
            ..bare(Kind::UcBlk, from, to, addr)
        },
        Row::UcDone { from, to, addr } => bare(Kind::UcDone, from, to, addr),
        Row::Done { from, to, addr } => bare(Kind::Done, from, to, addr),
        Row::Fill {
            from,
            to,
            way,
            state,
            addr,
            words,
        } => Fields {
            way,
            state: state.code(),
            payload: Payload::Block(words),
            ..bare(Kind::Fill, from, to, addr)
        },
        Row::InvAck { from, to, addr } => bare(Kind::InvAck, from, to, addr),
        Row::CohAck { from, to, addr } => bare(Kind::CohAck, from, to, addr),
        Row::Wb {
            from,
            to,
            addr,
            words,
        } => Fields {
            payload: Payload::Block(words),
            ..bare(Kind::Wb, from, to, addr)
        },
        Row::NullWb { from, to, addr } => bare(Kind::NullWb, from, to, addr),
        Row::Read { from, to, addr } => bare(Kind::Read, from, to, addr),
        Row::Write {
            from,
            to,
            addr,
            words,
        } => Fields {
            payload: Payload::Block(words),
            ..bare(Kind::Write, from, to, addr)
        },
        Row::WriteWord {
            from,
            to,
            addr,
            word,
        } => Fields {
            payload: Payload::Word(word),
            ..bare(Kind::WriteWord, from, to, addr)
        },
        Row::Block {
            from,
            to,
            addr,
            words,
        } => Fields {
            payload: Payload::Block(words),
            ..bare(Kind::Block, from, to, addr)
        },
    }
}

/// The state with a code, or I for a code off the table.
fn state(code: u8) -> Coh
    ensures { result ≡ state code }
{
    Coh::from_code(code).unwrap_or(Coh::I)
}

/// The row of the fields' kind, where each field is as the table says.
pub fn row_of(fields: Fields) -> Row
    ensures { result ≡ row_of fields }
{
    let Fields {
        kind,
        from,
        to,
        way,
        addr,
        peer,
        peer_way,
        payload,
        ..
    } = fields;
    let own = state(fields.state);
    let peer_state = state(fields.peer_state);
    let word = payload.word();
    let words = payload.block();
    match kind {
        Kind::Rd => Row::Rd {
            from,
            to,
            way,
            addr,
        },
        Kind::Wr => Row::Wr {
            from,
            to,
            way,
            addr,
        },
        Kind::UcRd => Row::UcRd { from, to, addr },
        Kind::UcWr => Row::UcWr {
            from,
            to,
            addr,
            word,
        },
        Kind::Evict => Row::Evict {
            from,
            to,
            way,
            addr,
        },
        Kind::Inv => Row::Inv { from, to, addr },
        Kind::StWb => Row::StWb {
            from,
            to,
            state: own,
            addr,
        },
        Kind::StTr => Row::StTr {
            from,
            to,
            state: own,
            peer,
            peer_way,
            peer_state,
            addr,
        },
        Kind::Blk => Row::Blk {
            from,
            to,
            way,
            state: own,
            addr,
            words,
        },
        Kind::StWake => Row::StWake {
            from,
            to,
            way,
            state: own,
            addr,
        },
        Kind::UcBlk => Row::UcBlk {
            from,
            to,
            addr,
            word,
        },
        Kind::UcDone => Row::UcDone { from, to, addr },
        Kind::Done => Row::Done { from, to, addr },
        Kind::Fill => Row::Fill {
            from,
            to,
            way,
            state: own,
            addr,
            words,
        },
        Kind::InvAck => Row::InvAck { from, to, addr },
        Kind::CohAck => Row::CohAck { from, to, addr },
        Kind::Wb => Row::Wb {
            from,
            to,
            addr,
            words,
        },
        Kind::NullWb => Row::NullWb { from, to, addr },
        Kind::Read => Row::Read { from, to, addr },
        Kind::Write => Row::Write {
            from,
            to,
            addr,
            words,
        },
        Kind::WriteWord => Row::WriteWord {
            from,
            to,
            addr,
            word,
        },
        Kind::Block => Row::Block {
            from,
            to,
            addr,
            words,
        },
    }
}

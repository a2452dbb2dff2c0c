ghost use Rattle.std.specs.Prelude.{◌≡◌};
ghost use Rattle.bk_msg.specs.Networks.{network_of, address_of, receiver_of};

use bk_base::{Addr, Coh};

/// The engine's number as a message's sender or receiver. Caches have 0 to 15.
pub const ENGINE: u8 = 0xf0;
/// The memory's number as a message's sender or receiver.
pub const MEMORY: u8 = 0xf1;

/// The kind and the fields of a message: one variant a kind (docs/MESSAGES.md has the table). `Message` is one in range.
/// `from` and `to` are the numbers of sender and receiver, `peer` is a cache, `way` and `peer_way` are ways;
/// `addr` is the address of a word for the kinds that begin with `Uc` and for `WriteWord`, else that of a
/// block's first word. That the fields are in range is no invariant of this type.
#[derive(Clone, Copy, Debug, PartialEq, Eq)]
pub enum Row {
    /// A cache asks for a block to read.
    Rd {
        from: u8,
        to: u8,
        way: u8,
        addr: Addr,
    },
    /// A cache asks for a block to write.
    Wr {
        from: u8,
        to: u8,
        way: u8,
        addr: Addr,
    },
    /// A cache asks for a word past the caches.
    UcRd {
        from: u8,
        to: u8,
        addr: Addr,
    },
    /// A cache asks for a word to be written past the caches.
    UcWr {
        from: u8,
        to: u8,
        addr: Addr,
        word: u64,
    },
    /// A cache asks to give a block up.
    Evict {
        from: u8,
        to: u8,
        way: u8,
        addr: Addr,
    },
    /// The engine has a copy dropped.
    Inv {
        from: u8,
        to: u8,
        addr: Addr,
    },
    /// The engine lowers a copy to `I` or `S` and asks for its words.
    StWb {
        from: u8,
        to: u8,
        state: Coh,
        addr: Addr,
    },
    /// The engine sets the owner's copy to `state`, and has it fill `peer_way` of `peer` in `peer_state`.
    StTr {
        from: u8,
        to: u8,
        state: Coh,
        peer: u8,
        peer_way: u8,
        peer_state: Coh,
        addr: Addr,
    },
    /// The engine grants a block with its words.
    Blk {
        from: u8,
        to: u8,
        way: u8,
        state: Coh,
        addr: Addr,
        words: [u64; 8],
    },
    /// The engine grants `M` of a copy that the cache has.
    StWake {
        from: u8,
        to: u8,
        way: u8,
        state: Coh,
        addr: Addr,
    },
    /// The engine answers a word past the caches.
    UcBlk {
        from: u8,
        to: u8,
        addr: Addr,
        word: u64,
    },
    /// The engine says that a word was written past the caches.
    UcDone {
        from: u8,
        to: u8,
        addr: Addr,
    },
    /// The engine says that a block was given up.
    Done {
        from: u8,
        to: u8,
        addr: Addr,
    },
    /// A cache grants a block to another, with its words.
    Fill {
        from: u8,
        to: u8,
        way: u8,
        state: Coh,
        addr: Addr,
        words: [u64; 8],
    },
    /// A cache has dropped its copy.
    InvAck {
        from: u8,
        to: u8,
        addr: Addr,
    },
    /// A cache has got what it asked for: its request is settled.
    CohAck {
        from: u8,
        to: u8,
        addr: Addr,
    },
    /// A cache answers `StWb` with the words of a dirty copy.
    Wb {
        from: u8,
        to: u8,
        addr: Addr,
        words: [u64; 8],
    },
    /// A cache answers `StWb` where its copy was clean.
    NullWb {
        from: u8,
        to: u8,
        addr: Addr,
    },
    /// The engine reads a block of memory.
    Read {
        from: u8,
        to: u8,
        addr: Addr,
    },
    /// The engine writes a block of memory.
    Write {
        from: u8,
        to: u8,
        addr: Addr,
        words: [u64; 8],
    },
    /// The engine writes a word of memory.
    WriteWord {
        from: u8,
        to: u8,
        addr: Addr,
        word: u64,
    },
    /// The memory answers `Read`.
    Block {
        from: u8,
        to: u8,
        addr: Addr,
        words: [u64; 8],
    },
}

/// The six kinds of channel: a message travels in the network of its kind.
#[derive(Clone, Copy, Debug, PartialEq, Eq)]
pub enum Network {
    /// From a cache to the engine.
    Request,
    /// From the engine to a cache.
    Command,
    /// From a cache to another.
    Fill,
    /// From a cache to the engine, in answer.
    Response,
    /// From the engine to the memory.
    Memout,
    /// From the memory to the engine.
    Memin,
}

impl Row {
    /// The network that the message travels in.
    pub fn network(&self) -> Network
        ensures { result ≡ network_of self.now }
    {
        match self {
            Row::Rd { .. } | Row::Wr { .. } | Row::UcRd { .. } => Network::Request,
            Row::UcWr { .. } | Row::Evict { .. } => Network::Request,
            Row::Fill { .. } => Network::Fill,
            Row::InvAck { .. } | Row::CohAck { .. } => Network::Response,
            Row::Wb { .. } | Row::NullWb { .. } => Network::Response,
            Row::Read { .. } | Row::Write { .. } | Row::WriteWord { .. } => Network::Memout,
            Row::Block { .. } => Network::Memin,
            _ => Network::Command,
        }
    }
    /// The address that the message is about.
    pub fn address(&self) -> Addr
        ensures { result ≡ address_of self.now }
    {
        match self {
            Row::Rd { addr, .. } => *addr,
            Row::Wr { addr, .. } => *addr,
            Row::UcRd { addr, .. } => *addr,
            Row::UcWr { addr, .. } => *addr,
            Row::Evict { addr, .. } => *addr,
            Row::Inv { addr, .. } => *addr,
            Row::StWb { addr, .. } => *addr,
            Row::StTr { addr, .. } => *addr,
            Row::Blk { addr, .. } => *addr,
            Row::StWake { addr, .. } => *addr,
            Row::UcBlk { addr, .. } => *addr,
            Row::UcDone { addr, .. } => *addr,
            Row::Done { addr, .. } => *addr,
            Row::Fill { addr, .. } => *addr,
            Row::InvAck { addr, .. } => *addr,
            Row::CohAck { addr, .. } => *addr,
            Row::Wb { addr, .. } => *addr,
            Row::NullWb { addr, .. } => *addr,
            Row::Read { addr, .. } => *addr,
            Row::Write { addr, .. } => *addr,
            Row::WriteWord { addr, .. } => *addr,
            Row::Block { addr, .. } => *addr,
        }
    }

    /// The number of who receives the message: a cache, the engine or the memory.
    pub fn receiver(&self) -> u8
        ensures { result ≡ receiver_of self.now }
    {
        match self {
            Row::Rd { to, .. } => *to,
            Row::Wr { to, .. } => *to,
            Row::UcRd { to, .. } => *to,
            Row::UcWr { to, .. } => *to,
            Row::Evict { to, .. } => *to,
            Row::Inv { to, .. } => *to,
            Row::StWb { to, .. } => *to,
            Row::StTr { to, .. } => *to,
            Row::Blk { to, .. } => *to,
            Row::StWake { to, .. } => *to,
            Row::UcBlk { to, .. } => *to,
            Row::UcDone { to, .. } => *to,
            Row::Done { to, .. } => *to,
            Row::Fill { to, .. } => *to,
            Row::InvAck { to, .. } => *to,
            Row::CohAck { to, .. } => *to,
            Row::Wb { to, .. } => *to,
            Row::NullWb { to, .. } => *to,
            Row::Read { to, .. } => *to,
            Row::Write { to, .. } => *to,
            Row::WriteWord { to, .. } => *to,
            Row::Block { to, .. } => *to,
        }
    }
}

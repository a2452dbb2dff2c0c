ghost use Rattle.std.specs.Prelude.{◌≡◌, ◌<◌, true};
ghost use Rattle.bk_base.specs.Places.{block_start};
ghost use Rattle.bk_base.specs.declared.coh.Coh.TheVariants.{M};
ghost use Rattle.bk_msg.specs.declared.row.Row.TheVariants.{Rd, Wr, UcRd, UcWr, Evict, Inv, StWb, StTr, Blk, StWake, UcBlk, UcDone, Done, Fill, InvAck, CohAck, Wb, NullWb, Read, Write, WriteWord, Block};
ghost use Rattle.bk_msg.specs.declared.table.States.TheVariants.{Lowered, Left, Received, Granted};
ghost use Rattle.bk_msg.specs.Table.{holds};

use crate::message::{Message, are_words};
use crate::row::{ENGINE, MEMORY, Row};
use bk_base::{Addr, Coh, MOST_CACHES, MOST_WAYS};

// A message of each kind, from what its fields are. The address of a block is that of its first word.

impl Message {
    /// `Rd`: a cache asks for the block of an address to read; the way that it has set apart for it.
    pub fn rd(from: u8, way: u8, addr: Addr) -> Message
        requires sender { from < MOST_CACHES }
        requires way { way < MOST_WAYS }
        ensures { result ≡ Rd from ENGINE way (block_start addr) }
    {
        Message::of(Row::Rd {
            from,
            to: ENGINE,
            way,
            addr: addr.block_start(),
        })
    }

    /// `Wr`: a cache asks for the block of an address to write.
    pub fn wr(from: u8, way: u8, addr: Addr) -> Message
        requires sender { from < MOST_CACHES }
        requires way { way < MOST_WAYS }
        ensures { result ≡ Wr from ENGINE way (block_start addr) }
    {
        Message::of(Row::Wr {
            from,
            to: ENGINE,
            way,
            addr: addr.block_start(),
        })
    }

    /// `UcRd`: a cache asks for a word past the caches.
    pub fn uc_rd(from: u8, addr: Addr) -> Message
        requires { from < MOST_CACHES }
        ensures { result ≡ UcRd from ENGINE addr }
    {
        Message::of(Row::UcRd {
            from,
            to: ENGINE,
            addr,
        })
    }

    /// `UcWr`: a cache asks for a word to be written past the caches.
    pub fn uc_wr(from: u8, addr: Addr, word: u64) -> Message
        requires { from < MOST_CACHES }
        ensures { result ≡ UcWr from ENGINE addr word }
    {
        Message::of(Row::UcWr {
            from,
            to: ENGINE,
            addr,
            word,
        })
    }

    /// `Evict`: a cache asks to give the block of an address up.
    pub fn evict(from: u8, way: u8, addr: Addr) -> Message
        requires sender { from < MOST_CACHES }
        requires way { way < MOST_WAYS }
        ensures { result ≡ Evict from ENGINE way (block_start addr) }
    {
        Message::of(Row::Evict {
            from,
            to: ENGINE,
            way,
            addr: addr.block_start(),
        })
    }

    /// `Inv`: the engine has a cache drop the block of an address.
    pub fn inv(to: u8, addr: Addr) -> Message
        requires { to < MOST_CACHES }
        ensures { result ≡ Inv ENGINE to (block_start addr) }
    {
        Message::of(Row::Inv {
            from: ENGINE,
            to,
            addr: addr.block_start(),
        })
    }

    /// `StWb`: the engine lowers a cache's copy to `I` or `S` and asks for its words.
    pub fn st_wb(to: u8, state: Coh, addr: Addr) -> Message
        requires receiver { to < MOST_CACHES }
        requires state_fits { holds Lowered state ≡ true }
        ensures { result ≡ StWb ENGINE to state (block_start addr) }
    {
        Message::of(Row::StWb {
            from: ENGINE,
            to,
            state,
            addr: addr.block_start(),
        })
    }

    /// `StTr`: the engine sets the owner's copy to `state`, and has it fill a way of a peer.
    pub fn st_tr(to: u8, state: Coh, peer: u8, peer_way: u8, peer_state: Coh, addr: Addr) -> Message
        requires receiver { to < MOST_CACHES }
        requires peer { peer < MOST_CACHES }
        requires peer_way { peer_way < MOST_WAYS }
        requires state_fits { holds Left state ≡ true }
        requires peer_state_fits { holds Received peer_state ≡ true }
        ensures { result ≡ StTr ENGINE to state peer peer_way peer_state (block_start addr) }
    {
        Message::of(Row::StTr {
            from: ENGINE,
            to,
            state,
            peer,
            peer_way,
            peer_state,
            addr: addr.block_start(),
        })
    }

    /// `Blk`: the engine grants the block of an address with its words.
    pub fn blk(to: u8, way: u8, state: Coh, addr: Addr, words: [u64; 8]) -> Message
        requires receiver { to < MOST_CACHES }
        requires way { way < MOST_WAYS }
        requires state_fits { holds Granted state ≡ true }
        ensures { result ≡ Blk ENGINE to way state (block_start addr) words }
    {
        let fits = are_words(&words);
        prove!(fits);
        Message::of(Row::Blk {
            from: ENGINE,
            to,
            way,
            state,
            addr: addr.block_start(),
            words,
        })
    }

    /// `StWake`: the engine grants `M` of a copy that the cache has.
    pub fn st_wake(to: u8, way: u8, addr: Addr) -> Message
        requires receiver { to < MOST_CACHES }
        requires way { way < MOST_WAYS }
        ensures { result ≡ StWake ENGINE to way M (block_start addr) }
    {
        Message::of(Row::StWake {
            from: ENGINE,
            to,
            way,
            state: Coh::M,
            addr: addr.block_start(),
        })
    }

    /// `UcBlk`: the engine answers a word past the caches.
    pub fn uc_blk(to: u8, addr: Addr, word: u64) -> Message
        requires { to < MOST_CACHES }
        ensures { result ≡ UcBlk ENGINE to addr word }
    {
        Message::of(Row::UcBlk {
            from: ENGINE,
            to,
            addr,
            word,
        })
    }

    /// `UcDone`: the engine says that a word was written past the caches.
    pub fn uc_done(to: u8, addr: Addr) -> Message
        requires { to < MOST_CACHES }
        ensures { result ≡ UcDone ENGINE to addr }
    {
        Message::of(Row::UcDone {
            from: ENGINE,
            to,
            addr,
        })
    }

    /// `Done`: the engine says that the block of an address was given up.
    pub fn done(to: u8, addr: Addr) -> Message
        requires { to < MOST_CACHES }
        ensures { result ≡ Done ENGINE to (block_start addr) }
    {
        Message::of(Row::Done {
            from: ENGINE,
            to,
            addr: addr.block_start(),
        })
    }

    /// `Fill`: a cache grants the block of an address to another, with its words.
    pub fn fill(from: u8, to: u8, way: u8, state: Coh, addr: Addr, words: [u64; 8]) -> Message
        requires sender { from < MOST_CACHES }
        requires receiver { to < MOST_CACHES }
        requires way { way < MOST_WAYS }
        requires state_fits { holds Received state ≡ true }
        ensures { result ≡ Fill from to way state (block_start addr) words }
    {
        let fits = are_words(&words);
        prove!(fits);
        Message::of(Row::Fill {
            from,
            to,
            way,
            state,
            addr: addr.block_start(),
            words,
        })
    }

    /// `InvAck`: a cache has dropped its copy of the block of an address.
    pub fn inv_ack(from: u8, addr: Addr) -> Message
        requires { from < MOST_CACHES }
        ensures { result ≡ InvAck from ENGINE (block_start addr) }
    {
        Message::of(Row::InvAck {
            from,
            to: ENGINE,
            addr: addr.block_start(),
        })
    }

    /// `CohAck`: a cache has got what it asked for: its request about the block of an address is settled.
    pub fn coh_ack(from: u8, addr: Addr) -> Message
        requires { from < MOST_CACHES }
        ensures { result ≡ CohAck from ENGINE (block_start addr) }
    {
        Message::of(Row::CohAck {
            from,
            to: ENGINE,
            addr: addr.block_start(),
        })
    }

    /// `Wb`: a cache answers `StWb` with the words of a dirty copy.
    pub fn wb(from: u8, addr: Addr, words: [u64; 8]) -> Message
        requires { from < MOST_CACHES }
        ensures { result ≡ Wb from ENGINE (block_start addr) words }
    {
        let fits = are_words(&words);
        prove!(fits);
        Message::of(Row::Wb {
            from,
            to: ENGINE,
            addr: addr.block_start(),
            words,
        })
    }

    /// `NullWb`: a cache answers `StWb` where its copy was clean.
    pub fn null_wb(from: u8, addr: Addr) -> Message
        requires { from < MOST_CACHES }
        ensures { result ≡ NullWb from ENGINE (block_start addr) }
    {
        Message::of(Row::NullWb {
            from,
            to: ENGINE,
            addr: addr.block_start(),
        })
    }

    /// `Read`: the engine reads the block of an address.
    pub fn read(addr: Addr) -> Message
        ensures { result ≡ Read ENGINE MEMORY (block_start addr) }
    {
        Message::of(Row::Read {
            from: ENGINE,
            to: MEMORY,
            addr: addr.block_start(),
        })
    }

    /// `Write`: the engine writes the block of an address.
    pub fn write(addr: Addr, words: [u64; 8]) -> Message
        ensures { result ≡ Write ENGINE MEMORY (block_start addr) words }
    {
        let fits = are_words(&words);
        prove!(fits);
        Message::of(Row::Write {
            from: ENGINE,
            to: MEMORY,
            addr: addr.block_start(),
            words,
        })
    }

    /// `WriteWord`: the engine writes a word of memory.
    pub fn write_word(addr: Addr, word: u64) -> Message
        ensures { result ≡ WriteWord ENGINE MEMORY addr word }
    {
        Message::of(Row::WriteWord {
            from: ENGINE,
            to: MEMORY,
            addr,
            word,
        })
    }

    /// `Block`: the memory answers `Read` of the block of an address.
    pub fn block(addr: Addr, words: [u64; 8]) -> Message
        ensures { result ≡ Block MEMORY ENGINE (block_start addr) words }
    {
        let fits = are_words(&words);
        prove!(fits);
        Message::of(Row::Block {
            from: MEMORY,
            to: ENGINE,
            addr: addr.block_start(),
            words,
        })
    }
}

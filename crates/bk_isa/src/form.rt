use bk_base::Coh;

/// An instruction, by its mnemonic and operands, whatever their ranges: `Instr` keeps these.
/// Registers are 0 to 7, flags 0 to 3, and a place that a branch goes to is below 256.
#[derive(Clone, Copy, Debug, PartialEq, Eq)]
pub enum Form {
    /// `nop`: does nothing.
    Nop,
    /// `add`: register `a` becomes register `b` plus register `c`, modulo 2^64.
    Add { a: u8, b: u8, c: u8 },
    /// `sub`: register `a` becomes register `b` minus register `c`, modulo 2^64.
    Sub { a: u8, b: u8, c: u8 },
    /// `and`: register `a` becomes the bitwise and of registers `b` and `c`.
    And { a: u8, b: u8, c: u8 },
    /// `or`: register `a` becomes the bitwise or of registers `b` and `c`.
    Or { a: u8, b: u8, c: u8 },
    /// `xor`: register `a` becomes the bitwise exclusive or of registers `b` and `c`.
    Xor { a: u8, b: u8, c: u8 },
    /// `shl`: register `a` becomes register `b` shifted left by `imm` bits, zeros come in.
    Shl { a: u8, b: u8, imm: u32 },
    /// `shr`: register `a` becomes register `b` shifted right by `imm` bits, zeros come in.
    Shr { a: u8, b: u8, imm: u32 },
    /// `addi`: register `a` becomes register `b` plus `imm`, modulo 2^64.
    Addi { a: u8, b: u8, imm: u32 },
    /// `not`: register `a` becomes register `b` with each bit turned over.
    Not { a: u8, b: u8 },
    /// `neg`: register `a` becomes 0 minus register `b`, modulo 2^64.
    Neg { a: u8, b: u8 },
    /// `mov`: register `a` becomes register `b`.
    Mov { a: u8, b: u8 },
    /// `movi`: register `a` becomes `imm`.
    Movi { a: u8, imm: u32 },
    /// `mova`: register `a` becomes the held request's address.
    Mova { a: u8 },
    /// `movs`: register `a` becomes the held request's source, a cache.
    Movs { a: u8 },
    /// `movw`: register `a` becomes the held request's way.
    Movw { a: u8 },
    /// `movk`: register `a` becomes the count of acknowledgements that are owed.
    Movk { a: u8 },
    /// `bi`: goes to the place `imm`.
    Bi { imm: u32 },
    /// `beq`: goes to the place `imm` where registers `a` and `b` are equal.
    Beq { a: u8, b: u8, imm: u32 },
    /// `bne`: goes to the place `imm` where registers `a` and `b` differ.
    Bne { a: u8, b: u8, imm: u32 },
    /// `blt`: goes to the place `imm` where register `a` is less than register `b`, unsigned.
    Blt { a: u8, b: u8, imm: u32 },
    /// `bge`: goes to the place `imm` where register `a` is not less than register `b`, unsigned.
    Bge { a: u8, b: u8, imm: u32 },
    /// `bk`: goes to the place `imm` where the value of know field `a` is in the set `b`,
    /// one bit a value, the first value in the lowest bit.
    Bk { a: u8, b: u8, imm: u32 },
    /// `sf`: sets flag `a`.
    Sf { a: u8 },
    /// `cf`: clears flag `a`.
    Cf { a: u8 },
    /// `nf`: negates flag `a`.
    Nf { a: u8 },
    /// `movf`: flag `a` becomes flag `b`.
    Movf { a: u8, b: u8 },
    /// `andf`: flag `a` becomes flag `a` and flag `b`.
    Andf { a: u8, b: u8 },
    /// `orf`: flag `a` becomes flag `a` or flag `b`.
    Orf { a: u8, b: u8 },
    /// `rdw`: reads the directory's row of the held request's block.
    Rdw,
    /// `gad`: sums the row up: own, owner, others and victim.
    Gad,
    /// `wde`: writes the directory's entry of the request's cache, set and way:
    /// its tag, and state `a`, which is not I.
    Wde { a: Coh },
    /// `wds`: the directory's entry of the requester itself (`a` is 0) or of the owner (`a` is 1)
    /// gets state `b`.
    Wds { a: u8, b: Coh },
    /// `fin`: ends the held request: none is held, and the row and the block are given up.
    Fin,
    /// `wfq`: waits for a message of one of the classes `a` and takes a copy of it as the head.
    /// The classes are added: 1 stands for responses, 2 for messages of memory, 4 for requests.
    Wfq { a: u8 },
    /// `popq`: removes the head from its channel. With `wp` (`a` is 1) it also sets or clears
    /// the pending bit of the block's group.
    Popq { a: u8 },
    /// `defer`: drops the head, and its channel keeps it.
    Defer,
    /// `inv`: sends an invalidation to each sharer and counts the acknowledgements owed. With `o`
    /// (`a` is 1) one goes to the owner too.
    Inv { a: u8 },
    /// `pushq stwb`: asks the cache of an entry to write its block back and to go to state `b`,
    /// I or S: the requester's own entry (`a` is 0), the owner's (1) or the victim, the entry that
    /// stands in the requester's way (2).
    Stwb { a: u8, b: Coh },
    /// `pushq blk`: sends the block to the requester in state `a`: S, E, F or M.
    Blk { a: Coh },
    /// `pushq wake`: grants the requester state M for the copy that it has.
    Wake,
    /// `pushq tr`: tells the owner to go to state `a` (I, S, F or O) and to send the block to the
    /// requester in state `b` (S, F, M or O).
    Tr { a: Coh, b: Coh },
    /// `pushq ucblk`: sends the requester the word that it reads past its cache.
    Ucblk,
    /// `pushq ucdone`: tells the requester that its write past its cache is done.
    Ucdone,
    /// `pushq done`: tells the requester that its eviction is done.
    Done,
    /// `pushq memrd`: asks memory for the block.
    Memrd,
    /// `pushq memwb`: writes the kept dirty block to memory.
    Memwb,
    /// `pushq memww`: writes the request's word to memory.
    Memww,
}

ghost use Rattle.std.specs.Prelude.{◌≡◌, map};
ghost use Rattle.bk_asm.specs.Operations.{opcode, mnemonics, pushed, operation_named};

/// An operation of the engine. Of `pushq` there is one for each word that may follow it.
#[derive(Clone, Copy)]
pub(crate) enum Operation {
    Nop,
    Add,
    Sub,
    And,
    Or,
    Xor,
    Shl,
    Shr,
    Addi,
    Not,
    Neg,
    Mov,
    Movi,
    Mova,
    Movs,
    Movw,
    Movk,
    Bi,
    Beq,
    Bne,
    Blt,
    Bge,
    Bk,
    Sf,
    Cf,
    Nf,
    Movf,
    Andf,
    Orf,
    Rdw,
    Gad,
    Wde,
    Wds,
    Fin,
    Wfq,
    Popq,
    Defer,
    Inv,
    Stwb,
    Blk,
    Wake,
    Tr,
    Ucblk,
    Ucdone,
    Done,
    Memrd,
    Memwb,
    Memww,
}

impl Operation {
    /// The top byte of the instruction's word.
    pub fn opcode(self) -> u8
        ensures { result ≡ opcode self }
    {
        match self {
            Operation::Nop => 0x00,
            Operation::Add => 0x01,
            Operation::Sub => 0x02,
            Operation::And => 0x03,
            Operation::Or => 0x04,
            Operation::Xor => 0x05,
            Operation::Shl => 0x06,
            Operation::Shr => 0x07,
            Operation::Addi => 0x08,
            Operation::Not => 0x09,
            Operation::Neg => 0x0a,
            Operation::Mov => 0x0b,
            Operation::Movi => 0x0c,
            Operation::Mova => 0x0d,
            Operation::Movs => 0x0e,
            Operation::Movw => 0x0f,
            Operation::Movk => 0x10,
            Operation::Bi => 0x20,
            Operation::Beq => 0x21,
            Operation::Bne => 0x22,
            Operation::Blt => 0x23,
            Operation::Bge => 0x24,
            Operation::Bk => 0x25,
            Operation::Sf => 0x30,
            Operation::Cf => 0x31,
            Operation::Nf => 0x32,
            Operation::Movf => 0x33,
            Operation::Andf => 0x34,
            Operation::Orf => 0x35,
            Operation::Rdw => 0x40,
            Operation::Gad => 0x41,
            Operation::Wde => 0x42,
            Operation::Wds => 0x43,
            Operation::Fin => 0x44,
            Operation::Wfq => 0x50,
            Operation::Popq => 0x51,
            Operation::Defer => 0x52,
            Operation::Inv => 0x53,
            Operation::Stwb => 0x60,
            Operation::Blk => 0x61,
            Operation::Wake => 0x62,
            Operation::Tr => 0x63,
            Operation::Ucblk => 0x64,
            Operation::Ucdone => 0x65,
            Operation::Done => 0x66,
            Operation::Memrd => 0x67,
            Operation::Memwb => 0x68,
            Operation::Memww => 0x69,
        }
    }
}

/// The operations, each with its mnemonic.
pub(crate) fn mnemonics() -> &'static [(&'static str, Operation)]
    ensures { map (λ m. (m.0.now, m.1)) result.now ≡ mnemonics }
{
    &[
        ("nop", Operation::Nop),
        ("add", Operation::Add),
        ("sub", Operation::Sub),
        ("and", Operation::And),
        ("or", Operation::Or),
        ("xor", Operation::Xor),
        ("shl", Operation::Shl),
        ("shr", Operation::Shr),
        ("addi", Operation::Addi),
        ("not", Operation::Not),
        ("neg", Operation::Neg),
        ("mov", Operation::Mov),
        ("movi", Operation::Movi),
        ("mova", Operation::Mova),
        ("movs", Operation::Movs),
        ("movw", Operation::Movw),
        ("movk", Operation::Movk),
        ("bi", Operation::Bi),
        ("beq", Operation::Beq),
        ("bne", Operation::Bne),
        ("blt", Operation::Blt),
        ("bge", Operation::Bge),
        ("bk", Operation::Bk),
        ("sf", Operation::Sf),
        ("cf", Operation::Cf),
        ("nf", Operation::Nf),
        ("movf", Operation::Movf),
        ("andf", Operation::Andf),
        ("orf", Operation::Orf),
        ("rdw", Operation::Rdw),
        ("gad", Operation::Gad),
        ("wde", Operation::Wde),
        ("wds", Operation::Wds),
        ("fin", Operation::Fin),
        ("wfq", Operation::Wfq),
        ("popq", Operation::Popq),
        ("defer", Operation::Defer),
        ("inv", Operation::Inv),
    ]
}

/// The operations of `pushq`, each with the word behind that.
pub(crate) fn pushed() -> &'static [(&'static str, Operation)]
    ensures { map (λ m. (m.0.now, m.1)) result.now ≡ pushed }
{
    &[
        ("stwb", Operation::Stwb),
        ("blk", Operation::Blk),
        ("wake", Operation::Wake),
        ("tr", Operation::Tr),
        ("ucblk", Operation::Ucblk),
        ("ucdone", Operation::Ucdone),
        ("done", Operation::Done),
        ("memrd", Operation::Memrd),
        ("memwb", Operation::Memwb),
        ("memww", Operation::Memww),
    ]
}

/// The operation of a word.
pub(crate) fn operation_named(operations: &[(&str, Operation)], word: &[u8]) -> Option<Operation>
    ensures { result ≡ operation_named (map (λ m. (m.0.now, m.1)) operations.now) word.now }
{
    for (name, operation) in operations {
        if name.as_bytes() == word {
            return Some(*operation);
        }
    }
    None
}

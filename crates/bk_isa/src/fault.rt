/// Which field of a word is the first that no instruction has. Bytes are counted from the top:
/// `a`, `b` and `c` are 1, 2 and 3, and the 32 bits of `imm` as a whole are 4.
#[derive(Clone, Copy, Debug, PartialEq, Eq)]
pub enum WordFault {
    /// The opcode, byte 0, is none of the table's.
    Opcode,
    /// The operand of this number, 1 to 4, is out of its range.
    Field(u8),
    /// The field of this number, 1 to 4, is no operand of the instruction and isn't 0.
    Reserved(u8),
}

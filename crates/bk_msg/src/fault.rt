/// Why bytes begin with no message. Places are counted from 0.
#[derive(Clone, Copy, Debug, PartialEq, Eq)]
pub enum MsgFault {
    /// Byte 0 is this number, which is that of no kind.
    Kind(u8),
    /// The byte at this place is out of the range that the kind gives it.
    Field(usize),
    /// The byte at this place belongs to no field of the kind, and it isn't 0.
    Reserved(usize),
    /// The bytes end within a message: as many as this are needed. It is the length of the whole
    /// message, or 1 where there is no byte.
    Short(usize),
}

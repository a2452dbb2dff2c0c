ghost use Rattle.std.specs.Prelude.{◌≡◌};
ghost use Rattle.bk_msg.specs.Kinds.{kind_code, kind_of_code};

/// The kind of a message: byte 0 of its spelling.
#[derive(Clone, Copy)]
pub enum Kind {
    Rd,
    Wr,
    UcRd,
    UcWr,
    Evict,
    Inv,
    StWb,
    StTr,
    Blk,
    StWake,
    UcBlk,
    UcDone,
    Done,
    Fill,
    InvAck,
    CohAck,
    Wb,
    NullWb,
    Read,
    Write,
    WriteWord,
    Block,
}

impl Kind {
    /// The number of the kind. Its first digit tells the network, but for 0x41 to 0x44: these are between engine and memory.
    pub fn code(self) -> u8
        ensures { result ≡ kind_code self }
    {
        match self {
            Kind::Rd => 0x01,
            Kind::Wr => 0x02,
            Kind::UcRd => 0x03,
            Kind::UcWr => 0x04,
            Kind::Evict => 0x05,
            Kind::Inv => 0x11,
            Kind::StWb => 0x12,
            Kind::StTr => 0x13,
            Kind::Blk => 0x14,
            Kind::StWake => 0x15,
            Kind::UcBlk => 0x16,
            Kind::UcDone => 0x17,
            Kind::Done => 0x18,
            Kind::Fill => 0x21,
            Kind::InvAck => 0x31,
            Kind::CohAck => 0x32,
            Kind::Wb => 0x33,
            Kind::NullWb => 0x34,
            Kind::Read => 0x41,
            Kind::Write => 0x42,
            Kind::WriteWord => 0x43,
            Kind::Block => 0x44,
        }
    }

    /// The kind with a number, or none for a number of no kind.
    pub fn from_code(code: u8) -> Option<Kind>
        ensures { result ≡ kind_of_code code }
    {
        match code {
            0x01 => Some(Kind::Rd),
            0x02 => Some(Kind::Wr),
            0x03 => Some(Kind::UcRd),
            0x04 => Some(Kind::UcWr),
            0x05 => Some(Kind::Evict),
            0x11 => Some(Kind::Inv),
            0x12 => Some(Kind::StWb),
            0x13 => Some(Kind::StTr),
            0x14 => Some(Kind::Blk),
            0x15 => Some(Kind::StWake),
            0x16 => Some(Kind::UcBlk),
            0x17 => Some(Kind::UcDone),
            0x18 => Some(Kind::Done),
            0x21 => Some(Kind::Fill),
            0x31 => Some(Kind::InvAck),
            0x32 => Some(Kind::CohAck),
            0x33 => Some(Kind::Wb),
            0x34 => Some(Kind::NullWb),
            0x41 => Some(Kind::Read),
            0x42 => Some(Kind::Write),
            0x43 => Some(Kind::WriteWord),
            0x44 => Some(Kind::Block),
            _ => None,
        }
    }
}

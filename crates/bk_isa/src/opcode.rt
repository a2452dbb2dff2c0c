//! The numbers of the operations, in the top byte of a word.

// Registers.
pub const NOP: u8 = 0x00;

pub const ADD: u8 = 0x01;

pub const SUB: u8 = 0x02;

pub const AND: u8 = 0x03;

pub const OR: u8 = 0x04;

pub const XOR: u8 = 0x05;

pub const SHL: u8 = 0x06;

pub const SHR: u8 = 0x07;

pub const ADDI: u8 = 0x08;

pub const NOT: u8 = 0x09;

pub const NEG: u8 = 0x0a;

pub const MOV: u8 = 0x0b;

pub const MOVI: u8 = 0x0c;

pub const MOVA: u8 = 0x0d;

pub const MOVS: u8 = 0x0e;

pub const MOVW: u8 = 0x0f;

pub const MOVK: u8 = 0x10;

// Branches.
pub const BI: u8 = 0x20;

pub const BEQ: u8 = 0x21;

pub const BNE: u8 = 0x22;

pub const BLT: u8 = 0x23;

pub const BGE: u8 = 0x24;

pub const BK: u8 = 0x25;

// Flags.
pub const SF: u8 = 0x30;

pub const CF: u8 = 0x31;

pub const NF: u8 = 0x32;

pub const MOVF: u8 = 0x33;

pub const ANDF: u8 = 0x34;

pub const ORF: u8 = 0x35;

// The directory and the held request.
pub const RDW: u8 = 0x40;

pub const GAD: u8 = 0x41;

pub const WDE: u8 = 0x42;

pub const WDS: u8 = 0x43;

pub const FIN: u8 = 0x44;

// Messages that come, and invalidations.
pub const WFQ: u8 = 0x50;

pub const POPQ: u8 = 0x51;

pub const DEFER: u8 = 0x52;

pub const INV: u8 = 0x53;

// Messages that go.
pub const STWB: u8 = 0x60;

pub const BLK: u8 = 0x61;

pub const WAKE: u8 = 0x62;

pub const TR: u8 = 0x63;

pub const UCBLK: u8 = 0x64;

pub const UCDONE: u8 = 0x65;

pub const DONE: u8 = 0x66;

pub const MEMRD: u8 = 0x67;

pub const MEMWB: u8 = 0x68;

pub const MEMWW: u8 = 0x69;

ghost use Rattle.std.specs.Prelude.{◌≡◌};
ghost use Rattle.bk_isa.specs.Fields.{fields_with, fields_of, form_of, pack, unpack};
ghost use Rattle.bk_isa.specs.Table.{state};

use crate::form::Form;
use crate::opcode;
use bk_base::Coh;

/// The fields of an instruction word, from the top: four bytes and 32 bits.
#[derive(Clone, Copy, Debug, PartialEq, Eq)]
pub struct Fields {
    pub op: u8,
    pub a: u8,
    pub b: u8,
    pub c: u8,
    pub imm: u32,
}

fn fields_with(op: u8, a: u8, b: u8, c: u8, imm: u32) -> Fields
    ensures { result ≡ fields_with op a b c imm }
{
    Fields { op, a, b, c, imm }
}

/// The fields of the form's word. A field that is no operand of it is 0.
pub fn fields_of(form: Form) -> Fields
    ensures { result ≡ fields_of form }
{
    match form {
        Form::Nop => fields_with(opcode::NOP, 0, 0, 0, 0),
        Form::Add { a, b, c } => fields_with(opcode::ADD, a, b, c, 0),
        Form::Sub { a, b, c } => fields_with(opcode::SUB, a, b, c, 0),
        Form::And { a, b, c } => fields_with(opcode::AND, a, b, c, 0),
        Form::Or { a, b, c } => fields_with(opcode::OR, a, b, c, 0),
        Form::Xor { a, b, c } => fields_with(opcode::XOR, a, b, c, 0),
        Form::Shl { a, b, imm } => fields_with(opcode::SHL, a, b, 0, imm),
        Form::Shr { a, b, imm } => fields_with(opcode::SHR, a, b, 0, imm),
        Form::Addi { a, b, imm } => fields_with(opcode::ADDI, a, b, 0, imm),
        Form::Not { a, b } => fields_with(opcode::NOT, a, b, 0, 0),
        Form::Neg { a, b } => fields_with(opcode::NEG, a, b, 0, 0),
        Form::Mov { a, b } => fields_with(opcode::MOV, a, b, 0, 0),
        Form::Movi { a, imm } => fields_with(opcode::MOVI, a, 0, 0, imm),
        Form::Mova { a } => fields_with(opcode::MOVA, a, 0, 0, 0),
        Form::Movs { a } => fields_with(opcode::MOVS, a, 0, 0, 0),
        Form::Movw { a } => fields_with(opcode::MOVW, a, 0, 0, 0),
        Form::Movk { a } => fields_with(opcode::MOVK, a, 0, 0, 0),
        Form::Bi { imm } => fields_with(opcode::BI, 0, 0, 0, imm),
        Form::Beq { a, b, imm } => fields_with(opcode::BEQ, a, b, 0, imm),
        Form::Bne { a, b, imm } => fields_with(opcode::BNE, a, b, 0, imm),
        Form::Blt { a, b, imm } => fields_with(opcode::BLT, a, b, 0, imm),
        Form::Bge { a, b, imm } => fields_with(opcode::BGE, a, b, 0, imm),
        Form::Bk { a, b, imm } => fields_with(opcode::BK, a, b, 0, imm),
        Form::Sf { a } => fields_with(opcode::SF, a, 0, 0, 0),
        Form::Cf { a } => fields_with(opcode::CF, a, 0, 0, 0),
        Form::Nf { a } => fields_with(opcode::NF, a, 0, 0, 0),
        Form::Movf { a, b } => fields_with(opcode::MOVF, a, b, 0, 0),
        Form::Andf { a, b } => fields_with(opcode::ANDF, a, b, 0, 0),
        Form::Orf { a, b } => fields_with(opcode::ORF, a, b, 0, 0),
        Form::Rdw => fields_with(opcode::RDW, 0, 0, 0, 0),
        Form::Gad => fields_with(opcode::GAD, 0, 0, 0, 0),
        Form::Wde { a } => fields_with(opcode::WDE, a.code(), 0, 0, 0),
        Form::Wds { a, b } => fields_with(opcode::WDS, a, b.code(), 0, 0),
        Form::Fin => fields_with(opcode::FIN, 0, 0, 0, 0),
        Form::Wfq { a } => fields_with(opcode::WFQ, a, 0, 0, 0),
        Form::Popq { a } => fields_with(opcode::POPQ, a, 0, 0, 0),
        Form::Defer => fields_with(opcode::DEFER, 0, 0, 0, 0),
        Form::Inv { a } => fields_with(opcode::INV, a, 0, 0, 0),
        Form::Stwb { a, b } => fields_with(opcode::STWB, a, b.code(), 0, 0),
        Form::Blk { a } => fields_with(opcode::BLK, a.code(), 0, 0, 0),
        Form::Wake => fields_with(opcode::WAKE, 0, 0, 0, 0),
        Form::Tr { a, b } => fields_with(opcode::TR, a.code(), b.code(), 0, 0),
        Form::Ucblk => fields_with(opcode::UCBLK, 0, 0, 0, 0),
        Form::Ucdone => fields_with(opcode::UCDONE, 0, 0, 0, 0),
        Form::Done => fields_with(opcode::DONE, 0, 0, 0, 0),
        Form::Memrd => fields_with(opcode::MEMRD, 0, 0, 0, 0),
        Form::Memwb => fields_with(opcode::MEMWB, 0, 0, 0, 0),
        Form::Memww => fields_with(opcode::MEMWW, 0, 0, 0, 0),
    }
}

/// The state with a code, or I for a code off the table.
fn state(code: u8) -> Coh
    ensures { result ≡ state code }
{
    Coh::from_code(code).unwrap_or(Coh::I)
}

/// The form of the fields' operation, or `nop` where there is no such operation. Its operands are the
/// fields, in the table's ranges or not.
pub fn form_of(fields: Fields) -> Form
    ensures { result ≡ form_of fields }
{
    let Fields { op, a, b, c, imm } = fields;
    match op {
        opcode::NOP => Form::Nop,
        opcode::ADD => Form::Add { a, b, c },
        opcode::SUB => Form::Sub { a, b, c },
        opcode::AND => Form::And { a, b, c },
        opcode::OR => Form::Or { a, b, c },
        opcode::XOR => Form::Xor { a, b, c },
        opcode::SHL => Form::Shl { a, b, imm },
        opcode::SHR => Form::Shr { a, b, imm },
        opcode::ADDI => Form::Addi { a, b, imm },
        opcode::NOT => Form::Not { a, b },
        opcode::NEG => Form::Neg { a, b },
        opcode::MOV => Form::Mov { a, b },
        opcode::MOVI => Form::Movi { a, imm },
        opcode::MOVA => Form::Mova { a },
        opcode::MOVS => Form::Movs { a },
        opcode::MOVW => Form::Movw { a },
        opcode::MOVK => Form::Movk { a },
        opcode::BI => Form::Bi { imm },
        opcode::BEQ => Form::Beq { a, b, imm },
        opcode::BNE => Form::Bne { a, b, imm },
        opcode::BLT => Form::Blt { a, b, imm },
        opcode::BGE => Form::Bge { a, b, imm },
        opcode::BK => Form::Bk { a, b, imm },
        opcode::SF => Form::Sf { a },
        opcode::CF => Form::Cf { a },
        opcode::NF => Form::Nf { a },
        opcode::MOVF => Form::Movf { a, b },
        opcode::ANDF => Form::Andf { a, b },
        opcode::ORF => Form::Orf { a, b },
        opcode::RDW => Form::Rdw,
        opcode::GAD => Form::Gad,
        opcode::WDE => Form::Wde { a: state(a) },
        opcode::WDS => Form::Wds { a, b: state(b) },
        opcode::FIN => Form::Fin,
        opcode::WFQ => Form::Wfq { a },
        opcode::POPQ => Form::Popq { a },
        opcode::DEFER => Form::Defer,
        opcode::INV => Form::Inv { a },
        opcode::STWB => Form::Stwb { a, b: state(b) },
        opcode::BLK => Form::Blk { a: state(a) },
        opcode::WAKE => Form::Wake,
        opcode::TR => Form::Tr {
            a: state(a),
            b: state(b),
        },
        opcode::UCBLK => Form::Ucblk,
        opcode::UCDONE => Form::Ucdone,
        opcode::DONE => Form::Done,
        opcode::MEMRD => Form::Memrd,
        opcode::MEMWB => Form::Memwb,
        opcode::MEMWW => Form::Memww,
        _ => Form::Nop,
    }
}

/// The fields of a word.
pub fn unpack(word: u64) -> Fields
    ensures { result ≡ unpack word }
{
    Fields {
        op: (word / (1 << 56)) as u8,
        a: (word / (1 << 48) % 256) as u8,
        b: (word / (1 << 40) % 256) as u8,
        c: (word / (1 << 32) % 256) as u8,
        imm: (word % (1 << 32)) as u32,
    }
}

/// The word of the fields.
pub fn pack(fields: Fields) -> u64
    ensures { result ≡ pack fields }
{
    ((fields.op as u64) << 56)
        + ((fields.a as u64) << 48)
        + ((fields.b as u64) << 40)
        + ((fields.c as u64) << 32)
        + fields.imm as u64
}

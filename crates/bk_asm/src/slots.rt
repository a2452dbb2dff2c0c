ghost use Rattle.std.specs.Prelude.{◌≡◌};
ghost use Rattle.bk_asm.specs.Operations.{slots_of};

use crate::names::Names;
use crate::operation::Operation;

/// What an operand that is a field a, b or c is written as.
#[derive(Clone, Copy)]
pub(crate) enum Slot {
    /// It isn't written, and is 0.
    Nothing,
    /// One name.
    Name(Names),
    /// One name, or nothing for 0.
    Perhaps(Names),
    /// Classes of messages with commas between them: their set.
    Classes,
    /// Values of the know field that stands before them, with commas between them: their set.
    Values,
}

/// What the operand that is the 32-bit field is written as.
#[derive(Clone, Copy)]
pub(crate) enum Last {
    /// It isn't written, and is 0.
    Nothing,
    /// A number below 64.
    Shift,
    /// A number of 32 bits.
    Number,
    /// A label: the place that a branch goes to.
    Target,
}

/// What an operation's operands are written as, in the order in which they are written.
#[derive(Clone, Copy)]
pub(crate) struct Slots {
    pub a: Slot,
    pub b: Slot,
    pub c: Slot,
    pub last: Last,
}

impl Slots {
    fn of(a: Slot, b: Slot, c: Slot, last: Last) -> Slots
        ensures { result ≡ record { a = a; b = b; c = c; last = last } }
    {
        Slots { a, b, c, last }
    }
}

/// The operands of an operation.
pub(crate) fn slots_of(operation: Operation) -> Slots
    ensures { result ≡ slots_of operation }
{
    match operation {
        Operation::Nop => Slots::of(Slot::Nothing, Slot::Nothing, Slot::Nothing, Last::Nothing),
        Operation::Add => Slots::of(
            Slot::Name(Names::Register),
            Slot::Name(Names::Register),
            Slot::Name(Names::Register),
            Last::Nothing,
        ),
        Operation::Sub => Slots::of(
            Slot::Name(Names::Register),
            Slot::Name(Names::Register),
            Slot::Name(Names::Register),
            Last::Nothing,
        ),
        Operation::And => Slots::of(
            Slot::Name(Names::Register),
            Slot::Name(Names::Register),
            Slot::Name(Names::Register),
            Last::Nothing,
        ),
        Operation::Or => Slots::of(
            Slot::Name(Names::Register),
            Slot::Name(Names::Register),
            Slot::Name(Names::Register),
            Last::Nothing,
        ),
        Operation::Xor => Slots::of(
            Slot::Name(Names::Register),
            Slot::Name(Names::Register),
            Slot::Name(Names::Register),
            Last::Nothing,
        ),
        Operation::Shl => Slots::of(
            Slot::Name(Names::Register),
            Slot::Name(Names::Register),
            Slot::Nothing,
            Last::Shift,
        ),
        Operation::Shr => Slots::of(
            Slot::Name(Names::Register),
            Slot::Name(Names::Register),
            Slot::Nothing,
            Last::Shift,
        ),
        Operation::Addi => Slots::of(
            Slot::Name(Names::Register),
            Slot::Name(Names::Register),
            Slot::Nothing,
            Last::Number,
        ),
        Operation::Not => Slots::of(
            Slot::Name(Names::Register),
            Slot::Name(Names::Register),
            Slot::Nothing,
            Last::Nothing,
        ),
        Operation::Neg => Slots::of(
            Slot::Name(Names::Register),
            Slot::Name(Names::Register),
            Slot::Nothing,
            Last::Nothing,
        ),
        Operation::Mov => Slots::of(
            Slot::Name(Names::Register),
            Slot::Name(Names::Register),
            Slot::Nothing,
            Last::Nothing,
        ),
        Operation::Movi => Slots::of(
            Slot::Name(Names::Register),
            Slot::Nothing,
            Slot::Nothing,
            Last::Number,
        ),
        Operation::Mova => Slots::of(
            Slot::Name(Names::Register),
            Slot::Nothing,
            Slot::Nothing,
            Last::Nothing,
        ),
        Operation::Movs => Slots::of(
            Slot::Name(Names::Register),
            Slot::Nothing,
            Slot::Nothing,
            Last::Nothing,
        ),
        Operation::Movw => Slots::of(
            Slot::Name(Names::Register),
            Slot::Nothing,
            Slot::Nothing,
            Last::Nothing,
        ),
        Operation::Movk => Slots::of(
            Slot::Name(Names::Register),
            Slot::Nothing,
            Slot::Nothing,
            Last::Nothing,
        ),
        Operation::Bi => Slots::of(Slot::Nothing, Slot::Nothing, Slot::Nothing, Last::Target),
        Operation::Beq => Slots::of(
            Slot::Name(Names::Register),
            Slot::Name(Names::Register),
            Slot::Nothing,
            Last::Target,
        ),
        Operation::Bne => Slots::of(
            Slot::Name(Names::Register),
            Slot::Name(Names::Register),
            Slot::Nothing,
            Last::Target,
        ),
        Operation::Blt => Slots::of(
            Slot::Name(Names::Register),
            Slot::Name(Names::Register),
            Slot::Nothing,
            Last::Target,
        ),
        Operation::Bge => Slots::of(
            Slot::Name(Names::Register),
            Slot::Name(Names::Register),
            Slot::Nothing,
            Last::Target,
        ),
        Operation::Bk => Slots::of(
            Slot::Name(Names::Tested),
            Slot::Values,
            Slot::Nothing,
            Last::Target,
        ),
        Operation::Sf => Slots::of(
            Slot::Name(Names::Flag),
            Slot::Nothing,
            Slot::Nothing,
            Last::Nothing,
        ),
        Operation::Cf => Slots::of(
            Slot::Name(Names::Flag),
            Slot::Nothing,
            Slot::Nothing,
            Last::Nothing,
        ),
        Operation::Nf => Slots::of(
            Slot::Name(Names::Flag),
            Slot::Nothing,
            Slot::Nothing,
            Last::Nothing,
        ),
        Operation::Movf => Slots::of(
            Slot::Name(Names::Flag),
            Slot::Name(Names::Flag),
            Slot::Nothing,
            Last::Nothing,
        ),
        Operation::Andf => Slots::of(
            Slot::Name(Names::Flag),
            Slot::Name(Names::Flag),
            Slot::Nothing,
            Last::Nothing,
        ),
        Operation::Orf => Slots::of(
            Slot::Name(Names::Flag),
            Slot::Name(Names::Flag),
            Slot::Nothing,
            Last::Nothing,
        ),
        Operation::Rdw => Slots::of(Slot::Nothing, Slot::Nothing, Slot::Nothing, Last::Nothing),
        Operation::Gad => Slots::of(Slot::Nothing, Slot::Nothing, Slot::Nothing, Last::Nothing),
        Operation::Wde => Slots::of(
            Slot::Name(Names::Valid),
            Slot::Nothing,
            Slot::Nothing,
            Last::Nothing,
        ),
        Operation::Wds => Slots::of(
            Slot::Name(Names::Whose),
            Slot::Name(Names::State),
            Slot::Nothing,
            Last::Nothing,
        ),
        Operation::Fin => Slots::of(Slot::Nothing, Slot::Nothing, Slot::Nothing, Last::Nothing),
        Operation::Wfq => Slots::of(Slot::Classes, Slot::Nothing, Slot::Nothing, Last::Nothing),
        Operation::Popq => Slots::of(
            Slot::Perhaps(Names::Pending),
            Slot::Nothing,
            Slot::Nothing,
            Last::Nothing,
        ),
        Operation::Defer => Slots::of(Slot::Nothing, Slot::Nothing, Slot::Nothing, Last::Nothing),
        Operation::Inv => Slots::of(
            Slot::Perhaps(Names::Owner),
            Slot::Nothing,
            Slot::Nothing,
            Last::Nothing,
        ),
        Operation::Stwb => Slots::of(
            Slot::Name(Names::Holder),
            Slot::Name(Names::Clean),
            Slot::Nothing,
            Last::Nothing,
        ),
        Operation::Blk => Slots::of(
            Slot::Name(Names::Granted),
            Slot::Nothing,
            Slot::Nothing,
            Last::Nothing,
        ),
        Operation::Wake => Slots::of(Slot::Nothing, Slot::Nothing, Slot::Nothing, Last::Nothing),
        Operation::Tr => Slots::of(
            Slot::Name(Names::Left),
            Slot::Name(Names::Received),
            Slot::Nothing,
            Last::Nothing,
        ),
        Operation::Ucblk => Slots::of(Slot::Nothing, Slot::Nothing, Slot::Nothing, Last::Nothing),
        Operation::Ucdone => Slots::of(Slot::Nothing, Slot::Nothing, Slot::Nothing, Last::Nothing),
        Operation::Done => Slots::of(Slot::Nothing, Slot::Nothing, Slot::Nothing, Last::Nothing),
        Operation::Memrd => Slots::of(Slot::Nothing, Slot::Nothing, Slot::Nothing, Last::Nothing),
        Operation::Memwb => Slots::of(Slot::Nothing, Slot::Nothing, Slot::Nothing, Last::Nothing),
        Operation::Memww => Slots::of(Slot::Nothing, Slot::Nothing, Slot::Nothing, Last::Nothing),
    }
}

ghost use Rattle.std.specs.Prelude.{◌≡◌, ◌↔◌, IfOk, IfSome, IsSome, Ok};
ghost use Rattle.bk_isa.specs.declared.form.Form.{Form};
ghost use Rattle.bk_isa.specs.Words.{IsInRange, encode, decode};
ghost use Rattle.bk_isa.specs.Operands.{Operands};

use crate::fault::WordFault;
use crate::fields::{fields_of, form_of, pack, unpack};
use crate::form::Form;
use crate::table::fault_in;
use std::marker::Model;

/// An instruction: a form whose operands are all in range. Contracts see the form.
#[derive(Clone, Copy, Debug, PartialEq, Eq)]
pub struct Instr {
    form: Form,
}

impl Model for Instr {
    ghost use Rattle.bk_isa.specs.declared.form.Form.{Form};
    ghost use Rattle.bk_isa.specs.Words.{IsInRange};

    ghost Value = { Form };

    ghost view = { λ i. i.form };

    ghost invariant = { λ i. IsInRange i.form };

    ghost inverse = { λ f. record { form = f } };
}

impl Instr {
    /// The instruction of a form, or none where an operand is out of its range.
    pub fn make(form: Form) -> Option<Instr>
        ensures value { IfSome result (λ i. i ≡ form) }
        ensures some { IsSome result ↔ IsInRange form }
    {
        match fault_in(fields_of(form)) {
            None => Some(Instr { form }),
            Some(_) => None,
        }
    }

    /// The form of the instruction, and in which ranges its operands are.
    pub fn form(self) -> Form
        ensures value { result ≡ self }
        ensures in_range { IsInRange result }
        ensures operands { Operands result }
    {
        self.form
    }
}

/// The one word of an instruction, whose operands are all in range.
pub fn word_of(instr: Instr) -> u64
    ensures value { result ≡ encode instr }
    ensures in_range { IsInRange instr }
{
    pack(fields_of(instr.form))
}

fn read(word: u64) -> Result<Instr, WordFault>
    ensures { result ≡ decode word }
{
    let fields = unpack(word);
    match fault_in(fields) {
        None => Ok(Instr {
            form: form_of(fields),
        }),
        Some(fault) => Err(fault),
    }
}

/// The instruction whose word this is, or the first field that no instruction has.
pub fn instr_of(word: u64) -> Result<Instr, WordFault>
    // What is read has this word.
    ensures found { IfOk result (λ i. encode i ≡ word) }
    // An instruction that has this word is read.
    ensures only { (f : Form) → IsInRange f → encode f ≡ word → result ≡ Ok f }
    // Which fault it is.
    ensures exact { result ≡ decode word }
{
    read(word)
}

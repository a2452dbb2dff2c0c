//! Instructions: their forms, the ranges of their operands, and the one word of each.
#![tactic(auto)]

mod fault;
mod fields;
mod form;
mod instr;
mod opcode;
pub mod operand;
mod table;

pub use fault::WordFault;
pub use form::Form;
pub use instr::{Instr, instr_of, word_of};

#[cfg(test)]
mod tests;

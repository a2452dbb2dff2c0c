//! Microcode as text: the assembler and the disassembler.
#![tactic(auto)]

mod assembly;
mod caches;
mod draft;
mod fault;
mod know;
mod labels;
mod line;
mod mnemonic;
mod names;
mod operand;
mod operation;
mod slots;
mod statement;
mod writing;

pub use assembly::assemble;
pub use fault::{AsmFault, Kind};
pub use writing::{canonical_text_again, disassemble};

#[cfg(test)]
mod tests;

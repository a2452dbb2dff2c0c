//! Texts of lines, words and numbers: what a file is before its own grammar.
//!
//! A line ends with LF or CR LF, and the last one may lack its end. Words are the longest runs of
//! bytes without spaces and tabs. Lines and columns count from 1, columns in bytes.
//!
//! [`Lines`] gives the words of a whole text with their places in it. [`cut_line`] and [`TextLine`] go
//! line by line, for grammars with comments. [`word_at`], [`wrong`] and [`fault_behind`] tell what is
//! wrong with a line, in the kinds of fault of its grammar ([`FaultKind`]).
#![tactic(auto)]

mod fault;
mod law;
mod lines;
mod numbers;
mod scan;
mod text_line;

pub use fault::{At, FaultKind, fault_behind, word_at, wrong};
pub use law::words_of_a_line;
pub use lines::{Lines, Word};
pub use numbers::number;
pub use scan::{cut_line, is_text_byte};
pub use text_line::{Placed, TextLine};

#[cfg(test)]
mod tests;

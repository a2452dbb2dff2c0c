//! The verifier of microcode: whether the know lines of an image follow from its instructions, and
//! whether each instruction meets its obligations.
#![tactic(auto)]

mod granting;
mod obligations;
mod pass;
mod waiting;

pub use pass::{Refusal, check};

#[cfg(test)]
mod tests;

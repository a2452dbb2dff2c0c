//! The main theorems: every image of microcode that is certified is coherent in every run; and the law of the abstract protocol.
#![tactic(auto)]

mod certified;
pub mod laws;

pub use certified::{Certified, Refused, certify};

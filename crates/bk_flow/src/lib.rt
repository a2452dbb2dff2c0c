//! The flow of know masks through microcode: what an instruction leaves of the mask at its place, and the edges to the
//! next place and to a branch's target.
#![tactic(auto)]

mod edges;
mod flow;
mod masks;

pub use edges::{fall, jump, target};
pub use masks::{lacks, may, only_debt, only_down, start};

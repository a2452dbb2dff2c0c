//! How many events a run of an accepted image can have. Nothing here runs: the function is empty, and its contract is a theorem on
//! the definitions of `specs/`.
#![tactic(auto)]

mod laws;

pub use laws::bounds;

//! What each agent of a system does by itself. Nothing here runs: the functions are empty, and their contracts are the laws.
#![tactic(auto)]

mod laws;

pub use laws::{channels, rows};

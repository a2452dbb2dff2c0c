//! The agents of a system, each with hardware and with ends of channels of its own, and what one of them does in a round (docs/THREADS.md).
//!
//! A call with the bound `Wait` may wait for another thread that was stopped within such a call. What it answers holds if it returns.
#![tactic(auto)]

mod acting;
mod agent;
mod ends;
mod reading;
mod sending;
mod taking;
mod turns;

pub use agent::Agent;
pub use ends::{Inlet, Outlet};
pub use reading::read;
pub use turns::{PATIENCE, TURNS};

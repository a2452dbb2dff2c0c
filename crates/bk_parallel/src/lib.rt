//! A run of a system whose agents work side by side, each in a thread of its own (docs/THREADS.md).
//!
//! A call with the bound `Wait` may wait for another thread that was stopped within such a call. What it answers holds if it returns.
#![tactic(auto)]

mod closing;
mod opening;
mod routes;
mod run;
mod sides;
mod team;

pub use run::run_agents;

#[cfg(test)]
mod tests;

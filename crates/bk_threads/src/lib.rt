//! What agents have done side by side, each in a journal of its own, as one list of events.
//!
//! Each entry of a journal has a stamp, and [`merge`] sorts the entries of all by it. [`walk_laws`] says when what each agent has done
//! alone is then one run of them all.
#![tactic(auto)]

mod agents;
mod merging;

pub use agents::{merge_laws, round_laws, system_laws, walk_laws};
pub use merging::{Journal, Stamped, merge};

#[cfg(test)]
mod tests;

//! Channels between threads: bounded queues of packets, each from one sender to one receiver (docs/THREADS.md).
//!
//! A call with the bound `Wait` may wait for another thread that was stopped within such a call. What it answers holds if it returns.
#![tactic(auto)]

mod closed;
mod ends;
mod rule;

pub use closed::{Closed, close};
pub use ends::{Full, Receiver, Sender, channel};

#[cfg(test)]
mod tests;

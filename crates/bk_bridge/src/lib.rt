//! The bridge from the system to the abstract machine, over definitions alone: what an event of a cache or of the memory does to
//! the system is what it does to the machine, what the engine reads and writes there, and what holds in each state of a run. Nothing
//! here runs. The functions are empty, and their contracts are theorems on the definitions of `specs/`.
#![tactic(auto)]

mod bridge;

pub use bridge::{engine_actions, engine_effects, engine_readings, event_steps, reached_states};

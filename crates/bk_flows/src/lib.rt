//! What the flow of masks says of the engine: the exact mask of each state follows the flow of the exact mask before it. Laws over
//! definitions: nothing here runs, and each function is empty.
#![tactic(auto)]

mod laws;

pub use laws::engine_runs;

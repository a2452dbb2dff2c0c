//! Why an accepted image's engine makes permitted actions alone: the exact mask of a state, and what is told of a run beside its states.
//! Laws over definitions: nothing here runs, and each function is empty.
#![tactic(auto)]

mod laws;

pub use laws::{exact_masks, exact_ties};

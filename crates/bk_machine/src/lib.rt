//! The abstract protocol, over definitions alone: a machine of caches, one memory and an engine that makes permitted actions, and
//! its invariant. Nothing here runs. Each function is empty, and its contract is a theorem on the definitions of `specs/`
//! (docs/PROTOCOL.md says them in words).
#![tactic(auto)]

mod theorems;

pub use theorems::{engine_view, example, invariant, product_forms, protocol, traffic};

//! A cache: its lines, the table of what it does, and the policy that names its victims.
#![tactic(auto)]

mod cache;
mod cache_arrays;
mod cache_table;
mod commands;
mod grants;
mod has_row;
mod issue;
pub mod laws;
mod line;
mod lines;
mod new_cache;
mod policy;
mod recency;
mod views;

pub use cache::{Cache, address_of};
pub use cache_arrays::CacheArrays;
pub use line::{Busy, CacheStep, Foreign, InProgress, Line, WayView};
pub use policy::{Victim, oldest, pinned};

#[cfg(test)]
mod tests;

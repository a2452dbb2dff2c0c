//! The directory: what each cache may hold, by duplicate tags, and which way groups are pending.
#![tactic(auto)]

mod directory;
mod entry;
pub mod laws;
mod segment;
mod summaries;

pub use directory::Directory;
pub use entry::{Entry, Query, Summary};

#[cfg(test)]
mod tests;

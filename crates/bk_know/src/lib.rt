//! What is known of an engine at a place: for each of 18 fields the set of its possible values.
#![tactic(auto)]

pub mod fields;
mod know;
mod sets;
pub mod values;

pub use know::{Know, held, idle};
pub use sets::{Sets, any_empty, field, subset, union, within};

#[cfg(test)]
mod tests;

//! Places, states and operations: the words that every other crate speaks in.
#![tactic(auto)]

mod addr;
mod coh;
mod config;
mod op;

pub use addr::{Addr, block_of, group_of, set_of, tag_at, tag_of, word_of};
pub use coh::Coh;
pub use config::{BadConfig, Config, MOST_CACHES, MOST_WAYS};
pub use op::{Done, Op};

//! The messages between caches, engine and memory: what each is, its one spelling in bytes, and
//! how a stream of bytes is read in any pieces.
#![tactic(auto)]

mod codec;
mod fault;
mod feed;
mod fields;
mod kind;
mod makes;
mod message;
mod row;
mod table;
mod within;

pub use codec::{Packet, decode, encode, one_spelling, spell};
pub use fault::MsgFault;
pub use feed::{Feed, FeedEnd, FeedFault, any_pieces};
pub use message::Message;
pub use row::{ENGINE, MEMORY, Network, Row};

#[cfg(test)]
mod tests;

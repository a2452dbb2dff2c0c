//! The hardware of a system: its caches, engine, memory and channels, and what each event does in it.
#![tactic(auto)]

mod any_event;
mod bits;
mod bounds;
mod cache_events;
mod caches;
mod channel;
mod channels;
mod deliveries;
mod engine_event;
mod event;
mod hardware;
mod heads;
mod lookups;
mod memory;
mod memory_event;
mod needs;
mod queue;
mod quiet;
mod sending;
#[cfg(test)]
mod tests;

pub use channel::Channel;
pub use event::{Event, MOST_SENT, Origin};
pub use hardware::{FILL_CHANNELS, Hardware};
pub use memory::MainMemory;
pub use sending::SENDERS;

use crate::ends::{Inlet, Outlet};
use bk_system::Hardware;
use bk_threads::Stamped;

/// An agent: a cache, the engine or the memory, with hardware of its own.
///
/// It makes its own events alone, so that of the hardware only its part ever changes, and the channels that lead to it, which are its
/// inboxes, and those that lead away from it, which are its outboxes.
#[derive(Drop)]
pub struct Agent {
    /// Its number: that of a cache, then the engine, then the memory.
    pub number: u8,
    /// Its own, of the configuration of the system.
    pub hardware: Hardware,
    /// Of the channels that lead to it from other agents.
    pub inlets: Vec<Inlet>,
    /// Of the channels that lead from it to other agents.
    pub outlets: Vec<Outlet>,
    /// How many turns it has made, up to the last value of a u64.
    pub turns: u64,
    /// The greatest stamp that it has given to an event or seen on a packet.
    pub clock: u64,
    /// Its events of the round, the oldest first, each with its stamp.
    pub entries: Vec<Stamped>,
}

use bk_net::{Receiver, Sender};
use bk_system::Channel;

/// An end of a channel from which an agent takes packets.
#[derive(Drop)]
pub struct Inlet {
    /// Which channel of the system it is.
    pub channel: Channel,
    /// The end of the queue that carries it in this round.
    pub receiver: Receiver,
}

/// An end of a channel to which an agent sends packets.
#[derive(Drop)]
pub struct Outlet {
    /// Which channel of the system it is.
    pub channel: Channel,
    /// The end of the queue that carries it in this round.
    pub sender: Sender,
}

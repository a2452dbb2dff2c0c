ghost use Rattle.std.specs.Prelude.{◌≡◌, ℕ, ◌+◌, ◌^◌};
ghost use Rattle.bk_run.specs.Report.{no_counts, count_event, count_network};
ghost use Rattle.bk_run.specs.CountBounds.{IsAtMost};
ghost use Rattle.bk_msg.specs.Networks.{network_of};

use bk_msg::{Message, Network};
use bk_system::{Event, MOST_SENT};

/// How many events of each kind were enabled, and how many messages they sent in each network.
#[derive(Clone, Copy, Debug, PartialEq, Eq)]
pub struct Counts {
    pub issue: u64,
    pub command: u64,
    pub fill: u64,
    pub memory: u64,
    pub engine: u64,
    pub requests: u64,
    pub commands: u64,
    pub fills: u64,
    pub responses: u64,
    pub memouts: u64,
    pub memins: u64,
}

impl Counts {
    /// No event and no message.
    pub(crate) fn new() -> Counts
        ensures { result ≡ no_counts }
    {
        Counts {
            issue: 0,
            command: 0,
            fill: 0,
            memory: 0,
            engine: 0,
            requests: 0,
            commands: 0,
            fills: 0,
            responses: 0,
            memouts: 0,
            memins: 0,
        }
    }

    /// Counts an event that was enabled, by its kind.
    pub(crate) fn add_event(&mut self, event: &Event)
        requires { IsAtMost (2 ^ 63) (2 ^ 63) self.old }
        ensures value { self.new ≡ count_event self.old event.now }
        ensures grows { (events messages : ℕ) → IsAtMost events messages self.old → IsAtMost (events + 1) messages self.new }
    {
        match event {
            Event::Issue { .. } => self.issue += 1,
            Event::Command { .. } => self.command += 1,
            Event::Fill { .. } => self.fill += 1,
            Event::Memory => self.memory += 1,
            Event::Engine { .. } => self.engine += 1,
        }
    }

    /// Counts a message, by its network.
    pub(crate) fn add_message(&mut self, message: &Message)
        requires { IsAtMost (2 ^ 63) (2 ^ 63 + MOST_SENT) self.old }
        ensures value { self.new ≡ count_network self.old (network_of message.now) }
        ensures grows { (events messages : ℕ) → IsAtMost events messages self.old → IsAtMost events (messages + 1) self.new }
    {
        self.add_network(message.row().network());
    }

    fn add_network(&mut self, network: Network)
        requires { IsAtMost (2 ^ 63) (2 ^ 63 + MOST_SENT) self.old }
        ensures { self.new ≡ count_network self.old network }
    {
        match network {
            Network::Request => self.requests += 1,
            Network::Command => self.commands += 1,
            Network::Fill => self.fills += 1,
            Network::Response => self.responses += 1,
            Network::Memout => self.memouts += 1,
            Network::Memin => self.memins += 1,
        }
    }
}

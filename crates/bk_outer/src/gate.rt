/// What each agent of a threaded replay passes at the beginning of each of its turns. It promises nothing but that it returns. By a gate of
/// its own a test sees what the agents do side by side.
pub trait Gate {
    /// Lets the agent with this number pass, before its turn with this number. The turns of an agent count from 0 over all its rounds, up
    /// to the last value of a u64.
    fn pass(&self, agent: u8, turn: u64);
}

/// The gate that lets every agent pass at once.
#[derive(Clone, Copy, Debug)]
pub struct Free;

impl Gate for Free {
    fn pass(&self, _agent: u8, _turn: u64) {}
}

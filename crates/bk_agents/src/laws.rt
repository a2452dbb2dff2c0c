//! Laws over definitions alone: each function is empty, and its contract is the law.

ghost use Rattle.bk_agents.specs.Laws.{RowsAreLocal, PartsStay, ChannelsGrow, WalksAreTight, OneHeadCounts, TouchesAHead, HoldsOn, TouchesItsOwn, SendsFromItself};

/// Each event of the system is its agent's own. Its row is the local row of the agent's part and the channels' heads, put back into the
/// system: it changes that part and no other, takes at most one head off, and appends what it sends. So a list of events was enabled where
/// it stands if and only if each of them has a local row there.
pub fn rows()
    ensures local { RowsAreLocal }
    ensures parts { PartsStay }
    ensures channels { ChannelsGrow }
    ensures lists { WalksAreTight }
{}

/// A local row looks at no head but that of the channel it touches, which ends at its agent. What it sends begins there. A head is there,
/// if the one that the engine holds still stands first in its channel, and so it stays.
pub fn channels()
    ensures heads { OneHeadCounts }
    ensures there { TouchesAHead }
    ensures holds { HoldsOn }
    ensures ends { TouchesItsOwn }
    ensures begins { SendsFromItself }
{}

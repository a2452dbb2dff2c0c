ghost use Rattle.bk_threads.specs.Laws.{OneMerge, JournalsStand, WalksGoOn, WalksJoin, StampsOrder, WalksRun, ChannelsAfter, PartsAfter, SystemIsLocal, SystemRuns, RoundsRun, WalksHeed};

/// Journals have one merge, whatever the order in which they stand. Where no stamp in an agent's journal is below one before it, the merge
/// has that journal's entries in their order.
pub fn merge_laws()
    ensures one { OneMerge }
    ensures stand { JournalsStand }
{}

/// Agents take packets from channels and send others, each with a part of its own. Where each has made its steps alone, on the packets that
/// its channels brought it in all, and each step that looks at a packet has a greater stamp than that packet, the steps of all by stamp are
/// a run of them all: each was enabled where it stands, and each channel holds what it should.
///
/// Of what types channels, parts, events and messages are, nothing is asked, but that a test tells whether two channels are the same.
pub fn walk_laws<Channel, Part, Event, Message>()
    ensures go_on { WalksGoOn Channel Part Event Message }
    ensures join { WalksJoin Channel Part Event Message }
    ensures order { StampsOrder Channel Part Event Message }
    ensures run { WalksRun Channel Part Event Message }
    ensures channels { ChannelsAfter Channel Part Event Message }
    ensures parts { PartsAfter Channel Part Event Message }
{}

/// The system's agents are such agents, and what is a run of them is a list of events that were all enabled where they stand.
pub fn system_laws()
    ensures local { SystemIsLocal }
    ensures run { SystemRuns }
{}

/// Each agent works alone in a round, on what its channels bring it. The merge of the journals is then a list of events that were all
/// enabled where they stand, and it leaves each agent's part and each channel as the agents left them.
pub fn round_laws()
    ensures run { RoundsRun }
    ensures heed { WalksHeed }
{}

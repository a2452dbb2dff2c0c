ghost use Rattle.std.specs.Prelude.{◌≡◌, ◌<◌, ℕ, List};
ghost use Rattle.bk_base.specs.Places.{Shape, IsAddr};
ghost use Rattle.bk_machine.specs.World.{World, empty_world};
ghost use Rattle.bk_machine.specs.Runs.{Event, MayHappen, Listed, event_after, run};
ghost use Rattle.bk_machine.specs.Invariant.{Invariant};
ghost use Rattle.bk_machine.specs.Claims.{Sole, Latest, PendingAgrees, NoForeign, Collectable, Quiet, Rested};
ghost use Rattle.bk_machine.specs.Readings.{Readings, UnderWay, AcksFall};
ghost use Rattle.bk_machine.specs.Example as first;
ghost use Rattle.bk_machine.specs.SecondExample as second;
ghost use Rattle.bk_msg.specs.declared.row.Row.{Row};
ghost use Rattle.bk_machine.specs.Products.{Spoken, AtPlace};

/// The invariant is inductive: the empty state has it, each Issue, Command, Fill and Memory event and each permitted action keeps
/// it, and so every list of them from the empty state on does. This holds for every configuration and for lists of any length.
pub fn invariant()
    ensures start { (k : Shape) → Invariant k (empty_world k.ways) }
    ensures event { (k : Shape) (w : World) (e : Event) → MayHappen k w e → Invariant k w → Invariant k (event_after k w e) }
    ensures list { (k : Shape) (events : List Event) → Listed k events (empty_world k.ways)
        → Invariant k (run k events (empty_world k.ways)) }
{}

/// What a state with the invariant shows of the protocol: a block in E or M is valid in one cache alone and no cache has a block
/// in two ways; each load has answered the latest store of its word; a way group is pending exactly while a request of it that
/// was taken isn't settled.
pub fn protocol()
    ensures sole { (k : Shape) (w : World) → Invariant k w → Sole w }
    ensures latest { (k : Shape) (w : World) → Invariant k w → Latest w }
    ensures pending { (k : Shape) (w : World) → Invariant k w → PendingAgrees w }
{}

/// What a state with the invariant shows of messages: the head of a command or fill channel always has a row in the receiver's
/// table; each other head than CohAck that comes to the engine is of the way group of the request that it serves, and is waited
/// for; and where nothing is under way and no request is served, no group is pending and no cache waits.
pub fn traffic()
    ensures no_foreign { (k : Shape) (w : World) → Invariant k w → NoForeign k w }
    ensures collectable { (k : Shape) (w : World) → Invariant k w → Collectable w }
    ensures rests { (k : Shape) (w : World) → Invariant k w → Quiet w → Rested w }
{}

/// What a state with the invariant shows of the directory and of the transaction: what the engine reads as own, owner and others
/// while a request is served, how much is under way for it, in messages and in acks to come, and how many acks it can have.
pub fn engine_view()
    ensures readings { (k : Shape) (w : World) → Invariant k w → Readings k w }
    ensures under_way { (k : Shape) (w : World) → Invariant k w → UnderWay k w }
    ensures acks_fall { (k : Shape) (w : World) → Invariant k w → AcksFall k w }
{}

/// The machine moves: two runs of events and permitted actions, and what their operations answer. In the first, of 64 in one way
/// group: a load, a store without a word to the engine, a transfer, a flush with its write back, an uncached store that invalidates,
/// an eviction and an uncached load. In the second, of 69 in two way groups of two ways: a store that is granted M, a load of
/// another group before that is settled, a flush of the owner, copies in S beside one in F, a store that invalidates these and wakes
/// its own copy, and a block in each way of one cache. Each of the 22 permitted actions is in one of the two.
pub fn example()
    ensures listed { Listed first.shape first.events (empty_world 1) }
    ensures answers { (run first.shape first.events (empty_world 1)).history ≡ first.answers }
    ensures second_listed { Listed second.shape second.events (empty_world 2) }
    ensures second_answers { (run second.shape second.events (empty_world 2)).history ≡ second.answers }
{}

/// The machine speaks of the product's messages and addresses: each message has a form in the network that it travels in, and two
/// addresses of one way group, tag and word are the same.
pub fn product_forms()
    ensures messages { (k : Shape) (m : Row) → Spoken k m }
    ensures places { (k : Shape) (a b : ℕ) → IsAddr a → IsAddr b → 0 < k.sets → AtPlace k a b → a ≡ b }
{}

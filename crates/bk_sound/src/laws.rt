//! Laws over definitions alone: each function is empty, and its contract is the law.

ghost use Rattle.std.specs.Prelude.{List};
ghost use Rattle.bk_base.specs.Places.{Shape, InProfile};
ghost use Rattle.bk_machine.specs.World.{empty_world};
ghost use Rattle.bk_machine.specs.Runs.{Event, Listed, run};
ghost use Rattle.bk_machine.specs.Claims.{Sole, Latest, PendingAgrees};

/// The abstract protocol is coherent. Whatever Issue, Command, Fill and Memory events come and whatever permitted actions the
/// engine makes, in whatever order and however many, from the empty state of any configuration of the profile: a block in E or
/// M is valid in one cache alone, and no cache has a block in two ways; each load has answered the latest store of its word in
/// the one history of completions, or 0; and a way group is pending exactly while a request of it that was taken isn't settled,
/// of which there is one at most.
pub fn table_machine()
    ensures sole { (k : Shape) (events : List Event) → InProfile k → Listed k events (empty_world k.ways)
        → Sole (run k events (empty_world k.ways)) }
    ensures latest { (k : Shape) (events : List Event) → InProfile k → Listed k events (empty_world k.ways)
        → Latest (run k events (empty_world k.ways)) }
    ensures pending { (k : Shape) (events : List Event) → InProfile k → Listed k events (empty_world k.ways)
        → PendingAgrees (run k events (empty_world k.ways)) }
{}

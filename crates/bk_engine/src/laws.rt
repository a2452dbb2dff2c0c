ghost use Rattle.bk_engine.specs.Laws.{OnlyPopMarks, RequestMarks, ResponseMarks, BlockMarksNone, OnlyFourWrite, InvSends, InvReaches, InvReachesOwner, HaltsForGood};

/// What the instructions mean for the directory and the caches. Only `popq wp` changes pending bits: a request that is popped
/// makes its way group pending, a response ends that, and a `Block` changes none. Only `wde`, `wds`, `inv` and `stwb` change
/// entries. `inv` sends one invalidation to each other cache with an entry `S` of the request's block, with `o` one to the owner
/// too, and none to any other cache nor to the one that asks; a cache that is sent one has no entry of the block then. An engine
/// that halts halts again for the same reason, whatever it is offered.
pub fn laws()
    ensures only_pop_marks { OnlyPopMarks }
    ensures request_marks { RequestMarks }
    ensures response_marks { ResponseMarks }
    ensures block_marks_none { BlockMarksNone }
    ensures only_four_write { OnlyFourWrite }
    ensures inv_sends { InvSends }
    ensures inv_reaches { InvReaches }
    ensures inv_reaches_owner { InvReachesOwner }
    ensures halts_for_good { HaltsForGood }
{}

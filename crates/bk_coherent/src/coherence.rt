ghost use Rattle.bk_coherent.specs.Examples.{WritersApart, LatestAlone, PendingAlone, OpensCoherent};
ghost use Rattle.bk_coherent.specs.Statements.{ClaimsAlike, TiedCohere, TiedTake, TiedRest, TiedMove, PlacesRun};

/// What the abstract machine's claims say of the system's own state. A state that is tied to what is told of its run is coherent: a
/// single writer or many readers, the latest value to each load, and pending groups that agree with what was taken and settled. No
/// command or fill is foreign in it. And where the obligations are met at the engine's place, a quiet system rests, and if
/// the instruction there doesn't halt the system is never stuck but at rest.
pub fn coherent_states()
    ensures claims { ClaimsAlike }
    ensures tied { TiedCohere }
    ensures taken { TiedTake }
    ensures rests { TiedRest }
    ensures moves { TiedMove }
    ensures places { PlacesRun }
{}

/// The claims tell states apart: each refuses some, and not all. And where each run begins all three hold.
pub fn examples()
    ensures writers { WritersApart }
    ensures latest { LatestAlone }
    ensures pending { PendingAlone }
    ensures opening { OpensCoherent }
{}

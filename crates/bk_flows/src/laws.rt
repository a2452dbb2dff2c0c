ghost use Rattle.bk_flows.specs.Flows.{NeverHalts, MaskFollows};

/// Where the exact mask meets the obligations O5 to O23 of the instruction at the engine's place, that instruction doesn't halt: it runs,
/// or waits for a message. And after one that runs, the edge that it takes exists in the flow of the exact mask, and the exact mask fits
/// what the edge leads in: it is within that, but for owner, others and victim once the grant is sent.
pub fn engine_runs()
    ensures halts { NeverHalts }
    ensures follows { MaskFollows }
{}

ghost use Rattle.std.specs.Prelude.{◌≡◌};
ghost use Rattle.bk_base.specs.Places.{Shape};
ghost use Rattle.bk_engine.specs.Engine.{new_engine};
ghost use Rattle.bk_exact.specs.Told.{untold};
ghost use Rattle.bk_exact.specs.Exact.{exact};
ghost use Rattle.bk_exact.specs.Runs.{OpensTied, EventsTie, InstructionsAct, ExactAreSome};
ghost use Rattle.bk_flow.specs.Flow.{start};

/// The exact mask of a state has in each of its 18 fields the one value that the engine, its directory and its transaction have now. At
/// the opening it is what enters place 0, and where a state is tied to what is told of its run it leaves no field empty.
pub fn exact_masks()
    ensures start { (k : Shape) → exact k new_engine untold ≡ start }
    ensures some { ExactAreSome }
{}

/// A state is tied to what is told of its run (`Tied`) where the abstract protocol's state, with the transaction that is told, has its
/// invariant, and the engine's fields agree with that transaction. It is so at the opening. Where the exact mask meets the obligations O5
/// to O23 of the instruction at the engine's place, each event keeps the tie, and an instruction that runs is one permitted action of the
/// abstract protocol.
pub fn exact_ties()
    ensures opens { OpensTied }
    ensures events { EventsTie }
    ensures acts { InstructionsAct }
{}

ghost use Rattle.std.specs.Prelude.{◌≡◌, ◌↔◌, IsOk, IfOk, IfErr};
ghost use Rattle.bk_check.specs.Accepted.{Accepted, IsFirstUnmet};
ghost use Rattle.bk_sound.specs.Sound.{IsSound};
ghost use Rattle.bk_sound.specs.Actions.{ActsAsPermitted};
ghost use Rattle.bk_bound.specs.Bound.{IsBounded};

use bk_check::{Refusal, check};
use bk_image::Image;
use std::marker::Model;

/// An image that is accepted (`docs/OBLIGATIONS.md`). Whoever has one knows what [`Certified::image`] ensures: every run of it is
/// coherent, and bounded. Contracts see the image.
#[derive(Debug, Drop)]
pub struct Certified {
    image: Image,
}

impl Model for Certified {
    ghost use Rattle.bk_image.specs.Images.{Parts};
    ghost use Rattle.bk_sound.specs.Certified.{IsCertified};

    ghost Value = { Parts };

    ghost view = { λ c. c.image };

    ghost invariant = { λ c. IsCertified c.image };
}

/// An image that isn't accepted, handed back with its first refusal.
#[derive(Debug, Drop)]
pub struct Refused {
    pub image: Image,
    pub refusal: Refusal,
}

/// Certifies an image: Ok exactly where it is accepted (`docs/OBLIGATIONS.md`), and else it is handed back with the first instruction
/// that doesn't meet an obligation, and the least such obligation there. No memory is taken.
///
/// Every run of an image that is certified is coherent, whatever the configuration and the list of events (`docs/COHERENCE.md`): after
/// each list of lawful events a block in E or M is valid in one cache alone; each load has answered the latest store of its word in the
/// one history; a way group is pending exactly while a request of it that was taken isn't settled. The engine never halts, and runs on
/// at each place but a `wfq`; no cache gets a command or a fill that it can't take; and the system is at rest where nothing is under way
/// and the engine waits, and where no event but an Issue is enabled. Each event of the engine is one permitted action of the
/// abstract protocol (`docs/PROTOCOL.md`). And no run goes on without end: of n instructions, a list of lawful events of which each was
/// enabled has at most (caches + 7) * n events of the engine for each operation that it issues, and n more; and it is within the budget
/// of its operations, and of its trace where it issues the operations of one in order.
pub fn certify(image: Image) -> Result<Certified, Refused>
    ensures accepted { IsOk result ↔ Accepted image }
    ensures refused { IfErr result (λ r. IsFirstUnmet image r.refusal.at r.refusal.obligation) }

    // The image is handed on as it came, or handed back.
    ensures certified_image { IfOk result (λ c. c ≡ image) }
    ensures refused_image { IfErr result (λ r. r.image ≡ image) }

    // The main theorem, of every configuration and every list of events.
    ensures sound { IfOk result (λ c. IsSound c.instrs) }
    ensures actions { IfOk result (λ c. ActsAsPermitted c.instrs) }

    // The bound, of every configuration and every list of events of which each was enabled.
    ensures bounded { IfOk result (λ c. IsBounded c.instrs) }
{
    match check(&image) {
        Ok(()) => Ok(Certified { image }),
        Err(refusal) => Err(Refused { image, refusal }),
    }
}

impl Certified {
    /// The image, which is accepted: every run of it is coherent and bounded, and each event of its engine is a permitted action.
    pub fn image(&self) -> &Image
        ensures value { result.now ≡ self.now }
        ensures accepted { Accepted self.now }
        ensures sound { IsSound self.now.instrs }
        ensures actions { ActsAsPermitted self.now.instrs }
        ensures bounded { IsBounded self.now.instrs }
    {
        &self.image
    }
}

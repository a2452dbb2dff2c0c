ghost use Rattle.std.specs.Prelude.{◌≡◌, map};
ghost use Rattle.bk_proto.specs.Mutants.{mutants};

use bk_check::Refusal;

/// A protocol's program with one word replaced, and how the verifier refuses it.
#[derive(Clone, Copy, Debug)]
pub struct Mutant {
    /// The name of the protocol, as `source` takes it.
    pub name: &'static str,
    /// The place of the instruction that is replaced.
    pub place: u32,
    /// The new instruction's word.
    pub word: u64,
    /// Why the program isn't accepted then.
    pub refusal: Refusal,
}

/// One mutant: the protocol, the place, its new word, and the place and the obligation of the refusal.
macro_rules! mutant {
    ($name:expr, $place:expr, $word:expr, $at:expr, $obligation:expr) => {
        Mutant {
            name: $name,
            place: $place,
            word: $word,
            refusal: Refusal {
                at: $at,
                obligation: $obligation,
            },
        }
    };
}

const MUTANTS: [Mutant; 24] = [
    mutant!("ei", 2, 0x5100_0000_0000_0000, 2, 9),
    mutant!("ei", 53, 0, 55, 14),
    mutant!("ei", 62, 0, 65, 14),
    mutant!("ei", 61, 0x2000_0000_0000_0004, 61, 3),
    mutant!("ei", 82, 0x5301_0000_0000_0000, 82, 13),
    mutant!("ei", 38, 0x6800_0000_0000_0000, 38, 20),
    mutant!("msi", 3, 0x2000_0000_0000_00ff, 3, 2),
    mutant!("msi", 57, 0x6106_0000_0000_0000, 57, 18),
    mutant!("msi", 59, 0x5001_0000_0000_0000, 59, 23),
    mutant!("msi", 61, 0, 62, 4),
    mutant!("msi", 64, 0x6106_0000_0000_0000, 64, 18),
    mutant!("msi", 69, 0, 71, 22),
    mutant!("mesi", 62, 0x6102_0000_0000_0000, 62, 18),
    mutant!("mesi", 95, 0, 96, 4),
    mutant!("mesi", 55, 0, 56, 7),
    mutant!("mesi", 59, 0x4201_0000_0000_0000, 59, 21),
    mutant!("mesi", 73, 0x6300_0100_0000_0000, 73, 19),
    mutant!("mesi", 91, 0x6001_0000_0000_0000, 91, 12),
    mutant!("moesif", 5, 0, 6, 5),
    mutant!("moesif", 6, 0x5005_0000_0000_0000, 6, 6),
    mutant!("moesif", 16, 0x5101_0000_0000_0000, 16, 10),
    mutant!("moesif", 28, 0, 28, 4),
    mutant!("moesif", 37, 0, 38, 16),
    mutant!("moesif", 67, 0x6303_0100_0000_0000, 67, 19),
];

/// Programs that differ from a protocol in one word, each refused for what goes wrong with that word.
pub fn mutants() -> &'static [Mutant]
    ensures { map (λ m. (m.name.now, m.place, m.word, m.refusal)) result.now ≡ mutants }
{
    &MUTANTS
}

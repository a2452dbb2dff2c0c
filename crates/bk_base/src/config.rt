ghost use Rattle.std.specs.Prelude.{◌≡◌};
ghost use Rattle.bk_base.specs.Places.{config_of, is_set_count};

use std::marker::Model;

/// The greatest number of caches of a system.
pub const MOST_CACHES: u8 = 16;

/// The greatest number of ways of a set.
pub const MOST_WAYS: u8 = 8;

/// How many caches, sets and ways a system has, within the profile:
/// 1 to 16 caches; 1, 2, 4, 8, 16, 32 or 64 sets; 1 to 8 ways.
#[derive(Clone, Copy, Debug, PartialEq, Eq)]
pub struct Config {
    /// The number of caches, 1 to 16 (`MOST_CACHES`).
    pub caches: u8,
    /// The number of sets of each cache, a power of two up to 64.
    pub sets: u8,
    /// The number of ways of each set, 1 to 8 (`MOST_WAYS`).
    pub ways: u8,
}

impl Model for Config {
    ghost use Rattle.std.specs.Prelude.{ℕ};
    ghost use Rattle.bk_base.specs.Places.{Shape, InProfile};

    ghost Value = { Shape };

    ghost view = { λ c. record { caches = c.caches; sets = c.sets; ways = c.ways } };

    ghost invariant = { λ c. InProfile (record { caches = c.caches; sets = c.sets; ways = c.ways }) };

    ghost inverse = { λ s. record { caches = s.caches; sets = s.sets; ways = s.ways } };
}

/// The first field that is outside the profile.
#[derive(Clone, Copy, Debug, PartialEq, Eq)]
pub enum BadConfig {
    Caches,
    Sets,
    Ways,
}

/// Whether a cache may have this many sets.
fn is_set_count(sets: u8) -> bool
    ensures { result ≡ is_set_count sets }
{
    matches!(sets, 1 | 2 | 4 | 8 | 16 | 32 | 64)
}

impl Config {
    /// The configuration of the three numbers, or the first of them that is outside the profile.
    pub fn make(caches: u8, sets: u8, ways: u8) -> Result<Config, BadConfig>
        ensures { result ≡ config_of caches sets ways }
    {
        if caches == 0 || caches > MOST_CACHES {
            return Err(BadConfig::Caches);
        }
        if !is_set_count(sets) {
            return Err(BadConfig::Sets);
        }
        if ways == 0 || ways > MOST_WAYS {
            return Err(BadConfig::Ways);
        }
        Ok(Config { caches, sets, ways })
    }
}

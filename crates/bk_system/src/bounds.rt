ghost use Rattle.std.specs.Prelude.{◌≡◌, ◌≤◌, ◌<◌, nat_lt};

use bk_base::{Config, MOST_CACHES};

// Tests and numbers of a configuration, as the definitions write them.

/// Whether the configuration has a cache of this number.
pub(crate) fn has_cache(config: Config, cache: u8) -> bool
    ensures { result ≡ nat_lt cache config.caches }
{
    cache < config.caches
}

/// Whether the configuration has a way of this number.
pub(crate) fn has_way(config: Config, way: u8) -> bool
    ensures { result ≡ nat_lt way config.ways }
{
    way < config.ways
}

/// How many caches there are.
pub(crate) fn cache_count(config: Config) -> u8
    ensures value { result ≡ config.caches }
    ensures few { result ≤ MOST_CACHES }
    ensures some { 0 < result }
{
    config.caches
}

/// How many sets each cache has, which is how many way groups there are.
pub(crate) fn set_count(config: Config) -> u8
    ensures value { result ≡ config.sets }
    ensures few { result ≤ 64 }
{
    config.sets
}

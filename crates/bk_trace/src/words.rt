ghost use Rattle.std.specs.Prelude.{◌≡◌, ◌<◌, IfSome, IsTrue};
ghost use Rattle.bk_base.specs.Places.{is_cache_count, is_way_count, is_set_count};
ghost use Rattle.bk_trace.specs.Grammar.{number_below, count_of, address_of, is_config, name_of};

use bk_base::{Addr, Config};
use bk_text::number;

/// No count of a configuration reaches this.
const COUNT_LIMIT: u8 = 65;

/// The name of an operation.
#[derive(Clone, Copy, Debug, PartialEq, Eq)]
pub(crate) enum Name {
    Load,
    Store,
    UcLoad,
    UcStore,
    Evict,
}

/// The number that a word writes, if it is below the limit.
#[tactic(auto, unfolding(crate::specs::Grammar::number_below))]
pub(crate) fn number_below(limit: u8, word: &[u8]) -> Option<u8>
    ensures value { result ≡ number_below limit word.now }
    ensures below { IfSome result (λ n. n < limit) }
{
    let number = number(word)?;
    if number < limit as u64 {
        Some(number as u8)
    } else {
        None
    }
}

/// The number of caches that a word writes.
#[tactic(auto, unfolding(crate::specs::Grammar::count_of))]
pub(crate) fn caches_of(word: &[u8]) -> Option<u8>
    ensures value { result ≡ count_of is_cache_count word.now }
    ensures some { IfSome result (λ n. IsTrue (is_cache_count n)) }
{
    let count = number_below(COUNT_LIMIT, word)?;
    if Config::make(count, 1, 1).is_ok() {
        Some(count)
    } else {
        None
    }
}

/// The number of sets that a word writes.
#[tactic(auto, unfolding(crate::specs::Grammar::count_of))]
pub(crate) fn sets_of(word: &[u8]) -> Option<u8>
    ensures value { result ≡ count_of is_set_count word.now }
    ensures some { IfSome result (λ n. IsTrue (is_set_count n)) }
{
    let count = number_below(COUNT_LIMIT, word)?;
    if Config::make(1, count, 1).is_ok() {
        Some(count)
    } else {
        None
    }
}

/// The number of ways that a word writes.
#[tactic(auto, unfolding(crate::specs::Grammar::count_of))]
pub(crate) fn ways_of(word: &[u8]) -> Option<u8>
    ensures value { result ≡ count_of is_way_count word.now }
    ensures some { IfSome result (λ n. IsTrue (is_way_count n)) }
{
    let count = number_below(COUNT_LIMIT, word)?;
    if Config::make(1, 1, count).is_ok() {
        Some(count)
    } else {
        None
    }
}

/// The configuration of numbers in the profile.
pub(crate) fn config_of(caches: u8, sets: u8, ways: u8) -> Config
    requires caches { IsTrue (is_cache_count caches) }
    requires sets { IsTrue (is_set_count sets) }
    requires ways { IsTrue (is_way_count ways) }
    ensures { result ≡ record { caches = caches; sets = sets; ways = ways } }
{
    match Config::make(caches, sets, ways) {
        Ok(config) => config,
        Err(_) => unreachable!(),
    }
}

/// Whether a word is the first one of a configuration.
pub(crate) fn is_config(word: &[u8]) -> bool
    ensures { result ≡ is_config word.now }
{
    word == b"config".as_slice()
}

/// The name that a word writes.
pub(crate) fn name_of(word: &[u8]) -> Option<Name>
    ensures { result ≡ name_of word.now }
{
    match word {
        b"L" => Some(Name::Load),
        b"S" => Some(Name::Store),
        b"UL" => Some(Name::UcLoad),
        b"US" => Some(Name::UcStore),
        b"EV" => Some(Name::Evict),
        _ => None,
    }
}

/// The address that a word writes.
#[tactic(auto, unfolding(crate::specs::Grammar::address_of))]
pub(crate) fn address_of(word: &[u8]) -> Option<Addr>
    ensures { result ≡ address_of word.now }
{
    Addr::make(number(word)?)
}

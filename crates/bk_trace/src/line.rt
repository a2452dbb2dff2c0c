ghost use Rattle.std.specs.Prelude.{◌≡◌, ◌<◌, IfOk, IfSome, IsTrue};
ghost use Rattle.bk_base.specs.Places.{InProfile, is_cache_count, is_way_count, is_set_count};
ghost use Rattle.bk_text.specs.Texts.{number_of};
ghost use Rattle.bk_trace.specs.Traces.{IsOp, IsLine};
ghost use Rattle.bk_trace.specs.Grammar.{number_below, count_of, address_of, name_of};
ghost use Rattle.bk_text.specs.Faults.{Steps};
ghost use Rattle.bk_trace.specs.Reading.{field, config_word, config_at, op_at, operation_at, surplus, line_at, first_at};
ghost use Rattle.bk_trace.specs.declared.fault.Kind.TheVariants as kinds;

use crate::fault::{At, Kind};
use crate::trace::OPERATION_LIMIT;
use crate::words::{
    Name, address_of, caches_of, config_of, is_config, name_of, number_below, sets_of, ways_of,
};
use bk_base::{Addr, Config, Op};
use bk_text::{Placed, TextLine, fault_behind, number, word_at, wrong};

/// The word `config`.
#[tactic(auto, unfolding(crate::specs::Reading::field))]
fn config_word_at(line: &mut TextLine<'_>) -> Result<bool, At>
    ensures { Steps (λ x. x) result line.new (field kinds.Config config_word line.old) }
{
    let word = word_at(Kind::Config, line)?;
    if is_config(word.word) {
        Ok(true)
    } else {
        Err(wrong(word, Kind::Config))
    }
}

#[tactic(auto, unfolding(crate::specs::Reading::field))]
fn caches_at(line: &mut TextLine<'_>) -> Result<u8, At>
    ensures value { Steps (λ x. x) result line.new (field kinds.Config (count_of is_cache_count) line.old) }
    ensures some { IfOk result (λ n. IsTrue (is_cache_count n)) }
{
    let word = word_at(Kind::Config, line)?;
    match caches_of(word.word) {
        Some(count) => Ok(count),
        None => Err(wrong(word, Kind::Config)),
    }
}

#[tactic(auto, unfolding(crate::specs::Reading::field))]
fn sets_at(line: &mut TextLine<'_>) -> Result<u8, At>
    ensures value { Steps (λ x. x) result line.new (field kinds.Config (count_of is_set_count) line.old) }
    ensures some { IfOk result (λ n. IsTrue (is_set_count n)) }
{
    let word = word_at(Kind::Config, line)?;
    match sets_of(word.word) {
        Some(count) => Ok(count),
        None => Err(wrong(word, Kind::Config)),
    }
}

#[tactic(auto, unfolding(crate::specs::Reading::field))]
fn ways_at(line: &mut TextLine<'_>) -> Result<u8, At>
    ensures value { Steps (λ x. x) result line.new (field kinds.Config (count_of is_way_count) line.old) }
    ensures some { IfOk result (λ n. IsTrue (is_way_count n)) }
{
    let word = word_at(Kind::Config, line)?;
    match ways_of(word.word) {
        Some(count) => Ok(count),
        None => Err(wrong(word, Kind::Config)),
    }
}

#[tactic(auto, unfolding(crate::specs::Reading::field))]
fn cache_at(caches: u8, line: &mut TextLine<'_>) -> Result<u8, At>
    ensures value { Steps (λ x. x) result line.new (field kinds.Cache (number_below caches) line.old) }
    ensures below { IfOk result (λ n. n < caches) }
{
    let word = word_at(Kind::Cache, line)?;
    match number_below(caches, word.word) {
        Some(cache) => Ok(cache),
        None => Err(wrong(word, Kind::Cache)),
    }
}

#[tactic(auto, unfolding(crate::specs::Reading::field))]
fn name_at(line: &mut TextLine<'_>) -> Result<Name, At>
    ensures { Steps (λ x. x) result line.new (field kinds.Name name_of line.old) }
{
    let word = word_at(Kind::Name, line)?;
    match name_of(word.word) {
        Some(name) => Ok(name),
        None => Err(wrong(word, Kind::Name)),
    }
}

#[tactic(auto, unfolding(crate::specs::Reading::field))]
fn address_at(line: &mut TextLine<'_>) -> Result<Addr, At>
    ensures { Steps (λ x. x) result line.new (field kinds.Address address_of line.old) }
{
    let word = word_at(Kind::Address, line)?;
    match address_of(word.word) {
        Some(address) => Ok(address),
        None => Err(wrong(word, Kind::Address)),
    }
}

#[tactic(auto, unfolding(crate::specs::Reading::field))]
fn value_at(line: &mut TextLine<'_>) -> Result<u64, At>
    ensures { Steps (λ x. x) result line.new (field kinds.Value number_of line.old) }
{
    let word = word_at(Kind::Value, line)?;
    match number(word.word) {
        Some(value) => Ok(value),
        None => Err(wrong(word, Kind::Value)),
    }
}

/// The configuration of a line `config CACHES SETS WAYS`.
#[tactic(auto, unfolding(crate::specs::Reading::config_at))]
fn config_at(line: &mut TextLine<'_>) -> Result<Config, At>
    ensures value { result ≡ config_at line.old }
    ensures profile { IfOk result (λ c. InProfile c) }
{
    let _name = config_word_at(line)?;
    let caches = caches_at(line)?;
    let sets = sets_at(line)?;
    let ways = ways_at(line)?;
    match fault_behind(line) {
        None => Ok(config_of(caches, sets, ways)),
        Some(fault) => Err(fault),
    }
}

/// The operation of this name at an address, with its value.
#[tactic(auto, unfolding(crate::specs::Reading::op_at))]
fn op_at(name: Name, address: Addr, line: &mut TextLine<'_>) -> Result<Op, At>
    ensures value { Steps (λ x. x) result line.new (op_at name address line.old) }
    ensures op { IfOk result (λ op. IsOp op) }
{
    match name {
        Name::Load => Ok(Op::Load(address)),
        Name::Store => Ok(Op::Store(address, value_at(line)?)),
        Name::UcLoad => Ok(Op::UcLoad(address)),
        Name::UcStore => Ok(Op::UcStore(address, value_at(line)?)),
        Name::Evict => Ok(Op::Evict(address)),
    }
}

/// The operation of a line `CACHE OP ADDRESS`, with a value for a store.
#[tactic(auto, unfolding(crate::specs::Reading::operation_at))]
fn operation_at(caches: u8, line: &mut TextLine<'_>) -> Result<(u8, Op), At>
    ensures value { result ≡ operation_at caches line.old }
    ensures line { IfOk result (λ line. IsLine caches line) }
{
    let cache = cache_at(caches, line)?;
    let name = name_at(line)?;
    let address = address_at(line)?;
    let op = op_at(name, address, line)?;
    match fault_behind(line) {
        None => Ok((cache, op)),
        Some(fault) => Err(fault),
    }
}

/// What is wrong with the first word of an operation too many.
fn surplus(caches: u8, word: Placed<'_>) -> At
    ensures { result ≡ surplus (record { column = word.entry.column; word = word.entry.word.now })
        (number_below caches word.entry.word.now) }
{
    match number_below(caches, word.word) {
        Some(_) => At {
            column: word.column,
            kind: Kind::TooMany,
        },
        None => wrong(word, Kind::Cache),
    }
}

/// The operation of a line that has `count` operations before it, if the line has words.
#[tactic(auto, unfolding(crate::specs::Reading::line_at))]
pub(crate) fn line_at(
    caches: u8,
    count: usize,
    line: &mut TextLine<'_>,
) -> Result<Option<(u8, Op)>, At>
    ensures value { result ≡ line_at 10000 caches count line.old line.old.words }
    ensures line { IfOk result (λ found. IfSome found (λ line. IsLine caches line)) }
    ensures few { IfOk result (λ found. IfSome found (λ line. count < 10000)) }
{
    if !line.has_word() {
        return match fault_behind(line) {
            None => Ok(None),
            Some(fault) => Err(fault),
        };
    }
    if count < OPERATION_LIMIT {
        return Ok(Some(operation_at(caches, line)?));
    }
    match line.next_word() {
        Some(word) => Err(surplus(caches, word)),
        None => Ok(None),
    }
}

/// The configuration of a line, if the line has words.
#[tactic(auto, unfolding(crate::specs::Reading::first_at))]
pub(crate) fn first_at(line: &mut TextLine<'_>) -> Result<Option<Config>, At>
    ensures value { result ≡ first_at line.old line.old.words }
    ensures profile { IfOk result (λ found. IfSome found (λ c. InProfile c)) }
{
    if line.has_word() {
        return Ok(Some(config_at(line)?));
    }
    match fault_behind(line) {
        None => Ok(None),
        Some(fault) => Err(fault),
    }
}

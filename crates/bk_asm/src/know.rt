ghost use Rattle.std.specs.Prelude.{◌≡◌, ◌<◌, ◌^◌, bit_or, IfOk, IfSome};
ghost use Rattle.std.specs.Option.{option_map};
ghost use Rattle.bk_know.specs.Sets.{mask_of};
ghost use Rattle.bk_asm.specs.Reading.{base_of, with_field, fresh, values_of, entry_of, entries_at, know_at};
ghost use Rattle.bk_asm.specs.Names.{named, names_of};
ghost use Rattle.bk_asm.specs.Ranges.{AreInRange, limit_of};
ghost use Rattle.bk_asm.specs.declared.names.Names.TheVariants as names;

use crate::fault::{At, Kind};
use crate::names::{Names, cut, joined, named, names_of, value_names};
use bk_know::fields::{
    FIELD_ACKS, FIELD_DOWN, FIELD_DREQ, FIELD_F0, FIELD_F1, FIELD_F2, FIELD_GP, FIELD_HEAD,
    FIELD_KIND, FIELD_MEM, FIELD_OTHERS, FIELD_OWN, FIELD_OWNER, FIELD_STAGE, FIELD_SUMM,
    FIELD_VICTIM, FIELD_WB,
};
use bk_know::{Know, Sets, held, idle};
use bk_text::{TextLine, fault_behind, word_at, wrong};

/// What stands between a field and its values.
const EQUALS: u8 = b'=';
/// What separates values.
const BAR: u8 = b'|';

/// Where a know line begins.
fn base_of(word: &[u8]) -> Option<Sets>
    ensures value { result ≡ base_of word.now }
    ensures range { IfSome result (λ s. AreInRange s) }
{
    match word {
        b"idle" => Some(idle().sets()),
        b"held" => Some(held().sets()),
        _ => None,
    }
}

/// The sets with another one for the field of a number: 1 is stage, 17 is f2, and every other number means f3.
fn with_field(sets: Sets, number: u8, set: u8) -> Sets
    requires range { AreInRange sets }
    requires some { 0 < set }
    requires few { set < limit_of number }
    ensures value { result ≡ with_field sets number set }
    ensures range { AreInRange result }
{
    match number {
        FIELD_STAGE => Sets { stage: set, ..sets },
        FIELD_HEAD => Sets { head: set, ..sets },
        FIELD_GP => Sets { gp: set, ..sets },
        FIELD_KIND => Sets { kind: set, ..sets },
        FIELD_SUMM => Sets { summ: set, ..sets },
        FIELD_OWN => Sets { own: set, ..sets },
        FIELD_OWNER => Sets { owner: set, ..sets },
        FIELD_OTHERS => Sets {
            others: set,
            ..sets
        },
        FIELD_VICTIM => Sets {
            victim: set,
            ..sets
        },
        FIELD_ACKS => Sets { acks: set, ..sets },
        FIELD_WB => Sets { wb: set, ..sets },
        FIELD_MEM => Sets { mem: set, ..sets },
        FIELD_DREQ => Sets { dreq: set, ..sets },
        FIELD_DOWN => Sets { down: set, ..sets },
        FIELD_F0 => Sets { f0: set, ..sets },
        FIELD_F1 => Sets { f1: set, ..sets },
        FIELD_F2 => Sets { f2: set, ..sets },
        _ => Sets { f3: set, ..sets },
    }
}

/// The mask of the sets.
fn mask_of(sets: Sets) -> u64
    requires { AreInRange sets }
    ensures { result ≡ mask_of sets }
{
    sets.stage as u64
        + ((sets.head as u64) << 4)
        + ((sets.gp as u64) << 11)
        + ((sets.kind as u64) << 13)
        + ((sets.summ as u64) << 18)
        + ((sets.own as u64) << 21)
        + ((sets.owner as u64) << 27)
        + ((sets.others as u64) << 32)
        + ((sets.victim as u64) << 34)
        + ((sets.acks as u64) << 36)
        + ((sets.wb as u64) << 38)
        + ((sets.mem as u64) << 41)
        + ((sets.dreq as u64) << 45)
        + ((sets.down as u64) << 51)
        + ((sets.f0 as u64) << 56)
        + ((sets.f1 as u64) << 58)
        + ((sets.f2 as u64) << 60)
        + ((sets.f3 as u64) << 62)
}

/// What is known by the sets, each of which has a value.
fn know_of(sets: Sets) -> Know
    requires { AreInRange sets }
    ensures { result ≡ sets }
{
    match Know::make(mask_of(sets)) {
        Some(know) => know,
        None => unreachable!(),
    }
}

/// The field of this number, if it is none of those seen before.
fn fresh(seen: u32, number: u8) -> Option<u8>
    requires { number < 19 }
    ensures value { result ≡ fresh seen number }
    ensures same { IfSome result (λ k. k ≡ number) }
{
    if (seen >> number) % 2 == 1 {
        None
    } else {
        Some(number)
    }
}

/// The numbers seen before, one bit a number, and one more.
fn seen_with(seen: u32, number: u8) -> u32
    requires { number < 19 }
    ensures { result ≡ bit_or seen (2 ^ number) }
{
    seen | 1 << number
}

/// The number of the field that a word names.
fn field_of(word: &[u8]) -> Option<u8>
    ensures value { result ≡ named (names_of names.Field) word.now }
    ensures few { IfSome result (λ k. k < 19) }
{
    named(names_of(Names::Field), word)
}

/// The set of a field's values.
fn values_of(number: u8, values: Option<&[u8]>) -> Option<u8>
    ensures value { result ≡ values_of number (option_map (λ w. w.now) values.entry) }
    ensures some { IfSome result (λ s. 0 < s) }
    ensures few { IfSome result (λ s. s < limit_of number) }
{
    joined(value_names(number), BAR, values?)
}

/// The field and the set of a word `field=value|value`, if the field is none of those seen before.
#[tactic(auto, unfolding(crate::specs::Reading::entry_of))]
fn entry_of(seen: u32, word: &[u8]) -> Option<(u8, u8)>
    ensures value { result ≡ entry_of seen word.now }
    ensures field { IfSome result (λ e. e.0 < 19) }
    ensures some { IfSome result (λ e. 0 < e.1) }
    ensures few { IfSome result (λ e. e.1 < limit_of e.0) }
{
    let (field, values) = cut(EQUALS, word);
    let number = fresh(seen, field_of(field)?)?;
    Some((number, values_of(number, values)?))
}

/// The fields of a know line, each in place of the one that was there.
fn entries_at(base: Sets, row: &mut TextLine<'_>) -> Result<Sets, At>
    requires { AreInRange base }
    ensures value { result ≡ entries_at base 0 row.old.bad row.old.words }
    ensures range { IfOk result (λ s. AreInRange s) }
{
    let mut sets = base;
    let mut seen = 0u32;
    while let Some(word) = row.next_word() {
        let Some((number, set)) = entry_of(seen, word.word) else {
            return Err(wrong(word, Kind::Know));
        };
        sets = with_field(sets, number, set);
        seen = seen_with(seen, number);
    }
    match fault_behind(row) {
        None => Ok(sets),
        Some(fault) => Err(fault),
    }
}

/// What stands behind `know`: a base, and fields that differ from it.
#[tactic(auto, unfolding(crate::specs::Reading::know_at, crate::specs::Reading::field))]
pub(crate) fn know_at(row: &mut TextLine<'_>) -> Result<Know, At>
    ensures { result ≡ know_at row.old }
{
    let word = word_at(Kind::Know, row)?;
    let Some(base) = base_of(word.word) else {
        return Err(wrong(word, Kind::Know));
    };
    let sets = entries_at(base, row)?;
    Ok(know_of(sets))
}

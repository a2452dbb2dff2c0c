//! Sets of values of one field, and masks of a set for each field.

ghost use Rattle.std.specs.Prelude.{◌≡◌, if◌then◌else◌};
ghost use Rattle.bk_flow.specs.Flow.{may, lacks, when, only_state, only_debt, only_down, is_shared, flag, with_flag, set_not, set_and, set_or, is_before_f3, with_field, idle_with, held_with, nothing, start};

use bk_base::Coh;
use bk_know::fields::{
    FIELD_ACKS, FIELD_F0, FIELD_F1, FIELD_F2, FIELD_GP, FIELD_HEAD, FIELD_KIND, FIELD_OTHERS,
    FIELD_OWN, FIELD_OWNER, FIELD_VICTIM,
};
use bk_know::values::{
    DOWN_F, DOWN_I, DOWN_O, DOWN_S, DREQ_E, DREQ_F, DREQ_M, DREQ_O, DREQ_S, FLAG_CLEAR, FLAG_SET,
    OWN_E, OWN_F, OWN_I, OWN_M, OWN_O, OWN_S,
};
use bk_know::{Sets, held, idle};

/// Whether a field may have one of the values.
pub fn may(set: u8, values: u8) -> bool
    ensures { result ≡ may set values }
{
    set & values != 0
}

/// Whether a field has none of the values.
pub fn lacks(set: u8, values: u8) -> bool
    ensures { result ≡ lacks set values }
{
    set & values == 0
}

/// The values where the test holds, else no value.
pub fn when(test: bool, values: u8) -> u8
    ensures { result ≡ when test values }
{
    if test { values } else { 0 }
}

/// The first values where the test holds, else the second.
fn either(test: bool, values: u8, others: u8) -> u8
    ensures { result ≡ if test then values else others }
{
    if test { values } else { others }
}

/// A state alone, in the field `own`.
pub fn only_state(state: Coh) -> u8
    ensures { result ≡ only_state state }
{
    match state {
        Coh::I => OWN_I,
        Coh::S => OWN_S,
        Coh::E => OWN_E,
        Coh::F => OWN_F,
        Coh::M => OWN_M,
        Coh::O => OWN_O,
    }
}

/// A state alone, in the field `dreq`, what is owed to the requester's entry. I is no such debt,
/// so it is no value, which no mask has.
pub fn only_debt(state: Coh) -> u8
    ensures { result ≡ only_debt state }
{
    match state {
        Coh::I => 0,
        Coh::S => DREQ_S,
        Coh::E => DREQ_E,
        Coh::F => DREQ_F,
        Coh::M => DREQ_M,
        Coh::O => DREQ_O,
    }
}

/// A state alone, in the field `down`, what is owed to the owner's entry. E and M are no such
/// debts.
pub fn only_down(state: Coh) -> u8
    ensures { result ≡ only_down state }
{
    match state {
        Coh::I => DOWN_I,
        Coh::S => DOWN_S,
        Coh::F => DOWN_F,
        Coh::O => DOWN_O,
        Coh::E | Coh::M => 0,
    }
}

/// Whether the state is S.
pub fn is_shared(state: Coh) -> bool
    ensures { result ≡ is_shared state }
{
    matches!(state, Coh::S)
}

/// The values that flag `a` may have.
pub fn flag(sets: Sets, a: u8) -> u8
    ensures { result ≡ flag sets a }
{
    match a {
        0 => sets.f0,
        1 => sets.f1,
        2 => sets.f2,
        _ => sets.f3,
    }
}

/// The mask with other values for flag `a`.
pub fn with_flag(sets: Sets, a: u8, values: u8) -> Sets
    ensures { result ≡ with_flag sets a values }
{
    Sets {
        f0: either(a == 0, values, sets.f0),
        f1: either(a == 1, values, sets.f1),
        f2: either(a == 2, values, sets.f2),
        f3: either(a < 3, sets.f3, values),
        ..sets
    }
}

/// The values of the negation of a flag.
pub fn set_not(a: u8) -> u8
    ensures { result ≡ set_not a }
{
    when(may(a, FLAG_SET), FLAG_CLEAR) | when(may(a, FLAG_CLEAR), FLAG_SET)
}

/// The values of the conjunction of two flags.
pub fn set_and(a: u8, b: u8) -> u8
    ensures { result ≡ set_and a b }
{
    when(may(a, FLAG_CLEAR) || may(b, FLAG_CLEAR), FLAG_CLEAR)
        | when(may(a, FLAG_SET) && may(b, FLAG_SET), FLAG_SET)
}

/// The values of the disjunction of two flags.
pub fn set_or(a: u8, b: u8) -> u8
    ensures { result ≡ set_or a b }
{
    when(may(a, FLAG_CLEAR) && may(b, FLAG_CLEAR), FLAG_CLEAR)
        | when(may(a, FLAG_SET) || may(b, FLAG_SET), FLAG_SET)
}

/// Whether the number is that of a field that `bk` tests, other than f3.
fn is_before_f3(number: u8) -> bool
    ensures { result ≡ is_before_f3 number }
{
    number == FIELD_HEAD
        || number == FIELD_GP
        || number == FIELD_KIND
        || number == FIELD_OWN
        || number == FIELD_OWNER
        || number == FIELD_OTHERS
        || number == FIELD_VICTIM
        || number == FIELD_ACKS
        || number == FIELD_F0
        || number == FIELD_F1
        || number == FIELD_F2
}

/// The mask with other values for the field of a number, of those that `bk` tests.
pub fn with_field(sets: Sets, number: u8, values: u8) -> Sets
    ensures { result ≡ with_field sets number values }
{
    Sets {
        head: either(number == FIELD_HEAD, values, sets.head),
        gp: either(number == FIELD_GP, values, sets.gp),
        kind: either(number == FIELD_KIND, values, sets.kind),
        own: either(number == FIELD_OWN, values, sets.own),
        owner: either(number == FIELD_OWNER, values, sets.owner),
        others: either(number == FIELD_OTHERS, values, sets.others),
        victim: either(number == FIELD_VICTIM, values, sets.victim),
        acks: either(number == FIELD_ACKS, values, sets.acks),
        f0: either(number == FIELD_F0, values, sets.f0),
        f1: either(number == FIELD_F1, values, sets.f1),
        f2: either(number == FIELD_F2, values, sets.f2),
        f3: either(is_before_f3(number), sets.f3, values),
        ..sets
    }
}

/// The mask of an engine that holds no request, with the flags of the given one.
pub fn idle_with(sets: Sets) -> Sets
    ensures { result ≡ idle_with sets }
{
    Sets {
        f0: sets.f0,
        f1: sets.f1,
        f2: sets.f2,
        f3: sets.f3,
        ..idle().sets()
    }
}

/// The mask of an engine that holds a request of which nothing is known, with the flags of the
/// given one.
pub fn held_with(sets: Sets) -> Sets
    ensures { result ≡ held_with sets }
{
    Sets {
        f0: sets.f0,
        f1: sets.f1,
        f2: sets.f2,
        f3: sets.f3,
        ..held().sets()
    }
}

/// The union of no masks: no field has a value.
pub fn nothing() -> Sets
    ensures { result ≡ nothing }
{
    Sets {
        stage: 0,
        head: 0,
        gp: 0,
        kind: 0,
        summ: 0,
        own: 0,
        owner: 0,
        others: 0,
        victim: 0,
        acks: 0,
        wb: 0,
        mem: 0,
        dreq: 0,
        down: 0,
        f0: 0,
        f1: 0,
        f2: 0,
        f3: 0,
    }
}

/// The mask of an engine at its start: it holds no request, and each flag is 0.
pub fn start() -> Sets
    ensures { result ≡ start }
{
    Sets {
        f0: FLAG_CLEAR,
        f1: FLAG_CLEAR,
        f2: FLAG_CLEAR,
        f3: FLAG_CLEAR,
        ..idle().sets()
    }
}

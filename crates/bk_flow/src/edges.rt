//! The edges from an instruction to the next place and to its target, and the masks on them.

ghost use Rattle.std.specs.Prelude.{◌≡◌};
ghost use Rattle.bk_flow.specs.Flow.{own_of_kind, cut_own, existing, keep_values, lose_values, fall, target, jump};

use crate::flow::left;
use crate::masks::with_field;
use bk_isa::Form;
use bk_know::fields::FIELD_KIND;
use bk_know::values::{KIND_RD, KIND_WR, OWN_I, OWN_I_S_F_O, STAGE_HELD};
use bk_know::{Sets, any_empty, field};

/// A cache that reads finds no copy of its own, and one that writes none that it may write.
fn own_of_kind(sets: Sets) -> u8
    ensures { result ≡ own_of_kind sets }
{
    match sets.kind {
        KIND_RD => sets.own & OWN_I,
        KIND_WR => sets.own & OWN_I_S_F_O,
        _ => sets.own,
    }
}

/// So a branch on the kind of the held request narrows `own` too. In Closing it stays, since the
/// entry may have been given its state.
fn cut_own(number: u8, sets: Sets) -> Sets
    ensures { result ≡ cut_own number sets }
{
    let own = if number == FIELD_KIND && sets.stage == STAGE_HELD {
        own_of_kind(sets)
    } else {
        sets.own
    };
    Sets { own, ..sets }
}

/// The edge with a mask, or none where a field is empty.
fn existing(sets: Sets) -> Option<Sets>
    ensures { result ≡ existing sets }
{
    if any_empty(sets) { None } else { Some(sets) }
}

/// `bk` where it branches: the field keeps only these values.
fn keep_values(sets: Sets, number: u8, values: u8) -> Sets
    ensures { result ≡ keep_values sets number values }
{
    cut_own(
        number,
        with_field(sets, number, field(sets, number) & values),
    )
}

/// `bk` where it doesn't: the field loses these values.
fn lose_values(sets: Sets, number: u8, values: u8) -> Sets
    ensures { result ≡ lose_values sets number values }
{
    cut_own(
        number,
        with_field(sets, number, field(sets, number) & (255 - values)),
    )
}

/// The edge to the next place, or none where it doesn't exist.
pub fn fall(form: Form, sets: Sets) -> Option<Sets>
    ensures { result ≡ fall form sets }
{
    match form {
        Form::Bi { .. } => None,
        Form::Bk { a, b, .. } => existing(lose_values(sets, a, b)),
        _ => existing(left(form, sets)),
    }
}

/// The place that an instruction may branch to.
pub fn target(form: Form) -> Option<u32>
    ensures { result ≡ target form }
{
    match form {
        Form::Bi { imm } => Some(imm),
        Form::Beq { imm, .. } => Some(imm),
        Form::Bne { imm, .. } => Some(imm),
        Form::Blt { imm, .. } => Some(imm),
        Form::Bge { imm, .. } => Some(imm),
        Form::Bk { imm, .. } => Some(imm),
        _ => None,
    }
}

/// The edge to that place, or none where it doesn't exist.
pub fn jump(form: Form, sets: Sets) -> Option<Sets>
    ensures { result ≡ jump form sets }
{
    match form {
        Form::Bk { a, b, .. } => existing(keep_values(sets, a, b)),
        _ => existing(sets),
    }
}

ghost use Rattle.std.specs.Prelude.{◌≡◌, ◌<◌, ◌≤◌, ◌↔◌, ◌==◌, IfSome, IsNone, true, false};
ghost use Rattle.bk_know.specs.Sets.{sets_of, mask_of, field, within, union, any_empty, idle_base, held_base, IsKnow};

use crate::sets::{Sets, any_empty, field, within};
use std::marker::Model;

/// The mask of `idle`.
const IDLE: u64 = 0xff08_2255_0824_2811;
/// The mask of `held`.
const HELD: u64 = 0xff08_225f_ffe7_e814;

/// The weight in a mask of the lowest bit of field stage.
const STAGE_UNIT: u64 = 1 << 0;
/// The weight in a mask of the lowest bit of field head.
const HEAD_UNIT: u64 = 1 << 4;
/// The weight in a mask of the lowest bit of field gp.
const GP_UNIT: u64 = 1 << 11;
/// The weight in a mask of the lowest bit of field kind.
const KIND_UNIT: u64 = 1 << 13;
/// The weight in a mask of the lowest bit of field summ.
const SUMM_UNIT: u64 = 1 << 18;
/// The weight in a mask of the lowest bit of field own.
const OWN_UNIT: u64 = 1 << 21;
/// The weight in a mask of the lowest bit of field owner.
const OWNER_UNIT: u64 = 1 << 27;
/// The weight in a mask of the lowest bit of field others.
const OTHERS_UNIT: u64 = 1 << 32;
/// The weight in a mask of the lowest bit of field victim.
const VICTIM_UNIT: u64 = 1 << 34;
/// The weight in a mask of the lowest bit of field acks.
const ACKS_UNIT: u64 = 1 << 36;
/// The weight in a mask of the lowest bit of field wb.
const WB_UNIT: u64 = 1 << 38;
/// The weight in a mask of the lowest bit of field mem.
const MEM_UNIT: u64 = 1 << 41;
/// The weight in a mask of the lowest bit of field dreq.
const DREQ_UNIT: u64 = 1 << 45;
/// The weight in a mask of the lowest bit of field down.
const DOWN_UNIT: u64 = 1 << 51;
/// The weight in a mask of the lowest bit of field f0.
const F0_UNIT: u64 = 1 << 56;
/// The weight in a mask of the lowest bit of field f1.
const F1_UNIT: u64 = 1 << 58;
/// The weight in a mask of the lowest bit of field f2.
const F2_UNIT: u64 = 1 << 60;
/// The weight in a mask of the lowest bit of field f3.
const F3_UNIT: u64 = 1 << 62;

/// How many sets a field of two values has.
const TWO_VALUES: u64 = 1 << 2;
/// How many sets a field of three values has.
const THREE_VALUES: u64 = 1 << 3;
/// How many sets a field of four values has.
const FOUR_VALUES: u64 = 1 << 4;
/// How many sets a field of five values has.
const FIVE_VALUES: u64 = 1 << 5;
/// How many sets a field of six values has.
const SIX_VALUES: u64 = 1 << 6;
/// How many sets a field of seven values has.
const SEVEN_VALUES: u64 = 1 << 7;

/// What is known of an engine at a place: for each field the values that it may have, none of them empty.
/// Contracts see the sets.
///
/// It is kept as a mask of 64 bits, one bit for each value of each field, the first value lowest:
///
/// | Number | Field | From bit | How many values |
/// |---|---|---|---|
/// | 1 | stage | 0 | 4 |
/// | 2 | head | 4 | 7 |
/// | 3 | gp | 11 | 2 |
/// | 4 | kind | 13 | 5 |
/// | 5 | summ | 18 | 3 |
/// | 6 | own | 21 | 6 |
/// | 7 | owner | 27 | 5 |
/// | 8 | others | 32 | 2 |
/// | 9 | victim | 34 | 2 |
/// | 10 | acks | 36 | 2 |
/// | 11 | wb | 38 | 3 |
/// | 12 | mem | 41 | 4 |
/// | 13 | dreq | 45 | 6 |
/// | 14 | down | 51 | 5 |
/// | 15 | f0 | 56 | 2 |
/// | 16 | f1 | 58 | 2 |
/// | 17 | f2 | 60 | 2 |
/// | 18 | f3 | 62 | 2 |
#[derive(Clone, Copy, Debug, PartialEq, Eq)]
pub struct Know {
    mask: u64,
}

impl Model for Know {
    ghost use Rattle.std.specs.Prelude.{◌≡◌, ◌<◌, ◌^◌, false};
    ghost use Rattle.bk_know.specs.declared.sets.Sets.{Sets};
    ghost use Rattle.bk_know.specs.Sets.{sets_of, mask_of, any_empty};
    ghost use Rattle.bk_know.specs.Packing.{inside-again};

    ghost Value = { Sets };

    ghost view = { λ k. sets_of k.mask };

    ghost invariant = { λ k. (k.mask < 2 ^ 64) × (any_empty (sets_of k.mask) ≡ false) };

    ghost inverse = { λ s. record { mask = mask_of s } };

    ghost inverse_ok = { λ k h. inside-again k h.0 };
}

/// The sets of a mask, some of which may be empty.
fn cut(mask: u64) -> Sets
    ensures { result ≡ sets_of mask }
{
    Sets {
        stage: (mask / STAGE_UNIT % FOUR_VALUES) as u8,
        head: (mask / HEAD_UNIT % SEVEN_VALUES) as u8,
        gp: (mask / GP_UNIT % TWO_VALUES) as u8,
        kind: (mask / KIND_UNIT % FIVE_VALUES) as u8,
        summ: (mask / SUMM_UNIT % THREE_VALUES) as u8,
        own: (mask / OWN_UNIT % SIX_VALUES) as u8,
        owner: (mask / OWNER_UNIT % FIVE_VALUES) as u8,
        others: (mask / OTHERS_UNIT % TWO_VALUES) as u8,
        victim: (mask / VICTIM_UNIT % TWO_VALUES) as u8,
        acks: (mask / ACKS_UNIT % TWO_VALUES) as u8,
        wb: (mask / WB_UNIT % THREE_VALUES) as u8,
        mem: (mask / MEM_UNIT % FOUR_VALUES) as u8,
        dreq: (mask / DREQ_UNIT % SIX_VALUES) as u8,
        down: (mask / DOWN_UNIT % FIVE_VALUES) as u8,
        f0: (mask / F0_UNIT % TWO_VALUES) as u8,
        f1: (mask / F1_UNIT % TWO_VALUES) as u8,
        f2: (mask / F2_UNIT % TWO_VALUES) as u8,
        f3: (mask / F3_UNIT % TWO_VALUES) as u8,
    }
}

impl Know {
    /// What is known by this mask, or none where one of its 18 fields is empty.
    pub fn make(mask: u64) -> Option<Know>
        ensures value { IfSome result (λ k. k ≡ sets_of mask) }
        ensures mask { IfSome result (λ k. mask_of k ≡ mask) }
        ensures none { IsNone result ↔ (any_empty (sets_of mask) ≡ true) }
    {
        if any_empty(cut(mask)) {
            return None;
        }
        Some(Know { mask })
    }

    /// The mask.
    pub fn mask(self) -> u64
        ensures value { result ≡ mask_of self }
        ensures sets { sets_of result ≡ self }
        ensures know { IsKnow self }
    {
        self.mask
    }

    /// The sets of all fields, none of them empty.
    pub fn sets(self) -> Sets
        ensures value { result ≡ self }
        ensures some { any_empty result ≡ false }
    {
        cut(self.mask)
    }

    /// The set of a field, by the field's number from 1 to 18. It is never empty.
    pub fn field(self, number: u8) -> u8
        requires { (1 ≤ number) × (number ≤ 18) }
        ensures value { result ≡ field self number }
        ensures some { (result == 0) ≡ false }
    {
        field(self.sets(), number)
    }

    /// Whether each field's set is a subset of the other's: `other` holds wherever `self` does.
    pub fn within(self, other: Know) -> bool
        ensures { result ≡ within self other }
    {
        within(self.sets(), other.sets())
    }

    /// Field by field the values of both.
    pub fn union(self, other: Know) -> Know
        ensures { result ≡ union self other }
    {
        Know {
            mask: self.mask | other.mask,
        }
    }
}

/// What is known of an engine that has nothing under way: the first value alone in each field, either value in each
/// flag.
pub fn idle() -> Know
    ensures value { result ≡ idle_base }
    ensures mask { mask_of result ≡ 0xff08225508242811 }
{
    Know { mask: IDLE }
}

/// What is known of an engine that has just taken up a request: as `idle`, but the stage is Held, and the request's
/// kind, own, owner, others and victim may have any value.
pub fn held() -> Know
    ensures value { result ≡ held_base }
    ensures mask { mask_of result ≡ 0xff08225fffe7e814 }
{
    Know { mask: HELD }
}

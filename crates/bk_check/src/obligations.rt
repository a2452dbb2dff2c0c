//! The least obligation on an instruction and its mask that is not met.

ghost use Rattle.std.specs.Prelude.{◌≡◌};
ghost use Rattle.bk_check.specs.Obligations.{or_later, unmet_here};

use crate::granting::{
    obligation_16, obligation_17, obligation_18, obligation_19, obligation_20, obligation_21,
    obligation_22, obligation_23,
};
use crate::waiting::{
    obligation_5, obligation_6, obligation_7, obligation_8, obligation_9, obligation_10,
    obligation_11, obligation_12, obligation_13, obligation_14, obligation_15,
};
use bk_isa::Form;
use bk_know::Sets;

/// The number of an obligation that is not met, else what comes of the later ones.
pub fn or_later(met: bool, number: u8, later: Option<u8>) -> Option<u8>
    ensures { result ≡ or_later met number later }
{
    if met { later } else { Some(number) }
}

/// The least obligation on the instruction and its mask that is not met, of those from the fifth
/// on, which speak of no other place.
pub fn unmet_here(form: Form, sets: Sets) -> Option<u8>
    ensures { result ≡ unmet_here form sets }
{
    let later = or_later(obligation_23(form, sets), 23, None);
    let later = or_later(obligation_22(form, sets), 22, later);
    let later = or_later(obligation_21(form, sets), 21, later);
    let later = or_later(obligation_20(form, sets), 20, later);
    let later = or_later(obligation_19(form, sets), 19, later);
    let later = or_later(obligation_18(form, sets), 18, later);
    let later = or_later(obligation_17(form, sets), 17, later);
    let later = or_later(obligation_16(form, sets), 16, later);
    let later = or_later(obligation_15(form, sets), 15, later);
    let later = or_later(obligation_14(form, sets), 14, later);
    let later = or_later(obligation_13(form, sets), 13, later);
    let later = or_later(obligation_12(form, sets), 12, later);
    let later = or_later(obligation_11(form, sets), 11, later);
    let later = or_later(obligation_10(form, sets), 10, later);
    let later = or_later(obligation_9(form, sets), 9, later);
    let later = or_later(obligation_8(form, sets), 8, later);
    let later = or_later(obligation_7(form, sets), 7, later);
    let later = or_later(obligation_6(form, sets), 6, later);
    or_later(obligation_5(form, sets), 5, later)
}

//! The pass over an image: the mask at each place, the obligations on places, and the first refusal.

ghost use Rattle.std.specs.Prelude.{◌≡◌, ◌<◌, ◌≤◌, ◌^◌, ◌+◌, ◌-◌, ◌↔◌, ℕ, length, false, IsOk, IfErr, IfSome, OnOk, slice_get};
ghost use Rattle.bk_know.specs.declared.sets.Sets.{Sets};
ghost use Rattle.bk_know.specs.Sets.{any_empty};
ghost use Rattle.bk_image.specs.Images.{known};
ghost use Rattle.bk_check.specs.Accepted.{or_else, fits_line, is_some_sets, is_wait, obligation_1, obligation_2_target, obligation_2, obligation_3_target, obligation_3, obligation_4_target, obligation_4, unmet, Accepted, IsMade, IsFirstUnmet};

use crate::obligations::{or_later, unmet_here};
use crate::waiting::implies;
use bk_flow::{fall, jump, start, target};
use bk_image::Image;
use bk_isa::Form;
use bk_know::{Sets, within};

/// Why an image isn't accepted: its first instruction that doesn't meet an obligation, and the
/// least one that it doesn't meet.
#[derive(Clone, Copy, Debug, PartialEq, Eq)]
pub struct Refusal {
    /// The place of the instruction, from 0.
    pub at: u32,
    /// The number of the obligation, 1 to 23.
    pub obligation: u8,
}

/// The obligation to have a mask, which an instruction without one doesn't meet.
const HAS_MASK: u8 = 1;

/// The sets of the know line at a place.
fn known(image: &Image, place: u32) -> Option<Sets>
    ensures value { result ≡ known image.now.knows place }
    ensures some { IfSome result (λ sets. any_empty sets ≡ false) }
{
    match image.know_at(place) {
        None => None,
        Some(know) => Some(know.sets()),
    }
}

/// The know line, or where there is none what falls in.
fn or_else(line: Option<Sets>, fallen: Option<Sets>) -> Option<Sets>
    ensures { result ≡ or_else line fallen }
{
    match line {
        None => fallen,
        Some(sets) => Some(sets),
    }
}

/// Whether an edge's mask is within the know line at its end, where both exist.
fn fits_line(edge: Option<Sets>, line: Option<Sets>) -> bool
    ensures { result ≡ fits_line edge line }
{
    match (edge, line) {
        (Some(edge), Some(line)) => within(edge, line),
        _ => true,
    }
}

fn is_some_sets(sets: Option<Sets>) -> bool
    ensures { result ≡ is_some_sets sets }
{
    match sets {
        Some(_) => true,
        None => false,
    }
}

/// Whether the instruction at a place is a `wfq`.
fn is_wait(image: &Image, place: u32) -> bool
    ensures { result ≡ is_wait (slice_get image.now.instrs place) }
{
    match image.instrs().get(place as usize) {
        Some(instr) => matches!(instr.form(), Form::Wfq { .. }),
        None => false,
    }
}

/// The place has a mask, as it is given here. That of place 0 has what enters at the start.
fn obligation_1(place: u32, sets: Sets) -> bool
    ensures { result ≡ obligation_1 place sets }
{
    implies(place == 0, within(start(), sets))
}

/// A fall-through that exists has an instruction. A branch's target has an instruction and a know
/// line, whether or not the edge exists.
fn obligation_2(image: &Image, place: u32, form: Form, sets: Sets) -> bool
    requires { place < length image.now.instrs }
    ensures { result ≡ obligation_2 image.now place form sets }
{
    implies(
        is_some_sets(fall(form, sets)),
        (place as usize) + 1 < image.instrs().len(),
    ) && obligation_2_target(image, target(form))
}

fn obligation_2_target(image: &Image, to: Option<u32>) -> bool
    ensures { result ≡ obligation_2_target image.now to }
{
    match to {
        None => true,
        Some(to) => (to as usize) < image.instrs().len() && is_some_sets(known(image, to)),
    }
}

/// A taken edge to its own or an earlier place leads to a `wfq`.
fn obligation_3(image: &Image, place: u32, form: Form, sets: Sets) -> bool
    ensures { result ≡ obligation_3 image.now place form sets }
{
    match target(form) {
        None => true,
        Some(to) => implies(
            is_some_sets(jump(form, sets)),
            implies(to <= place, is_wait(image, to)),
        ),
    }
}

/// The mask of each edge, fall-through included, is within the know line at its end, where there is
/// one.
fn obligation_4(image: &Image, place: u32, form: Form, sets: Sets) -> bool
    requires { place < 2 ^ 32 - 1 }
    ensures { result ≡ obligation_4 image.now place form sets }
{
    fits_line(fall(form, sets), known(image, place + 1))
        && obligation_4_target(image, sets, form, target(form))
}

fn obligation_4_target(image: &Image, sets: Sets, form: Form, to: Option<u32>) -> bool
    ensures { result ≡ obligation_4_target image.now sets form to }
{
    match to {
        None => true,
        Some(to) => fits_line(jump(form, sets), known(image, to)),
    }
}

/// The least obligation that is not met at an instruction, of the mask at its place.
fn unmet(image: &Image, place: u32, form: Form, sets: Sets) -> Option<u8>
    requires within { place < length image.now.instrs }
    requires few { place < 2 ^ 32 - 1 }
    ensures { result ≡ unmet image.now place form sets }
{
    let later = or_later(
        obligation_4(image, place, form, sets),
        4,
        unmet_here(form, sets),
    );
    let later = or_later(obligation_3(image, place, form, sets), 3, later);
    let later = or_later(obligation_2(image, place, form, sets), 2, later);
    or_later(obligation_1(place, sets), 1, later)
}

/// The verdict on an image: whether each instruction meets each obligation (`docs/OBLIGATIONS.md`).
/// The error is the first instruction that doesn't, with the least obligation that it doesn't meet.
/// It is one pass over the instructions, and takes no memory.
pub fn check(image: &Image) -> Result<(), Refusal>
    // Accepted is the image where each obligation is met at each instruction.
    ensures ok { IsOk result ↔ Accepted image.now }
    // A refusal names the first instruction, and the least obligation there.
    ensures refused { IfErr result (λ r. IsFirstUnmet image.now r.at r.obligation) }
    // An accepted image has what its type asks for: operands in range, and no know line with an empty field.
    ensures made { OnOk result (IsMade image.now) }
{
    // Its know lines stand at places of instructions.
    let _lines = image.knows();
    let instrs = image.instrs();
    let mut fallen: Option<Sets> = None;
    for (index, instr) in instrs.iter().enumerate() {
        let at = index as u32;
        let form = instr.form();
        let Some(sets) = or_else(known(image, at), fallen) else {
            return Err(Refusal {
                at,
                obligation: HAS_MASK,
            });
        };
        if let Some(obligation) = unmet(image, at, form, sets) {
            return Err(Refusal { at, obligation });
        }
        fallen = fall(form, sets);
    }
    Ok(())
}

ghost use Rattle.std.specs.Prelude.{◌≡◌, ◌++◌, map, true, IfOk, IfSome, OnOk, string_bytes};
ghost use Rattle.std.specs.List.{list_any};
ghost use Rattle.bk_isa.specs.Fields.{fields_of};
ghost use Rattle.bk_isa.specs.Words.{IsInRange};
ghost use Rattle.bk_know.specs.Sets.{IsKnow};
ghost use Rattle.bk_image.specs.Images.{Parts, known};
ghost use Rattle.bk_image.specs.Spelling.{IsImage};
ghost use Rattle.bk_asm.specs.Again.{all_inside, IsAgain};
ghost use Rattle.bk_asm.specs.Ranges.{is_target};
ghost use Rattle.bk_asm.specs.Reading.{image_at};
ghost use Rattle.bk_asm.specs.Writing.{name_of, is_in, set_text, slot_text, label_text, last_text, form_text, field_text, fields_text, based_text, know_text, know_line_text, goes_to, label_line, form_line, place_text, places_text, caches_line, spelling};

use crate::mnemonic::{mnemonic, operation_of};
use crate::names::{Names, class_names, names_of, value_names};
use crate::slots::{Last, Slot, slots_of};
use bk_image::{FIRST_VERSION, Image};
use bk_isa::{Instr, word_of};
use bk_know::{Know, Sets, field, held, idle, subset};
use std::alloc::{AllocError, Global};

// Each function fails only where memory runs out; `out` may then hold a part of its text.

/// The stages Held and Closing.
const HELD_OR_CLOSING: u8 = 0b1100;

/// The fields of an instruction that are operands.
#[derive(Clone, Copy)]
struct Operands {
    a: u8,
    b: u8,
    c: u8,
    imm: u32,
}

/// The operands of an instruction.
fn operands_of(instr: Instr) -> Operands
    ensures value { let p = fields_of instr in result ≡ record { a = p.a; b = p.b; c = p.c; imm = p.imm } }
    ensures in_range { IsInRange instr }
{
    let word = word_of(instr);
    Operands {
        a: (word / (1 << 48) % 256) as u8,
        b: (word / (1 << 40) % 256) as u8,
        c: (word / (1 << 32) % 256) as u8,
        imm: (word % (1 << 32)) as u32,
    }
}

/// The name of a number.
fn name_of<'a>(names: &[(&'a str, u8)], number: u8) -> &'a str
    ensures { result.now ≡ name_of (map (λ name. (name.0.now, name.1)) names.now) number }
{
    for (name, value) in names {
        if *value == number {
            return name;
        }
    }
    ""
}

/// Whether the last operand is a target.
fn is_target(last: Last) -> bool
    ensures { result ≡ is_target last }
{
    matches!(last, Last::Target)
}

/// Whether a set has a value.
fn is_in(set: u8, value: u8) -> bool
    ensures { result ≡ is_in set value }
{
    value < 8 && (set >> value) % 2 == 1
}

/// Writes the names of the values that a set has, with a separator between them.
fn push_set(
    out: &mut String,
    names: &[(&str, u8)],
    separator: &str,
    set: u8,
) -> Result<(), AllocError>
    ensures { OnOk result (string_bytes out.new ≡ string_bytes out.old
        ++ set_text (map (λ name. (name.0.now, name.1)) names.now) true separator.now set) }
{
    let mut first = true;
    for (name, value) in names {
        if is_in(set, *value) {
            if !first {
                out.push_str(separator)?;
            }
            out.push_str(name)?;
            first = false;
        }
    }
    Ok(())
}

/// Writes an operand a, b or c. `field` is the know field that stands before a set of values.
fn push_slot(out: &mut String, slot: Slot, field: u8, number: u8) -> Result<(), AllocError>
    ensures { OnOk result (string_bytes out.new ≡ string_bytes out.old ++ slot_text slot field number) }
{
    match slot {
        Slot::Nothing => Ok(()),
        Slot::Name(sort) => write!(out, " {}", name_of(names_of(sort), number)),
        Slot::Perhaps(sort) => {
            if number == 0 {
                Ok(())
            } else {
                write!(out, " {}", name_of(names_of(sort), number))
            }
        }
        Slot::Classes => {
            out.push_str(" ")?;
            push_set(out, class_names(), ",", number)
        }
        Slot::Values => {
            out.push_str(" ")?;
            push_set(out, value_names(field), ",", number)
        }
    }
}

/// Writes the label of a place.
fn push_label(out: &mut String, place: u32) -> Result<(), AllocError>
    ensures { OnOk result (string_bytes out.new ≡ string_bytes out.old ++ label_text place) }
{
    let (hundreds, tens, ones) = (place / 100 % 10, place / 10 % 10, place % 10);
    write!(out, "L{hundreds}{tens}{ones}")
}

/// Writes the last operand.
fn push_last(out: &mut String, last: Last, number: u32) -> Result<(), AllocError>
    ensures { OnOk result (string_bytes out.new ≡ string_bytes out.old ++ last_text last number) }
{
    match last {
        Last::Nothing => Ok(()),
        Last::Shift => write!(out, " {number}"),
        Last::Number => write!(out, " {number}"),
        Last::Target => {
            out.push_str(" ")?;
            push_label(out, number)
        }
    }
}

/// Writes an instruction.
fn push_form(out: &mut String, instr: Instr) -> Result<(), AllocError>
    ensures text { OnOk result (string_bytes out.new ≡ string_bytes out.old ++ form_text instr) }
    ensures in_range { OnOk result (IsInRange instr) }
{
    let operation = operation_of(instr.form());
    let slots = slots_of(operation);
    let Operands { a, b, c, imm } = operands_of(instr);
    out.push_str(mnemonic(operation))?;
    push_slot(out, slots.a, 0, a)?;
    push_slot(out, slots.b, a, b)?;
    push_slot(out, slots.c, a, c)?;
    push_last(out, slots.last, imm)
}

/// Writes a field and the names of its values, if its set differs from that of a base.
fn push_field(
    out: &mut String,
    base: Sets,
    sets: Sets,
    name: &str,
    number: u8,
) -> Result<(), AllocError>
    ensures { OnOk result (string_bytes out.new ≡ string_bytes out.old ++ field_text (name.now, number) base sets) }
{
    let set = field(sets, number);
    if set == field(base, number) {
        return Ok(());
    }
    write!(out, " {name}=")?;
    push_set(out, value_names(number), "|", set)
}

/// Writes the fields whose sets differ from those of a base.
fn push_fields(
    out: &mut String,
    base: Sets,
    sets: Sets,
    names: &[(&str, u8)],
) -> Result<(), AllocError>
    ensures { OnOk result (string_bytes out.new ≡ string_bytes out.old
        ++ fields_text (map (λ name. (name.0.now, name.1)) names.now) base sets) }
{
    for (name, number) in names {
        push_field(out, base, sets, name, *number)?;
    }
    Ok(())
}

/// Writes a know line by its base.
#[tactic(auto, unfolding(crate::specs::Writing::based_text))]
fn push_based(
    out: &mut String,
    fields: &[(&str, u8)],
    name: &str,
    base: Sets,
    sets: Sets,
) -> Result<(), AllocError>
    ensures { OnOk result (string_bytes out.new ≡ string_bytes out.old
        ++ based_text (map (λ name. (name.0.now, name.1)) fields.now) name.now base sets) }
{
    out.push_str("  know ")?;
    out.push_str(name)?;
    push_fields(out, base, sets, fields)?;
    out.push_str("\n")
}

/// Writes a know line.
fn push_know(out: &mut String, know: Know) -> Result<(), AllocError>
    ensures text { OnOk result (string_bytes out.new ≡ string_bytes out.old ++ know_text know) }
    ensures mask { IsKnow know }
{
    // The sets are those of a mask, so each is in its range.
    let _mask = know.mask();
    let sets = know.sets();
    let fields = names_of(Names::Field);
    if subset(sets.stage, HELD_OR_CLOSING) {
        push_based(out, fields, "held", held().sets(), sets)
    } else {
        push_based(out, fields, "idle", idle().sets(), sets)
    }
}

/// Whether an instruction goes to a place.
fn goes_to(place: u32, instr: Instr) -> bool
    ensures { result ≡ goes_to place instr }
{
    let last = slots_of(operation_of(instr.form())).last;
    is_target(last) && operands_of(instr).imm == place
}

/// Whether some instruction goes to a place.
fn is_named(place: u32, instrs: &[Instr]) -> bool
    ensures { result ≡ list_any (goes_to place) instrs.now }
{
    instrs.iter().any(|instr| goes_to(place, *instr))
}

/// Writes the label of a place alone, if some instruction goes there.
#[tactic(auto, unfolding(crate::specs::Writing::label_line))]
fn push_label_line(out: &mut String, instrs: &[Instr], place: u32) -> Result<(), AllocError>
    ensures { OnOk result (string_bytes out.new ≡ string_bytes out.old ++ label_line instrs.now place) }
{
    if !is_named(place, instrs) {
        return Ok(());
    }
    push_label(out, place)?;
    out.push_str(":\n")
}

/// Writes the know line of a place, if it has one.
fn push_know_line(out: &mut String, know: Option<Know>) -> Result<(), AllocError>
    ensures text { OnOk result (string_bytes out.new ≡ string_bytes out.old ++ know_line_text know) }
    ensures mask { IfSome know (λ k. IsKnow k) }
{
    match know {
        Some(know) => push_know(out, know),
        None => Ok(()),
    }
}

/// Writes an instruction alone.
#[tactic(auto, unfolding(crate::specs::Writing::form_line))]
fn push_form_line(out: &mut String, instr: Instr) -> Result<(), AllocError>
    ensures text { OnOk result (string_bytes out.new ≡ string_bytes out.old ++ form_line instr) }
    ensures in_range { OnOk result (IsInRange instr) }
{
    out.push_str("  ")?;
    push_form(out, instr)?;
    out.push_str("\n")
}

/// Writes what stands at a place: its label, its know line and its instruction.
fn push_place(out: &mut String, image: &Image, place: u32, instr: Instr) -> Result<(), AllocError>
    ensures text { OnOk result (string_bytes out.new ≡ string_bytes out.old ++ place_text image.now place instr) }
    ensures in_range { OnOk result (IsInRange instr) }
    ensures mask { OnOk result (IfSome (known image.now.knows place) (λ k. IsKnow k)) }
{
    push_label_line(out, image.instrs(), place)?;
    push_know_line(out, image.know_at(place))?;
    push_form_line(out, instr)
}

/// Writes what stands at each place.
fn push_places(out: &mut String, image: &Image) -> Result<(), AllocError>
    ensures text { OnOk result (string_bytes out.new ≡ string_bytes out.old ++ places_text image.now 0 image.now.instrs) }
    ensures image { OnOk result (IsImage image.now) }
{
    let instrs = image.instrs();
    // Each know line is one of a place, so all of them are written.
    let _knows = image.knows();
    // So is its limit one of its version.
    let _limit = image.limit();
    let mut place = 0;
    for instr in instrs {
        push_place(out, image, place, *instr)?;
        place += 1;
    }
    Ok(())
}

/// Writes the line of the limit, where the image has one of its own.
#[tactic(auto, unfolding(crate::specs::Writing::caches_line))]
fn push_caches(out: &mut String, image: &Image) -> Result<(), AllocError>
    ensures { OnOk result (string_bytes out.new ≡ string_bytes out.old ++ caches_line image.now.version image.now.limit) }
{
    if image.version() == FIRST_VERSION {
        return Ok(());
    }
    write!(out, "caches {}\n", image.limit())
}

/// The canonical text of an image (`docs/ASSEMBLY.md`). Fails only where memory runs out.
pub fn disassemble(alloc: Global, image: &Image) -> Result<Vec<u8>, AllocError>
    ensures text { IfOk result (λ v. v.items ≡ spelling image.now) }
    // What is written is read as the image that was written, where each branch goes to a place; else the fault is of kind 26.
    ensures again { IfOk result (λ v. IsAgain (all_inside image.now.instrs) image.now (image_at v.items)) }
{
    let mut out = String::new(alloc);
    push_caches(&mut out, image)?;
    push_places(&mut out, image)?;
    Ok(out.into_bytes())
}

/// The canonical text of an image is read as that image where each branch goes to a place; else a label is defined nowhere, and
/// the fault is of kind 26.
pub fn canonical_text_again()
    ensures { (x : Parts) → IsImage x → IsAgain (all_inside x.instrs) x (image_at (spelling x)) }
{}

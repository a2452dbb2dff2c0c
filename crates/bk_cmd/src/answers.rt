//! Commands that make no run: what they say of a file's bytes, or of their words.

ghost use Rattle.std.specs.Prelude.{◌≡◌, ◌≤◌, [], ◌∷◌, IfOk, IfErr};
ghost use Rattle.bk_outer.specs.Counts.{Rose};
ghost use Rattle.bk_cmd.specs.Answers.{Due, SaysOf, drawn_text};
ghost use Rattle.bk_cmd.specs.Inputs.{seen, ReadsFirst};
ghost use Rattle.bk_cmd.specs.Stops.{GivesAnswer, Says, IsStop};
ghost use Rattle.bk_cmd.specs.Words.{OfFile};
ghost use Rattle.bk_cmd.specs.declared.words.Question.TheVariants.{Verdict, Assembly, Disassembly};

use crate::inputs::{FIRST, bytes_of, image_in};
use crate::outcome::Stop;
use crate::words::Question;
use bk_asm::{AsmFault, assemble, disassemble};
use bk_base::Config;
use bk_check::check;
use bk_image::write_image;
use bk_outer::Shelf;
use bk_trace::{generate, write_trace};
use std::alloc::{AllocError, Global};

/// What is said of an accepted image.
const ACCEPTED: &str = "accepted\n";

/// The verdict on the image of these bytes.
fn verdict_on(alloc: Global, bytes: &[u8]) -> Result<Vec<u8>, Stop>
    ensures { GivesAnswer result (SaysOf Verdict bytes.now) }
{
    let image = match image_in(alloc, bytes) {
        Ok(image) => image,
        Err(stop) => return Err(stop),
    };
    if let Err(refusal) = check(&image) {
        return Err(Stop::Refused { refusal });
    }
    match ACCEPTED.as_bytes().to_vec(alloc) {
        Ok(text) => Ok(text),
        Err(_) => Err(Stop::Memory),
    }
}

/// The bytes of the image that a text spells.
fn assembly_of(alloc: Global, text: &[u8]) -> Result<Vec<u8>, Stop>
    ensures { GivesAnswer result (SaysOf Assembly text.now) }
{
    let image = match assemble(alloc, text) {
        Ok(image) => image,
        Err(AsmFault::Bad { line, column, kind }) => {
            return Err(Stop::Bad {
                file: FIRST,
                at: line,
                column,
                kind,
            });
        }
        Err(AsmFault::Memory) => return Err(Stop::Memory),
    };
    match write_image(alloc, &image) {
        Ok(bytes) => Ok(bytes),
        Err(_) => Err(Stop::Memory),
    }
}

/// The canonical text of the image of these bytes.
fn disassembly_of(alloc: Global, bytes: &[u8]) -> Result<Vec<u8>, Stop>
    ensures { GivesAnswer result (SaysOf Disassembly bytes.now) }
{
    let image = match image_in(alloc, bytes) {
        Ok(image) => image,
        Err(stop) => return Err(stop),
    };
    match disassemble(alloc, &image) {
        Ok(text) => Ok(text),
        Err(_) => Err(Stop::Memory),
    }
}

/// What is said of a file's bytes.
fn said_of(alloc: Global, question: Question, bytes: &[u8]) -> Result<Vec<u8>, Stop>
    ensures { GivesAnswer result (SaysOf question bytes.now) }
{
    match question {
        Question::Verdict => verdict_on(alloc, bytes),
        Question::Assembly => assembly_of(alloc, bytes),
        Question::Disassembly => disassembly_of(alloc, bytes),
    }
}

/// What `verify IMAGE`, `asm TEXT` and `dis IMAGE` write.
pub(crate) fn answer_of<H: Shelf>(
    alloc: Global,
    shelf: &mut H,
    question: Question,
    name: &str,
) -> Result<Vec<u8>, Stop>
    ensures ok { IfOk result (λ text.
        Says (seen H.files H.reads shelf.old shelf.new) (OfFile question name.now) (Due text.items)) }
    ensures reads { ReadsFirst (name.now ∷ []) (seen H.files H.reads shelf.old shelf.new) }
    ensures err { IfErr result (IsStop (seen H.files H.reads shelf.old shelf.new) (OfFile question name.now)
        (Rose (H.faults shelf.old) (H.faults shelf.new)) (Rose (H.misses shelf.old) (H.misses shelf.new))) }
    ensures same_files { H.files shelf.new ≡ H.files shelf.old }
    ensures faults_kept { H.faults shelf.old ≤ H.faults shelf.new }
    ensures misses_kept { H.misses shelf.old ≤ H.misses shelf.new }
{
    match bytes_of(alloc, shelf, FIRST, name) {
        Ok(bytes) => said_of(alloc, question, &bytes),
        Err(stop) => Err(stop),
    }
}

/// What `gen SEED CACHES SETS WAYS OPS` writes.
pub(crate) fn drawn(
    alloc: Global,
    seed: u32,
    config: Config,
    operations: u32,
) -> Result<Vec<u8>, AllocError>
    requires { operations ≤ 10000 }
    ensures { IfOk result (λ text. text.items ≡ drawn_text seed config operations) }
{
    let trace = generate(alloc, seed, config, operations)?;
    write_trace(alloc, &trace)
}

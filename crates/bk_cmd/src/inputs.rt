//! Reading the files of a command.

ghost use Rattle.std.specs.Prelude.{◌≡◌, ◌≤◌, ◌-◌, ◌^◌, [], ◌∷◌, Ok, Some, IfOk, IfErr, IfSome};
ghost use Rattle.bk_outer.specs.Counts.{Rose};
ghost use Rattle.bk_image.specs.Reading.{image_at};
ghost use Rattle.bk_image.specs.Spelling.{IsImage, spelling};
ghost use Rattle.bk_check.specs.Accepted.{Accepted};
ghost use Rattle.bk_trace.specs.Grammar.{trace_of};
ghost use Rattle.bk_trace.specs.Reading.{trace_at};
ghost use Rattle.bk_cmd.specs.Inputs.{seen, GaveOnly, ReadsFirst, HasImage, HasTrace};
ghost use Rattle.bk_cmd.specs.Replays.{AreInputs};
ghost use Rattle.bk_cmd.specs.Stops.{GivesImage, GivesTrace, IsReadStop, IsImageStop, IsTraceStop, IsStop};
ghost use Rattle.bk_cmd.specs.Words.{Replay};

use crate::outcome::{Stop, Unread};
use crate::words::Output;
use bk_image::{Image, ImageFault, read_image};
use bk_outer::{ReadAnswer, Shelf};
use bk_sound::{Certified, certify};
use bk_trace::{Trace, TraceFault, read_trace};
use std::alloc::Global;

/// The number of the first file that the words name.
pub(crate) const FIRST: u8 = 1;
/// The number of the second file that the words name.
const SECOND: u8 = 2;

/// What a replay runs, and what it writes.
#[derive(Drop)]
pub(crate) struct Inputs {
    pub output: Output,
    pub image: Certified,
    pub trace: Trace,
}

/// The image of these bytes, of the first file.
pub(crate) fn image_in(alloc: Global, bytes: &[u8]) -> Result<Image, Stop>
    ensures read { GivesImage result (image_at bytes.now) }
    ensures spelled { IfOk result (λ image. IsImage image × (bytes.now ≡ spelling image)) }
{
    match read_image(alloc, bytes) {
        Ok(image) => Ok(image),
        Err(ImageFault::Bad { place, kind }) => Err(Stop::Bad {
            file: FIRST,
            at: place,
            column: 0,
            kind,
        }),
        Err(ImageFault::Memory) => Err(Stop::Memory),
    }
}

/// The trace of this text, of the second file.
fn trace_in(alloc: Global, text: &[u8]) -> Result<Trace, Stop>
    ensures read { GivesTrace result (trace_at text.now) }
    ensures spelled { IfOk result (λ trace. trace_of text.now ≡ Some trace) }
{
    match read_trace(alloc, text) {
        Ok(trace) => Ok(trace),
        Err(TraceFault::Bad { line, column, kind }) => Err(Stop::Bad {
            file: SECOND,
            at: line,
            column,
            kind,
        }),
        Err(TraceFault::Memory) => Err(Stop::Memory),
    }
}

/// Reads the bytes of the file with this number and name.
pub(crate) fn bytes_of<H: Shelf>(
    alloc: Global,
    shelf: &mut H,
    file: u8,
    name: &str,
) -> Result<Vec<u8>, Stop>
    ensures ok { IfOk result (λ v. IfSome (H.files shelf.old) (λ at. at name.now ≡ Some v.items)) }
    ensures gave { IfOk result (λ v. GaveOnly (seen H.files H.reads shelf.old shelf.new) name.now v.items) }
    ensures reads { ReadsFirst (name.now ∷ []) (seen H.files H.reads shelf.old shelf.new) }
    ensures err { IfErr result (IsReadStop (seen H.files H.reads shelf.old shelf.new) name.now file
        (Rose (H.faults shelf.old) (H.faults shelf.new)) (Rose (H.misses shelf.old) (H.misses shelf.new))) }
    ensures same_files { H.files shelf.new ≡ H.files shelf.old }
    ensures faults_kept { H.faults shelf.old ≤ H.faults shelf.new }
    ensures misses_kept { H.misses shelf.old ≤ H.misses shelf.new }
    ensures faults_last { H.faults shelf.old ≡ 2 ^ 64 - 1 → H.faults shelf.new ≡ 2 ^ 64 - 1 }
    ensures misses_last { H.misses shelf.old ≡ 2 ^ 64 - 1 → H.misses shelf.new ≡ 2 ^ 64 - 1 }
{
    match shelf.read(alloc, name) {
        Ok(bytes) => Ok(bytes),
        Err(ReadAnswer::Memory) => Err(Stop::Memory),
        Err(ReadAnswer::Failed) => Err(Stop::Unread {
            file,
            cause: Unread::Failed,
        }),
        Err(ReadAnswer::Absent) => Err(Stop::Unread {
            file,
            cause: Unread::Absent,
        }),
        Err(ReadAnswer::TooLong) => Err(Stop::Unread {
            file,
            cause: Unread::TooLong,
        }),
    }
}

/// Reads the image of a replay, which is run only where it is accepted.
fn certified_of<H: Shelf>(alloc: Global, shelf: &mut H, name: &str) -> Result<Certified, Stop>
    ensures ok { IfOk result (λ image. HasImage (seen H.files H.reads shelf.old shelf.new) name.now image) }
    ensures accepted { IfOk result (λ image. Accepted image) }
    ensures reads { ReadsFirst (name.now ∷ []) (seen H.files H.reads shelf.old shelf.new) }
    ensures err { IfErr result (IsImageStop (seen H.files H.reads shelf.old shelf.new) name.now
        (Rose (H.faults shelf.old) (H.faults shelf.new)) (Rose (H.misses shelf.old) (H.misses shelf.new))) }
    ensures same_files { H.files shelf.new ≡ H.files shelf.old }
    ensures faults_kept { H.faults shelf.old ≤ H.faults shelf.new }
    ensures misses_kept { H.misses shelf.old ≤ H.misses shelf.new }
    ensures faults_last { H.faults shelf.old ≡ 2 ^ 64 - 1 → H.faults shelf.new ≡ 2 ^ 64 - 1 }
    ensures misses_last { H.misses shelf.old ≡ 2 ^ 64 - 1 → H.misses shelf.new ≡ 2 ^ 64 - 1 }
{
    let bytes = match bytes_of(alloc, shelf, FIRST, name) {
        Ok(bytes) => bytes,
        Err(stop) => return Err(stop),
    };
    let image = match image_in(alloc, &bytes) {
        Ok(image) => image,
        Err(stop) => return Err(stop),
    };
    match certify(image) {
        Ok(certified) => Ok(certified),
        Err(refused) => Err(Stop::Refused {
            refusal: refused.refusal,
        }),
    }
}

/// Reads the trace of a replay.
fn trace_of<H: Shelf>(alloc: Global, shelf: &mut H, name: &str) -> Result<Trace, Stop>
    ensures ok { IfOk result (λ trace. HasTrace (seen H.files H.reads shelf.old shelf.new) name.now trace) }
    ensures reads { ReadsFirst (name.now ∷ []) (seen H.files H.reads shelf.old shelf.new) }
    ensures err { IfErr result (IsTraceStop (seen H.files H.reads shelf.old shelf.new) name.now
        (Rose (H.faults shelf.old) (H.faults shelf.new)) (Rose (H.misses shelf.old) (H.misses shelf.new))) }
    ensures same_files { H.files shelf.new ≡ H.files shelf.old }
    ensures faults_kept { H.faults shelf.old ≤ H.faults shelf.new }
    ensures misses_kept { H.misses shelf.old ≤ H.misses shelf.new }
    ensures faults_last { H.faults shelf.old ≡ 2 ^ 64 - 1 → H.faults shelf.new ≡ 2 ^ 64 - 1 }
    ensures misses_last { H.misses shelf.old ≡ 2 ^ 64 - 1 → H.misses shelf.new ≡ 2 ^ 64 - 1 }
{
    match bytes_of(alloc, shelf, SECOND, name) {
        Ok(bytes) => trace_in(alloc, &bytes),
        Err(stop) => Err(stop),
    }
}

/// Reads the image of a replay, and then, where it is accepted, the trace, which has no more caches than the image's limit.
pub(crate) fn inputs_of<H: Shelf>(
    alloc: Global,
    shelf: &mut H,
    output: Output,
    image_name: &str,
    trace_name: &str,
) -> Result<Inputs, Stop>
    ensures output { IfOk result (λ i. i.output ≡ output) }
    ensures inputs { IfOk result (λ i.
        AreInputs (seen H.files H.reads shelf.old shelf.new) image_name.now trace_name.now i.image i.trace) }
    ensures reads { ReadsFirst (image_name.now ∷ trace_name.now ∷ []) (seen H.files H.reads shelf.old shelf.new) }
    ensures stop { IfErr result (IsStop (seen H.files H.reads shelf.old shelf.new) (Replay output image_name.now trace_name.now)
        (Rose (H.faults shelf.old) (H.faults shelf.new)) (Rose (H.misses shelf.old) (H.misses shelf.new))) }
    ensures same_files { H.files shelf.new ≡ H.files shelf.old }
    ensures faults_kept { H.faults shelf.old ≤ H.faults shelf.new }
    ensures misses_kept { H.misses shelf.old ≤ H.misses shelf.new }
{
    let image = match certified_of(alloc, shelf, image_name) {
        Ok(image) => image,
        Err(stop) => return Err(stop),
    };
    let trace = match trace_of(alloc, shelf, trace_name) {
        Ok(trace) => trace,
        Err(stop) => return Err(stop),
    };
    if trace.config().caches > image.image().limit() {
        return Err(Stop::Limit);
    }
    Ok(Inputs {
        output,
        image,
        trace,
    })
}

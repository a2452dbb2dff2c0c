//! What `verify` answers, and how it is told.

use super::tests::{asked, numbers, shelf as shelf_of, verified, verify_words};
use super::*;
use crate::programs::image_named;
use bk_check::Refusal;
use bk_outer::MemSink;
use bk_proto::mutants;
use std::alloc::Global;
use std::test::Fail;

#[test]
fn accepted_programs(rt: HostRuntime) -> Result<(), Fail> {
    for name in ["ei", "msi", "mesi", "moesif"] {
        let (outcome, sink) = verified(rt.alloc(), &image_named(rt.alloc(), name)?)?;
        assert_eq!(rt; numbers(&outcome), [OK as u64, 0, 0, 0, 0, 9]);
        assert!(rt; sink.bytes() == "accepted\n".as_bytes());
        assert_eq!(rt; outcome.refusal, None);
    }
    Ok(())
}

/// The image with another word at a place.
fn with_word(alloc: Global, image: &[u8], place: u32, word: u64) -> Result<Vec<u8>, Fail> {
    let mut bytes = image.to_vec(alloc)?;
    for (byte, value) in bytes
        .iter_mut()
        .skip(16 + 8 * place as usize)
        .zip(word.to_le_bytes())
    {
        *byte = value;
    }
    Ok(bytes)
}

#[test]
fn refused_programs(rt: HostRuntime) -> Result<(), Fail> {
    // A program, a place and its new word; the instruction and the obligation of the refusal.
    let cases = [
        ("mesi", 62, 0x6102_0000_0000_0000, 62, 18),
        ("mesi", 2, 0x5100_0000_0000_0000, 2, 9),
        ("ei", 53, 0, 55, 14),
        ("mesi", 95, 0, 96, 4),
        ("mesi", 60, 0x2504_0100_0000_003e, 60, 4),
        ("uc", 0, 0x5005_0000_0000_0000, 0, 1),
        ("uck", 0, 0x5005_0000_0000_0000, 11, 11),
    ];
    for (name, place, word, at, obligation) in cases {
        let image = image_named(rt.alloc(), name)?;
        let changed = with_word(rt.alloc(), &image, place, word)?;
        let (outcome, sink) = verified(rt.alloc(), &changed)?;
        assert_eq!(rt; numbers(&outcome), [REFUSED as u64, 0, 0, 0, 0, 0]);
        assert_eq!(rt; outcome.refusal, Some(Refusal { at, obligation }));
        assert_eq!(rt; sink.bytes().len(), 0);
    }
    Ok(())
}

#[test]
fn mutants_are_refused(rt: HostRuntime) -> Result<(), Fail> {
    for mutant in mutants() {
        let image = image_named(rt.alloc(), mutant.name)?;
        let changed = with_word(rt.alloc(), &image, mutant.place, mutant.word)?;
        let (outcome, sink) = verified(rt.alloc(), &changed)?;
        assert_eq!(rt;
            numbers(&outcome),
            [REFUSED as u64, 0, 0, 0, 0, 0],
            "{mutant:?}"
        );
        assert_eq!(rt; outcome.refusal, Some(mutant.refusal), "{mutant:?}");
        assert_eq!(rt; sink.bytes().len(), 0);
    }
    Ok(())
}

#[test]
fn a_refusal_is_told(rt: HostRuntime) -> Result<(), Fail> {
    let (outcome, _sink) = verified(rt.alloc(), &image_named(rt.alloc(), "uck")?)?;
    assert!(rt; fault_line(&outcome).as_str() == "bedrock: refused at 11: O11");
    Ok(())
}

#[test]
fn damaged_images(rt: HostRuntime) -> Result<(), Fail> {
    let alloc = rt.alloc();
    let image = image_named(alloc, "uc")?;
    let cut = image.get(..100).ok_or("a hundred bytes")?;
    let (outcome, _sink) = verified(alloc, cut)?;
    assert_eq!(rt; numbers(&outcome), [MALFORMED as u64, 1, 100, 0, 11, 0]);
    let mut longer = image_named(alloc, "uc")?;
    longer.push(0)?;
    let (outcome, _sink) = verified(alloc, &longer)?;
    assert_eq!(rt; numbers(&outcome), [MALFORMED as u64, 1, 184, 0, 12, 0]);
    // 277 instructions
    let mut many = image_named(alloc, "uc")?;
    *many.get_mut(9).ok_or("a tenth byte")? = 1;
    let (outcome, _sink) = verified(alloc, &many)?;
    assert_eq!(rt; numbers(&outcome), [TOO_LONG as u64, 1, 8, 0, 5, 0]);
    assert!(rt; fault_line(&outcome).as_str() == "bedrock: too long file 1");
    Ok(())
}

#[test]
fn a_verdict_that_is_not_taken(rt: HostRuntime) -> Result<(), Fail> {
    let alloc = rt.alloc();
    let mut shelf = shelf_of(alloc, &image_named(alloc, "mesi")?, "", Vec::new(alloc))?;
    let mut sink = MemSink::make(alloc, 4, vec![in alloc; 2]?);
    let outcome = asked(alloc, &verify_words(alloc)?, &mut shelf, &mut sink);
    assert_eq!(rt; numbers(&outcome), [WRITE_FAULT as u64, 0, 0, 0, 0, 4]);
    assert!(rt; sink.bytes() == "acce".as_bytes());
    Ok(())
}

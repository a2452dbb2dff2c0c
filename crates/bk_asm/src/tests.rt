use super::*;
use bk_image::{Image, write_image};
use bk_isa::instr_of;
use std::test::*;

/// The canonical text of an image that serves requests past the caches.
const UNCACHED: &str = "\
L000:
  wfq resp,req
  bk head Request L004
  popq wp
  bi L000
L004:
  bk gp free L009
  defer
  wfq resp
  popq wp
  bi L000
L009:
  popq wp
  bk kind UcRd L015
  pushq memww
  pushq ucdone
  fin
  bi L000
L015:
  pushq memrd
  wfq mem
  popq
  pushq ucblk
  fin
  bi L000
";

/// The line, the column and the kind of a text's fault.
fn fault_of(rt: &HostRuntime, text: &[u8]) -> Option<[u64; 3]> {
    match assemble(rt.alloc(), text) {
        Err(AsmFault::Bad { line, column, kind }) => Some([line, column, kind as u64]),
        Err(AsmFault::Memory) | Ok(_) => None,
    }
}

#[test]
fn faults(rt: HostRuntime) {
    for (text, place) in [
        ("bi x\nb:\n", [2, 1, 28]),
        ("nop \x01\n", [1, 5, 20]),
        ("bi ; \x01\n", [1, 6, 20]),
        ("no\x01\n", [1, 1, 21]),
        ("know idle owner=I\nnop\n", [1, 11, 27]),
        ("know busy\nnop\n", [1, 6, 27]),
        ("addi r0 r1 x\n", [1, 12, 23]),
        ("add r0 r8 r1\n", [1, 8, 22]),
        ("a: bk stage Held a\n", [1, 7, 22]),
        ("\n\n", [2, 1, 29]),
        (": nop\n", [1, 1, 21]),
        ("add r0,r1,r2\n", [1, 5, 22]),
        ("; a", [1, 1, 29]),
        ("nop\r nop\n", [1, 1, 21]),
        ("", [1, 1, 29]),
        ("nop nop\n", [1, 5, 24]),
        ("inv x\n", [1, 5, 22]),
        ("nop\nknow idle\n", [2, 1, 28]),
        ("know idle own=I own=S\nnop\n", [1, 17, 27]),
        ("know\nnop\n", [1, 5, 27]),
        ("know ; abc\nnop\n", [1, 11, 27]),
        ("know idle\nknow idle\nnop\n", [2, 1, 27]),
        ("nop\na:\n", [2, 1, 28]),
        ("abcdefghijklmnopq: nop\n", [1, 1, 21]),
        ("add r0,r1\n", [1, 5, 22]),
        ("add\n", [1, 4, 22]),
        ("add r0 r1 ; c\n", [1, 14, 22]),
        ("movi r3 4294967296\n", [1, 9, 23]),
        ("shl r0 r1 64\n", [1, 11, 23]),
        ("frob \x01\nnop\n", [1, 1, 21]),
        ("popq wx\n", [1, 6, 22]),
        ("pushq foo\n", [1, 7, 22]),
        ("a: b: nop\n", [1, 4, 21]),
        ("pushq stwb own E\n", [1, 16, 22]),
        ("pushq tr E S\n", [1, 10, 22]),
        ("a: nop\na: nop\n", [2, 1, 25]),
        ("bi x\n", [1, 4, 26]),
        ("frob r1\n", [1, 1, 21]),
        ("nop\n  frob\n", [2, 3, 21]),
        ("wde I\n", [1, 5, 22]),
        ("wfq rex\n", [1, 5, 22]),
        ("a: nop\nknow idle\na: know idle\nnop\n", [3, 1, 25]),
        ("know idle\nb: know idle\nnop\n", [2, 4, 27]),
        ("bi 5\n", [1, 4, 22]),
        ("caches 16\n", [1, 1, 29]),
        ("caches\nnop\n", [1, 1, 31]),
        ("caches ; \x01\nnop\n", [1, 1, 31]),
        ("caches 0\nnop\n", [1, 1, 31]),
        ("\n  caches 17 x\nnop\n", [2, 3, 31]),
        ("caches x\nnop\n", [1, 1, 31]),
        ("nop\ncaches 4\n", [2, 1, 31]),
        ("caches 4\ncaches 4\nnop\n", [2, 1, 31]),
        ("a:\ncaches 4\nnop\n", [2, 1, 31]),
        ("know idle\ncaches 4 5\nnop\n", [2, 1, 31]),
        ("caches 4 5\nnop\n", [1, 10, 24]),
        ("caches 4 ; \x01\nnop\n", [1, 12, 20]),
        ("a: caches 4\nnop\n", [1, 4, 21]),
        ("caches: caches 4\nnop\n", [1, 9, 21]),
    ] {
        assert_eq!(rt; fault_of(&rt, text.as_bytes()), Some(place), "{text:?}");
    }
}

/// The limit that the header of an image of version 2 gives, by two hexadecimal digits, and the bytes of the image of a text behind
/// its first 16.
fn digits_of(rt: &HostRuntime, text: &str) -> Result<String, Fail> {
    let image = assemble(rt.alloc(), text.as_bytes())?;
    let mut digits = String::new(rt.alloc());
    if image.version() == 2 {
        write!(digits, "{:02x} ", image.limit())?;
    }
    for byte in &write_image(rt.alloc(), &image)?[16..] {
        write!(digits, "{byte:02x}")?;
    }
    Ok(digits)
}

#[test]
fn images(rt: HostRuntime) -> Result<(), Fail> {
    for (text, digits) in [
        ("add r0 r1 r2\n", "0000000002010001"),
        ("a: bk own S,E,F a\n", "00000000000e0625"),
        ("a: bk gp free a\n", "0000000000010325"),
        (
            "x: beq r0 r1 x\nbne r0 r1 x\nblt r1 r2 x\nbge r7 r0 x\n",
            "0000000000010021000000000001002200000000000201230000000000000724",
        ),
        ("nop\r\nnop\r\n", "00000000000000000000000000000000"),
        (
            "sf f0\ncf f1\nnf f2\nmovf f3 f0\nandf f0 f1\norf f2 f3\n",
            "000000000000003000000000000001310000000000000232000000000000033300000000000100340000000000030235",
        ),
        (
            "know held own=S|I|S\nnop\n",
            "00000000000000000000000014e867f85f2208ff",
        ),
        ("abcdefghijklmnop: nop\n", "0000000000000000"),
        (
            "a: know idle\nnop\n",
            "00000000000000000000000011282408552208ff",
        ),
        ("nop", "0000000000000000"),
        ("; c\n\n\tcaches 0x10 ; c\nnop", "10 0000000000000000"),
        ("caches 1\nfin", "01 0000000000000044"),
        ("caches 8\ncaches: nop", "08 0000000000000000"),
        ("nop;x\n", "0000000000000000"),
        ("movi r3 0xFf\n", "ff0000000000030c"),
        ("nop\n", "0000000000000000"),
        ("\tnop\t\n", "0000000000000000"),
        ("pushq tr O S\n", "0000000000010763"),
        (
            "wds own M\nwds owner F\nwde S\n",
            "000000000006004300000000000301430000000000000142",
        ),
        ("wfq req,resp\n", "0000000000000550"),
        ("wfq req,req,mem\n", "0000000000000650"),
        (
            UNCACHED,
            "000000000000055004000000000202250000000000000151000000000000002009000000000103250000000000000052\
            00000000000001500000000000000151000000000000002000000000000001510f000000000404250000000000000069\
            000000000000006500000000000000440000000000000020000000000000006700000000000002500000000000000051\
            000000000000006400000000000000440000000000000020",
        ),
    ] {
        assert!(rt; digits_of(&rt, text)?.as_str() == digits, "{text:?}");
    }
    Ok(())
}

#[test]
fn at_most_256_instructions(rt: HostRuntime) -> Result<(), Fail> {
    let mut text = Vec::new(rt.alloc());
    for _ in 0..256 {
        text.extend_from_slice(b"nop\n")?;
    }
    assert_eq!(rt; assemble(rt.alloc(), &text)?.instrs().len(), 256);
    text.extend_from_slice(b"  nop")?;
    assert_eq!(rt; fault_of(&rt, &text), Some([257, 3, 30]));
    text.extend_from_slice(b"p")?;
    assert_eq!(rt; fault_of(&rt, &text), Some([257, 3, 21]));
    Ok(())
}

/// Labels enough that the map of them grows several times. None is lost, and none is found that isn't there.
#[test]
fn a_thousand_labels(rt: HostRuntime) -> Result<(), Fail> {
    let mut text = String::new(rt.alloc());
    for number in 0..1000_u32 {
        write!(text, "l{}:\n", number * 377 % 1000)?;
    }
    write!(text, "nop\nx: bi l0\nbi l999\nbi x\n")?;
    assert!(rt;
        digits_of(&rt, text.as_str())?.as_str()
            == "0000000000000000000000000000002000000000000000200100000000000020"
    );
    write!(text, "bi l1000\n")?;
    assert_eq!(rt; fault_of(&rt, text.as_bytes()), Some([1005, 4, 26]));
    write!(text, "l500:\n")?;
    assert_eq!(rt; fault_of(&rt, text.as_bytes()), Some([1006, 1, 25]));
    Ok(())
}

/// The bytes of the image of a text are those of the image of its canonical text, which is this one.
fn canonical(rt: &HostRuntime, text: &str, canonical: &str) -> Result<bool, Fail> {
    let image = assemble(rt.alloc(), text.as_bytes())?;
    Ok(disassemble(rt.alloc(), &image)?.as_slice() == canonical.as_bytes())
}

#[test]
fn canonical_texts(rt: HostRuntime) -> Result<(), Fail> {
    for (text, written) in [
        (UNCACHED, UNCACHED),
        ("; c\n caches 0xC\nnop", "caches 12\n  nop\n"),
        (
            "x: wfq req,resp ; 0\n bi x",
            "L000:\n  wfq resp,req\n  bi L000\n",
        ),
        (
            "know held own=S|I others=no|yes gp=pending\nnop\nknow idle stage=Closing|Held\nmovi r7 0xff",
            "  know held gp=pending own=I|S\n  nop\n  \
            know held stage=Held|Closing kind=Rd own=I owner=none others=no victim=light\n  movi r7 255\n",
        ),
        (
            "a: bk kind Evict,Rd a\npopq\npopq wp\ninv o\n",
            "L000:\n  bk kind Rd,Evict L000\n  popq\n  popq wp\n  inv o\n",
        ),
        (
            "pushq stwb victim I\npushq tr O S\nwds owner F\nshl r0 r1 63",
            "  pushq stwb victim I\n  pushq tr O S\n  wds owner F\n  shl r0 r1 63\n",
        ),
    ] {
        assert!(rt; canonical(&rt, text, written)?, "{text:?}");
        assert!(rt; canonical(&rt, written, written)?, "{text:?}");
    }
    Ok(())
}

/// The canonical text of an image of one instruction, if that is one.
fn text_of(rt: &HostRuntime, word: u64) -> Result<Option<Vec<u8>>, Fail> {
    let mut instrs = Vec::new(rt.alloc());
    match instr_of(word) {
        Ok(instr) => instrs.push(instr)?,
        Err(_) => return Ok(None),
    }
    match Image::make(1, 8, instrs, Vec::new(rt.alloc())) {
        Some(image) => Ok(Some(disassemble(rt.alloc(), &image)?)),
        None => Ok(None),
    }
}

/// A branch to a place that the image lacks is written all the same; its label is then defined nowhere.
#[test]
fn a_branch_out_of_the_image(rt: HostRuntime) -> Result<(), Fail> {
    let text = text_of(&rt, 0x2000_0000_0000_0005)?;
    assert!(rt; matches!(&text, Some(text) if text.as_slice() == "  bi L005\n".as_bytes()));
    assert_eq!(rt;
        text.and_then(|text| fault_of(&rt, &text)),
        Some([1, 6, 26])
    );
    Ok(())
}

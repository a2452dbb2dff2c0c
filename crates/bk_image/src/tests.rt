use super::*;
use bk_isa::{Form, Instr};
use bk_know::{Know, held, idle};
use std::alloc::Global;
use std::test::*;

/// Serves requests that go past the caches, one at a time.
const UNCACHED: [u8; 184] = [
    0x42, 0x4b, 0x55, 0x43, 0x01, 0x00, 0x00, 0x00, 0x15, 0x00, 0x00, 0x00, 0x00, 0x00, 0x00, 0x00,
    0x00, 0x00, 0x00, 0x00, 0x00, 0x00, 0x05, 0x50, 0x04, 0x00, 0x00, 0x00, 0x00, 0x02, 0x02, 0x25,
    0x00, 0x00, 0x00, 0x00, 0x00, 0x00, 0x01, 0x51, 0x00, 0x00, 0x00, 0x00, 0x00, 0x00, 0x00, 0x20,
    0x09, 0x00, 0x00, 0x00, 0x00, 0x01, 0x03, 0x25, 0x00, 0x00, 0x00, 0x00, 0x00, 0x00, 0x00, 0x52,
    0x00, 0x00, 0x00, 0x00, 0x00, 0x00, 0x01, 0x50, 0x00, 0x00, 0x00, 0x00, 0x00, 0x00, 0x01, 0x51,
    0x00, 0x00, 0x00, 0x00, 0x00, 0x00, 0x00, 0x20, 0x00, 0x00, 0x00, 0x00, 0x00, 0x00, 0x01, 0x51,
    0x0f, 0x00, 0x00, 0x00, 0x00, 0x04, 0x04, 0x25, 0x00, 0x00, 0x00, 0x00, 0x00, 0x00, 0x00, 0x69,
    0x00, 0x00, 0x00, 0x00, 0x00, 0x00, 0x00, 0x65, 0x00, 0x00, 0x00, 0x00, 0x00, 0x00, 0x00, 0x44,
    0x00, 0x00, 0x00, 0x00, 0x00, 0x00, 0x00, 0x20, 0x00, 0x00, 0x00, 0x00, 0x00, 0x00, 0x00, 0x67,
    0x00, 0x00, 0x00, 0x00, 0x00, 0x00, 0x02, 0x50, 0x00, 0x00, 0x00, 0x00, 0x00, 0x00, 0x00, 0x51,
    0x00, 0x00, 0x00, 0x00, 0x00, 0x00, 0x00, 0x64, 0x00, 0x00, 0x00, 0x00, 0x00, 0x00, 0x00, 0x44,
    0x00, 0x00, 0x00, 0x00, 0x00, 0x00, 0x00, 0x20,
];

// Classes of messages.
const RESPONSE: u8 = 1;

const MEMORY: u8 = 2;

const REQUEST: u8 = 4;

// Know fields, and sets of their values.
const HEAD: u8 = 2;

const REQUEST_HEAD: u8 = 0b10;

const GROUP_PENDING: u8 = 3;

const FREE: u8 = 0b1;

const KIND: u8 = 4;

const UC_RD: u8 = 0b100;
/// `popq wp`.
const WITH_PENDING: u8 = 1;

const UNCACHED_FORMS: [Form; 21] = [
    Form::Wfq {
        a: RESPONSE + REQUEST,
    },
    Form::Bk {
        a: HEAD,
        b: REQUEST_HEAD,
        imm: 4,
    },
    Form::Popq { a: WITH_PENDING },
    Form::Bi { imm: 0 },
    Form::Bk {
        a: GROUP_PENDING,
        b: FREE,
        imm: 9,
    },
    Form::Defer,
    Form::Wfq { a: RESPONSE },
    Form::Popq { a: WITH_PENDING },
    Form::Bi { imm: 0 },
    Form::Popq { a: WITH_PENDING },
    Form::Bk {
        a: KIND,
        b: UC_RD,
        imm: 15,
    },
    Form::Memww,
    Form::Ucdone,
    Form::Fin,
    Form::Bi { imm: 0 },
    Form::Memrd,
    Form::Wfq { a: MEMORY },
    Form::Popq { a: 0 },
    Form::Ucblk,
    Form::Fin,
    Form::Bi { imm: 0 },
];

/// Know lines that `UNCACHED` may be given: 48 bytes that stand behind its words.
const KNOW_LINES: [u8; 48] = [
    0x00, 0x00, 0x00, 0x00, 0x11, 0x28, 0x24, 0x08, 0x55, 0x22, 0x08, 0xff, 0x04, 0x00, 0x00, 0x00,
    0x21, 0x38, 0x24, 0x08, 0x55, 0x22, 0x08, 0xff, 0x09, 0x00, 0x00, 0x00, 0x21, 0x28, 0x24, 0x08,
    0x55, 0x22, 0x08, 0xff, 0x0f, 0x00, 0x00, 0x00, 0x14, 0x88, 0xe4, 0xff, 0x5f, 0x22, 0x08, 0xff,
];

/// The image of `UNCACHED` with the know lines.
fn with_know_lines(alloc: Global) -> Result<Vec<u8>, Fail> {
    let mut bytes = UNCACHED.to_vec(alloc)?;
    *bytes.get_mut(12).ok_or("such a byte")? = 4;
    bytes.extend_from_slice(&KNOW_LINES)?;
    Ok(bytes)
}

#[test]
fn uncached_is_read_and_written(rt: HostRuntime) -> Result<(), Fail> {
    let image = read_image(rt.alloc(), &UNCACHED).ok().ok_or("an image")?;
    let instrs = image.instrs();
    assert_eq!(rt; instrs.len(), 21);
    for (instr, form) in instrs.iter().zip(UNCACHED_FORMS.iter()) {
        assert_eq!(rt; instr.form(), *form);
    }
    assert_eq!(rt; image.know_at(0), None);
    assert_eq!(rt; (image.version(), image.limit()), (1, 8));
    assert!(rt; write_image(rt.alloc(), &image)?.as_slice() == UNCACHED.as_slice());
    Ok(())
}

#[test]
fn a_limit_is_read_and_written(rt: HostRuntime) -> Result<(), Fail> {
    let mut bytes = UNCACHED.to_vec(rt.alloc())?;
    *bytes.get_mut(4).ok_or("such a byte")? = 2;
    for limit in 1..=16 {
        *bytes.get_mut(5).ok_or("such a byte")? = limit;
        let image = read_image(rt.alloc(), &bytes).ok().ok_or("an image")?;
        assert_eq!(rt; (image.version(), image.limit()), (2, limit));
        assert!(rt; write_image(rt.alloc(), &image)? == bytes);
    }
    for (at, byte, kind) in [(5, 0, 13), (5, 17, 13), (5, 255, 13), (6, 1, 3), (7, 1, 3)] {
        let mut changed = bytes.clone()?;
        *changed.get_mut(at).ok_or("such a byte")? = byte;
        assert_eq!(rt; fault(rt.alloc(), &changed), Some((at as u64, kind)));
    }
    Ok(())
}

#[test]
fn know_lines_are_read_and_written(rt: HostRuntime) -> Result<(), Fail> {
    let bytes = with_know_lines(rt.alloc())?;
    let image = read_image(rt.alloc(), &bytes).ok().ok_or("an image")?;
    assert_eq!(rt; image.knows().len(), 4);
    assert_eq!(rt; image.know_at(0), Some(idle()));
    assert_eq!(rt; image.know_at(9), Know::make(0xff08_2255_0824_2821));
    assert_eq!(rt; image.know_at(15), Know::make(0xff08_225f_ffe4_8814));
    for place in [1, 3, 8, 10, 14, 16, 256] {
        assert_eq!(rt; image.know_at(place), None);
    }
    assert!(rt; write_image(rt.alloc(), &image)? == bytes);
    Ok(())
}

/// The place and the kind of the fault of bytes.
fn fault(alloc: Global, bytes: &[u8]) -> Option<(u64, u8)> {
    match read_image(alloc, bytes) {
        Err(ImageFault::Bad { place, kind }) => Some((place, kind)),
        _ => None,
    }
}

#[test]
fn faults_have_their_places(rt: HostRuntime) -> Result<(), Fail> {
    let whole = with_know_lines(rt.alloc())?;
    for length in [0, 15, 16, 100, 183, 184, 187, 195, 231] {
        let cut = whole.get(..length).ok_or("so many bytes")?;
        assert_eq!(rt; fault(rt.alloc(), cut), Some((length as u64, 11)));
    }
    // A byte of the image, another value for it, and the fault.
    let changed = [
        (0, 0x43, 0, 1),
        (4, 0, 4, 2),
        (4, 2, 5, 13),
        (4, 3, 4, 2),
        (5, 8, 5, 3),
        (6, 1, 6, 3),
        (8, 0, 8, 4),
        (9, 1, 8, 5),
        (12, 22, 12, 4),
        (23, 0x11, 23, 6),
        (22, 8, 22, 7),
        (16, 1, 16, 8),
        (184, 21, 184, 9),
        (188, 0x10, 188, 9),
        (196, 0, 196, 10),
    ];
    for (at, byte, place, kind) in changed {
        let mut bytes = whole.clone()?;
        *bytes.get_mut(at).ok_or("such a byte")? = byte;
        assert_eq!(rt; fault(rt.alloc(), &bytes), Some((place, kind)));
    }
    let mut longer = whole.clone()?;
    longer.push(0)?;
    assert_eq!(rt; fault(rt.alloc(), &longer), Some((232, 12)));
    Ok(())
}

#[test]
fn lists_that_are_no_image(rt: HostRuntime) -> Result<(), Fail> {
    let alloc = rt.alloc();
    let nop = Instr::make(Form::Nop).ok_or("an instruction")?;
    assert!(rt; Image::make(1, 8, Vec::new(alloc), Vec::new(alloc)).is_none());
    assert!(rt;
        Image::make(
            1,
            8,
            vec![in alloc; nop, nop]?,
            vec![in alloc; (0, idle()), (1, held())]?
        )
        .is_some()
    );
    assert!(rt;
        Image::make(
            1,
            8,
            vec![in alloc; nop, nop]?,
            vec![in alloc; (1, idle()), (1, held())]?
        )
        .is_none()
    );
    assert!(rt;
        Image::make(
            1,
            8,
            vec![in alloc; nop, nop]?,
            vec![in alloc; (2, idle())]?
        )
        .is_none()
    );
    for (version, limit, is_one) in [
        (0, 8, false),
        (1, 7, false),
        (1, 16, false),
        (2, 0, false),
        (2, 1, true),
        (2, 8, true),
        (2, 16, true),
        (2, 17, false),
        (3, 8, false),
    ] {
        let image = Image::make(version, limit, vec![in alloc; nop]?, Vec::new(alloc));
        assert_eq!(rt; image.is_some(), is_one);
    }
    Ok(())
}

use super::*;
use bk_asm::{assemble, disassemble};
use bk_check::check;
use bk_image::write_image;
use std::test::*;

/// The instructions and the know lines of each protocol, and checksums of its image's bytes and
/// of its canonical text.
const PROTOCOLS: [(&str, usize, usize, u64, u64); 4] = [
    ("ei", 84, 19, 0xf3e0424dce36dd17, 0x78fa6f39c4f1bceb),
    ("msi", 92, 21, 0xc36957b54eab92c0, 0x9d3a59ad04a2ab9f),
    ("mesi", 97, 22, 0xdbf24a4533ecdd64, 0x67a7fef38bfac247),
    ("moesif", 108, 24, 0x2713ac610e4eddd2, 0x56557be059a7c729),
];

/// The checksum FNV-1a of 64 bits.
fn checksum(bytes: &[u8]) -> u64 {
    let mut sum = 0xcbf2_9ce4_8422_2325u64;
    for byte in bytes {
        sum = (sum ^ *byte as u64).wrapping_mul(0x100_0000_01b3);
    }
    sum
}

/// For sixteen caches a protocol is the same program, in an image of version 2.
#[test]
fn sources_for_sixteen_caches(rt: HostRuntime) -> Result<(), Fail> {
    for (plain, name) in [
        ("ei", "ei16"),
        ("msi", "msi16"),
        ("mesi", "mesi16"),
        ("moesif", "moesif16"),
    ] {
        let image = assemble(rt.alloc(), source(plain).ok_or("a source")?)?;
        let larger = assemble(rt.alloc(), source(name).ok_or("a source")?)?;
        assert_eq!(rt; (larger.version(), larger.limit()), (2, 16), "{name}");
        assert!(rt; larger.instrs() == image.instrs(), "{name}");
        assert!(rt; larger.knows() == image.knows(), "{name}");
        assert!(rt; check(&larger).is_ok(), "{name}");
    }
    Ok(())
}

#[test]
fn sources_are_the_accepted_images(rt: HostRuntime) -> Result<(), Fail> {
    for (name, instrs, knows, bytes, canonical) in PROTOCOLS {
        let text = source(name).ok_or("a source")?;
        let image = assemble(rt.alloc(), text)?;
        assert_eq!(rt; image.instrs().len(), instrs, "{name}");
        assert_eq!(rt; image.knows().len(), knows, "{name}");
        assert_eq!(rt;
            checksum(&write_image(rt.alloc(), &image)?),
            bytes,
            "{name}"
        );
        let written = disassemble(rt.alloc(), &image)?;
        assert_eq!(rt; checksum(&written), canonical, "{name}");
        let again = assemble(rt.alloc(), &written)?;
        assert_eq!(rt;
            checksum(&write_image(rt.alloc(), &again)?),
            bytes,
            "{name}"
        );
        assert!(rt; check(&image).is_ok(), "{name}");
    }
    assert!(rt; source("mesi17").is_none());
    assert!(rt; source("mesj").is_none());
    assert!(rt; source("").is_none());
    Ok(())
}

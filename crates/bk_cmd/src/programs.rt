//! The images that tests run, each assembled from its source.

use bk_asm::assemble;
use bk_image::write_image;
use bk_proto::source;
use std::alloc::Global;
use std::test::Fail;

/// Serves requests that go past the caches, one at a time. It has no know lines. `data/uc.bk` of the program is its image.
const UNCACHED: &str = "\
ready:
  wfq req,resp
  bk head Request take
  popq wp
  bi ready
take:
  bk gp free go
  defer
  wfq resp
  popq wp
  bi ready
go:
  popq wp
  bk kind UcRd read
  pushq memww
  pushq ucdone
  fin
  bi ready
read:
  pushq memrd
  wfq mem
  popq
  pushq ucblk
  fin
  bi ready
";

/// The same with know lines, which the verifier refuses: it writes to memory without a look at the directory. `data/uck.bk`.
const UNCACHED_KNOWN: &str = "\
ready: know idle
  wfq req,resp
  bk head Request take
  popq wp
  bi ready
take: know idle head=Request gp=free|pending
  bk gp free go
  defer
  wfq resp
  popq wp
  bi ready
go: know idle head=Request
  popq wp
  bk kind UcRd read
  pushq memww
  pushq ucdone
  fin
  bi ready
read: know held kind=UcRd
  pushq memrd
  wfq mem
  popq
  pushq ucblk
  fin
  bi ready
";

/// The bytes of the image of a program: `uc`, `uck`, or one of the four protocols.
pub(crate) fn image_named(alloc: Global, name: &str) -> Result<Vec<u8>, Fail> {
    let text = match name {
        "uc" => UNCACHED.as_bytes(),
        "uck" => UNCACHED_KNOWN.as_bytes(),
        _ => source(name).ok_or("a protocol")?,
    };
    Ok(write_image(alloc, &assemble(alloc, text)?)?)
}

use super::*;
use bk_image::Image;
use bk_isa::{Form, Instr};
use bk_know::{Know, idle};
use std::alloc::Global;
use std::test::*;

/// The verdict on a list of forms with know lines.
fn verdict(
    alloc: Global,
    forms: &[Form],
    lines: &[(u32, Know)],
) -> Result<Result<(), Refusal>, Fail> {
    let mut instrs = Vec::new(alloc);
    for form in forms {
        instrs.push(Instr::make(*form).ok_or("operands in range")?)?;
    }
    let image = Image::make(1, 8, instrs, lines.to_vec(alloc)?).ok_or("an image")?;
    Ok(check(&image))
}

#[test]
fn verdicts(rt: HostRuntime) -> Result<(), Fail> {
    let alloc = rt.alloc();
    let wait = Form::Wfq { a: 5 };
    let back = Form::Bi { imm: 0 };
    let refused = |at, obligation| Err(Refusal { at, obligation });
    assert_eq!(rt; verdict(alloc, &[back], &[])?, refused(0, 1));
    assert_eq!(rt; verdict(alloc, &[back], &[(0, idle())])?, refused(0, 3));
    assert_eq!(rt;
        verdict(alloc, &[wait, back], &[(0, idle())])?,
        refused(1, 4)
    );
    Ok(())
}

use super::*;
use std::test::*;

#[test]
fn words(rt: HostRuntime) -> Result<(), Fail> {
    let form = Form::Wfq { a: 5 };
    let instr = Instr::make(form).ok_or("the classes are in range")?;
    assert_eq!(rt; instr.form(), form);
    assert_eq!(rt; word_of(instr), 0x5005_0000_0000_0000);
    assert_eq!(rt; instr_of(0x5005_0000_0000_0000), Ok(instr));
    assert_eq!(rt; instr_of(0x5008_0000_0000_0000), Err(WordFault::Field(1)));
    Ok(())
}

use crate::engine::{Engine, EngineStep};
use crate::parts::{CLASS_NONE, CLASS_REQUEST, Choice};
use crate::stop::Halt;
use bk_base::{Addr, Config};
use bk_isa::operand::{CLASS_REQUESTS, WITH_MARK};
use bk_isa::{Form, Instr};
use bk_msg::Message;
use std::test::Fail;

/// The choice at an instruction other than `wfq`.
const NO_CHOICE: Choice = Choice {
    class: CLASS_NONE,
    source: 0,
};

fn instr(form: Form) -> Result<Instr, &'static str> {
    Instr::make(form).ok_or("no instruction")
}

#[test]
fn an_uncached_store_is_served(rt: HostRuntime) -> Result<(), Fail> {
    let config = Config::make(2, 4, 2)?;
    let addr = Addr::make(0x48).ok_or("no address")?;
    let program = [
        instr(Form::Wfq { a: CLASS_REQUESTS })?,
        instr(Form::Popq { a: WITH_MARK })?,
        instr(Form::Memww)?,
        instr(Form::Ucdone)?,
        instr(Form::Fin)?,
        instr(Form::Memwb)?,
    ];
    let mut engine = Engine::make(rt.alloc(), config)?;
    let store = Message::uc_wr(1, addr, 7);
    let choice = Choice {
        class: CLASS_REQUEST,
        source: 1,
    };
    assert!(rt; !engine.runs(&program, choice, None), "nothing is offered");
    assert!(rt;
        matches!(
            engine.step(&program, choice, None),
            EngineStep::Waits(CLASS_REQUESTS)
        )
    );
    let _taken = engine.step(&program, choice, Some(&store));
    assert_eq!(rt; engine.place(), 1);
    let _popped = engine.step(&program, NO_CHOICE, None);
    assert!(rt; engine.pending(1), "the group of block 1");
    let written = engine.step(&program, NO_CHOICE, None);
    let EngineStep::Ran { sent, .. } = written else {
        return Err("memww runs")?;
    };
    assert_eq!(rt; sent.len(), 1);
    let _answered = engine.step(&program, NO_CHOICE, None);
    let _ended = engine.step(&program, NO_CHOICE, None);
    assert_eq!(rt; engine.place(), 5);
    assert!(rt;
        matches!(
            engine.step(&program, NO_CHOICE, None),
            EngineStep::Halted(Halt::Block)
        )
    );
    Ok(())
}

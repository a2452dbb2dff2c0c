//! Single events, what they send, and their log.

use super::runs::engine;
use bk_base::{Addr, Config, Op};
use bk_engine::Choice;
use bk_image::read_image;
use bk_isa::{Form, Instr};
use bk_lce::{Victim, WayView, oldest};
use bk_msg::Message;
use bk_run::{System, log};
use bk_system::{Event, Hardware, MainMemory};
use bk_trace::read_trace;
use std::test::Fail;

#[test]
fn an_event_runs_only_where_it_is_enabled(rt: HostRuntime) -> Result<(), Fail> {
    let config = Config::make(2, 4, 2)?;
    let addr = Addr::make(0x40).ok_or("no address")?;
    let nop = Instr::make(Form::Nop).ok_or("no instruction")?;
    let program = [nop];
    let mut hardware = Hardware::make(rt.alloc(), config)?;
    let issue = Event::Issue {
        cache: 1,
        way: 0,
        op: Op::Load(addr),
    };
    let nowhere = Event::Issue {
        cache: 2,
        way: 0,
        op: Op::UcLoad(addr),
    };
    let no_way = Event::Issue {
        cache: 0,
        way: 2,
        op: Op::UcLoad(addr),
    };
    let engine = Event::Engine {
        choice: Choice {
            class: 0,
            source: 0,
        },
    };
    assert!(rt; hardware.enabled(&program, &issue));
    assert!(rt; hardware.step(&program, &issue)?);
    assert!(rt; !hardware.step(&program, &issue)?, "the cache is busy");
    assert!(rt;
        !hardware.step(&program, &nowhere)?,
        "there is no such cache"
    );
    assert!(rt; !hardware.step(&program, &no_way)?, "there is no such way");
    assert!(rt;
        !hardware.step(&program, &Event::Memory)?,
        "nothing was sent to the memory"
    );
    assert!(rt; !hardware.step(&program, &Event::Command { cache: 1 })?);
    assert!(rt; !hardware.step(&program, &Event::Fill { to: 0, from: 1 })?);
    assert!(rt;
        !hardware.quiet(&program),
        "the request waits in its channel"
    );
    assert!(rt; hardware.step(&program, &engine)?);
    assert!(rt;
        !hardware.step(&program, &engine)?,
        "there is one instruction alone"
    );
    Ok(())
}

#[test]
fn a_system_names_its_least_event(rt: HostRuntime) -> Result<(), Fail> {
    let alloc = rt.alloc();
    let trace = read_trace(alloc, "config 2 4 2\n1 UL 0x40\n".as_bytes())?;
    let victim = Victim::store(|views: &[WayView]| oldest(views));
    let mut system = System::make(alloc, trace.config(), victim)?;
    let wait = Instr::make(Form::Wfq { a: 1 }).ok_or("no instruction")?;
    let program = [wait];
    let issue = Event::Issue {
        cache: 1,
        way: 0,
        op: Op::UcLoad(Addr::make(0x40).ok_or("no address")?),
    };
    assert!(rt; system.quiet(&program));
    assert_eq!(rt; system.least_enabled(&program, &trace), Some(issue));
    assert!(rt; system.step(&program, &issue)?);
    assert!(rt; !system.enabled(&program, &issue));
    assert!(rt; !system.rested(&program));
    assert_eq!(rt;
        system.least_enabled(&program, &trace),
        None,
        "the engine waits for responses alone"
    );
    Ok(())
}

#[test]
fn an_issue_sends_its_request(rt: HostRuntime) -> Result<(), Fail> {
    let config = Config::make(2, 4, 2)?;
    let addr = Addr::make(0x48).ok_or("no address")?;
    let mut hardware = Hardware::make(rt.alloc(), config)?;
    let issue = Event::Issue {
        cache: 1,
        way: 1,
        op: Op::Store(addr, 7),
    };
    assert!(rt; hardware.step(&[], &issue)?, "the cache is idle");
    assert_eq!(rt; hardware.sent(), [Message::wr(1, 1, addr)].as_slice());
    Ok(())
}

#[test]
fn the_memory_keeps_what_is_written(rt: HostRuntime) -> Result<(), Fail> {
    let block = Addr::make(0x40).ok_or("no address")?;
    let word = Addr::make(0x58).ok_or("no address")?;
    let mut memory = MainMemory::make(rt.alloc());
    assert_eq!(rt;
        memory.apply(&Message::write(block, [1, 2, 3, 4, 5, 6, 7, 8]))?,
        None
    );
    assert_eq!(rt; memory.apply(&Message::write_word(word, 9))?, None);
    assert_eq!(rt;
        memory.apply(&Message::read(word))?,
        Some(Message::block(block, [1, 2, 3, 9, 5, 6, 7, 8]))
    );
    Ok(())
}

/// One `wfq req`.
const WAIT: [u8; 24] = [
    0x42, 0x4b, 0x55, 0x43, 0x01, 0x00, 0x00, 0x00, 0x01, 0x00, 0x00, 0x00, 0x00, 0x00, 0x00, 0x00,
    0x00, 0x00, 0x00, 0x00, 0x00, 0x00, 0x04, 0x50,
];

#[test]
fn enabled_events_and_their_messages(rt: HostRuntime) -> Result<(), Fail> {
    let alloc = rt.alloc();
    let image = read_image(alloc, &WAIT).ok().ok_or("an image")?;
    let trace = read_trace(alloc, "config 2 4 2".as_bytes())
        .ok()
        .ok_or("a trace")?;
    let address = Addr::make(0x40).ok_or("an address")?;
    let store = |cache| Event::Issue {
        cache,
        way: 0,
        op: Op::UcStore(address, 7),
    };
    let load = Event::Issue {
        cache: 1,
        way: 1,
        op: Op::UcLoad(address),
    };
    // The second store and the second wait are not enabled: the cache has an operation, the engine a head.
    let events = [
        store(0),
        store(0),
        engine(3, 1),
        load,
        engine(3, 1),
        engine(3, 0),
        Event::Memory,
        Event::Command { cache: 0 },
        Event::Fill { to: 0, from: 1 },
    ];
    let text = "I 0 US 0x40 7 0\n\
        m 0400f0000000000040000000000000000700000000000000\n\
        I 1 UL 0x40 1\n\
        m 0301f000000000004000000000000000\n\
        E 3 1\n";
    assert_eq!(rt;
        log(alloc, &image, &trace, &events)?.as_slice(),
        text.as_bytes()
    );
    Ok(())
}

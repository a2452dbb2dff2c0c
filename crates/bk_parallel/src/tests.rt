ghost use Rattle.std.specs.Prelude.{◌≡◌, ℕ, ◌≤◌, ◌<◌, [], length, slice_index_or, IfOk};
ghost use Rattle.bk_rounds.specs.declared.agent.Agent as seated;
ghost use Rattle.bk_parallel.specs.Rounds.{CanWork};
ghost use Rattle.bk_parallel.specs.Teams.{IsTeam};

use crate::opening::open;
use crate::routes::all_channels;
use crate::team::make_team;
use arrayvec::ArrayVec;
use bk_base::{Addr, Coh, Config, Op};
use bk_engine::{CLASS_NONE, CLASS_REQUEST, Choice};
use bk_isa::operand::{CLASS_REQUESTS, WITH_MARK};
use bk_isa::{Form, Instr};
use bk_lce::{Victim, WayView, oldest};
use bk_msg::{ENGINE, Message, MsgFault, Packet, Row, decode, encode};
use bk_net::{Receiver, Sender, channel};
use bk_outer::Free;
use bk_rounds::{Agent, Inlet, Outlet, read};
use bk_system::{Channel, Event, Hardware};
use bk_threads::Stamped;
use bk_trace::{Trace, generate, read_trace};
use std::alloc::{AllocError, Global};
use std::sync::Wait;
use std::test::Fail;

/// Two operations of cache 0, of which the second waits for the first, and one of cache 1.
const TRACE: &str = "config 2 4 2\n0 US 0x48 7\n1 L 0x0\n0 L 0x40\n";

/// `Rd` of cache 1 for the block at 0x40, to its way 1.
const RD: [u8; 16] = [0x01, 1, 0xf0, 1, 0, 0, 0, 0, 0x40, 0, 0, 0, 0, 0, 0, 0];

/// The engine's event at `wfq`, where it takes the request of cache 0.
const TAKES_REQUEST: Event = Event::Engine {
    choice: Choice {
        class: CLASS_REQUEST,
        source: 0,
    },
};

/// The engine's event at any other instruction.
const RUNS: Event = Event::Engine {
    choice: Choice {
        class: CLASS_NONE,
        source: 0,
    },
};

fn at(value: u64) -> Result<Addr, Fail> {
    Ok(Addr::make(value).ok_or("no address")?)
}

fn instr(form: Form) -> Result<Instr, Fail> {
    Ok(Instr::make(form).ok_or("no instruction")?)
}

fn message(row: Row) -> Result<Message, Fail> {
    Ok(Message::make(row).ok_or("no message")?)
}

fn stamped(stamp: u64, event: Event) -> Stamped {
    Stamped { stamp, event }
}

/// The agents of a new system, with their channels open.
fn opened(alloc: Global, config: Config) -> Result<Vec<Agent>, AllocError>
    ensures team { IfOk result (λ agents. IsTeam config agents.items) }
    ensures can { IfOk result (λ agents. (n : ℕ) (d : seated.Agent) → n < length agents.items
        → CanWork config (slice_index_or agents.items n d)) }
{
    let channels = all_channels(alloc, config)?;
    let mut agents = make_team(alloc, config)?;
    open(alloc, config, &mut agents, &channels)?;
    Ok(agents)
}

/// The engine of a new system with one cache, by itself, with these ends of channels.
fn lone_engine(
    alloc: Global,
    config: Config,
    requests: Receiver,
    commands: Sender,
    memout: Sender,
) -> Result<Agent, AllocError>
    requires one { config.caches ≡ 1 }
    requires taken { requests.taken ≡ [] }
    requires sent { (commands.sent ≡ []) × (memout.sent ≡ []) }
    ensures { IfOk result (CanWork config) }
{
    let mut inlets = Vec::new(alloc);
    inlets.push(Inlet {
        channel: Channel::Request { from: 0 },
        receiver: requests,
    })?;
    let mut outlets = Vec::new(alloc);
    outlets.push(Outlet {
        channel: Channel::Command { to: 0 },
        sender: commands,
    })?;
    outlets.push(Outlet {
        channel: Channel::Memout,
        sender: memout,
    })?;
    Ok(Agent {
        number: 1,
        hardware: Hardware::make(alloc, config)?,
        inlets,
        outlets,
        turns: 0,
        clock: 0,
        entries: Vec::new(alloc),
    })
}

/// The round of an agent, while no other works.
fn round_alone<R: Wait>(
    rt: &R,
    agent: &mut Agent,
    program: &[Instr],
    trace: &Trace,
) -> Result<bool, AllocError>
    requires few { length program.now ≤ 256 }
    requires can { CanWork trace.now.config agent.old }
{
    let victim = Victim::store(|views: &[WayView]| oldest(views));
    agent.round(rt, &victim, program, trace, &Free)
}

/// What two calls of `take` give at an agent's end of a channel.
fn take_twice<R: Wait>(rt: &R, agent: &mut Agent, channel: Channel) -> [Option<Packet>; 2] {
    for inlet in agent.inlets.iter_mut() {
        if inlet.channel == channel {
            return [inlet.receiver.take(rt), inlet.receiver.take(rt)];
        }
    }
    [None, None]
}

/// The stamp and the message of a packet.
fn said(config: Config, packet: &Option<Packet>) -> Option<(u64, Message)> {
    let packet = packet.as_ref()?;
    Some((packet.stamp, read(config, packet)?))
}

/// The packet with these bytes, of which there are at most 96.
fn packet_of(bytes: &[u8], stamp: u64) -> Result<Packet, Fail> {
    let mut spelled = ArrayVec::new();
    spelled
        .try_extend_from_slice(bytes)
        .ok()
        .ok_or("too many bytes")?;
    Ok(Packet {
        bytes: spelled,
        stamp,
    })
}

/// The `Rd` with another byte at a place.
fn damaged(place: usize, byte: u8) -> [u8; 16] {
    let mut bytes = RD;
    if place < 16 {
        bytes[place] = byte;
    }
    bytes
}

#[test]
fn a_cache_alone_issues_and_sends_a_request(rt: HostRuntime) -> Result<(), Fail> {
    let alloc = rt.alloc();
    let trace = read_trace(alloc, TRACE.as_bytes())?;
    let config = trace.config();
    let mut agents = opened(alloc, config)?;
    let idle = round_alone(&rt, &mut agents[0], &[], &trace)?;
    assert!(rt; idle, "its second operation waits for the first");
    let event = Event::Issue {
        cache: 0,
        way: 0,
        op: Op::UcStore(at(0x48)?, 7),
    };
    assert!(rt; agents[0].entries.as_slice() == [stamped(1, event)].as_slice());
    for agent in &mut agents {
        let packets = take_twice(&rt, agent, Channel::Request { from: 0 });
        if agent.number == 2 {
            let request = Message::uc_wr(0, at(0x48)?, 7);
            assert!(rt; said(config, &packets[0]) == Some((1, request)));
        } else {
            assert!(rt; packets[0].is_none(), "agent {}", agent.number);
        }
        assert!(rt; packets[1].is_none(), "agent {}", agent.number);
    }
    Ok(())
}

#[test]
fn an_agent_stops_where_a_channel_is_full_and_loses_nothing(rt: HostRuntime) -> Result<(), Fail> {
    let alloc = rt.alloc();
    let config = Config::make(1, 4, 2)?;
    let trace = generate(alloc, 1, config, 0)?;
    let (mut cache, requests) = channel(alloc, 1)?;
    let (commands, mut answers) = channel(alloc, 1)?;
    let (memout, mut memory) = channel(alloc, 1)?;
    let mut engine = lone_engine(alloc, config, requests, commands, memout)?;
    let request = Message::uc_wr(0, at(0x48)?, 7);
    assert!(rt; cache.send(&rt, encode(&request, 5)).is_ok());
    let program = [
        instr(Form::Wfq { a: CLASS_REQUESTS })?,
        instr(Form::Popq { a: WITH_MARK })?,
        instr(Form::Memww)?,
        instr(Form::Memrd)?,
        instr(Form::Ucdone)?,
    ];
    let idle = round_alone(&rt, &mut engine, &program, &trace)?;
    assert!(rt; !idle, "it has stopped, and found no end of its work");
    // Four events, the last of which has sent the second message to the memory. What comes behind it was not made.
    let journal = [
        stamped(6, TAKES_REQUEST),
        stamped(7, RUNS),
        stamped(8, RUNS),
        stamped(9, RUNS),
    ];
    assert!(rt; engine.entries.as_slice() == journal.as_slice());
    assert_eq!(rt; engine.clock, 9);
    assert!(rt; answers.take(&rt).is_none());
    // The first message is in the queue, and the second in the outbox, with nothing before or behind it.
    let first = memory.take(&rt);
    assert!(rt; said(config, &first) == Some((8, Message::write_word(at(0x48)?, 7))));
    assert!(rt; memory.take(&rt).is_none());
    let second = Message::read(at(0x48)?);
    assert!(rt; engine.hardware.head(Channel::Memout).copied() == Some(second));
    engine.hardware.drop_head(Channel::Memout);
    assert!(rt; engine.hardware.head(Channel::Memout).is_none());
    Ok(())
}

#[test]
fn a_packet_that_says_nothing_is_passed_over(rt: HostRuntime) -> Result<(), Fail> {
    let alloc = rt.alloc();
    let config = Config::make(1, 4, 2)?;
    let trace = generate(alloc, 1, config, 0)?;
    let (mut cache, requests) = channel(alloc, 4)?;
    let (commands, _answers) = channel(alloc, 1)?;
    let (memout, _memory) = channel(alloc, 1)?;
    let mut engine = lone_engine(alloc, config, requests, commands, memout)?;
    assert!(rt; cache.send(&rt, packet_of(&RD[..15], 3)?).is_ok());
    assert!(rt;
        cache.send(&rt, packet_of(&RD, 9)?).is_ok(),
        "there is no cache 1"
    );
    let request = Message::uc_wr(0, at(0x48)?, 7);
    assert!(rt; cache.send(&rt, encode(&request, 5)).is_ok());
    let program = [instr(Form::Wfq { a: CLASS_REQUESTS })?];
    let idle = round_alone(&rt, &mut engine, &program, &trace)?;
    assert!(rt; idle);
    assert!(rt; engine.entries.as_slice() == [stamped(10, TAKES_REQUEST)].as_slice());
    let inbox = Channel::Request { from: 0 };
    assert!(rt; engine.hardware.head(inbox).copied() == Some(request));
    engine.hardware.drop_head(inbox);
    assert!(rt; engine.hardware.head(inbox).is_none());
    Ok(())
}

#[test]
fn a_message_of_another_configuration_is_refused(rt: HostRuntime) -> Result<(), Fail> {
    let config = Config::make(2, 4, 2)?;
    let addr = at(0x40)?;
    let to = ENGINE;
    let rd = |from, way| Row::Rd {
        from,
        to,
        way,
        addr,
    };
    let transfer = |peer, peer_way| Row::StTr {
        from: ENGINE,
        to: 1,
        state: Coh::O,
        peer,
        peer_way,
        peer_state: Coh::S,
        addr,
    };
    let cases = [
        (rd(1, 1), true),
        (rd(2, 1), false),
        (rd(1, 2), false),
        (transfer(0, 1), true),
        (transfer(2, 1), false),
        (transfer(0, 2), false),
    ];
    for (number, (row, within)) in cases.into_iter().enumerate() {
        let message = message(row)?;
        let packet = encode(&message, 3);
        // Its bytes are in order. Only the configuration is another.
        assert_eq!(rt;
            decode(packet.bytes.as_slice()),
            Ok((message, 16)),
            "{number}"
        );
        assert_eq!(rt;
            read(config, &packet),
            within.then_some(message),
            "{number}"
        );
    }
    Ok(())
}

#[test]
fn bytes_that_spell_no_message_are_refused(rt: HostRuntime) -> Result<(), Fail> {
    let config = Config::make(2, 4, 2)?;
    let cases = [
        (&[][..], MsgFault::Short(1)),
        (&RD[..1], MsgFault::Short(16)),
        (&RD[..15], MsgFault::Short(16)),
        (&damaged(0, 0x99), MsgFault::Kind(0x99)),
        (&damaged(1, ENGINE), MsgFault::Field(1)),
        (&damaged(2, 1), MsgFault::Field(2)),
        (&damaged(4, 1), MsgFault::Reserved(4)),
        (&damaged(8, 0x48), MsgFault::Field(8)),
        (&damaged(13, 1), MsgFault::Field(13)),
    ];
    for (bytes, fault) in cases {
        assert_eq!(rt; decode(bytes), Err(fault));
        assert!(rt; read(config, &packet_of(bytes, 3)?).is_none(), "{fault:?}");
    }
    assert!(rt; read(config, &packet_of(&RD, 3)?).is_some());
    // One message, and another or a byte behind it.
    let mut two = [0; 32];
    two[..16].copy_from_slice(&RD);
    two[16..].copy_from_slice(&RD);
    for size in 17..33 {
        assert!(rt; decode(&two[..size]).is_ok(), "{size}");
        assert!(rt;
            read(config, &packet_of(&two[..size], 3)?).is_none(),
            "{size}"
        );
    }
    Ok(())
}

#[test]
fn send_answers_full_exactly_where_there_is_no_room(rt: HostRuntime) -> Result<(), Fail> {
    for capacity in [1, 2, 64] {
        let (mut sender, mut receiver) = channel(rt.alloc(), capacity)?;
        for stamp in 0..capacity as u64 {
            let sent = sender.send(&rt, packet_of(&RD, stamp)?);
            assert!(rt; sent.is_ok(), "{stamp} of {capacity}");
        }
        for stamp in 100..103 {
            match sender.send(&rt, packet_of(&RD, stamp)?) {
                Ok(()) => assert!(rt; false, "there is no room for {stamp} in {capacity}"),
                Err(full) => assert_eq!(rt; full.packet.stamp, stamp),
            }
            let oldest = receiver.take(&rt);
            assert!(rt; oldest.is_some(), "{capacity}");
            let sent = sender.send(&rt, packet_of(&RD, stamp)?);
            assert!(rt; sent.is_ok(), "there is room again in {capacity}");
        }
    }
    Ok(())
}

#[test]
fn take_answers_none_exactly_where_nothing_is_there(rt: HostRuntime) -> Result<(), Fail> {
    let (mut sender, mut receiver) = channel(rt.alloc(), 64)?;
    for count in [0, 1, 2, 64] {
        assert!(rt; receiver.take(&rt).is_none(), "before {count}");
        for stamp in 0..count {
            let sent = sender.send(&rt, packet_of(&RD, stamp)?);
            assert!(rt; sent.is_ok(), "{stamp} of {count}");
        }
        for stamp in 0..count {
            let taken = receiver.take(&rt).map(|packet| packet.stamp);
            assert_eq!(rt; taken, Some(stamp), "{stamp} of {count}");
        }
        assert!(rt; receiver.take(&rt).is_none(), "after {count}");
    }
    Ok(())
}

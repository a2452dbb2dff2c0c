ghost use Rattle.std.specs.Prelude.{◌≡◌, IfOk};

use super::*;
use bk_base::Addr;
use bk_msg::{Message, Packet, encode};
use std::alloc::{AllocError, Global};
use std::sync::Wait;
use std::test::*;
use std::thread;
use std::thread::Threads;

/// After so many tries in a row without an answer a side gives up, and the test fails.
const TRIES: u32 = 100_000_000;

/// A block of zeros from memory, with a stamp.
fn packet(stamp: u64) -> Packet {
    let addr = Addr::make(0x40).unwrap();
    encode(&Message::block(addr, [0; 8]), stamp)
}

/// Sends a packet as soon as there is room, and says whether there was.
fn send_soon<R: Wait>(rt: &R, sender: &mut Sender, mut packet: Packet) -> bool
    ensures { sender.new.channel ≡ sender.old.channel }
{
    for _ in 0..TRIES {
        match sender.send(rt, packet) {
            Ok(()) => return true,
            Err(full) => packet = full.packet,
        }
        thread::yield_now();
    }
    false
}

/// Takes a packet as soon as there is one.
fn take_soon<R: Wait>(rt: &R, receiver: &mut Receiver) -> Option<Packet>
    ensures { receiver.new.channel ≡ receiver.old.channel }
{
    for _ in 0..TRIES {
        if let Some(packet) = receiver.take(rt) {
            return Some(packet);
        }
        thread::yield_now();
    }
    None
}

/// Sends packets with the stamps 1 to `last`.
fn send_all<R: Wait>(rt: &R, mut sender: Sender, last: u64) -> Sender
    ensures { result.channel ≡ sender.channel }
{
    for stamp in 1..=last {
        if !send_soon(rt, &mut sender, packet(stamp)) {
            break;
        }
    }
    sender
}

/// Takes so many packets, and gives their stamps.
fn take_all<R: Wait>(
    rt: &R,
    alloc: Global,
    mut receiver: Receiver,
    count: u64,
) -> Result<(Receiver, Vec<u64>), AllocError>
    ensures { IfOk result (λ r. r.0.channel ≡ receiver.channel) }
{
    let mut stamps = Vec::new(alloc);
    for _ in 0..count {
        match take_soon(rt, &mut receiver) {
            None => break,
            Some(packet) => stamps.push(packet.stamp)?,
        }
    }
    Ok((receiver, stamps))
}

/// The stamps of so many packets that go from one thread to another, through a channel with room for 16, and the channel once both threads
/// have ended.
fn stamps_through<R: Threads + Wait + Sync>(
    rt: &R,
    alloc: Global,
    count: u64,
) -> Result<(Vec<u64>, Closed), AllocError> {
    let (sender, receiver) = channel(alloc, 16)?;
    let (sender, taken) = thread::join(
        rt,
        move || -> Sender
            ensures { result.channel ≡ sender.channel }
        { send_all(rt, sender, count) },
        move || -> Result<(Receiver, Vec<u64>), AllocError>
            ensures { IfOk result (λ r. r.0.channel ≡ receiver.channel) }
        { take_all(rt, alloc, receiver, count) },
    );
    let (receiver, stamps) = taken?;
    Ok((stamps, close(rt, sender, receiver)))
}

#[test]
fn a_thousand_packets_go_from_thread_to_thread(rt: HostRuntime) -> Result<(), Fail> {
    let (stamps, mut closed) = stamps_through(&rt, rt.alloc(), 1000)?;
    assert_eq!(rt; stamps.len(), 1000);
    for (index, stamp) in stamps.iter().enumerate() {
        assert_eq!(rt; *stamp, index as u64 + 1);
    }
    assert!(rt; closed.next(&rt).is_none());
    Ok(())
}

#[test]
fn a_full_channel_hands_the_packet_back(rt: HostRuntime) -> Result<(), Fail> {
    let (mut sender, mut receiver) = channel(rt.alloc(), 2)?;
    assert!(rt; sender.send(&rt, packet(1)).is_ok());
    assert!(rt; sender.send(&rt, packet(2)).is_ok());
    match sender.send(&rt, packet(3)) {
        Ok(()) => assert!(rt; false, "a third packet found room"),
        Err(full) => assert_eq!(rt; full.packet.stamp, 3),
    }
    assert_eq!(rt; receiver.take(&rt).map(|packet| packet.stamp), Some(1));
    assert!(rt; sender.send(&rt, packet(4)).is_ok());
    for stamp in [2, 4] {
        assert_eq!(rt; receiver.take(&rt).map(|packet| packet.stamp), Some(stamp));
    }
    assert!(rt; receiver.take(&rt).is_none());
    Ok(())
}

#[test]
fn what_is_left_comes_after_the_close(rt: HostRuntime) -> Result<(), Fail> {
    let (mut sender, mut receiver) = channel(rt.alloc(), 1024)?;
    assert!(rt; sender.send(&rt, packet(1)).is_ok());
    assert!(rt; sender.send(&rt, packet(2)).is_ok());
    assert!(rt; sender.send(&rt, packet(3)).is_ok());
    assert_eq!(rt; receiver.take(&rt).map(|packet| packet.stamp), Some(1));
    let mut closed = close(&rt, sender, receiver);
    for stamp in [2, 3] {
        assert_eq!(rt; closed.next(&rt).map(|packet| packet.stamp), Some(stamp));
    }
    assert!(rt; closed.next(&rt).is_none());
    assert!(rt; closed.next(&rt).is_none());
    Ok(())
}

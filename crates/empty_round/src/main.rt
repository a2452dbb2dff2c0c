//! What a round of a threaded replay costs where its agents do nothing: `bench/threads` runs this program beside the real one and divides
//! the time of a real round by that of an empty one. It is a measure alone, and no part of what `bedrock` promises.
//!
//! An empty round makes as many channels as one of a system with 8 caches has, forks and joins as many threads, and closes the channels.
#![tactic(auto)]

ghost use Rattle.std.specs.Prelude.{◌≡◌};

use bk_net::{Receiver, Sender, channel, close};
use std::alloc::{AllocError, Global};
use std::sync::Wait;
use std::thread::{self, Threads};

/// How many rounds there are.
const ROUNDS: usize = 1_000;

/// How many agents a system with 8 caches has: these, the engine and the memory.
const AGENTS: usize = 10;

/// How many channels lead from one of these agents to another: three between each cache and the engine, one from each cache to each other
/// cache, and two between the engine and the memory.
const CHANNELS: usize = 3 * 8 + 8 * 7 + 2;

/// How many packets a channel has room for, as in a real round.
const CAPACITY: usize = 64;

/// Both ends of a channel.
#[derive(Drop)]
struct Ends {
    sender: Sender,
    receiver: Receiver,
    ghost one: { receiver.channel ≡ sender.channel },
}

/// New channels.
fn open(alloc: Global) -> Result<Vec<Ends>, AllocError> {
    let mut channels = Vec::new(alloc);
    for _ in 0..CHANNELS {
        let (sender, receiver) = channel(alloc, CAPACITY)?;
        channels.push(Ends { sender, receiver })?;
    }
    Ok(channels)
}

/// Closes channels.
fn close_all<R: Wait>(rt: &R, channels: Vec<Ends>) {
    for Ends { sender, receiver } in channels {
        let _nothing = close(rt, sender, receiver);
    }
}

/// A thread for each agent, which does nothing.
fn fork_and_join<R: Threads + Sync>(rt: &R, agents: &mut [u8]) {
    thread::for_each_mut(rt, agents, AGENTS, &|_place, _agent: &mut u8| {});
}

/// A round in which nothing is done.
fn empty_round<R: Threads + Wait + Sync>(rt: &R, alloc: Global) -> Result<(), AllocError> {
    let channels = open(alloc)?;
    let mut agents = [0; AGENTS];
    fork_and_join(rt, &mut agents);
    close_all(rt, channels);
    Ok(())
}

fn main(rt: HostRuntime) -> Result<(), AllocError> {
    for _ in 0..ROUNDS {
        empty_round(&rt, rt.alloc())?;
    }
    Ok(())
}

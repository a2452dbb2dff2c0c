ghost use Rattle.std.specs.Prelude.{◌≡◌, ◌+◌, ◌*◌, ◌/◌, ◌<◌, ◌≤◌, ◌^◌, length, IfOk};
ghost use Rattle.std.specs.List.{All};
ghost use Rattle.bk_trace.specs.Traces.{Parts, IsOp, IsLine};
ghost use Rattle.bk_trace.specs.Generator.{drawn, given, op_of_sixteen, address_of_draws, operation_of_draws, generated};

use crate::trace::Trace;
use bk_base::{Addr, Config, Op};
use std::alloc::{AllocError, Global};

/// The numbers that are drawn from a state: a linear congruential generator modulo 2^32.
#[derive(Drop)]
struct Draws {
    state: u32,
}

impl Draws {
    /// The next number, below 2^16.
    #[tactic(auto, unfolding(crate::specs::Generator::drawn))]
    fn next(&mut self) -> u64
        ensures state { self.new.state ≡ drawn self.old.state }
        ensures value { result ≡ given self.new.state }
    {
        self.state = ((self.state as u64 * 69_069 + 1) % (1 << 32)) as u32;
        self.state as u64 / 65_536
    }
}

/// The operation that a number from 0 to 15 names.
fn op_of_sixteen(n: u64, address: Addr, value: u64) -> Op
    requires { n < 16 }
    ensures value { result ≡ op_of_sixteen n address value }
    ensures op { IsOp result }
{
    match n {
        0..=6 => Op::Load(address),
        7..=12 => Op::Store(address, value),
        13 => Op::UcLoad(address),
        14 => Op::UcStore(address, value),
        _ => Op::Evict(address),
    }
}

/// The address of two draws.
fn address_of_draws(config: Config, block: u64, word: u64) -> Addr
    ensures { result ≡ address_of_draws config block word }
{
    let blocks = config.sets as u64 * config.ways as u64 * 4;
    match Addr::make(block % blocks * 64 + word % 8 * 8) {
        Some(address) => address,
        None => unreachable!(),
    }
}

/// The operation of the next four draws.
fn next_operation(config: Config, number: u64, draws: &mut Draws) -> (u8, Op)
    ensures operation { let a = drawn draws.old.state in let b = drawn a in let c = drawn b in
        result ≡ operation_of_draws config number a b c (drawn c) }
    ensures state { draws.new.state ≡ drawn (drawn (drawn (drawn draws.old.state))) }
    ensures line { IsLine config.caches result }
{
    let cache = (draws.next() % config.caches as u64) as u8;
    let name = draws.next() % 16;
    let block = draws.next();
    let word = draws.next();
    let address = address_of_draws(config, block, word);
    (cache, op_of_sixteen(name, address, number))
}

fn operations_of_draws(
    alloc: Global,
    seed: u32,
    config: Config,
    operations: u32,
) -> Result<Vec<(u8, Op)>, AllocError>
    ensures value { IfOk result (λ v. v.items ≡ generated config seed 1 operations) }
    ensures each { IfOk result (λ v. All (λ line. IsLine config.caches line) v.items) }
    ensures length { IfOk result (λ v. length v.items ≡ operations) }
{
    let mut lines = Vec::new(alloc);
    let mut draws = Draws { state: seed };
    for number in 0..operations {
        lines.push(next_operation(config, number as u64 + 1, &mut draws))?;
    }
    Ok(lines)
}

/// A trace of so many operations, at most 10,000, that is drawn from a number.
///
/// Each draw sets the state, which is the seed at first, to `state * 69069 + 1` modulo 2^32, and
/// gives its upper 16 bits. Each operation takes four draws, for its cache, its name, its block and
/// its word; a store's value is the operation's number from 1. Fails only where memory runs out.
pub fn generate(
    alloc: Global,
    seed: u32,
    config: Config,
    operations: u32,
) -> Result<Trace, AllocError>
    requires { operations ≤ 10000 }
    ensures value { IfOk result (λ t. t ≡ record { config = config; lines = generated config seed 1 operations }) }
    ensures length { IfOk result (λ t. length t.lines ≡ operations) }
{
    let lines = operations_of_draws(alloc, seed, config, operations)?;
    Trace::make(alloc, config, lines)
}

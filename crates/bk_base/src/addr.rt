ghost use Rattle.std.specs.Prelude.{◌≡◌, ◌<◌, ◌%◌, ◌^◌};
ghost use Rattle.bk_base.specs.Places.{addr_of, block_of, word_of, set_of, tag_of, block_start, group_of, tag_at, tag_limit, address_in, IsAddr};

use crate::config::Config;
use std::marker::Model;

/// How many bytes a word has.
const WORD_BYTES: u64 = 8;
/// How many bytes a block has.
const BLOCK_BYTES: u64 = 64;
/// Addresses are below this.
const ADDRESS_LIMIT: u64 = 0x100_0000_0000;

/// The address of a word: a multiple of 8 below 2^40. Contracts see its number.
#[derive(Clone, Copy, Debug, PartialEq, Eq)]
pub struct Addr {
    value: u64,
}

impl Model for Addr {
    ghost use Rattle.std.specs.Prelude.{ℕ};
    ghost use Rattle.bk_base.specs.Places.{IsAddr};

    ghost Value = { ℕ };

    ghost view = { λ a. a.value };

    ghost invariant = { λ a. IsAddr a.value };

    ghost inverse = { λ n. record { value = n } };
}

impl Addr {
    /// The address with this number, or none where it is no multiple of 8 below 2^40.
    pub fn make(value: u64) -> Option<Addr>
        ensures { result ≡ addr_of value }
    {
        if value < ADDRESS_LIMIT && value % WORD_BYTES == 0 {
            Some(Addr { value })
        } else {
            None
        }
    }

    /// The number of the address.
    pub fn value(self) -> u64
        ensures value { result ≡ self }
        ensures range { IsAddr self }
    {
        self.value
    }

    /// The address of the first word of the address's block.
    pub fn block_start(self) -> Addr
        ensures value { result ≡ block_start self }
        ensures aligned { result % 64 ≡ 0 }
    {
        Addr {
            value: self.value / BLOCK_BYTES * BLOCK_BYTES,
        }
    }

    /// The address of the first word of the block that has this tag in a set.
    pub fn of_block(config: Config, set: u8, tag: u64) -> Addr
        requires set { set < config.sets }
        requires tag { tag < tag_limit config }
        ensures value { result ≡ address_in config set tag }
        ensures aligned { result % 64 ≡ 0 }
    {
        Addr {
            value: (tag * config.sets as u64 + set as u64) * BLOCK_BYTES,
        }
    }
}

/// The block of an address: 64 bytes, counted from address 0. It is below 2^34.
pub fn block_of(addr: Addr) -> u64
    ensures value { result ≡ block_of addr }
    ensures small { result < 2 ^ 34 }
{
    addr.value / BLOCK_BYTES
}

/// The place of an address's word in its block, 0 to 7.
pub fn word_of(addr: Addr) -> u8
    ensures value { result ≡ word_of addr }
    ensures small { result < 8 }
{
    (addr.value / WORD_BYTES % 8) as u8
}

/// The set that a block belongs to: its way group, below the number of sets, so below 64.
pub fn set_of(config: Config, block: u64) -> u8
    ensures value { result ≡ set_of config block }
    ensures within { result < config.sets }
    ensures small { result < 64 }
{
    (block % config.sets as u64) as u8
}

/// What tells a block from the others of its set.
pub fn tag_of(config: Config, block: u64) -> u64
    ensures { result ≡ tag_of config block }
{
    block / config.sets as u64
}

/// The way group of an address: the set that its block belongs to, below the number of sets, so below 64.
pub fn group_of(config: Config, addr: Addr) -> u8
    ensures value { result ≡ group_of config addr }
    ensures within { result < config.sets }
    ensures small { result < 64 }
{
    set_of(config, block_of(addr))
}

/// What tells the block of an address from the others of its set.
pub fn tag_at(config: Config, addr: Addr) -> u64
    ensures value { result ≡ tag_at config addr }
    ensures small { result < tag_limit config }
{
    tag_of(config, block_of(addr))
}

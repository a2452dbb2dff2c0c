ghost use Rattle.std.specs.Prelude.{◌≡◌, ◌<◌, ◌≤◌, ◌+◌, ℕ, [], ◌∷◌, ◌++◌, IfOk, OnOk, IfSome, MatchOption, slice_get, vec_len, drop};
ghost use Rattle.std.specs.Option.{option_copied};
ghost use Rattle.bk_base.specs.Tables.{put};
ghost use Rattle.bk_base.specs.Counting.{all_below, is_nil};
ghost use Rattle.bk_msg.specs.Within.{IsWithin};
ghost use Rattle.bk_system.specs.Queues.{queues_of, AreWithin, AreWithin-prop, AreMarks};

use crate::bits::{MARK_WORDS, WORD_PLACES, first_bit, mark};
use crate::queue::Queue;
use bk_base::Config;
use bk_msg::Message;
use std::alloc::{AllocError, Global};

/// The channels of one network, of any length, at most 256 of them. Each message in them names caches and
/// ways of the configuration alone.
#[derive(Drop)]
pub struct Channels {
    pub(crate) config: Config,
    queues: Vec<Queue>,
    /// Place c is marked where channel c holds a message.
    marks: [u64; MARK_WORDS],
    ghost few: { vec_len queues ≤ 256 },
    ghost within: { AreWithin config (queues_of queues.items) } by { AreWithin-prop config (queues_of queues.items) },
    ghost marked: { AreMarks marks (queues_of queues.items) },
}

impl Channels {
    ghost use Rattle.bk_system.specs.Channels.{queue, room, channel_count, IsNext};

    /// So many channels, each empty.
    pub fn make(alloc: Global, config: Config, count: u16) -> Result<Channels, AllocError>
        requires { count ≤ 256 }
        ensures count { IfOk result (λ channels. channel_count channels ≡ count) }
        ensures empty { IfOk result (λ channels. queue channels ≡ λ c. []) }
        ensures config { IfOk result (λ channels. channels.config ≡ config) }
    {
        let mut queues = Vec::new(alloc);
        for _ in 0..count {
            queues.push(Queue::make(alloc)?)?;
        }
        Ok(Channels {
            config,
            queues,
            marks: [0; MARK_WORDS],
        })
    }

    /// Makes room for so many messages more in a channel. Nothing changes where memory runs out.
    pub fn reserve(&mut self, channel: u8, more: usize) -> Result<(), AllocError>
        requires { channel < channel_count self.old }
        ensures queue { queue self.new ≡ queue self.old }
        ensures room { OnOk result (more ≤ room self.new channel) }
        ensures grows { (c : ℕ) → room self.old c ≤ room self.new c }
        ensures count { channel_count self.new ≡ channel_count self.old }
        ensures config { self.new.config ≡ self.old.config }
    {
        let queue = &mut self.queues[channel as usize];
        queue.reserve(more)
    }

    /// Puts a message at the end of a channel, for which room was made.
    pub fn push(&mut self, channel: u8, message: &Message)
        requires room { 1 ≤ room self.old channel }
        requires within { IsWithin self.old.config message.now }
        ensures queue { queue self.new ≡ put (queue self.old) channel (queue self.old channel ++ message.now ∷ []) }
        ensures own { queue self.new channel ≡ queue self.old channel ++ message.now ∷ [] }
        ensures room { (c : ℕ) → room self.old c ≤ room self.new c + 1 }
        ensures count { channel_count self.new ≡ channel_count self.old }
        ensures config { self.new.config ≡ self.old.config }
    {
        let queue = &mut self.queues[channel as usize];
        queue.push(message);
        mark(&mut self.marks, channel, true);
    }

    /// Takes the head of a channel off, if there is one.
    pub fn drop_head(&mut self, channel: u8)
        requires { channel < channel_count self.old }
        ensures rest { queue self.new ≡ put (queue self.old) channel (drop 1 (queue self.old channel)) }
        ensures own { queue self.new channel ≡ drop 1 (queue self.old channel) }
        ensures grows { (c : ℕ) → room self.old c ≤ room self.new c }
        ensures count { channel_count self.new ≡ channel_count self.old }
        ensures config { self.new.config ≡ self.old.config }
    {
        let queue = &mut self.queues[channel as usize];
        queue.drop_head();
        let holds = !queue.is_empty();
        mark(&mut self.marks, channel, holds);
    }

    /// The head of a channel; none for a number that no channel has.
    pub fn head(&self, channel: u8) -> Option<&Message>
        ensures value { option_copied result ≡ slice_get (queue self.now channel) 0 }
        ensures within { IfSome result (λ message. IsWithin self.now.config message.now) }
    {
        if (channel as usize) < self.queues.len() {
            let queue = &self.queues[channel as usize];
            queue.head()
        } else {
            None
        }
    }

    /// The least channel at or above a number that holds a message.
    pub fn next(&self, from: u16) -> Option<u8>
        ensures { MatchOption result ((c : ℕ) → from ≤ c → queue self.now c ≡ [])
            (λ c. IsNext (queue self.now) (channel_count self.now) from c) }
    {
        // The words before that of `from` mark no channel at or above it.
        let places = WORD_PLACES as u16;
        let mut start = from % places;
        for word in from / places..MARK_WORDS as u16 {
            if let Some(bit) = first_bit(self.marks[word as usize], start as u8) {
                return Some(word as u8 * WORD_PLACES + bit);
            }
            start = 0;
        }
        None
    }

    /// Whether all channels are empty.
    pub fn is_empty(&self) -> bool
        ensures { result ≡ all_below (channel_count self.now) (λ c. is_nil (queue self.now c)) }
    {
        self.next(0).is_none()
    }
}

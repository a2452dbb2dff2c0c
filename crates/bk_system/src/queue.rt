ghost use Rattle.std.specs.Prelude.{◌≡◌, ◌<◌, ◌≤◌, ◌+◌, [], ◌∷◌, ◌++◌, IfOk, OnOk, length, slice_get, drop, min};
ghost use Rattle.std.specs.Option.{option_copied};
ghost use Rattle.std.specs.VecDeque.{deque_len, deque_capacity};
ghost use Rattle.bk_base.specs.Counting.{is_nil};

use bk_msg::Message;
use circular_buffer::HeapCircularBuffer;
use std::alloc::{AllocError, Global};
use std::collections::VecDeque;

/// How many messages the ring of a queue holds.
const RING_PLACES: usize = 16;

/// The messages of one channel, of any length: its oldest lie in a ring, whose memory is there from the start, and
/// those that do not fit in a list behind it. The list holds none unless the ring is full.
#[derive(Drop)]
pub(crate) struct Queue {
    ring: HeapCircularBuffer<Message>,
    list: VecDeque<Message>,
    ghost places: { ring.capacity ≡ 16 },
    ghost within: { length ring.items ≤ 16 },
    ghost full: { 0 < deque_len list → length ring.items ≡ 16 },
}

/// Moves the first message of the list, if any, to the end of the ring, which has a place for it.
fn refill(ring: &mut HeapCircularBuffer<Message>, list: &mut VecDeque<Message>)
    requires { length ring.old.items < ring.old.capacity }
    ensures items { ring.new.items ++ list.new.items ≡ ring.old.items ++ list.old.items }
    ensures capacity { ring.new.capacity ≡ ring.old.capacity }
    ensures moved { length ring.new.items ≡ length ring.old.items + min 1 (deque_len list.old) }
    ensures kept { length ring.new.items + deque_len list.new ≡ length ring.old.items + deque_len list.old }
    ensures spare { deque_capacity list.new ≡ deque_capacity list.old }
{
    if let Some(message) = list.pop_front() {
        let _ = ring.push_back(message);
    }
}

impl Queue {
    ghost use Rattle.bk_system.specs.Queues.{items_of, room_of};

    /// A queue that is empty.
    pub(crate) fn make(alloc: Global) -> Result<Queue, AllocError>
        ensures { IfOk result (λ queue. items_of queue ≡ []) }
    {
        Ok(Queue {
            ring: HeapCircularBuffer::with_capacity(alloc, RING_PLACES)?,
            list: VecDeque::new(alloc),
        })
    }

    /// Makes room for so many messages more. Nothing changes where memory runs out.
    pub(crate) fn reserve(&mut self, more: usize) -> Result<(), AllocError>
        ensures items { items_of self.new ≡ items_of self.old }
        ensures grows { room_of self.old ≤ room_of self.new }
        ensures room { OnOk result (more ≤ room_of self.new) }
    {
        let free = RING_PLACES - self.ring.len();
        if more <= free {
            return Ok(());
        }
        self.list.reserve(more - free)
    }

    /// Puts a message at the end, for which room was made.
    pub(crate) fn push(&mut self, message: &Message)
        requires { 1 ≤ room_of self.old }
        ensures items { items_of self.new ≡ items_of self.old ++ message.now ∷ [] }
        ensures room { room_of self.old ≤ room_of self.new + 1 }
    {
        if self.ring.len() < RING_PLACES {
            let _ = self.ring.push_back(*message);
        } else {
            self.list.push_back_reserved(*message);
        }
    }

    /// Takes the head off, if there is one.
    pub(crate) fn drop_head(&mut self)
        ensures rest { items_of self.new ≡ drop 1 (items_of self.old) }
        ensures grows { room_of self.old ≤ room_of self.new }
    {
        let _ = self.ring.pop_front();
        refill(&mut self.ring, &mut self.list);
    }

    /// The head.
    pub(crate) fn head(&self) -> Option<&Message>
        ensures { option_copied result ≡ slice_get (items_of self.now) 0 }
    {
        self.ring.front()
    }

    /// Whether it holds no message.
    pub(crate) fn is_empty(&self) -> bool
        ensures { result ≡ is_nil (items_of self.now) }
    {
        self.ring.is_empty()
    }
}

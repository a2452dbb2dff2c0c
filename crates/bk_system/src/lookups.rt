ghost use Rattle.std.specs.Prelude.{◌≡◌, ◌≤◌, ◌<◌, MatchOption, slice_get};
ghost use Rattle.bk_system.specs.Channels.{queue};
ghost use Rattle.bk_system.specs.Lookups.{has_message, has_fill, is_idle, awaited};
ghost use Rattle.bk_system.specs.Next.{IsNextOf, IsNoneFrom};
ghost use Rattle.bk_system.specs.Numbering.{fills_of};

use crate::channels::Channels;
use crate::hardware::{FILL_CHANNELS, Hardware};
use crate::sending::SENDERS;
use bk_base::MOST_CACHES;
use bk_isa::{Form, Instr};

// What a schedule asks: which caches are idle, which channels hold a message, and what the engine waits for.

/// Whether the fill channel of a place is one between two of the caches and holds a message.
fn has_fill(fills: &Channels, caches: u8, place: u8) -> bool
    requires { caches ≤ MOST_CACHES }
    ensures { result ≡ has_fill caches (fills_of (queue fills.now)) place }
{
    if caches <= place / SENDERS {
        return false;
    }
    if caches <= place % SENDERS {
        return false;
    }
    fills.head(place).is_some()
}

/// The same as `next_fill_place`, place by place.
fn search_fill_place(fills: &Channels, caches: u8, start: u16) -> Option<u8>
    requires { caches ≤ MOST_CACHES }
    ensures { MatchOption result (IsNoneFrom FILL_CHANNELS start (has_fill caches (fills_of (queue fills.now))))
        (IsNextOf FILL_CHANNELS start (has_fill caches (fills_of (queue fills.now)))) }
{
    for place in start..FILL_CHANNELS {
        if has_fill(fills, caches, place as u8) {
            return Some(place as u8);
        }
    }
    None
}

/// The least place of a fill channel from a start on that is between two of the caches and holds a message.
fn next_fill_place(fills: &Channels, caches: u8, start: u16) -> Option<u8>
    requires { caches ≤ MOST_CACHES }
    ensures { MatchOption result (IsNoneFrom FILL_CHANNELS start (has_fill caches (fills_of (queue fills.now))))
        (IsNextOf FILL_CHANNELS start (has_fill caches (fills_of (queue fills.now)))) }
{
    let Some(place) = fills.next(start) else {
        return None;
    };
    if has_fill(fills, caches, place) {
        return Some(place);
    }
    // Whoever sends a fill and whoever it goes to is one of the caches, so this isn't reached.
    search_fill_place(fills, caches, start)
}

impl Hardware {
    ghost use Rattle.bk_system.specs.Systems.{state_of};

    /// The least cache from a start on that has no operation in progress.
    pub fn next_idle(&self, start: u8) -> Option<u8>
        ensures { MatchOption result (IsNoneFrom self.now.config.caches start (is_idle (state_of self.now).caches))
            (IsNextOf self.now.config.caches start (is_idle (state_of self.now).caches)) }
    {
        self.caches.next_idle(start)
    }

    /// The least cache from a start on whose command channel holds a message.
    pub fn next_command(&self, start: u8) -> Option<u8>
        ensures { MatchOption result (IsNoneFrom self.now.config.caches start (has_message (state_of self.now).command))
            (IsNextOf self.now.config.caches start (has_message (state_of self.now).command)) }
    {
        self.commands.next(start as u16)
    }

    /// The least cache from a start on whose channel of responses holds a message.
    pub fn next_response(&self, start: u8) -> Option<u8>
        ensures { MatchOption result (IsNoneFrom self.now.config.caches start (has_message (state_of self.now).response))
            (IsNextOf self.now.config.caches start (has_message (state_of self.now).response)) }
    {
        self.responses.next(start as u16)
    }

    /// The least cache from a start on whose channel of requests holds a message.
    pub fn next_request(&self, start: u8) -> Option<u8>
        ensures { MatchOption result (IsNoneFrom self.now.config.caches start (has_message (state_of self.now).request))
            (IsNextOf self.now.config.caches start (has_message (state_of self.now).request)) }
    {
        self.requests.next(start as u16)
    }

    /// The least place from a start on of a fill channel between two caches that holds a message. The channel to a cache from another
    /// has the place `to * SENDERS + from`.
    pub fn next_fill(&self, start: u16) -> Option<u8>
        ensures { MatchOption result (IsNoneFrom FILL_CHANNELS start (has_fill self.now.config.caches (state_of self.now).fill))
            (IsNextOf FILL_CHANNELS start (has_fill self.now.config.caches (state_of self.now).fill)) }
    {
        next_fill_place(&self.fills, self.cache_count(), start)
    }

    /// The classes of the `wfq` at the engine's place; none where another instruction stands there, or no instruction.
    pub fn waits_for(&self, program: &[Instr]) -> Option<u8>
        ensures { result ≡ awaited (slice_get program.now (state_of self.now).engine.core.place) }
    {
        match program.get(self.engine.place() as usize) {
            None => None,
            Some(instr) => match instr.form() {
                Form::Wfq { a } => Some(a),
                _ => None,
            },
        }
    }
}

ghost use Rattle.std.specs.Prelude.{◌≡◌, ◌++◌, IfOk, OnOk, map};
ghost use Rattle.bk_threads.specs.Journals.{OfDifferentAgents, with_agent, gathered, event_of, IsMerge};

use bk_system::Event;
use std::alloc::{AllocError, Global};

/// An event of an agent, with its stamp.
#[derive(Clone, Copy, Debug, PartialEq, Eq)]
pub struct Stamped {
    pub stamp: u64,
    pub event: Event,
}

/// What one agent has done, oldest first. The agents are the caches by number, then the engine, then the memory.
#[derive(Debug, Drop)]
pub struct Journal {
    pub agent: u8,
    pub entries: Vec<Stamped>,
}

/// An entry of a journal, with the journal's agent.
#[derive(Clone, Copy, Debug, PartialEq, Eq)]
struct Entry {
    agent: u8,
    stamp: u64,
    event: Event,
}

/// Puts the entries of a journal behind those of others.
fn append(entries: &mut Vec<Entry>, journal: &Journal) -> Result<(), AllocError>
    ensures { OnOk result (entries.new.items ≡ entries.old.items ++ with_agent journal.now) }
{
    let agent = journal.agent;
    for &Stamped { stamp, event } in &journal.entries {
        entries.push(Entry {
            agent,
            stamp,
            event,
        })?;
    }
    Ok(())
}

/// The entries of all journals as one list, journal by journal.
fn gather(alloc: Global, journals: &[Journal]) -> Result<Vec<Entry>, AllocError>
    ensures { IfOk result (λ entries. entries.items ≡ gathered journals.now) }
{
    let mut entries = Vec::new(alloc);
    for journal in journals {
        append(&mut entries, journal)?;
    }
    Ok(entries)
}

/// The events of entries.
fn events_of(alloc: Global, entries: &[Entry]) -> Result<Vec<Event>, AllocError>
    ensures { IfOk result (λ events. events.items ≡ map event_of entries.now) }
{
    entries.iter().map(|entry| entry.event).collect(alloc)
}

/// The events of all journals as one list: by stamp, those of one stamp by agent, and those of one agent and stamp in the order of its
/// journal.
pub fn merge(alloc: Global, journals: &[Journal]) -> Result<Vec<Event>, AllocError>
    requires { OfDifferentAgents journals.now }
    ensures { IfOk result (λ events. IsMerge journals.now events.items) }
{
    let mut entries = gather(alloc, journals)?;
    entries.sort_by_key(|entry| (entry.stamp, entry.agent))?;
    events_of(alloc, &entries)
}

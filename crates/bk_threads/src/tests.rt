ghost use Rattle.std.specs.Prelude.{◌≡◌, IfOk};

use super::*;
use bk_engine::Choice;
use bk_system::Event;
use std::alloc::{AllocError, Global};
use std::test::*;

/// Agents of a system of two caches: the caches themselves, and the engine.
const CACHE: u8 = 0;

const OTHER_CACHE: u8 = 1;

const ENGINE: u8 = 2;

const COMMAND: Event = Event::Command { cache: CACHE };

const FILL: Event = Event::Fill {
    to: CACHE,
    from: OTHER_CACHE,
};

const OTHER_COMMAND: Event = Event::Command { cache: OTHER_CACHE };

const OTHER_FILL: Event = Event::Fill {
    to: OTHER_CACHE,
    from: CACHE,
};

const STEP: Event = Event::Engine {
    choice: Choice {
        class: 0,
        source: 0,
    },
};

const WAIT: Event = Event::Engine {
    choice: Choice {
        class: 1,
        source: 1,
    },
};

/// The journal of an agent with these stamps and events.
fn journal(alloc: Global, agent: u8, entries: &[(u64, Event)]) -> Result<Journal, AllocError>
    ensures { IfOk result (λ journal. journal.agent ≡ agent) }
{
    let mut stamped = Vec::new(alloc);
    for &(stamp, event) in entries {
        stamped.push(Stamped { stamp, event })?;
    }
    Ok(Journal {
        agent,
        entries: stamped,
    })
}

/// The merge of three journals, of which the engine's stands first.
fn merged(
    alloc: Global,
    engine: &[(u64, Event)],
    cache: &[(u64, Event)],
    other: &[(u64, Event)],
) -> Result<Vec<Event>, AllocError> {
    let engine = journal(alloc, ENGINE, engine)?;
    let cache = journal(alloc, CACHE, cache)?;
    let other = journal(alloc, OTHER_CACHE, other)?;
    merge(alloc, &[engine, cache, other])
}

fn is(events: &[Event], expected: &[Event]) -> bool {
    events == expected
}

#[test]
fn merges_by_stamp(rt: HostRuntime) -> Result<(), Fail> {
    let events = merged(
        rt.alloc(),
        &[(2, STEP), (6, WAIT), (7, STEP)],
        &[(1, COMMAND), (8, FILL)],
        &[(3, OTHER_COMMAND), (4, OTHER_FILL), (5, OTHER_COMMAND)],
    )?;
    assert!(rt;
        is(
            &events,
            &[
                COMMAND,
                STEP,
                OTHER_COMMAND,
                OTHER_FILL,
                OTHER_COMMAND,
                WAIT,
                STEP,
                FILL
            ]
        )
    );
    Ok(())
}

#[test]
fn agents_stand_by_number_at_one_stamp(rt: HostRuntime) -> Result<(), Fail> {
    let events = merged(
        rt.alloc(),
        &[(4, WAIT)],
        &[(4, FILL)],
        &[(3, OTHER_FILL), (4, OTHER_COMMAND)],
    )?;
    assert!(rt; is(&events, &[OTHER_FILL, FILL, OTHER_COMMAND, WAIT]));
    Ok(())
}

#[test]
fn a_journal_keeps_its_order_at_one_stamp(rt: HostRuntime) -> Result<(), Fail> {
    let events = merged(
        rt.alloc(),
        &[(1, WAIT), (0, STEP)],
        &[
            (1, FILL),
            (1, COMMAND),
            (1, COMMAND),
            (1, FILL),
            (0, COMMAND),
        ],
        &[],
    )?;
    assert!(rt;
        is(
            &events,
            &[COMMAND, STEP, FILL, COMMAND, COMMAND, FILL, WAIT]
        )
    );
    Ok(())
}

#[test]
fn empty_journals_give_no_event(rt: HostRuntime) -> Result<(), Fail> {
    assert!(rt; merge(rt.alloc(), &[])?.is_empty());
    assert!(rt; merged(rt.alloc(), &[], &[], &[])?.is_empty());
    assert!(rt; is(&merged(rt.alloc(), &[], &[(u64::MAX, FILL)], &[])?, &[FILL]));
    Ok(())
}

/// As many entries as a sort needs memory for.
#[test]
fn merges_long_journals(rt: HostRuntime) -> Result<(), Fail> {
    let events = merged(
        rt.alloc(),
        &[
            (9, STEP),
            (9, STEP),
            (9, STEP),
            (9, STEP),
            (9, STEP),
            (9, STEP),
            (9, STEP),
            (9, STEP),
            (9, STEP),
            (9, STEP),
        ],
        &[
            (8, FILL),
            (8, FILL),
            (8, FILL),
            (8, FILL),
            (8, FILL),
            (8, FILL),
            (8, FILL),
            (8, FILL),
            (8, FILL),
            (10, COMMAND),
        ],
        &[(7, OTHER_FILL), (9, OTHER_FILL), (11, OTHER_COMMAND)],
    )?;
    let steps = [STEP, STEP, STEP, STEP, STEP, STEP, STEP, STEP, STEP, STEP];
    let fills = [FILL, FILL, FILL, FILL, FILL, FILL, FILL, FILL, FILL];
    assert_eq!(rt; events.len(), 23);
    assert_eq!(rt; events[0], OTHER_FILL);
    assert!(rt; is(&events[1..10], &fills));
    assert_eq!(rt; events[10], OTHER_FILL);
    assert!(rt; is(&events[11..21], &steps));
    assert!(rt; is(&events[21..], &[COMMAND, OTHER_COMMAND]));
    Ok(())
}

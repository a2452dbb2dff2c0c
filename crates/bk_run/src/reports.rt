ghost use Rattle.std.specs.Prelude.{◌≡◌, ◌+◌, ◌*◌, ◌≤◌, ◌^◌, ℕ, length, IfOk, OnOk};
ghost use Rattle.bk_run.specs.CountBounds.{IsAtMost};
ghost use Rattle.bk_system.specs.Events.{row};
ghost use Rattle.bk_system.specs.Runs.{after, run};
ghost use Rattle.bk_run.specs.Report.{IsReport, no_counts, count_event, count_sent, count_row, counts_of};
ghost use Rattle.bk_system.specs.State.{opening};
ghost use Rattle.bk_system.specs.Systems.{state_of};

use crate::completion::is_done;
use crate::counts::Counts;
use crate::report_text::report_bytes;
use bk_base::Config;
use bk_image::Image;
use bk_isa::Instr;
use bk_msg::Message;
use bk_system::{Event, Hardware, MOST_SENT};
use bk_trace::Trace;
use std::alloc::{AllocError, Global};

/// Counts messages, by their networks.
fn count_messages(counts: &mut Counts, messages: &[Message])
    requires few { length messages.now ≤ MOST_SENT }
    requires room { IsAtMost (2 ^ 63) (2 ^ 63) counts.old }
    ensures value { counts.new ≡ count_sent counts.old messages.now }
    ensures grows { (e m : ℕ) → IsAtMost e m counts.old → IsAtMost e (m + length messages.now) counts.new }
{
    for message in messages {
        counts.add_message(message);
    }
}

/// Counts an event that was made, and the messages that it sent.
pub(crate) fn count_made(counts: &mut Counts, event: &Event, sent: &[Message])
    requires few { length sent.now ≤ MOST_SENT }
    requires room { IsAtMost (2 ^ 59) (2 ^ 63) counts.old }
    ensures value { counts.new ≡ count_sent (count_event counts.old event.now) sent.now }
    ensures grows { (n : ℕ) → IsAtMost n (MOST_SENT * n) counts.old → IsAtMost (n + 1) (MOST_SENT * (n + 1)) counts.new }
{
    counts.add_event(event);
    count_messages(counts, sent);
}

/// A run of some events: the hardware after them, and what was counted.
#[derive(Drop)]
pub(crate) struct Counted {
    pub(crate) hardware: Hardware,
    pub(crate) counts: Counts,
}

impl Counted {
    /// No event yet.
    pub(crate) fn new(alloc: Global, config: Config) -> Result<Counted, AllocError>
        ensures state { IfOk result (λ counted. state_of counted.hardware ≡ opening config) }
        ensures config { IfOk result (λ counted. counted.hardware.config ≡ config) }
        ensures counts { IfOk result (λ counted. counted.counts ≡ no_counts) }
    {
        let hardware = Hardware::make(alloc, config)?;
        Ok(Counted {
            hardware,
            counts: Counts::new(),
        })
    }

    /// Makes an event, and counts it and what it sent, if it was enabled.
    pub(crate) fn step(&mut self, program: &[Instr], event: &Event) -> Result<(), AllocError>
        requires few { length program.now ≤ 256 }
        requires room { IsAtMost (2 ^ 59) (2 ^ 63) self.old.counts }
        ensures state { OnOk result (state_of self.new.hardware
            ≡ after self.old.hardware.config program.now (state_of self.old.hardware) event.now) }
        ensures counts { OnOk result (self.new.counts
            ≡ count_row self.old.counts event.now (row self.old.hardware.config program.now (state_of self.old.hardware) event.now)) }
        ensures config { self.new.hardware.config ≡ self.old.hardware.config }
        ensures grows { (n : ℕ) → IsAtMost n (MOST_SENT * n) self.old.counts
            → IsAtMost (n + 1) (MOST_SENT * (n + 1)) self.new.counts }
    {
        match self.hardware.step(program, event) {
            Ok(true) => {
                count_made(&mut self.counts, event, self.hardware.sent());
                Ok(())
            }
            Ok(false) => Ok(()),
            Err(e) => Err(e),
        }
    }
}

/// Makes the events one by one, and counts.
fn count_events(
    alloc: Global,
    program: &[Instr],
    trace: &Trace,
    events: &[Event],
) -> Result<Counted, AllocError>
    requires { length program.now ≤ 256 }
    ensures state { IfOk result (λ counted. state_of counted.hardware ≡ run trace.now.config program.now events.now) }
    ensures config { IfOk result (λ counted. counted.hardware.config ≡ trace.now.config) }
    ensures counts { IfOk result (λ counted. counted.counts ≡ counts_of trace.now.config program.now events.now) }
{
    let mut counted = Counted::new(alloc, trace.config())?;
    for event in events {
        counted.step(program, event)?;
    }
    Ok(counted)
}

/// The report of a list of events: a line for each operation that completed, the counts of events and of
/// messages, the entries of the caches, and whether the events do all of the trace.
pub fn report(
    alloc: Global,
    image: &Image,
    trace: &Trace,
    events: &[Event],
) -> Result<Vec<u8>, AllocError>
    ensures { IfOk result (λ bytes. IsReport trace.now.config image.now.instrs trace.now.lines events.now bytes.items) }
{
    let program = image.instrs();
    let counted = count_events(alloc, program, trace, events)?;
    let Counted { hardware, counts } = counted;
    let rested = hardware.rested(program);
    let complete = is_done(alloc, trace, events, hardware.history(), rested)?;
    match report_bytes(alloc, &hardware, &counts, complete) {
        Ok(bytes) => Ok(bytes),
        Err(e) => Err(e),
    }
}

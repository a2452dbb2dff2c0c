ghost use Rattle.std.specs.Prelude.{◌≡◌, ◌≢◌, ◌≤◌, ◌<◌, ◌-◌, ◌^◌, [], ◌++◌, length, take, IfOk, OnOk, OnErr};
ghost use Rattle.bk_outer.specs.Counts.{Rose, one_more};

use crate::logs::WriteLog;
use crate::sink::{Sink, WriteAnswer};
use std::io::{self, ErrorKind};
use std::marker::Model;

/// A write that a signal interrupts is tried again, so many times in all.
const TRIES: u32 = 1_000_000;

/// The standard output. It tells the bytes that its writes have taken.
#[derive(Drop)]
pub struct StdSink<'a, R> {
    rt: &'a R,
    log: WriteLog,
    faults: u64,
}

impl<'a, R> Model for StdSink<'a, R> {
    ghost use Rattle.bk_outer.specs.Sink.{SystemSink};

    ghost Value = { SystemSink };

    ghost view = { λ s. record { taken = s.log.bytes; faults = s.faults } };
}

impl<'a, R: Print> StdSink<'a, R> {
    ghost use Rattle.bk_outer.specs.Sink.{SystemSink};

    /// The standard output of this runtime, with no write so far.
    pub fn make(rt: &'a R) -> StdSink<'a, R>
        ensures { result ≡ record { taken = []; faults = 0 } }
    {
        StdSink {
            rt,
            log: WriteLog::new(),
            faults: 0,
        }
    }
}

/// One write of the first bytes of the piece, which is tried again where a signal interrupts it.
fn write_once<R: Print>(rt: &R, piece: &[u8]) -> io::Result<usize>
    ensures { IfOk result (λ n. n ≤ length piece.now) }
{
    for _ in 1..TRIES {
        match rt.write_some(piece) {
            Err(e) if e.kind() == ErrorKind::Interrupted => {}
            answer => return answer,
        }
    }
    rt.write_some(piece)
}

impl<'a, R: Print> Sink for StdSink<'a, R> {
    ghost taken = { λ s. s.taken };

    ghost faults = { λ s. s.faults };

    /// One write to the standard output. One that takes 0 bytes counts as failed, and so does one that a signal interrupts each of
    /// 1,000,000 times that it is tried.
    fn write(&mut self, piece: &[u8]) -> Result<usize, WriteAnswer>
        requires { 0 < length piece.now }
        ensures some { IfOk result (λ n. 1 ≤ n) }
        ensures bound { IfOk result (λ n. n ≤ length piece.now) }
        ensures takes { IfOk result (λ n. self.new.taken ≡ self.old.taken ++ take n piece.now) }
        ensures takes_nothing { OnErr result (self.new.taken ≡ self.old.taken) }
        ensures failed { result ≡ Err WriteAnswer.Failed → Rose self.old.faults self.new.faults }
        ensures faults_kept { self.old.faults ≤ self.new.faults }
        ensures faults_last { self.old.faults ≡ 2 ^ 64 - 1 → self.new.faults ≡ 2 ^ 64 - 1 }

        // It needs no memory, and counts exactly.
        ensures not_memory { result ≢ Err WriteAnswer.Memory }
        ensures ok { OnOk result (self.new.faults ≡ self.old.faults) }
        ensures err { OnErr result (self.new.faults ≡ one_more self.old.faults) }
    {
        match write_once(self.rt, piece) {
            Ok(count) if count > 0 => {
                self.log.note(&piece[..count]);
                Ok(count)
            }
            _ => {
                self.faults = self.faults.saturating_add(1);
                Err(WriteAnswer::Failed)
            }
        }
    }
}

#[cfg(test)]
mod tests {
    use super::*;
    use std::cell::Cell;
    use std::fmt::Display;
    use std::io;
    use std::test::Fail;

    /// An output that takes so many bytes of each write, after so many writes that a signal interrupts.
    #[derive(Drop)]
    struct Narrow {
        width: usize,
        interrupts: Cell<u32>,
    }

    impl Print for Narrow {
        fn print<D: Display + Drop>(&self, _value: D) -> io::Result<()> {
            Ok(())
        }

        fn println<D: Display + Drop>(&self, _value: D) -> io::Result<()> {
            Ok(())
        }

        fn write_all(&self, _bytes: &[u8]) -> io::Result<()> {
            Ok(())
        }

        fn write_some(&self, bytes: &[u8]) -> io::Result<usize> {
            match self.interrupts.get() {
                0 => Ok(bytes.len().min(self.width)),
                left => {
                    self.interrupts.set(left - 1);
                    Err(io::Error::from(ErrorKind::Interrupted))
                }
            }
        }
    }

    #[test]
    fn takes_what_the_output_takes(rt: HostRuntime) -> Result<(), Fail> {
        let narrow = Narrow {
            width: 2,
            interrupts: Cell::new(0),
        };
        let mut sink = StdSink::make(&narrow);
        assert_eq!(rt; sink.write(b"abc")?, 2);
        assert_eq!(rt; sink.faults, 0);
        Ok(())
    }

    #[test]
    fn none_taken_is_a_failure(rt: HostRuntime) {
        let shut = Narrow {
            width: 0,
            interrupts: Cell::new(0),
        };
        let mut sink = StdSink::make(&shut);
        assert!(rt; sink.write(b"abc") == Err(WriteAnswer::Failed));
        assert_eq!(rt; sink.faults, 1);
    }

    #[test]
    fn an_interrupted_write_is_tried_again(rt: HostRuntime) {
        // How many writes are interrupted, what the sink answers, and how many faults it has counted.
        let cases = [
            (3, Ok(2), 0),
            (999_999, Ok(2), 0),
            (1_000_000, Err(WriteAnswer::Failed), 1),
        ];
        for (interrupts, answer, faults) in cases {
            let busy = Narrow {
                width: 2,
                interrupts: Cell::new(interrupts),
            };
            let mut sink = StdSink::make(&busy);
            assert!(rt; sink.write(b"abc") == answer, "{interrupts}");
            assert_eq!(rt; sink.faults, faults);
            assert_eq!(rt; busy.interrupts.get(), 0);
        }
    }
}

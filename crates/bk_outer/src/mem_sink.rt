ghost use Rattle.std.specs.Prelude.{◌≡◌, ◌≤◌, ◌<◌, ◌-◌, ◌^◌, [], ◌++◌, length, take, IfOk, OnErr};
ghost use Rattle.bk_outer.specs.Counts.{Rose};

use crate::sink::{Sink, WriteAnswer};
use std::alloc::Global;
use std::marker::Model;

/// Output that is kept in memory, for tests and examples, with writes that fail where they are told to.
#[derive(Drop)]
pub struct MemSink {
    bytes: Vec<u8>,
    chunk: usize,
    failing: Vec<u64>,
    calls: u64,
    faults: u64,
}

impl Model for MemSink {
    ghost use Rattle.std.specs.Prelude.{◌≤◌};
    ghost use Rattle.bk_outer.specs.Sink.{MemorySink};

    ghost Value = { MemorySink };

    ghost view = { λ s. record { bytes = s.bytes.items; chunk = s.chunk; failing = s.failing.items; calls = s.calls; faults = s.faults } };

    ghost invariant = { λ s. 1 ≤ s.chunk };
}

impl MemSink {
    ghost use Rattle.bk_outer.specs.Sink.{MemorySink};

    /// A sink that has no bytes and takes at most `chunk` at a time.
    /// The writes whose number, counted from 1, is among `failing` fail.
    pub fn make(alloc: Global, chunk: usize, failing: Vec<u64>) -> MemSink
        requires { 1 ≤ chunk }
        ensures { result ≡ record { bytes = []; chunk = chunk; failing = failing.items; calls = 0; faults = 0 } }
    {
        MemSink {
            bytes: Vec::new(alloc),
            chunk,
            failing,
            calls: 0,
            faults: 0,
        }
    }

    /// The bytes that were taken so far.
    pub fn bytes(&self) -> &[u8]
        ensures { result.now ≡ self.now.bytes }
    {
        self.bytes.as_slice()
    }
}

impl Sink for MemSink {
    ghost use Rattle.bk_outer.specs.Sink.{write_of, after_write, WriteGives};

    ghost taken = { λ s. s.bytes };

    ghost faults = { λ s. s.faults };

    fn write(&mut self, piece: &[u8]) -> Result<usize, WriteAnswer>
        requires { 0 < length piece.now }
        ensures some { IfOk result (λ n. 1 ≤ n) }
        ensures bound { IfOk result (λ n. n ≤ length piece.now) }
        ensures takes { IfOk result (λ n. self.new.bytes ≡ self.old.bytes ++ take n piece.now) }
        ensures takes_nothing { OnErr result (self.new.bytes ≡ self.old.bytes) }
        ensures failed { result ≡ Err WriteAnswer.Failed → Rose self.old.faults self.new.faults }
        ensures faults_kept { self.old.faults ≤ self.new.faults }
        ensures faults_last { self.old.faults ≡ 2 ^ 64 - 1 → self.new.faults ≡ 2 ^ 64 - 1 }

        // The answer and what is left of the sink, exactly. Where memory runs out, the call took nothing and is counted.
        ensures answer { WriteGives (write_of self.old piece.now) result }
        ensures after { self.new ≡ after_write self.old piece.now result }
    {
        self.calls = self.calls.saturating_add(1);
        if self.failing.contains(&self.calls) {
            self.faults = self.faults.saturating_add(1);
            return Err(WriteAnswer::Failed);
        }
        let count = piece.len().min(self.chunk);
        match self.bytes.extend_from_slice(&piece[..count]) {
            Ok(()) => Ok(count),
            Err(_) => Err(WriteAnswer::Memory),
        }
    }
}

#[cfg(test)]
mod tests {
    use super::*;
    use crate::sink::{Unwritten, write_all};
    use std::test::Fail;

    #[test]
    fn a_text_in_chunks(rt: HostRuntime) -> Result<(), Fail> {
        let mut sink = MemSink::make(rt.alloc(), 3, Vec::new(rt.alloc()));
        assert!(rt; write_all(&mut sink, b"moesi states").is_ok());
        assert!(rt; write_all(&mut sink, b"").is_ok());
        assert!(rt; sink.bytes() == b"moesi states".as_slice());
        assert_eq!(rt; sink.calls, 4);
        Ok(())
    }

    #[test]
    fn a_failing_write(rt: HostRuntime) -> Result<(), Fail> {
        let mut sink = MemSink::make(rt.alloc(), 3, vec![in rt.alloc(); 2]?);
        let cause = WriteAnswer::Failed;
        assert!(rt; write_all(&mut sink, b"moesi") == Err(Unwritten { cause, written: 3 }));
        assert!(rt; sink.bytes() == b"moe".as_slice());
        assert_eq!(rt; sink.faults, 1);
        Ok(())
    }
}

ghost use Rattle.std.specs.Prelude.{◌≡◌, ◌≤◌, ◌<◌, ◌-◌, ◌^◌, ℕ, List, [], ◌++◌, length, take, IfOk, IfErr, OnOk, OnErr};
ghost use Rattle.bk_outer.specs.Counts.{Rose};

/// Why a write took no bytes.
#[derive(Clone, Copy, Debug, PartialEq, Eq)]
pub enum WriteAnswer {
    /// The write failed. It counts as a fault.
    Failed,
    /// Memory ran out.
    Memory,
}

/// What output is written to.
pub trait Sink {
    /// The bytes that its writes have taken, in order.
    ghost taken: { Self → List ℕ };

    /// How many writes failed, up to the last value of a u64.
    ghost faults: { Self → ℕ };

    /// Takes the first bytes of the piece, at least one of them, and answers how many.
    fn write(&mut self, piece: &[u8]) -> Result<usize, WriteAnswer>
        requires { 0 < length piece.now }
        ensures some { IfOk result (λ n. 1 ≤ n) }
        ensures bound { IfOk result (λ n. n ≤ length piece.now) }
        ensures takes { IfOk result (λ n. taken self.new ≡ taken self.old ++ take n piece.now) }
        ensures takes_nothing { OnErr result (taken self.new ≡ taken self.old) }
        ensures failed { result ≡ Err WriteAnswer.Failed → Rose (faults self.old) (faults self.new) }
        ensures faults_kept { faults self.old ≤ faults self.new }
        ensures faults_last { faults self.old ≡ 2 ^ 64 - 1 → faults self.new ≡ 2 ^ 64 - 1 };
}

/// What kept a text from being written whole.
#[derive(Clone, Copy, Debug, PartialEq, Eq)]
pub struct Unwritten {
    /// Why the last write took no bytes.
    pub cause: WriteAnswer,
    /// How many bytes of the text were taken before it.
    pub written: usize,
}

/// Hands the whole text to the sink: at first all of it, and after each Ok the rest. An empty text makes no write.
pub fn write_all<K: Sink>(sink: &mut K, text: &[u8]) -> Result<(), Unwritten>
    ensures ok { OnOk result (K.taken sink.new ≡ K.taken sink.old ++ text.now) }
    ensures part { IfErr result (λ u. u.written < length text.now) }
    ensures err { IfErr result (λ u. K.taken sink.new ≡ K.taken sink.old ++ take u.written text.now) }
    ensures failed { IfErr result (λ u. u.cause ≡ WriteAnswer.Failed → Rose (K.faults sink.old) (K.faults sink.new)) }
    ensures faults_kept { K.faults sink.old ≤ K.faults sink.new }
    ensures faults_last { K.faults sink.old ≡ 2 ^ 64 - 1 → K.faults sink.new ≡ 2 ^ 64 - 1 }
    ensures empty { text.now ≡ [] → sink.new ≡ sink.old }
{
    let mut written = 0;
    while written < text.len() {
        match sink.write(&text[written..]) {
            Ok(count) => written += count,
            Err(cause) => return Err(Unwritten { cause, written }),
        }
    }
    Ok(())
}

//! What was read and what was written, for contracts alone. A log takes no memory, and its methods do nothing at run time. What a
//! shelf or a sink notes is what its caller was answered: its trait's clauses say so, and none but these methods can change a log.
ghost use Rattle.std.specs.Prelude.{◌≡◌, ℕ, List, [], ◌∷◌, ◌++◌};
ghost use Rattle.std.specs.Borrow.{ftrue};
ghost use Rattle.bk_outer.specs.Reads.{Reads};

use std::marker::{Model, PhantomData};

/// The name and the bytes of each file that was read, in order.
#[derive(Drop)]
pub struct ReadLog {
    marker: PhantomData<u8>,
    pub ghost reads: { Reads },
}

impl Model for ReadLog {
    ghost also_owns = { λ _. ftrue };
}

impl ReadLog {
    /// No file so far.
    pub(crate) fn new() -> ReadLog
        ensures { result.reads ≡ [] }
    {
        ReadLog {
            marker: PhantomData,
        }
    }

    /// Notes one more file.
    pub(crate) fn note(&mut self, _name: &[u8], _bytes: &[u8])
        ensures { self.new.reads ≡ self.old.reads ++ (_name.now, _bytes.now) ∷ [] }
    {}
}

/// The bytes that were written, in order.
#[derive(Drop)]
pub struct WriteLog {
    marker: PhantomData<u8>,
    pub ghost bytes: { List ℕ },
}

impl Model for WriteLog {
    ghost also_owns = { λ _. ftrue };
}

impl WriteLog {
    /// No byte so far.
    pub(crate) fn new() -> WriteLog
        ensures { result.bytes ≡ [] }
    {
        WriteLog {
            marker: PhantomData,
        }
    }

    /// Notes the next bytes.
    pub(crate) fn note(&mut self, _piece: &[u8])
        ensures { self.new.bytes ≡ self.old.bytes ++ _piece.now }
    {}
}

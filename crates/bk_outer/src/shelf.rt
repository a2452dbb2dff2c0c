ghost use Rattle.std.specs.Prelude.{◌≡◌, ◌≤◌, ◌<◌, ◌-◌, ◌^◌, ℕ, List, [], ◌∷◌, ◌++◌, Option, Some, None, length, IfOk, OnErr, IfSome, IsSomeAnd};
ghost use Rattle.bk_outer.specs.Counts.{Rose};
ghost use Rattle.bk_outer.specs.Reads.{Reads};

use std::alloc::Global;

/// The most bytes that a file may have: 16 MiB.
pub const FILE_LIMIT: usize = 16_777_216;

/// Why a read gave no bytes.
#[derive(Clone, Copy, Debug, PartialEq, Eq)]
pub enum ReadAnswer {
    /// There is no file under the name. It counts as a miss.
    Absent,
    /// The read failed. It counts as a fault.
    Failed,
    /// The file has more than `FILE_LIMIT` bytes. It counts as a miss.
    TooLong,
    /// Memory ran out.
    Memory,
}

/// What files are read from, by name.
pub trait Shelf {
    /// What it has under each name, where it tells.
    ghost files: { Self → Option (List ℕ → Option (List ℕ)) };

    /// What its reads gave: the name and the bytes of each that answered Ok, in order.
    ghost reads: { Self → Reads };

    /// How many reads failed, up to the last value of a u64.
    ghost faults: { Self → ℕ };

    /// How many reads found no file, or one that is too long, up to the last value of a u64.
    ghost misses: { Self → ℕ };

    /// The bytes of the file with this name, at most `FILE_LIMIT` of them.
    fn read(&mut self, alloc: Global, name: &str) -> Result<Vec<u8>, ReadAnswer>
        ensures bytes { IfOk result (λ v. IfSome (files self.old) (λ at. at name.now ≡ Some v.items)) }
        ensures noted { IfOk result (λ v. reads self.new ≡ reads self.old ++ (name.now, v.items) ∷ []) }
        ensures unnoted { OnErr result (reads self.new ≡ reads self.old) }
        ensures fits { IfOk result (λ v. length v.items ≤ FILE_LIMIT) }

        // When each error comes. Memory may run out at any time.
        ensures failed { result ≡ Err ReadAnswer.Failed → Rose (faults self.old) (faults self.new) }
        ensures missed { result ≡ Err ReadAnswer.Absent → Rose (misses self.old) (misses self.new) }
        ensures absent { result ≡ Err ReadAnswer.Absent → IfSome (files self.old) (λ at. at name.now ≡ None) }
        ensures passed_over { result ≡ Err ReadAnswer.TooLong → Rose (misses self.old) (misses self.new) }
        ensures too_long { result ≡ Err ReadAnswer.TooLong
            → IfSome (files self.old) (λ at. IsSomeAnd (at name.now) (λ bytes. FILE_LIMIT < length bytes)) }

        // What stays.
        ensures same_files { files self.new ≡ files self.old }
        ensures faults_kept { faults self.old ≤ faults self.new }
        ensures misses_kept { misses self.old ≤ misses self.new }
        ensures faults_last { faults self.old ≡ 2 ^ 64 - 1 → faults self.new ≡ 2 ^ 64 - 1 }
        ensures misses_last { misses self.old ≡ 2 ^ 64 - 1 → misses self.new ≡ 2 ^ 64 - 1 };
}

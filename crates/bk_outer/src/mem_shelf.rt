ghost use Rattle.std.specs.Prelude.{◌≡◌, ◌≤◌, ◌<◌, ◌-◌, ◌^◌, Some, None, [], ◌∷◌, ◌++◌, length, IfOk, OnErr, IfSome, IsSomeAnd, MatchOption};
ghost use Rattle.bk_outer.specs.Counts.{Rose, one_more};
ghost use Rattle.bk_outer.specs.Shelf.{file_in, answer_of, ReadGives};

use crate::logs::ReadLog;
use crate::shelf::{FILE_LIMIT, ReadAnswer, Shelf};
use std::alloc::Global;
use std::marker::Model;

/// Files in memory, for tests and examples, with reads that fail where they are told to.
#[derive(Drop)]
pub struct MemShelf {
    files: Vec<(String, Vec<u8>)>,
    failing: Vec<u64>,
    log: ReadLog,
    calls: u64,
    faults: u64,
    misses: u64,
}

impl Model for MemShelf {
    ghost use Rattle.bk_outer.specs.Shelf.{MemoryShelf};

    ghost Value = { MemoryShelf };

    ghost view = { λ s. record {
      files = s.files.items;
      failing = s.failing.items;
      reads = s.log.reads;
      calls = s.calls;
      faults = s.faults;
      misses = s.misses;
    } };
}

/// The bytes of the first file with this name.
fn find_file<'a>(files: &'a [(String, Vec<u8>)], name: &str) -> Option<&'a [u8]>
    ensures { MatchOption result (file_in files.now name.now ≡ None) (λ bytes. file_in files.now name.now ≡ Some bytes.now) }
{
    for file in files {
        if file.0.as_str() == name {
            return Some(file.1.as_slice());
        }
    }
    None
}

/// A copy of the bytes of the first file with this name.
fn copy_file(alloc: Global, files: &[(String, Vec<u8>)], name: &str) -> Result<Vec<u8>, ReadAnswer>
    ensures { ReadGives (answer_of (file_in files.now name.now)) result }
{
    match find_file(files, name) {
        None => Err(ReadAnswer::Absent),
        Some(bytes) => {
            if bytes.len() > FILE_LIMIT {
                return Err(ReadAnswer::TooLong);
            }
            bytes.to_vec(alloc).map_err(|_| ReadAnswer::Memory)
        }
    }
}

impl MemShelf {
    ghost use Rattle.bk_outer.specs.Shelf.{MemoryShelf};

    /// A shelf with these files, of which the first counts where two have one name.
    /// The reads whose number, counted from 1, is among `failing` fail.
    pub fn make(_alloc: Global, files: Vec<(String, Vec<u8>)>, failing: Vec<u64>) -> MemShelf
        ensures { result ≡ record { files = files.items; failing = failing.items; reads = []; calls = 0; faults = 0; misses = 0 } }
    {
        MemShelf {
            files,
            failing,
            log: ReadLog::new(),
            calls: 0,
            faults: 0,
            misses: 0,
        }
    }
}

impl Shelf for MemShelf {
    ghost use Rattle.bk_outer.specs.Shelf.{read_of, after_read};

    ghost files = { λ s. Some (file_in s.files) };

    ghost reads = { λ s. s.reads };

    ghost faults = { λ s. s.faults };

    ghost misses = { λ s. s.misses };

    fn read(&mut self, alloc: Global, name: &str) -> Result<Vec<u8>, ReadAnswer>
        ensures bytes { IfOk result (λ v. file_in self.old.files name.now ≡ Some v.items) }
        ensures noted { IfOk result (λ v. self.new.reads ≡ self.old.reads ++ (name.now, v.items) ∷ []) }
        ensures unnoted { OnErr result (self.new.reads ≡ self.old.reads) }
        ensures fits { IfOk result (λ v. length v.items ≤ FILE_LIMIT) }
        ensures failed { result ≡ Err ReadAnswer.Failed → Rose self.old.faults self.new.faults }
        ensures missed { result ≡ Err ReadAnswer.Absent → Rose self.old.misses self.new.misses }
        ensures absent { result ≡ Err ReadAnswer.Absent → file_in self.old.files name.now ≡ None }
        ensures passed_over { result ≡ Err ReadAnswer.TooLong → Rose self.old.misses self.new.misses }
        ensures too_long { result ≡ Err ReadAnswer.TooLong
            → IsSomeAnd (file_in self.old.files name.now) (λ bytes. FILE_LIMIT < length bytes) }
        ensures same_files { self.new.files ≡ self.old.files }
        ensures faults_kept { self.old.faults ≤ self.new.faults }
        ensures misses_kept { self.old.misses ≤ self.new.misses }
        ensures faults_last { self.old.faults ≡ 2 ^ 64 - 1 → self.new.faults ≡ 2 ^ 64 - 1 }
        ensures misses_last { self.old.misses ≡ 2 ^ 64 - 1 → self.new.misses ≡ 2 ^ 64 - 1 }

        // The answer and what is left of the shelf, exactly. Where memory runs out, the call gave nothing and is counted.
        ensures answer { ReadGives (read_of self.old name.now) result }
        ensures after { self.new ≡ after_read self.old name.now result }
    {
        self.calls = self.calls.saturating_add(1);
        if self.failing.contains(&self.calls) {
            self.faults = self.faults.saturating_add(1);
            return Err(ReadAnswer::Failed);
        }
        let answer = copy_file(alloc, self.files.as_slice(), name);
        match &answer {
            Ok(bytes) => self.log.note(name.as_bytes(), bytes.as_slice()),
            Err(ReadAnswer::Absent | ReadAnswer::TooLong) => {
                self.misses = self.misses.saturating_add(1);
            }
            Err(_) => {}
        }
        answer
    }
}

#[cfg(test)]
mod tests {
    use super::*;
    use std::test::Fail;

    fn file(alloc: Global, name: &str, bytes: &[u8]) -> Result<(String, Vec<u8>), Fail> {
        Ok((String::from_str(alloc, name)?, bytes.to_vec(alloc)?))
    }

    #[test]
    fn the_first_of_two_files_counts(rt: HostRuntime) -> Result<(), Fail> {
        let alloc = rt.alloc();
        let mut files = Vec::new(alloc);
        files.push(file(alloc, "a.txt", b"first")?)?;
        files.push(file(alloc, "a.txt", b"second")?)?;
        let mut shelf = MemShelf::make(alloc, files, vec![in alloc; 2]?);
        assert!(rt; shelf.read(alloc, "a.txt")?.as_slice() == b"first".as_slice());
        assert!(rt; shelf.read(alloc, "a.txt").err() == Some(ReadAnswer::Failed));
        assert!(rt; shelf.read(alloc, "b.txt").err() == Some(ReadAnswer::Absent));
        assert_eq!(rt; (shelf.calls, shelf.faults, shelf.misses), (3, 1, 1));
        Ok(())
    }

    #[test]
    fn one_byte_too_many(rt: HostRuntime) -> Result<(), Fail> {
        let alloc = rt.alloc();
        let mut files = Vec::new(alloc);
        let bytes = vec![in alloc; 0; FILE_LIMIT + 1]?;
        files.push((String::from_str(alloc, "long")?, bytes))?;
        let mut shelf = MemShelf::make(alloc, files, Vec::new(alloc));
        assert!(rt; shelf.read(alloc, "long").err() == Some(ReadAnswer::TooLong));
        assert_eq!(rt; (shelf.faults, shelf.misses), (0, 1));
        Ok(())
    }
}

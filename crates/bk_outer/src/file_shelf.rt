ghost use Rattle.std.specs.Prelude.{◌≡◌, ◌≢◌, ◌≤◌, ◌<◌, [], length, IfOk, IfSome};
ghost use Rattle.std.specs.IoError.{error_kind};
ghost use Rattle.bk_outer.specs.Shelf.{answer_of_open, answer_of_read};

use crate::logs::ReadLog;
use crate::shelf::{FILE_LIMIT, ReadAnswer, Shelf};
use std::alloc::Global;
use std::fs;
use std::io::{self, ErrorKind, Read};
use std::marker::Model;
use std::rt::Files;

/// The files of the system, by path. It tells what its reads gave, and nothing else of what the files have.
#[derive(Drop)]
pub struct FileShelf<'a, R> {
    rt: &'a R,
    log: ReadLog,
    faults: u64,
    misses: u64,
}

impl<'a, R> Model for FileShelf<'a, R> {
    ghost use Rattle.bk_outer.specs.Shelf.{SystemShelf};

    ghost Value = { SystemShelf };

    ghost view = { λ s. record { reads = s.log.reads; faults = s.faults; misses = s.misses } };
}

/// What it means that a file could not be opened: there is none, or no memory, or it is a fault.
fn answer_of_open(error: &io::Error) -> ReadAnswer
    ensures { result ≡ answer_of_open (error_kind error.now) }
{
    match error.kind() {
        ErrorKind::NotFound => ReadAnswer::Absent,
        ErrorKind::OutOfMemory => ReadAnswer::Memory,
        _ => ReadAnswer::Failed,
    }
}

/// What it means that an open file could not be read to its end: no memory, or a fault.
fn answer_of_read(error: &io::Error) -> ReadAnswer
    ensures { result ≡ answer_of_read (error_kind error.now) }
{
    match error.kind() {
        ErrorKind::OutOfMemory => ReadAnswer::Memory,
        _ => ReadAnswer::Failed,
    }
}

/// What is left of the file, of which at most one byte more than `FILE_LIMIT` is read.
fn read_rest<F: Read + Drop>(alloc: Global, file: F) -> Result<Vec<u8>, ReadAnswer>
    ensures bytes { IfOk result (λ v. IfSome (F.remaining file) (λ rest. v.items ≡ rest)) }
    ensures fits { IfOk result (λ v. length v.items ≤ FILE_LIMIT) }
    ensures too_long { result ≡ Err ReadAnswer.TooLong → IfSome (F.remaining file) (λ rest. FILE_LIMIT < length rest) }
    ensures present { result ≢ Err ReadAnswer.Absent }
{
    let mut bytes = Vec::new(alloc);
    let mut front = file.take(FILE_LIMIT as u64 + 1);
    match front.read_to_end(&mut bytes) {
        Ok(_) if bytes.len() > FILE_LIMIT => Err(ReadAnswer::TooLong),
        Ok(_) => Ok(bytes),
        Err(e) => Err(answer_of_read(&e)),
    }
}

/// The bytes of the file at this path.
fn read_file<R: Files>(rt: &R, alloc: Global, name: &str) -> Result<Vec<u8>, ReadAnswer>
    ensures { IfOk result (λ v. length v.items ≤ FILE_LIMIT) }
{
    let file = fs::open(rt, name).map_err(|e| answer_of_open(&e))?;
    read_rest(alloc, file)
}

impl<'a, R: Files> FileShelf<'a, R> {
    ghost use Rattle.bk_outer.specs.Shelf.{SystemShelf, noted};

    /// The files of this runtime, with no read so far.
    pub fn make(rt: &'a R) -> FileShelf<'a, R>
        ensures { result ≡ record { reads = []; faults = 0; misses = 0 } }
    {
        FileShelf {
            rt,
            log: ReadLog::new(),
            faults: 0,
            misses: 0,
        }
    }

    /// Notes what a read of the name gave, or counts a fault or a miss, where its answer is one.
    fn note(&mut self, name: &str, answer: &Result<Vec<u8>, ReadAnswer>)
        ensures after { self.new ≡ noted self.old name.now answer.now }
        ensures faults_kept { self.old.faults ≤ self.new.faults }
        ensures misses_kept { self.old.misses ≤ self.new.misses }
    {
        match answer {
            Ok(bytes) => self.log.note(name.as_bytes(), bytes.as_slice()),
            Err(ReadAnswer::Failed) => self.faults = self.faults.saturating_add(1),
            Err(ReadAnswer::Absent | ReadAnswer::TooLong) => {
                self.misses = self.misses.saturating_add(1)
            }
            Err(ReadAnswer::Memory) => {}
        }
    }
}

impl<'a, R: Files> Shelf for FileShelf<'a, R> {
    ghost use Rattle.std.specs.Prelude.{None};

    ghost files = { λ _. None };

    ghost reads = { λ s. s.reads };

    ghost faults = { λ s. s.faults };

    ghost misses = { λ s. s.misses };

    /// Only a path at which nothing is found is absent. A directory, a path through a file,
    /// and a read that fails midway are failures.
    fn read(&mut self, alloc: Global, name: &str) -> Result<Vec<u8>, ReadAnswer> {
        let answer = read_file(self.rt, alloc, name);
        self.note(name, &answer);
        answer
    }
}

#[cfg(test)]
mod tests {
    use super::*;
    use std::test::Fail;

    #[test]
    fn a_file_and_what_is_none(rt: HostRuntime) -> Result<(), Fail> {
        let alloc = rt.alloc();
        fs::write(&rt, "shelf_test.txt", "moesi")?;
        let mut shelf = FileShelf::make(&rt);
        assert!(rt; shelf.read(alloc, "shelf_test.txt")?.as_slice() == b"moesi".as_slice());
        assert!(rt; shelf.read(alloc, "shelf_test.none").err() == Some(ReadAnswer::Absent));
        assert_eq!(rt; (shelf.faults, shelf.misses), (0, 1));
        assert!(rt; shelf.read(alloc, ".").err() == Some(ReadAnswer::Failed));
        assert!(rt; shelf.read(alloc, "shelf_test.txt/a").err() == Some(ReadAnswer::Failed));
        assert_eq!(rt; (shelf.faults, shelf.misses), (2, 1));
        fs::remove_file(&rt, "shelf_test.txt")?;
        Ok(())
    }
}

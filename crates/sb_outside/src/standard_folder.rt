//! A folder over std's files, which lists the loads that failed.

ghost use Rattle.std.specs.Prelude.{◌≡◌, ◌++◌, [], ℕ, List, take, length, OnErr, OnOk, IfSome};

use crate::failed_loads::FailedLoads;
use crate::folder::{Folder, FolderFault};
use std::alloc::Global;
use std::fs;
use std::io::{self, ErrorKind, Read};
use std::marker::Model;
use std::rt::Files;

/// A folder over the files of a run-time object.
///
/// A name is a path, a relative one from the folder in which the program was started. Each error of
/// opening and of reading is a failure, but being out of memory, which is answered `Memory`.
#[derive(Drop)]
pub struct StdFolder<R> {
    alloc: Global,
    rt: R,
    failed: FailedLoads,
}

impl<R> Model for StdFolder<R> {
    ghost use Rattle.sb_outside.specs.Counts.{CountedFiles};

    ghost Value = { CountedFiles R };

    ghost view = { λ f. record { files = f.rt; failed = f.failed } };
}

impl<R: Files> StdFolder<R> {
    pub fn new(alloc: Global, rt: R) -> StdFolder<R>
        ensures { result ≡ record { files = rt; failed = [] } }
    {
        StdFolder {
            alloc,
            rt,
            failed: FailedLoads::new(alloc),
        }
    }

    /// How many loads have failed. Being out of memory is not counted.
    pub fn faults(&self) -> usize
        ensures { result ≡ length self.now.failed }
    {
        self.failed.count()
    }
}

/// Appends the first bytes of a reader, at most so many, or leaves the list as it was.
pub(crate) fn append_some<R: Read + Drop>(
    reader: R,
    most: usize,
    into: &mut Vec<u8>,
) -> io::Result<()>
    ensures ok { OnOk result ((bytes : List ℕ) × (into.new.items ≡ into.old.items ++ take most bytes)) }
    ensures err { OnErr result (into.new.items ≡ into.old.items) }
    // All of them, if the reader's bytes are known.
    ensures known { OnOk result (IfSome (R.remaining reader)
        (λ bytes. into.new.items ≡ into.old.items ++ take most bytes)) }
{
    let start = into.len();
    match reader.take(most as u64).read_to_end(into) {
        Ok(count) => {
            // `take` lets no more than `most` pass, which std says only if the reader's bytes are known.
            into.truncate(start + count.min(most));
            Ok(())
        }
        Err(error) => {
            into.truncate(start);
            Err(error)
        }
    }
}

impl<R: Files> Folder for StdFolder<R> {
    ghost use Rattle.std.specs.Prelude.{None};

    ghost files = { λ _. None };

    ghost failed = { λ f. f.failed };

    fn load(&mut self, name: &str, most: usize, into: &mut Vec<u8>) -> Result<(), FolderFault> {
        let loaded = match fs::open(&self.rt, name) {
            Ok(file) => append_some(file, most, into),
            Err(error) => Err(error),
        };
        let Err(error) = loaded else {
            return Ok(());
        };
        if error.kind() == ErrorKind::OutOfMemory {
            return Err(FolderFault::Memory);
        }
        Err(self.failed.add(self.alloc, name, most))
    }
}

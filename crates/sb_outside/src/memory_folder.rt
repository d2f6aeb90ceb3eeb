//! A folder in memory, which fails when told to.

ghost use Rattle.std.specs.Prelude.{◌≡◌, ◌≢◌, ◌++◌, take, length, IsErr, IsTrue, MatchResult, option_map};
ghost use Rattle.sb_outside.specs.Folders.{ListsFailure, Load, Loads};
ghost use Rattle.sb_outside.specs.MemoryFolders.{files_in, file_named, first_loading, load_fails, after_load};

use crate::failed_loads::FailedLoads;
use crate::folder::{Folder, FolderFault};
use std::alloc::Global;
use std::collections::BTreeMap;
use std::marker::Model;

/// A folder in memory.
#[derive(Drop)]
pub struct MemFolder {
    alloc: Global,
    files: BTreeMap<String, Vec<u8>>,
    failing: Vec<u64>,
    calls: u64,
    failed: FailedLoads,
}

impl Model for MemFolder {
    ghost use Rattle.sb_outside.specs.MemoryFolders.{MemLoading, files_in};

    ghost Value = { MemLoading };

    ghost view = { λ f. record {
      files = files_in f.files;
      failing = f.failing.items;
      calls = f.calls;
      failed = f.failed;
    } };
}

impl MemFolder {
    /// A folder of these files, by name. Its loads are counted from 1; those whose numbers are in
    /// `failing` fail, and so does each load of a name that is not there.
    pub fn new(alloc: Global, files: BTreeMap<String, Vec<u8>>, failing: Vec<u64>) -> MemFolder
        ensures { result ≡ first_loading (files_in files) failing.items }
    {
        MemFolder {
            alloc,
            files,
            failing,
            calls: 0,
            failed: FailedLoads::new(alloc),
        }
    }

    /// How many loads have failed. Being out of memory is not counted.
    pub fn faults(&self) -> usize
        ensures { result ≡ length self.now.failed }
    {
        self.failed.count()
    }
}

impl Folder for MemFolder {
    ghost use Rattle.std.specs.Prelude.{Some};
    ghost use Rattle.sb_outside.specs.MemoryFolders.{file_named};

    ghost files = { λ f. Some (file_named f.files) };

    ghost failed = { λ f. f.failed };

    fn load(&mut self, name: &str, most: usize, into: &mut Vec<u8>) -> Result<(), FolderFault>
        ensures bytes { Loads (Some (file_named self.old.files)) (record { name = name.now; most = most })
            into.old.items into.new.items result }
        ensures same { Some (file_named self.new.files) ≡ Some (file_named self.old.files) }
        ensures failure { ListsFailure (record { name = name.now; most = most })
            self.old.failed self.new.failed result }
        ensures failed { result ≡ Err FolderFault.Failed → IsTrue (load_fails self.old name.now) }
        ensures fails { IsTrue (load_fails self.old name.now) → IsErr result }
        ensures after { self.new ≡ after_load self.old self.new.failed }
    {
        self.calls = self.calls.saturating_add(1);
        if !self.failing.contains(&self.calls) {
            if let Some(bytes) = find(&self.files, name) {
                return append_first(bytes, most, into);
            }
        }
        Err(self.failed.add(self.alloc, name, most))
    }
}

/// The bytes of the file of this name, if there is one.
fn find<'a>(files: &'a BTreeMap<String, Vec<u8>>, name: &str) -> Option<&'a [u8]>
    ensures { option_map (λ bytes. bytes.now) result ≡ file_named (files_in files.now) name.now }
{
    match files.get(name) {
        Some(bytes) => Some(bytes.as_slice()),
        None => None,
    }
}

/// Appends the first bytes, at most so many.
fn append_first(bytes: &[u8], most: usize, into: &mut Vec<u8>) -> Result<(), FolderFault>
    ensures bytes { MatchResult result
        (λ _. into.new.items ≡ into.old.items ++ take most bytes.now)
        (λ _. into.new.items ≡ into.old.items) }
    ensures cause { result ≢ Err FolderFault.Failed }
{
    match into.extend_from_slice(&bytes[..most.min(bytes.len())]) {
        Ok(()) => Ok(()),
        Err(_) => Err(FolderFault::Memory),
    }
}

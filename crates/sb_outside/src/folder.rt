//! Folders: where files are found by name.

ghost use Rattle.std.specs.Prelude.{◌≡◌, List};
ghost use Rattle.std.specs.declared.option.Option.{Option};
ghost use Rattle.sb_outside.specs.Folders.{Files, ListsFailure, Load, Loads};

use std::error::Error;
use std::fmt;

/// Why a file was not loaded.
#[derive(Clone, Copy, Debug, PartialEq, Eq, Drop)]
pub enum FolderFault {
    /// There is no such file, or it could not be read, and the folder has listed the load.
    Failed,
    /// There was not enough memory. No folder lists this.
    Memory,
}

impl fmt::Display for FolderFault {
    fn fmt<W: fmt::Write>(&self, f: &mut fmt::Formatter<W>) -> fmt::Result {
        f.write_str(match self {
            FolderFault::Failed => "a file could not be loaded",
            FolderFault::Memory => "out of memory",
        })
    }
}

impl Error for FolderFault {}

/// Where files are found by name.
///
/// `files` are the folder's files, if it is known which they are. `failed` lists the loads that failed, oldest first:
/// the name of each, and how much of the file was asked for. So whoever answers that a load failed can't blame another
/// file, and whoever may only ask for some files can ask for no other, since any load may fail.
pub trait Folder {
    ghost files: { Self → Option Files };

    ghost failed: { Self → List Load };

    /// Appends the first `most` bytes of the named file to `into`, or the whole file if it is shorter.
    ///
    /// # Errors
    ///
    /// `Failed` if the file could not be loaded: then the load, and nothing else, is put behind those that failed. A
    /// name that is not there is a failure. After a refusal `into` is as before.
    fn load(&mut self, name: &str, most: usize, into: &mut Vec<u8>) -> Result<(), FolderFault>
        ensures bytes { Loads (files self.old) (record { name = name.now; most = most })
            into.old.items into.new.items result }
        ensures same { files self.new ≡ files self.old }
        ensures failure { ListsFailure (record { name = name.now; most = most })
            (failed self.old) (failed self.new) result };
}

impl<F: Folder> Folder for &mut F {
    ghost files = { λ f. F.files f.now };

    ghost failed = { λ f. F.failed f.now };

    fn load(&mut self, name: &str, most: usize, into: &mut Vec<u8>) -> Result<(), FolderFault> {
        Folder::load(&mut **self, name, most, into)
    }
}

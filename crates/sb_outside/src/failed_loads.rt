//! The loads of a folder that failed.

ghost use Rattle.std.specs.Prelude.{◌≡◌, [], Err, ℕ, length};
ghost use Rattle.sb_outside.specs.Folders.{ListsFailure};

use crate::folder::FolderFault;
use std::alloc::Global;
use std::marker::Model;

/// A load that failed.
#[derive(Drop)]
struct FailedLoad {
    name: String,
    most: usize,
}

/// The loads that failed, oldest first.
#[derive(Drop)]
pub struct FailedLoads {
    loads: Vec<FailedLoad>,
}

impl Model for FailedLoads {
    ghost use Rattle.std.specs.Prelude.{List, map, string_bytes};
    ghost use Rattle.sb_outside.specs.Folders.{Load};

    ghost Value = { List Load };

    ghost view = { λ f. map (λ l. record { name = string_bytes l.name; most = l.most }) f.loads.items };
}

impl FailedLoads {
    pub fn new(alloc: Global) -> FailedLoads
        ensures { result ≡ [] }
    {
        FailedLoads {
            loads: Vec::new(alloc),
        }
    }

    /// How many loads have failed.
    pub fn count(&self) -> usize
        ensures { result ≡ length self.now }
    {
        self.loads.len()
    }

    /// The answer to a load that fails, which is listed. If there is no memory to list it, the answer is `Memory`.
    pub fn add(&mut self, alloc: Global, name: &str, most: usize) -> FolderFault
        ensures { ListsFailure {T = ℕ} (record { name = name.now; most = most }) self.old self.new (Err result) }
    {
        let Ok(name) = String::from_str(alloc, name) else {
            return FolderFault::Memory;
        };
        match self.loads.push(FailedLoad { name, most }) {
            Ok(()) => FolderFault::Failed,
            Err(_) => FolderFault::Memory,
        }
    }
}

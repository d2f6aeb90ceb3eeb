//! How a run ended otherwise than it has to, or could not be tried.

use std::alloc::{AllocError, AllocFailed};
use std::io;

/// Why a run is not as it has to be.
#[derive(Debug, Drop)]
pub enum Difference {
    /// What it has left is not what it has to leave: the words of the run, and both.
    Found(String),
    /// There was not enough memory to try it.
    Memory,
    /// The file of a tap could not be written or read.
    File,
}

impl From<AllocError> for Difference {
    fn from(_error: AllocError) -> Difference {
        Difference::Memory
    }
}

impl<T: Drop> From<AllocFailed<T>> for Difference {
    fn from(_error: AllocFailed<T>) -> Difference {
        Difference::Memory
    }
}

impl From<io::Error> for Difference {
    fn from(_error: io::Error) -> Difference {
        Difference::File
    }
}

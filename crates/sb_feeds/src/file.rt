//! A file in memory as a source of bytes, which never fails.

ghost use Rattle.std.specs.Prelude.{◌≡◌, ◌≤◌, length};
ghost use Rattle.std.specs.Io.{ReadsAtMost};
ghost use Rattle.std.specs.Io.KnownBytes.{ReadConsumes};
ghost use Rattle.sb_feed.specs.outside.Sources.{SourceCause};

use sb_feed::{Source, SourceFault};
use std::marker::Model;

/// The bytes of a file, of which some were read. Contracts see those that are left.
#[derive(Drop)]
pub(crate) struct FileBytes {
    bytes: Vec<u8>,
    given: usize,
}

impl Model for FileBytes {
    ghost use Rattle.std.specs.Prelude.{◌≤◌, ℕ, List, drop, vec_len};

    ghost Value = { List ℕ };

    ghost view = { λ s. drop s.given s.bytes.items };

    ghost invariant = { λ s. s.given ≤ vec_len s.bytes };
}

impl FileBytes {
    pub(crate) fn new(bytes: Vec<u8>) -> FileBytes
        ensures { result ≡ bytes.items }
    {
        FileBytes { bytes, given: 0 }
    }
}

impl Source for FileBytes {
    ghost use Rattle.std.specs.Prelude.{Some};

    ghost left = { λ s. Some s };

    ghost faults = { λ _. 0 };

    fn read(&mut self, buf: &mut [u8]) -> Result<usize, SourceFault> {
        let left = &self.bytes[self.given..];
        let count = buf.len().min(left.len());
        buf[..count].copy_from_slice(&left[..count]);
        self.given += count;
        Ok(count)
    }
}

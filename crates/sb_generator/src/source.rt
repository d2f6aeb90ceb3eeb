//! The source of the generated input.

ghost use Rattle.std.specs.Prelude.{◌≡◌, ◌≤◌, ◌<◌, ◌++◌, [], take, length};
ghost use Rattle.std.specs.Io.{ReadsAtMost};
ghost use Rattle.std.specs.Io.KnownBytes.{ReadConsumes};
ghost use Rattle.sb_outside.specs.Sources.{SourceCause};
ghost use Rattle.sb_generator.specs.declared.pattern.TheConstants.{MAX_RECORDS};
ghost use Rattle.sb_generator.specs.Generated.{generated_text};

use crate::held::Held;
use sb_outside::{Source, SourceFault};
use std::marker::Model;

/// Gives the text of the generated input. It never fails, and takes no memory of an allocator.
#[derive(Drop)]
pub struct GenSource {
    held: Held,
    next: u64,
    records: u64,
}

impl Model for GenSource {
    ghost use Rattle.std.specs.Prelude.{ℕ, List, ◌++◌, ◌≤◌};
    ghost use Rattle.sb_generator.specs.declared.pattern.TheConstants.{MAX_RECORDS};
    ghost use Rattle.sb_generator.specs.Rests.{text_from};

    ghost Value = { List ℕ };

    ghost view = { λ s. s.held ++ text_from s.next s.records };

    ghost invariant = { λ s. (s.next ≤ s.records) × (s.records ≤ MAX_RECORDS) };
}

impl GenSource {
    /// The source of an input of so many records, 1 to [`MAX_RECORDS`](crate::MAX_RECORDS), before the first read.
    pub fn new(records: u64) -> GenSource
        requires some { 1 ≤ records }
        requires most { records ≤ MAX_RECORDS }
        ensures { result ≡ generated_text records }
    {
        GenSource {
            held: Held::new(),
            next: 0,
            records,
        }
    }

    /// Gives bytes of the lines of one record: none only at the end.
    fn give(&mut self, buf: &mut [u8]) -> usize
        requires { 0 < length buf.old }
        ensures bytes { self.old ≡ take result buf.new ++ self.new }
        ensures bound { result ≤ length buf.old }
        ensures end { result ≡ 0 → self.new ≡ [] }
    {
        if !self.held.is_empty() {
            return self.held.give(buf);
        }
        if self.next == self.records {
            return 0;
        }
        self.held.hold(self.next);
        self.next += 1;
        self.held.give(buf)
    }
}

impl Source for GenSource {
    ghost use Rattle.std.specs.Prelude.{Some};

    ghost left = { λ s. Some s };

    ghost faults = { λ _. 0 };

    fn read(&mut self, buf: &mut [u8]) -> Result<usize, SourceFault> {
        let mut filled = 0;
        'records: while filled < buf.len() {
            let count = self.give(&mut buf[filled..]);
            if count == 0 {
                return Ok(filled);
            }
            filled += count;
        }
        Ok(filled)
    }
}

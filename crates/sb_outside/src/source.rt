//! Sources: where bytes come from.

ghost use Rattle.std.specs.Prelude.{◌≡◌, ◌<◌, ◌∷◌, [], ℕ, List, Ok, Option, length, ⊤};
ghost use Rattle.std.specs.Io.{ReadsAtMost};
ghost use Rattle.std.specs.Io.KnownBytes.{Consumes, ReadConsumes};
ghost use Rattle.sb_outside.specs.Comments.{comment_lines};
ghost use Rattle.sb_outside.specs.Sources.{SourceCause};

use std::error::Error;
use std::fmt;

/// A read that failed. The source has counted it.
#[derive(Clone, Copy, Debug, PartialEq, Eq, Drop)]
pub struct SourceFault;

impl fmt::Display for SourceFault {
    fn fmt<W: fmt::Write>(&self, f: &mut fmt::Formatter<W>) -> fmt::Result {
        f.write_str("a read failed")
    }
}

impl Error for SourceFault {}

/// Where bytes come from.
///
/// `left` is the list of bytes that the source has still to give, where it is told; `faults` is how
/// many reads have failed. `has_ended` holds once it has answered that it is at its end. `name` is what
/// stays the same of a source whatever it gives: of one that is lent, which loan it is.
pub trait Source: Send {
    ghost left: { Self → Option (List ℕ) };

    ghost faults: { Self → ℕ };

    ghost has_ended: { Self → Type 0 } = { λ _. ⊤ };

    ghost name: { Self → List ℕ } = { λ _. [] };

    /// Reads bytes to the front of `buf`, and answers how many: 0 only at the end.
    ///
    /// # Errors
    ///
    /// A fault is answered only where the count of faults rose. No byte is lost by it: the next
    /// read may go on.
    fn read(&mut self, buf: &mut [u8]) -> Result<usize, SourceFault>
        requires { 0 < length buf.old }
        ensures bound { ReadsAtMost result buf.new }
        ensures bytes { ReadConsumes (left self.old) (left self.new) result buf.new }
        ensures cause { SourceCause (faults self.old) (faults self.new) result }
        ensures end { result ≡ Ok 0 → has_ended self.new }
        ensures name { name self.new ≡ name self.old };

    /// Takes off comments that stand at the front of what is left, lines `#`, where the source knows of them without
    /// reading, and answers how many. So a reader that counts lines need not read them. It is to call this before its
    /// first read. A source that knows of none answers 0, and gives its comments as any other bytes.
    fn take_comments(&mut self) -> u32
        ensures comments { Consumes (left self.old) (left self.new) (comment_lines result) }
        ensures unfailed { faults self.new ≡ faults self.old }
        ensures end { has_ended self.old → has_ended self.new }
        ensures name { name self.new ≡ name self.old }
    {
        0
    }
}

impl<S: Source> Source for &mut S {
    ghost left = { λ s. S.left s.now };

    ghost faults = { λ s. S.faults s.now };

    ghost has_ended = { λ s. S.has_ended s.now };

    ghost name = { λ s. s.ghost_name ∷ S.name s.now };

    fn read(&mut self, buf: &mut [u8]) -> Result<usize, SourceFault> {
        Source::read(&mut **self, buf)
    }

    fn take_comments(&mut self) -> u32 {
        Source::take_comments(&mut **self)
    }
}

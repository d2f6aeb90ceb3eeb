//! A source whose end is a fault: the input is only a first part, and more may follow.

ghost use Rattle.std.specs.Prelude.{◌≡◌, ◌⊎◌, ◌≤◌, ◌<◌, ◌∷◌, true, false, Ok, length, IfOk, OnErr, IsErr};
ghost use Rattle.std.specs.Io.{ReadsAtMost};
ghost use Rattle.std.specs.Io.KnownBytes.{ReadConsumes, IsAtEnd};
ghost use Rattle.sb_outside.specs.Sources.{SourceCause, Rose};
ghost use Rattle.sb_checkpoint.specs.Cut.{Ends, IsCutAt, faults_of};

use sb_outside::{Source, SourceFault};
use std::marker::Model;
use std::snapshot::Snapshot;

/// A source with the bytes of another one, where the end is a fault of its own. So what reads it takes the end for no
/// end of the input: a last line that has no line end is no line, and no watermark comes with the end.
///
/// It counts the faults of the other source, and one more from the end on. Once the end was answered as a fault, each
/// read answers that nothing is left, and does not ask the other source.
#[derive(Drop)]
pub struct Cutoff<S: Source> {
    source: S,
    begun: Snapshot<S>,
    ended: bool,
    has_failed: bool,
}

impl<S: Source> Model for Cutoff<S> {
    ghost use Rattle.sb_checkpoint.specs.Cut.{Cut, IsCutAt};

    ghost Value = { Cut S };

    ghost view = { λ s. record {
      source = s.source;
      begun = s.begun.value;
      ended = s.ended;
      has_failed = s.has_failed;
    } };

    ghost invariant = { λ s. IsCutAt (S.left s.source) (S.faults s.begun.value) (S.faults s.source)
        s.ended s.has_failed };
}

impl<S: Source> Cutoff<S> {
    pub fn new(source: S) -> Cutoff<S>
        ensures { result ≡ record { source = source; begun = source; ended = false; has_failed = false } }
    {
        let begun = Snapshot::of(&source);
        Cutoff {
            source,
            begun,
            ended: false,
            has_failed: false,
        }
    }

    /// Whether the end of the source was reached, and answered as a fault.
    pub fn ended(&self) -> bool
        ensures { result ≡ self.now.ended }
    {
        self.ended
    }

    /// Whether a read of the source has failed.
    pub fn has_failed(&self) -> bool
        ensures { result ≡ self.now.has_failed }
    {
        self.has_failed
    }

    /// The source, which is at its end if that was reached, and whose count of faults rose only if a read has failed.
    pub fn into_source(self) -> S
        ensures source { result ≡ self.source }
        ensures cut { IsCutAt (S.left result) (S.faults self.begun) (S.faults result) self.ended self.has_failed }
    {
        self.source
    }
}

impl<S: Source> Source for Cutoff<S> {
    ghost left = { λ s. S.left s.source };

    ghost faults = { λ s. faults_of s.ended (S.faults s.source) };

    ghost has_ended = { λ s. s.ended ≡ true };

    ghost name = { λ s. S.faults s.begun ∷ S.name s.source };

    fn read(&mut self, buf: &mut [u8]) -> Result<usize, SourceFault>
        requires { 0 < length buf.old }
        ensures bound { ReadsAtMost result buf.new }
        ensures bytes { ReadConsumes (S.left self.old.source) (S.left self.new.source) result buf.new }
        ensures cause { SourceCause (faults_of self.old.ended (S.faults self.old.source))
            (faults_of self.new.ended (S.faults self.new.source)) result }
        ensures fault { OnErr result (Ends self.old.ended self.new.ended
            ⊎ Rose (S.faults self.old.source) (S.faults self.new.source)) }
        ensures end { Ends self.old.ended self.new.ended → IsErr result × IsAtEnd (S.left self.new.source)
            × (S.faults self.new.source ≡ S.faults self.old.source) }
        ensures some { self.old.ended ≡ false → IfOk result (λ n. 0 < n) }
        ensures unread { self.old.ended ≡ true → (self.new ≡ self.old) × (result ≡ Ok 0) }
        ensures says_end { result ≡ Ok 0 → self.new.ended ≡ true }
        ensures name { (S.faults self.new.begun ∷ S.name self.new.source)
            ≡ (S.faults self.old.begun ∷ S.name self.old.source) }
    {
        if self.ended {
            return Ok(0);
        }
        match self.source.read(buf) {
            Ok(0) => {
                self.ended = true;
                Err(SourceFault)
            }
            Ok(count) => Ok(count),
            Err(SourceFault) => {
                self.has_failed = true;
                Err(SourceFault)
            }
        }
    }
}

//! A source of which only a first part is there.

ghost use Rattle.std.specs.Prelude.{◌≡◌, ◌+◌, ◌∷◌, ◌&&◌, true, false, not};
ghost use Rattle.sb_checkpoint.specs.Cut.{faults_of};
ghost use Rattle.sb_run.specs.FirstParts.{IsPartAt, open_end};

use sb_engines::{Source, SourceFault};
use std::marker::Model;
use std::snapshot::Snapshot;

/// A first part of an input, which never says that the input has ended: at its end a read fails, and so does each later
/// one. A [`Cutoff`](sb_checkpoint::Cutoff) does the same at its end, but not behind it. So by the contract of a source
/// a reader may take that for the end of the input without having met it.
#[derive(Drop)]
pub(crate) struct FirstPart<S: Source> {
    source: S,
    begun: Snapshot<S>,
    ended: bool,
    has_failed: bool,
    again: u64,
}

impl<S: Source> Model for FirstPart<S> {
    ghost use Rattle.std.specs.Prelude.{◌≡◌, true, false};
    ghost use Rattle.sb_checkpoint.specs.Cut.{IsCutAt};
    ghost use Rattle.sb_run.specs.FirstParts.{IsPartAt, Part};

    ghost Value = { Part S };

    ghost view = { λ s. record {
      source = s.source;
      begun = s.begun.value;
      ended = s.ended;
      has_failed = s.has_failed;
      again = s.again;
    } };

    ghost invariant = { λ s. IsPartAt (S.left s.source) (S.faults s.begun.value) (S.faults s.source)
        s.ended s.has_failed s.again × (s.ended ≡ true → S.has_ended s.source) };
}

impl<S: Source> FirstPart<S> {
    /// All that the source has is the first part.
    pub(crate) fn new(source: S) -> FirstPart<S>
        ensures { result ≡ record { source = source; begun = source; ended = false; has_failed = false; again = 0 } }
    {
        let begun = Snapshot::of(&source);
        FirstPart {
            source,
            begun,
            ended: false,
            has_failed: false,
            again: 0,
        }
    }

    /// Whether the end of the source was met, and no read of it has failed.
    pub(crate) fn is_whole(&self) -> bool
        ensures { result ≡ self.now.ended && not self.now.has_failed }
    {
        self.ended && !self.has_failed
    }

    /// The source, which is at its end if that was met, and whose count of faults rose only if a read has failed.
    pub(crate) fn into_source(self) -> S
        ensures source { result ≡ self.source }
        ensures end { self.ended ≡ true → S.has_ended result }
        ensures at { IsPartAt (S.left result) (S.faults self.begun) (S.faults result)
            self.ended self.has_failed self.again }
    {
        self.source
    }
}

impl<S: Source> Source for FirstPart<S> {
    ghost left = { λ s. open_end (S.left s.source) };

    ghost faults = { λ s. faults_of s.ended (S.faults s.source) + s.again };

    ghost has_ended = { λ s. ⊥ };

    ghost name = { λ s. S.faults s.begun ∷ S.name s.source };

    fn read(&mut self, buf: &mut [u8]) -> Result<usize, SourceFault> {
        if self.ended {
            self.again = self.again.saturating_add(1);
            return Err(SourceFault);
        }
        match self.source.read(buf) {
            Ok(0) => {
                self.ended = true;
                Err(SourceFault)
            }
            Ok(count) => Ok(count),
            Err(SourceFault) => {
                self.has_failed = true;
                Err(SourceFault)
            }
        }
    }
}

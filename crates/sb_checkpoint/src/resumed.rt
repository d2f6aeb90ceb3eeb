//! A source that begins with what a checkpoint kept.

ghost use Rattle.std.specs.Prelude.{◌≡◌, ◌≤◌, length};
ghost use Rattle.sb_checkpoint.specs.Ahead.{AllReadOrNoneOfTheSource};
ghost use Rattle.sb_checkpoint.specs.Checkpoints.{with_comments};
ghost use Rattle.sb_checkpoint.specs.Saved.{items_in};
ghost use Rattle.sb_checkpoint.specs.Texts.{items_text};

use crate::ahead::Ahead;
use crate::checkpoint::Checkpoint;
use sb_outside::{Source, SourceFault};
use std::marker::Model;
use std::snapshot::Snapshot;

/// A comment `#` for each line that the input of a checkpoint had beyond its items, then the lines of these items, then
/// the bytes of a source. So the lines of the source have the numbers that they have in the whole input. It counts the
/// faults of the source, and reads nothing of it before all lines were given. The comments can be taken at once.
#[derive(Drop)]
pub struct Resumed<S: Source> {
    ahead: Ahead,
    source: S,
    begun: Snapshot<S>,
}

impl<S: Source> Model for Resumed<S> {
    ghost use Rattle.sb_checkpoint.specs.Ahead.{AllReadOrNoneOfTheSource, Before, bytes};

    ghost Value = { Before S };

    ghost view = { λ s. record { lines = bytes s.ahead; source = s.source; begun = s.begun.value } };

    ghost invariant = { λ s. AllReadOrNoneOfTheSource (bytes s.ahead) (S.left s.begun.value) (S.left s.source) };
}

impl<S: Source> Resumed<S> {
    /// The source behind a checkpoint, which has at most as many items as lines.
    pub fn new(checkpoint: Checkpoint, source: S) -> Resumed<S>
        requires { length (items_in checkpoint) ≤ checkpoint.lines }
        ensures { result ≡ record {
          lines = items_text (with_comments checkpoint.lines (items_in checkpoint));
          source = source;
          begun = source;
        } }
    {
        let begun = Snapshot::of(&source);
        Resumed {
            ahead: Ahead::new(checkpoint),
            source,
            begun,
        }
    }

    /// The source, of which nothing was read if a line is left.
    pub fn into_source(self) -> S
        ensures source { result ≡ self.source }
        ensures read { AllReadOrNoneOfTheSource self.lines (S.left self.begun) (S.left result) }
    {
        self.source
    }
}

impl<S: Source> Source for Resumed<S> {
    ghost use Rattle.std.specs.Io.KnownBytes.{prepend_known};
    ghost use Rattle.sb_checkpoint.specs.Ahead.{name_behind};

    ghost left = { λ s. prepend_known s.lines (S.left s.source) };

    ghost faults = { λ s. S.faults s.source };

    ghost has_ended = { λ s. S.has_ended s.source };

    ghost name = { λ s. name_behind (S.left s.begun) (S.name s.source) };

    fn read(&mut self, buf: &mut [u8]) -> Result<usize, SourceFault> {
        match self.ahead.give(buf) {
            0 => self.source.read(buf),
            count => Ok(count),
        }
    }

    fn take_comments(&mut self) -> u32 {
        self.ahead.take_comments()
    }
}

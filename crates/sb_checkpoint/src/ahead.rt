//! The lines that a resumed run reads before the rest of its input.

ghost use Rattle.std.specs.Prelude.{◌≡◌, ◌≤◌, ◌<◌, ◌^◌, ◌++◌, [], None, IfNone, IfSome, min, length, slice_get, take};
ghost use Rattle.sb_outside.specs.Comments.{comment_lines};
ghost use Rattle.sb_checkpoint.specs.Checkpoints.{with_comments};
ghost use Rattle.sb_checkpoint.specs.Saved.{items_in};
ghost use Rattle.sb_checkpoint.specs.Texts.{items_text};
ghost use Rattle.sb_checkpoint.specs.Ahead as spec;

use crate::checkpoint::Checkpoint;
use crate::line_text::{LineText, comment_line, item_at, item_count, item_line};
use std::marker::Model;

/// A comment for each line that an input had beyond the items of its checkpoint, and then the lines of these items, as
/// bytes that are given piece by piece. One line is at hand at a time, so this takes no memory.
#[derive(Drop)]
pub(crate) struct Ahead {
    checkpoint: Checkpoint,
    /// How many comments were not begun.
    comments: u64,
    /// How many items were begun.
    begun: u64,
    line: LineText,
    from: usize,
}

impl Model for Ahead {
    ghost use Rattle.std.specs.Prelude.{◌≤◌, drop, length};
    ghost use Rattle.sb_checkpoint.specs.Ahead.{Lines, items_left};
    ghost use Rattle.sb_checkpoint.specs.Saved.{items_in};
    ghost use Rattle.sb_checkpoint.specs.Texts.{items_text};

    ghost Value = { Lines };

    ghost view = { λ a. record {
      at_hand = drop a.from a.line;
      behind = items_text (items_left a.comments a.begun (items_in a.checkpoint));
    } };

    ghost invariant = { λ a. a.from ≤ length a.line };
}

/// The line of the item at a place, if there are so many.
fn line_at(checkpoint: &Checkpoint, place: u64) -> Option<LineText>
    ensures none { IfNone result (slice_get (items_in checkpoint.now) place ≡ None) }
    ensures some { IfSome result (λ line. spec.IsLineAt (items_in checkpoint.now) place line) }
    ensures few { length (items_in checkpoint.now) < 2 ^ 64 }
{
    match item_at(checkpoint, place) {
        Some(item) => Some(item_line(&item)),
        None => None,
    }
}

impl Ahead {
    pub(crate) fn new(checkpoint: Checkpoint) -> Ahead
        requires { length (items_in checkpoint) ≤ checkpoint.lines }
        ensures { spec.bytes result ≡ items_text (with_comments checkpoint.lines (items_in checkpoint)) }
    {
        let comments = checkpoint.lines - item_count(&checkpoint);
        Ahead {
            checkpoint,
            comments,
            begun: 0,
            line: LineText::new(),
            from: 0,
        }
    }

    /// Takes the next line that was not begun, if one is left.
    #[tactic(auto, using(crate::proofs::LinesAhead::comment_next, crate::proofs::LinesAhead::item_next, crate::proofs::LinesAhead::none_next, crate::proofs::LinesAhead::item_within))]
    fn next_line(&mut self) -> Option<LineText>
        ensures none { IfNone result (self.old.behind ≡ []) }
        ensures same { IfNone result (self.new.behind ≡ self.old.behind) }
        ensures some { IfSome result (λ line. self.old.behind ≡ line ++ self.new.behind) }
        ensures full { IfSome result (λ line. 0 < length line) }
        ensures at_hand { self.new.at_hand ≡ self.old.at_hand }
    {
        if self.comments > 0 {
            self.comments -= 1;
            return Some(comment_line());
        }
        let line = line_at(&self.checkpoint, self.begun)?;
        self.begun += 1;
        Some(line)
    }

    /// Begins the next line, if the one at hand was given and another is left.
    fn begin_line(&mut self)
        ensures same { spec.bytes self.new ≡ spec.bytes self.old }
        ensures some { self.new.at_hand ≡ [] → spec.bytes self.new ≡ [] }
    {
        if self.from < self.line.len() {
            return;
        }
        if let Some(line) = self.next_line() {
            self.line = line;
            self.from = 0;
        }
    }

    /// Gives bytes of the line at hand to the front of `buf`, and answers how many.
    fn give_line(&mut self, buf: &mut [u8]) -> usize
        ensures count { result ≡ min (length self.old.at_hand) (length buf.old) }
        ensures length { length buf.new ≡ length buf.old }
        ensures given { self.old.at_hand ≡ take result buf.new ++ self.new.at_hand }
        ensures behind { self.new.behind ≡ self.old.behind }
    {
        let rest = &self.line.as_slice()[self.from..];
        let count = rest.len().min(buf.len());
        buf[..count].copy_from_slice(&rest[..count]);
        self.from += count;
        count
    }

    /// Gives bytes to the front of `buf`, and answers how many: 0 only where none is left.
    pub(crate) fn give(&mut self, buf: &mut [u8]) -> usize
        requires { 0 < length buf.old }
        ensures bound { result ≤ length buf.new }
        ensures length { length buf.new ≡ length buf.old }
        ensures given { spec.bytes self.old ≡ take result buf.new ++ spec.bytes self.new }
        ensures end { result ≡ 0 → spec.bytes self.old ≡ [] }
    {
        self.begin_line();
        self.give_line(buf)
    }

    /// Takes off the comments that stand in front, where no line is at hand, and answers how many.
    pub(crate) fn take_comments(&mut self) -> u32
        ensures { spec.bytes self.old ≡ comment_lines result ++ spec.bytes self.new }
    {
        if self.from < self.line.len() {
            return 0;
        }
        let count = self.comments.min(u64::from(u32::MAX)) as u32;
        self.comments -= u64::from(count);
        count
    }
}

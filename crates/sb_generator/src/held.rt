//! The lines of one record, and which of their bytes are still to give.

ghost use Rattle.std.specs.Prelude.{◌≡◌, ◌<◌, ◌↔◌, ◌++◌, [], take, min, length, IsTrue};
ghost use Rattle.sb_generator.specs.declared.pattern.TheConstants.{MAX_RECORDS};
ghost use Rattle.sb_generator.specs.Generated.{items_at, text_of};

use crate::pattern::{LinesBuf, push_lines};
use std::marker::Model;

/// Bytes that are at hand.
#[derive(Drop)]
pub struct Held {
    text: LinesBuf,
    given: usize,
}

impl Model for Held {
    ghost use Rattle.std.specs.Prelude.{ℕ, List, drop, length, ◌≤◌};

    ghost Value = { List ℕ };

    ghost view = { λ h. drop h.given h.text };

    ghost invariant = { λ h. h.given ≤ length h.text };
}

impl Held {
    /// No byte.
    pub fn new() -> Held
        ensures { result ≡ [] }
    {
        Held {
            text: LinesBuf::new(),
            given: 0,
        }
    }

    /// Whether no byte is at hand.
    pub fn is_empty(&self) -> bool
        ensures { IsTrue result ↔ (self.now ≡ []) }
    {
        self.given == self.text.len()
    }

    /// Has the lines of record `i` at hand, and nothing else.
    pub fn hold(&mut self, i: u64)
        requires { i < MAX_RECORDS }
        ensures { self.new ≡ text_of (items_at i) }
    {
        self.text.clear();
        push_lines(&mut self.text, i);
        self.given = 0;
    }

    /// Gives as many bytes as there are and as there is room for, and answers how many.
    pub fn give(&mut self, buf: &mut [u8]) -> usize
        ensures bytes { self.old ≡ take result buf.new ++ self.new }
        ensures count { result ≡ min (length buf.old) (length self.old) }
    {
        let left = &self.text.as_slice()[self.given..];
        let count = buf.len().min(left.len());
        buf[..count].copy_from_slice(&left[..count]);
        self.given += count;
        count
    }
}

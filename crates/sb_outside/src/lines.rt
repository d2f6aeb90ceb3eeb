//! The lines of a source, one at a time.
//!
//! A line is the bytes up to an LF or to the end of the input, and one CR at its end is taken off.
//! An empty rest after the last LF is no line. A line has at most 128 bytes after the CR is taken
//! off; a longer one is refused as soon as its bytes show that, also where its end has not come yet.

ghost use Rattle.std.specs.Prelude.{◌≡◌, ◌≢◌, ◌≤◌, ◌+◌, [], None, Some, take, drop, length};
ghost use Rattle.std.specs.Borrow.{sem};
ghost use Rattle.sb_outside.specs.AtHand.{BeginsWithLine, to_read};
ghost use Rattle.sb_outside.specs.Lines.{longest_line};
ghost use Rattle.sb_outside.specs.Readings.{Advances, reading, step_at};
ghost use Rattle.sb_outside.specs.Rests.{Leaves, IsShort};

use crate::buffer::Buffer;
use crate::search::{Found, search};
use crate::source::Source;
use std::marker::Model;

/// How many bytes a line may have, without its CR and its LF.
pub const LONGEST_LINE: usize = 128;

/// Why a reader stands. It then answers the same at each later call, and reads no more.
#[derive(Clone, Copy, Debug, PartialEq, Eq, Drop)]
pub enum Halt {
    End,
    TooLong,
    Fault,
}

impl Halt {
    /// What each call of a reader that stands gives.
    pub fn step(self) -> Step
        ensures { result ≡ step_at self }
    {
        match self {
            Halt::End => Step::End,
            Halt::TooLong => Step::TooLong,
            Halt::Fault => Step::Fault,
        }
    }
}

/// What a call of a reader gives.
#[derive(Clone, Copy, Debug, PartialEq, Eq)]
pub enum Next<'a> {
    /// The next line, without its end.
    Line(&'a [u8]),
    /// The input has ended, and each line was given.
    End,
    /// The next line has more than [`LONGEST_LINE`] bytes.
    TooLong,
    /// A read failed before the next line was there.
    Fault,
}

/// What a call of a reader gives, where the line is asked for by itself.
#[derive(Clone, Copy, Debug, PartialEq, Eq, Drop)]
pub enum Step {
    /// There is a next line.
    Line,
    /// The input has ended, and each line was given.
    End,
    /// The next line has more than [`LONGEST_LINE`] bytes.
    TooLong,
    /// A read failed before the next line was there.
    Fault,
}

/// A reader of lines without its source, which each call is given. The source should be the same at
/// each.
///
/// It has a fixed buffer and takes no memory. Where no byte is at hand a read is given the whole
/// buffer.
#[derive(Drop)]
pub struct LineBuffer {
    buffer: Buffer,
    from: usize,
    len: usize,
    halt: Option<Halt>,
}

impl Model for LineBuffer {
    ghost use Rattle.std.specs.Prelude.{◌≤◌, ◌+◌, slice_range};
    ghost use Rattle.sb_outside.specs.Buffers.{pending_bytes};
    ghost use Rattle.sb_outside.specs.declared.buffer.TheConstants.{CAPACITY};
    ghost use Rattle.sb_outside.specs.Readings.{Held};

    ghost Value = { Held };

    ghost view = { λ r. record {
      at_hand = pending_bytes r.buffer;
      line = slice_range r.buffer.bytes r.from (r.from + r.len);
      halt = r.halt;
    } };

    ghost invariant = { λ r. r.from + r.len ≤ CAPACITY };
}

impl LineBuffer {
    pub fn new() -> LineBuffer
        ensures { result ≡ record { at_hand = []; line = []; halt = None } }
    {
        LineBuffer {
            buffer: Buffer::new(),
            from: 0,
            len: 0,
            halt: None,
        }
    }

    /// The line of the last call that looked for one, without its end; empty if there was none.
    pub fn line(&self) -> &[u8]
        ensures { result.now ≡ self.now.line }
    {
        &self.buffer.bytes[self.from..self.from + self.len]
    }

    /// The bytes at hand, which begin with the next line. There are none once the reader stands.
    #[inline(always)]
    pub fn at_hand(&self) -> &[u8]
        ensures { result.now ≡ to_read self.now }
    {
        match self.halt {
            None => self.buffer.held(),
            Some(_) => &[],
        }
    }

    /// Goes to the next line where it is known: so many of the bytes at hand are a line, and an LF
    /// stands behind them. It looks for nothing and reads nothing.
    #[inline(always)]
    pub fn take_line(&mut self, len: usize)
        requires { BeginsWithLine len (to_read self.old) }
        ensures { self.new ≡ record {
          at_hand = drop (len + 1) self.old.at_hand;
          line = take len self.old.at_hand;
          halt = None;
        } }
    {
        self.from = self.buffer.start;
        self.len = len;
        self.buffer.take(len + 1);
    }

    /// Goes to the next line of the source.
    pub fn advance<S: Source>(&mut self, source: &mut S) -> Step
        ensures advances { Advances S.left S.faults self.old.halt
            (reading source.old self.old) (reading source.new self.new) result }
        ensures short { result ≡ Step.Line → length self.new.line ≤ longest_line }
        ensures no_line { self.old.halt ≡ None → result ≢ Step.Line → self.new.line ≡ [] }
        ensures at_end { result ≡ Step.End → self.new.halt ≡ Some Halt.End }
        ensures end { (self.old.halt ≡ Some Halt.End → S.has_ended source.old)
            → self.new.halt ≡ Some Halt.End → S.has_ended source.new }
        ensures name { S.name source.new ≡ S.name source.old }
    {
        if let Some(halt) = self.halt {
            return halt.step();
        }
        match search(source, &mut self.buffer) {
            Found::Line { len, used } => {
                self.from = self.buffer.start;
                self.len = len;
                self.buffer.take(used);
                Step::Line
            }
            Found::Last { len } => {
                self.from = self.buffer.start;
                self.len = len;
                self.buffer.clear();
                self.halt = Some(Halt::End);
                Step::Line
            }
            Found::End => {
                self.len = 0;
                self.halt = Some(Halt::End);
                Step::End
            }
            Found::TooLong => {
                self.len = 0;
                self.halt = Some(Halt::TooLong);
                Step::TooLong
            }
            Found::Fault => {
                self.len = 0;
                self.halt = Some(Halt::Fault);
                Step::Fault
            }
        }
    }
}

/// A reader of the lines of a source.
#[derive(Drop)]
pub struct LineReader<S> {
    source: S,
    lines: LineBuffer,
}

impl<S> Model for LineReader<S> {
    ghost use Rattle.sb_outside.specs.Readings.{Reading, reading};

    ghost Value = { Reading S };

    ghost view = { λ r. reading r.source r.lines };
}

impl<S: Source> LineReader<S> {
    pub fn new(source: S) -> LineReader<S>
        ensures { result ≡ record { source = source; at_hand = []; line = []; halt = None } }
    {
        LineReader {
            source,
            lines: LineBuffer::new(),
        }
    }

    /// The next line.
    pub fn next(&mut self) -> Next<'_>
        ensures* leaves { sem 𝓛 (Leaves S.row S.left S.faults self.entry result) }
        ensures short { IsShort result }
    {
        match self.lines.advance(&mut self.source) {
            Step::Line => Next::Line(self.lines.line()),
            Step::End => Next::End,
            Step::TooLong => Next::TooLong,
            Step::Fault => Next::Fault,
        }
    }
}

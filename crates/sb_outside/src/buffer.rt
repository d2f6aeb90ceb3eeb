//! A fixed place for bytes that were read and not yet taken.

ghost use Rattle.std.specs.Prelude.{◌≡◌, ◌≤◌, ◌<◌, ◌+◌, [], take, drop, length, slice_range, IfOk, Ok};
ghost use Rattle.sb_outside.specs.declared.buffer.TheConstants.{CAPACITY};
ghost use Rattle.sb_outside.specs.Fills.{Fills, ReadsBehind};
ghost use Rattle.sb_outside.specs.Lines.{longest_line};
ghost use Rattle.sb_outside.specs.Sources.{SourceCause};

use crate::source::{Source, SourceFault};

/// How many bytes a buffer has room for: as many as a pipe has, so that one read takes all that waits in one.
pub const CAPACITY: usize = 65_536;

/// A place for bytes, and where the bytes at hand begin and end in it.
#[derive(Drop)]
pub struct Buffer {
    pub bytes: [u8; CAPACITY],
    pub start: usize,
    pub end: usize,
    ghost ordered: { start ≤ end },
    ghost within: { end ≤ CAPACITY },
    ghost full: { length bytes ≡ CAPACITY },
}

impl Buffer {
    ghost use Rattle.sb_outside.specs.Buffers.{pending_bytes};

    pub fn new() -> Buffer
        ensures { pending_bytes result ≡ [] }
    {
        Buffer {
            bytes: [0; CAPACITY],
            start: 0,
            end: 0,
        }
    }

    /// The bytes at hand.
    pub fn held(&self) -> &[u8]
        ensures { result.now ≡ pending_bytes self.now }
    {
        &self.bytes[self.start..self.end]
    }

    /// Takes bytes off the front of those at hand.
    pub fn take(&mut self, count: usize)
        requires { count ≤ length (pending_bytes self.old) }
        ensures held { pending_bytes self.new ≡ drop count (pending_bytes self.old) }
        ensures bytes { self.new.bytes ≡ self.old.bytes }
    {
        self.start += count;
    }

    /// Takes all bytes at hand.
    pub fn clear(&mut self)
        ensures held { pending_bytes self.new ≡ [] }
        ensures bytes { self.new.bytes ≡ self.old.bytes }
    {
        self.start = self.end;
    }

    /// Makes room for more bytes: the whole place, where no byte is at hand.
    fn make_room(&mut self)
        requires { length (pending_bytes self.old) ≤ longest_line + 1 }
        ensures held { pending_bytes self.new ≡ pending_bytes self.old }
        ensures room { self.new.end < CAPACITY }
        ensures whole { pending_bytes self.old ≡ [] → self.new.end ≡ 0 }
    {
        let len = self.end - self.start;
        // Bytes that would overlap the place that they move to have room behind them.
        if len <= self.start {
            move_to_front(&mut self.bytes, self.start, len);
            self.start = 0;
            self.end = len;
        }
    }

    /// Reads more bytes behind those at hand: none only at the end of the source.
    pub fn fill<S: Source>(&mut self, source: &mut S) -> Result<usize, SourceFault>
        requires { length (pending_bytes self.old) ≤ longest_line + 1 }
        ensures bytes { Fills (S.left source.old) (S.left source.new)
            (pending_bytes self.old) (pending_bytes self.new) result }
        ensures cause { SourceCause (S.faults source.old) (S.faults source.new) result }
        ensures end { result ≡ Ok 0 → S.has_ended source.new }
        ensures name { S.name source.new ≡ S.name source.old }
    {
        self.make_room();
        let count = read_behind(source, &mut self.bytes, self.end)?;
        self.end += count;
        Ok(count)
    }
}

/// Copies `len` bytes from `from` on to the front.
fn move_to_front(bytes: &mut [u8], from: usize, len: usize)
    requires { (len ≤ from) × (from + len ≤ length bytes.old) }
    ensures { take len bytes.new ≡ slice_range bytes.old from (from + len) }
{
    let (front, back) = bytes.split_at_mut(from);
    front[..len].copy_from_slice(&back[..len]);
}

/// Reads into the place from `end` on.
fn read_behind<S: Source>(
    source: &mut S,
    bytes: &mut [u8],
    end: usize,
) -> Result<usize, SourceFault>
    requires { end < length bytes.old }
    ensures bytes { ReadsBehind (S.left source.old) (S.left source.new)
        end bytes.old bytes.new result }
    ensures within { IfOk result (λ n. end + n ≤ length bytes.old) }
    ensures cause { SourceCause (S.faults source.old) (S.faults source.new) result }
    ensures end { result ≡ Ok 0 → S.has_ended source.new }
    ensures name { S.name source.new ≡ S.name source.old }
{
    source.read(&mut bytes[end..])
}

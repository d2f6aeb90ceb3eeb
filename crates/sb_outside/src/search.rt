//! The search for the next line: reads until the bytes at hand show it.

ghost use Rattle.std.specs.Prelude.{◌≡◌, ◌≢◌, [], false};
ghost use Rattle.sb_outside.specs.Lines.{lines};
ghost use Rattle.sb_outside.specs.Buffers.{pending_bytes};
ghost use Rattle.sb_outside.specs.Looks.{IsOpen};
ghost use Rattle.sb_outside.specs.Searches.{IsLast, MeetsEnd, Says, Gives};

use crate::buffer::Buffer;
use crate::look::{Look, len_without_cr, look_at};
use crate::source::{Source, SourceFault};

/// What a search for the next line gives.
#[derive(Clone, Copy, Debug, PartialEq, Eq, Drop)]
pub enum Found {
    /// The length of the line at the front, and of the line with its end.
    Line { len: usize, used: usize },
    /// The length of the last line, which ends with the input.
    Last { len: usize },
    End,
    TooLong,
    Fault,
}

/// Reads until the bytes at hand show what the next line is.
#[tactic(auto, using(crate::proofs::Searches::gives_more))]
pub fn search<S: Source>(source: &mut S, buffer: &mut Buffer) -> Found
    ensures bytes { Gives (S.left source.old) (S.left source.new)
        (pending_bytes buffer.old) (pending_bytes buffer.new) }
    ensures says { Says (pending_bytes buffer.new) (S.left source.new)
        (S.faults source.old) (S.faults source.new) result }
    ensures unread { lines false (pending_bytes buffer.old) ≢ [] → source.new ≡ source.old }
    ensures end { MeetsEnd result → S.has_ended source.new }
    ensures name { S.name source.new ≡ S.name source.old }
{
    'reads: loop {
        match look_at(buffer.held()) {
            Look::Line { len, used } => return Found::Line { len, used },
            Look::TooLong => return Found::TooLong,
            Look::More => {}
        }
        match buffer.fill(source) {
            Ok(0) => return last_of(buffer.held()),
            Ok(_) => {}
            Err(SourceFault) => return Found::Fault,
        }
    }
}

/// What bytes without an LF are at the end of the input.
fn last_of(held: &[u8]) -> Found
    requires { IsOpen held.now }
    ensures { IsLast held.now result }
{
    if held.is_empty() {
        return Found::End;
    }
    Found::Last {
        len: len_without_cr(held),
    }
}

//! What bytes show of their first line.

ghost use Rattle.std.specs.Prelude.{◌≡◌, ◌≤◌, ◌+◌, take, min, length};
ghost use Rattle.sb_outside.specs.Lines.{without_cr};
ghost use Rattle.sb_outside.specs.Looks.{Shows, line_len};

use crate::lines::LONGEST_LINE;
use memchr::memchr;

/// How many bytes a line may have with its CR and its LF.
const WINDOW: usize = LONGEST_LINE + 2;

/// What bytes show of their first line.
#[derive(Clone, Copy, Debug, PartialEq, Eq, Drop)]
pub enum Look {
    /// The length of the line, and of the line with its end.
    Line { len: usize, used: usize },
    TooLong,
    /// There is no LF yet, and the bytes are not too long for a line.
    More,
}

/// How long a line is without the one CR at its end.
pub fn len_without_cr(line: &[u8]) -> usize
    ensures len { result ≡ length (without_cr line.now) }
    ensures bytes { take result line.now ≡ without_cr line.now }
    ensures within { result ≤ length line.now }
    ensures near { length line.now ≤ result + 1 }
{
    match line {
        [.., b'\r'] => line.len() - 1,
        _ => line.len(),
    }
}

/// The first bytes, as many as a line may have with its end.
fn window(bytes: &[u8]) -> &[u8]
    ensures { result.now ≡ take WINDOW bytes.now }
{
    &bytes[..bytes.len().min(WINDOW)]
}

/// How many bytes stand before the first LF, up to the size of the window.
fn end_of_line(bytes: &[u8]) -> usize
    ensures { result ≡ min WINDOW (line_len bytes.now) }
{
    let window = window(bytes);
    match memchr(b'\n', window) {
        Some(at) => at,
        None => window.len(),
    }
}

/// Looks for the end of the first line, in no more bytes than a line may have with its end.
pub fn look_at(bytes: &[u8]) -> Look
    ensures { Shows bytes.now result }
{
    let at = end_of_line(bytes);
    let len = len_without_cr(&bytes[..at]);
    if len > LONGEST_LINE {
        return Look::TooLong;
    }
    if at < bytes.len() {
        return Look::Line { len, used: at + 1 };
    }
    Look::More
}

//! The first and the last line of a checkpoint, as they are read: without their ends.
//!
//! A number is taken only as it is written: in decimal, without a sign and without leading zeros. It may be any `u64`.

ghost use Rattle.std.specs.Prelude.{◌≡◌, ◌==◌, ◌↔◌, ◌++◌, ℕ, List, IfSome, IfNone, IsTrue, Some, decimal};
ghost use Rattle.std.specs.List.{position};
ghost use Rattle.sb_checkpoint.specs.Texts as spec;

use sb_pipeline::TextBuf;
use std::str;

/// What stands before the numbers of the first line.
const HEAD_WORD: &[u8; 11] = b"checkpoint ";

/// What stands before the number of the last line.
const END_WORD: &[u8; 4] = b"end ";

/// The text of a number.
type NumberText = TextBuf<20>;

/// What follows these bytes, where they stand at the front.
fn after<'a>(front: &[u8], bytes: &'a [u8]) -> Option<&'a [u8]>
    ensures some { IfSome result (λ rest. bytes.now ≡ front.now ++ rest.now) }
    ensures none { IfNone result ((rest : List ℕ) → bytes.now ≡ front.now ++ rest → ⊥) }
{
    bytes.strip_prefix(front)
}

/// Where the first space stands, if there is one.
fn first_space(bytes: &[u8]) -> Option<usize>
    ensures { result ≡ position (λ b. b == 32) bytes.now }
{
    bytes.iter().position(|byte| *byte == b' ')
}

/// The number that a text spells, perhaps with a plus sign or leading zeros.
fn loose_number(text: &[u8]) -> Option<u64>
    ensures { (n : ℕ) → spec.IsNumber n text.now → result ≡ Some n }
{
    match str::from_utf8(text) {
        Ok(digits) => digits.parse().ok(),
        Err(_) => None,
    }
}

/// Whether the text is that of the number.
fn is_number(text: &[u8], number: u64) -> bool
    ensures { IsTrue result ↔ (text.now ≡ decimal number) }
{
    let mut written = NumberText::new();
    written.push_number(number);
    written.as_slice() == text
}

/// The number that a text is, as it is written.
fn number_of(text: &[u8]) -> Option<u64>
    ensures some { IfSome result (λ n. spec.IsNumber n text.now) }
    ensures none { IfNone result ((n : ℕ) → spec.IsNumber n text.now → ⊥) }
{
    let number = loose_number(text)?;
    if is_number(text, number) {
        Some(number)
    } else {
        None
    }
}

/// What the first line says, if it is one: the number of lines, and the low watermark.
pub(crate) fn read_head(line: &[u8]) -> Option<(u64, u64)>
    ensures some { IfSome result (λ h. spec.IsHead line.now h.0 h.1) }
    ensures none { IfNone result ((lines low : ℕ) → spec.IsHead line.now lines low → ⊥) }
{
    let rest = after(HEAD_WORD, line)?;
    let space = first_space(rest)?;
    let lines = number_of(&rest[..space])?;
    let low = number_of(&rest[space + 1..])?;
    Some((lines, low))
}

/// Whether the line is the last one of a checkpoint with so many items.
pub(crate) fn is_end(line: &[u8], count: u64) -> bool
    ensures { result ≡ spec.is_same line.now (spec.end_text count) }
{
    match after(END_WORD, line) {
        Some(digits) => is_number(digits, count),
        None => false,
    }
}

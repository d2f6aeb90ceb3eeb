//! Diary lines as they are read.
//!
//! A line is read from the left: its word, up to the first space, and then its numbers, each behind one space. A number
//! is taken only as it is printed, and nothing may follow the last one. So a line has one text, and any other text is
//! refused.

ghost use Rattle.std.specs.Prelude.{◌≡◌, ◌==◌, ◌<◌, ◌^◌, ◌++◌, ◌∷◌, ℕ, List, Some, IfSome, IfNone, codes, decimal};
ghost use Rattle.std.specs.List.{position};
ghost use Rattle.sb_diary.specs.declared.event.DiaryEvent.{DiaryEvent as Event};
ghost use Rattle.sb_diary.specs.declared.text.DiaryLine.{DiaryLine as Line};
ghost use Rattle.sb_diary.specs.Texts.{spaced_text, text_of, AreInRange, IsLine};
ghost use Rattle.sb_diary.specs.Reading as spec;

use crate::event::DiaryEvent;
use crate::text::{DiaryLine, HEAD_WORD};
use sb_record::TextBuf;
use std::str;

/// The most lanes of a node: those of a join.
const MAX_LANES: u64 = 2;

/// The text of a number.
type NumberBuf = TextBuf<20>;

// Where the first space stands, if there is one.
fn first_space(bytes: &[u8]) -> Option<usize>
    ensures { result ≡ position (λ b. b == 32) bytes.now }
{
    bytes.iter().position(|byte| *byte == b' ')
}

// The bytes before the first space, and those from it on. If there is none, all stand before it.
fn split_at_space(bytes: &[u8]) -> (&[u8], &[u8])
    ensures all { result.0.now ++ result.1.now ≡ bytes.now }
    ensures word { spec.HasNoSpace result.0.now }
    ensures rest { spec.IsAtSpace result.1.now }
{
    let end = first_space(bytes).unwrap_or(bytes.len());
    bytes.split_at(end)
}

// The number that a text spells, perhaps with a plus sign or leading zeros.
fn loose_number(text: &[u8]) -> Option<u64>
    ensures { (n : ℕ) → spec.IsNumber n text.now → result ≡ Some n }
{
    match str::from_utf8(text) {
        Ok(digits) => digits.parse().ok(),
        Err(_) => None,
    }
}

// The number that a text spells as it is printed: without a sign and without leading zeros.
fn number_of(text: &[u8]) -> Option<u64>
    ensures some { IfSome result (λ n. spec.IsNumber n text.now) }
    ensures none { IfNone result ((n : ℕ) → spec.IsNumber n text.now → ⊥) }
{
    let number = loose_number(text)?;
    let mut printed = NumberBuf::new();
    printed.push_number(number);
    if printed.as_slice() == text {
        Some(number)
    } else {
        None
    }
}

// The number behind a space at the front, and what follows it.
fn leading_number(bytes: &[u8]) -> Option<(u64, &[u8])>
    ensures some { IfSome result (λ x. spec.BeginsWith bytes.now x.0 x.1.now) }
    ensures none { IfNone result ((n : ℕ) (r : List ℕ) → spec.BeginsWith bytes.now n r → ⊥) }
{
    match bytes {
        [b' ', rest @ ..] => {
            let (text, rest) = split_at_space(rest);
            Some((number_of(text)?, rest))
        }
        _ => None,
    }
}

// Exactly `N` numbers, each behind a space.
fn numbers<const N: usize>(bytes: &[u8]) -> Option<[u64; N]>
    ensures some { IfSome result (λ ns. spec.AreNumbers N ns bytes.now) }
    ensures none { IfNone result ((ns : List ℕ) → spec.AreNumbers N ns bytes.now → ⊥) }
{
    let mut numbers = [0; N];
    let mut rest = bytes;
    for i in 0..N {
        let (number, after) = leading_number(rest)?;
        numbers[i] = number;
        rest = after;
    }
    if rest.is_empty() { Some(numbers) } else { None }
}

// A lane or a node, and exactly `N` numbers, each behind a space.
fn fields<const N: usize>(bytes: &[u8]) -> Option<(u32, [u64; N])>
    ensures some { IfSome result (λ x. spec.AreFields N (x.0 ∷ x.1) bytes.now) }
    ensures none { IfNone result ((ns : List ℕ) → spec.AreFields N ns bytes.now → ⊥) }
{
    let (first, rest) = leading_number(bytes)?;
    let first = u32::try_from(first).ok()?;
    let others = numbers(rest)?;
    Some((first, others))
}

// The head line of these numbers.
fn read_head(rest: &[u8]) -> Option<DiaryLine>
    ensures some { IfSome result (λ l. spec.IsSpelled l (codes "transform") rest.now) }
    ensures none { IfNone result ((l : Line) → spec.IsSpelled l (codes "transform") rest.now → ⊥) }
{
    let (node, [lanes]) = fields::<1>(rest)?;
    if lanes < 1 || lanes > MAX_LANES {
        return None;
    }
    Some(DiaryLine::Head {
        node,
        lanes: lanes as u32,
    })
}

// The event with this word and these numbers.
fn read_event(word: &[u8], rest: &[u8]) -> Option<DiaryEvent>
    ensures some { IfSome result (λ e. spec.IsSpelled (DiaryLine.Event e) word.now rest.now) }
    ensures none { IfNone result ((e : Event) → spec.IsSpelled (DiaryLine.Event e) word.now rest.now → ⊥) }
{
    match word {
        b"arrive" => {
            let (lane, [epoch, number, length]) = fields::<3>(rest)?;
            Some(DiaryEvent::Arrive {
                lane,
                epoch,
                number,
                length,
            })
        }
        b"seal" => {
            let (lane, [epoch, mark]) = fields::<2>(rest)?;
            Some(DiaryEvent::Seal { lane, epoch, mark })
        }
        b"take" => {
            let (lane, [number]) = fields::<1>(rest)?;
            Some(DiaryEvent::Take { lane, number })
        }
        b"finish" => {
            let (lane, [number, length]) = fields::<2>(rest)?;
            Some(DiaryEvent::Finish {
                lane,
                number,
                length,
            })
        }
        b"begin" => {
            let (lane, [epoch, mark, rows]) = fields::<3>(rest)?;
            Some(DiaryEvent::Begin {
                lane,
                epoch,
                mark,
                rows,
            })
        }
        b"end" => {
            let (lane, [epoch]) = fields::<1>(rest)?;
            Some(DiaryEvent::End { lane, epoch })
        }
        _ => None,
    }
}

/// The line that has this text, if there is one. The text comes without its line end. It takes no memory.
pub fn read_diary_line(line: &[u8]) -> Option<DiaryLine>
    ensures some { IfSome result (λ l. IsLine l × (text_of l ≡ line.now)) }
    ensures none { IfNone result ((l : Line) → IsLine l → text_of l ≡ line.now → ⊥) }
{
    let (word, rest) = split_at_space(line);
    if word == HEAD_WORD {
        read_head(rest)
    } else {
        read_event(word, rest).map(DiaryLine::Event)
    }
}

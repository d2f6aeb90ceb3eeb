//! The line that bytes begin with, read in one pass: no search for its end comes first.
//!
//! Only a record or a watermark is read so, and only where its line feed is at hand. Every other line is for
//! [`crate::read_line`], once its end is found.

ghost use Rattle.std.specs.Prelude.{◌≡◌, ◌↔◌, Some};
ghost use Rattle.std.specs.Option.{option_map};
ghost use Rattle.sb_record.specs.Fronts.{IsFront};
ghost use Rattle.sb_record.specs.FrontReading as spec;

use crate::item::{Item, MAX_TIME, Record, Stream};
use crate::key::{Key, Keys, MAX_KEY};
use crate::line::{after, leading_field, leading_signed, leading_word};
use crate::number::leading_number;

/// The line that bytes begin with.
#[derive(Clone, Copy, Debug, PartialEq, Eq)]
pub struct FrontLine {
    /// What the line gives.
    pub item: Item,
    /// How many bytes it has, without its line feed.
    pub len: usize,
}

/// A comma and the value behind it, and what follows that.
#[tactic(auto, unfolding(crate::specs::FrontReading::value_at))]
fn leading_value(bytes: &[u8]) -> Option<(i64, &[u8])>
    ensures { option_map (λ x. (x.0, x.1.now)) result ≡ spec.value_at bytes.now }
{
    let bytes = after(b',', bytes)?;
    leading_signed(bytes)
}

/// A number as the key of a record of this stream and time, its value, a line feed, and what follows that.
#[tactic(auto, unfolding(crate::specs::FrontReading::rest_of_record_at, crate::specs::Reading::key_at))]
fn rest_with_number(stream: Stream, time: u64, bytes: &[u8]) -> Option<(Item, &[u8])>
    ensures { option_map (λ x. (x.0, x.1.now)) result ≡ spec.rest_of_record_at Keys.Numbers stream time bytes.now }
{
    let (number, bytes) = leading_number(MAX_KEY, bytes)?;
    let (value, bytes) = leading_value(bytes)?;
    let rest = after(b'\n', bytes)?;
    let key = Key::Number(number);
    Some((Item::Rec(stream, Record { time, key, value }), rest))
}

/// The same with a word as the key.
#[tactic(auto, unfolding(crate::specs::FrontReading::rest_of_record_at, crate::specs::Reading::key_at))]
fn rest_with_word(stream: Stream, time: u64, bytes: &[u8]) -> Option<(Item, &[u8])>
    ensures { option_map (λ x. (x.0, x.1.now)) result ≡ spec.rest_of_record_at Keys.Words stream time bytes.now }
{
    match leading_word(bytes) {
        Some((word, bytes)) => {
            let (value, bytes) = leading_value(bytes)?;
            let rest = after(b'\n', bytes)?;
            let key = Key::Word(word);
            Some((Item::Rec(stream, Record { time, key, value }), rest))
        }
        None => None,
    }
}

/// A record with a line feed behind it, after its stream, and what follows that.
#[tactic(auto, unfolding(crate::specs::FrontReading::record_line_at))]
fn record_line(keys: Keys, stream: Stream, bytes: &[u8]) -> Option<(Item, &[u8])>
    ensures { option_map (λ x. (x.0, x.1.now)) result ≡ spec.record_line_at keys stream bytes.now }
{
    let (time, bytes) = leading_number(MAX_TIME, bytes)?;
    let bytes = after(b',', bytes)?;
    match keys {
        Keys::Numbers => rest_with_number(stream, time, bytes),
        Keys::Words => rest_with_word(stream, time, bytes),
    }
}

/// A watermark with a line feed behind it, after its stream, and what follows that.
#[tactic(auto, unfolding(crate::specs::FrontReading::mark_line_at))]
fn mark_line(stream: Stream, bytes: &[u8]) -> Option<(Item, &[u8])>
    ensures { option_map (λ x. (x.0, x.1.now)) result ≡ spec.mark_line_at stream bytes.now }
{
    let (time, bytes) = leading_number(MAX_TIME, bytes)?;
    let rest = after(b'\n', bytes)?;
    Some((Item::Mark(stream, time), rest))
}

/// A record or a watermark with a line feed behind it, and what follows that.
#[tactic(auto, unfolding(crate::specs::FrontReading::front_at))]
fn front_item(keys: Keys, bytes: &[u8]) -> Option<(Item, &[u8])>
    ensures { option_map (λ x. (x.0, x.1.now)) result ≡ spec.front_at keys bytes.now }
{
    match bytes {
        [b'r', rest @ ..] => {
            let (stream, rest) = leading_field(rest)?;
            record_line(keys, stream, rest)
        }
        [b'w', rest @ ..] => {
            let (stream, rest) = leading_field(rest)?;
            mark_line(stream, rest)
        }
        _ => None,
    }
}

/// The line that the bytes begin with, where it is a record or a watermark and its line feed stands behind it.
pub(crate) fn read_front(bytes: &[u8], keys: Keys) -> Option<FrontLine>
    ensures { (f : FrontLine) → (result ≡ Some f) ↔ IsFront keys f.item f.len bytes.now }
{
    match front_item(keys, bytes) {
        Some((item, rest)) => Some(FrontLine {
            item,
            len: bytes.len() - rest.len() - 1,
        }),
        None => None,
    }
}

//! Lines, and the item that each gives.
//!
//! | Line | Item |
//! |---|---|
//! | `r,S,T,K,V` | a record of stream S with time T, key K and value V |
//! | `w,S,T` | a watermark of stream S at T |
//! | begins with `#` | a comment: nothing, whatever bytes follow |
//!
//! S is `a` or `b`, T is 0 to 10^15, K is 0 to 10^18 or, where keys are words, a word, and V is any `i64`. Numbers are
//! decimal, without a plus sign and without leading zeros; V may begin with `-`, but `-0` is no number. No spaces stand
//! in a line. Anything else is malformed, the empty line too.

ghost use Rattle.std.specs.Prelude.{◌≡◌, ◌↔◌, Ok};
ghost use Rattle.std.specs.Option.{option_map};
ghost use Rattle.std.specs.Result.{result_ok};
ghost use Rattle.sb_record.specs.Lines.{IsTextOf};
ghost use Rattle.sb_record.specs.Reading as spec;

use crate::item::{Item, MAX_TIME, Record, Stream};
use crate::key::{Key, Keys, MAX_KEY, Word, length_before};
use crate::number::leading_number;

/// The line is neither a record, nor a watermark, nor a comment.
#[derive(Clone, Copy, Debug, PartialEq, Eq)]
pub struct Malformed;

/// What follows this byte, where it stands at the front.
#[tactic(auto, unfolding(crate::specs::Reading::byte_at))]
pub(crate) fn after(byte: u8, bytes: &[u8]) -> Option<&[u8]>
    ensures { option_map (λ r. r.now) result ≡ spec.byte_at byte bytes.now }
{
    match bytes {
        [first, rest @ ..] if *first == byte => Some(rest),
        _ => None,
    }
}

/// The stream at the front, and what follows it.
#[tactic(auto, unfolding(crate::specs::Reading::stream_at))]
fn leading_stream(bytes: &[u8]) -> Option<(Stream, &[u8])>
    ensures { option_map (λ x. (x.0, x.1.now)) result ≡ spec.stream_at bytes.now }
{
    match bytes {
        [b'a', rest @ ..] => Some((Stream::A, rest)),
        [b'b', rest @ ..] => Some((Stream::B, rest)),
        _ => None,
    }
}

/// The signed number at the front, and what follows it.
#[tactic(auto, unfolding(crate::specs::Reading::signed_at))]
pub(crate) fn leading_signed(bytes: &[u8]) -> Option<(i64, &[u8])>
    ensures { option_map (λ x. (x.0, x.1.now)) result ≡ spec.signed_at bytes.now }
{
    match after(b'-', bytes) {
        Some(rest) => leading_negative(rest),
        None => leading_positive(bytes),
    }
}

/// The negative number whose minus sign stood before these bytes: -2^63 to -1.
fn leading_negative(bytes: &[u8]) -> Option<(i64, &[u8])>
    ensures { option_map (λ x. (x.0, x.1.now)) result ≡ spec.negative_at bytes.now }
{
    let (value, rest) = leading_number(9_223_372_036_854_775_808, bytes)?;
    if value == 0 {
        return None;
    }
    Some((-((value - 1) as i64) - 1, rest))
}

/// The number at the front that has no minus sign: 0 to 2^63 - 1.
fn leading_positive(bytes: &[u8]) -> Option<(i64, &[u8])>
    ensures { option_map (λ x. (x.0, x.1.now)) result ≡ spec.positive_at bytes.now }
{
    let (value, rest) = leading_number(9_223_372_036_854_775_807, bytes)?;
    Some((value as i64, rest))
}

/// The word up to the first comma or to the end, and what follows it.
#[tactic(auto, unfolding(crate::specs::Reading::word_at))]
pub(crate) fn leading_word(bytes: &[u8]) -> Option<(Word, &[u8])>
    ensures { option_map (λ x. (x.0, x.1.now)) result ≡ spec.word_at bytes.now }
{
    let length = length_before(b',', bytes);
    match Word::new(&bytes[..length]) {
        Some(word) => Some((word, &bytes[length..])),
        None => None,
    }
}

/// The key at the front, and what follows it.
#[tactic(auto, unfolding(crate::specs::Reading::key_at))]
fn leading_key(keys: Keys, bytes: &[u8]) -> Option<(Key, &[u8])>
    ensures { option_map (λ x. (x.0, x.1.now)) result ≡ spec.key_at keys bytes.now }
{
    match keys {
        Keys::Numbers => {
            let (number, rest) = leading_number(MAX_KEY, bytes)?;
            Some((Key::Number(number), rest))
        }
        Keys::Words => match leading_word(bytes) {
            Some((word, rest)) => Some((Key::Word(word), rest)),
            None => None,
        },
    }
}

/// `,S,` at the front, and what follows it.
#[tactic(auto, unfolding(crate::specs::Reading::between))]
pub(crate) fn leading_field(bytes: &[u8]) -> Option<(Stream, &[u8])>
    ensures { option_map (λ x. (x.0, x.1.now)) result ≡ spec.between bytes.now }
{
    let bytes = after(b',', bytes)?;
    let (stream, bytes) = leading_stream(bytes)?;
    let bytes = after(b',', bytes)?;
    Some((stream, bytes))
}

/// A record, after its stream.
#[tactic(auto, unfolding(crate::specs::Reading::record_at))]
fn read_record(keys: Keys, stream: Stream, bytes: &[u8]) -> Option<Item>
    ensures { result ≡ spec.record_at keys stream bytes.now }
{
    let (time, bytes) = leading_number(MAX_TIME, bytes)?;
    let bytes = after(b',', bytes)?;
    match leading_key(keys, bytes) {
        Some((key, bytes)) => {
            let bytes = after(b',', bytes)?;
            let (value, bytes) = leading_signed(bytes)?;
            at_end(Item::Rec(stream, Record { time, key, value }), bytes)
        }
        None => None,
    }
}

/// A watermark, after its stream.
#[tactic(auto, unfolding(crate::specs::Reading::mark_at))]
fn read_mark(stream: Stream, bytes: &[u8]) -> Option<Item>
    ensures { result ≡ spec.mark_at stream bytes.now }
{
    let (time, rest) = leading_number(MAX_TIME, bytes)?;
    at_end(Item::Mark(stream, time), rest)
}

/// The item, where nothing follows.
#[tactic(auto, unfolding(crate::specs::Reading::at_end))]
fn at_end(item: Item, bytes: &[u8]) -> Option<Item>
    ensures { result ≡ spec.at_end item bytes.now }
{
    if bytes.is_empty() { Some(item) } else { None }
}

/// The item of a line, if it has one.
#[tactic(auto, unfolding(crate::specs::Reading::item_of))]
fn item_of(line: &[u8], keys: Keys) -> Option<Item>
    ensures { result ≡ spec.item_of keys line.now }
{
    match line {
        [b'#', ..] => Some(Item::Skip),
        [b'r', rest @ ..] => {
            let (stream, rest) = leading_field(rest)?;
            read_record(keys, stream, rest)
        }
        [b'w', rest @ ..] => {
            let (stream, rest) = leading_field(rest)?;
            read_mark(stream, rest)
        }
        _ => None,
    }
}

/// The item of a line, which comes without its line end, where keys are numbers or words: [`Malformed`] where the line
/// is the text of no item. A line alone is never a late record.
pub fn read_line(line: &[u8], keys: Keys) -> Result<Item, Malformed>
    ensures exact { (i : Item) → (result ≡ Ok i) ↔ IsTextOf keys i line.now }
    ensures value { result_ok result ≡ spec.item_of keys line.now }
{
    match item_of(line, keys) {
        Some(item) => Ok(item),
        None => Err(Malformed),
    }
}

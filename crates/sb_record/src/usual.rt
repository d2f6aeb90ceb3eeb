//! The usual line at the front of bytes: a record whose key is a number, each of whose numbers has at most 18 digits.
//!
//! Such a number is below 10^18 whatever its digits are, so it is read without a test of its size at each digit, and
//! without a test of where the bytes end. What is not in this form is no fault: it is for the readers of every line.

ghost use Rattle.std.specs.Prelude.{◌≡◌, ◌≤◌, ◌<◌, ◌^◌, ◌+◌, ◌∷◌, ◌↔◌, Some, IfSome, false};
ghost use Rattle.std.specs.Char.{is_ascii_digit};
ghost use Rattle.sb_record.specs.FrontReading.{usual_line, usual_record as spec_usual_record};
ghost use Rattle.sb_record.specs.Fronts.{IsFront};
ghost use Rattle.sb_record.specs.Reading as spec;

use crate::front::FrontLine;
use crate::item::{MAX_TIME, Record, Stream};
use crate::key::{Key, Keys};
use crate::line::{after, leading_field};

/// How many bytes a short number takes at most, with the byte that ends it: it has up to 18 digits.
const SHORT: usize = 19;

/// A record whose key is a number, with the length of its line, in plain numbers: they take less time to move than an
/// [`Item`](crate::Item).
#[derive(Clone, Copy, Debug, PartialEq, Eq)]
pub struct UsualRecord {
    /// The stream that it is of.
    pub stream: Stream,
    /// Its time.
    pub time: u64,
    /// Its key.
    pub number: u64,
    /// Its value.
    pub value: i64,
    /// How many bytes its line has, without the line feed.
    pub len: usize,
}

impl UsualRecord {
    /// The record alone.
    #[inline(always)]
    pub fn record(self) -> Record
        ensures { result ≡ spec_usual_record self }
    {
        Record {
            time: self.time,
            key: Key::Number(self.number),
            value: self.value,
        }
    }
}

/// What a digit stands for; of every other byte, more than 9.
#[inline(always)]
fn digit_value(byte: u8) -> u64
    ensures { result ≤ 9 → byte ≡ 48 + result }
{
    u64::from(byte).wrapping_sub(u64::from(b'0'))
}

/// The short number at the front that this byte ends, and what follows the byte.
#[inline(always)]
fn short_number(end: u8, bytes: &[u8]) -> Option<(u64, &[u8])>
    requires { is_ascii_digit end ≡ false }
    ensures read { IfSome result (λ x. spec.digits_from 0 0 bytes.now ≡ Some (x.0, end ∷ x.1.now)) }
    ensures small { IfSome result (λ x. x.0 < 10 ^ 18) }
{
    if bytes.len() < SHORT {
        return None;
    }
    let mut value = digit_value(bytes[0]);
    if value > 9 {
        return None;
    }
    if value == 0 {
        return if bytes[1] == end {
            Some((0, &bytes[2..]))
        } else {
            None
        };
    }
    'digits: for i in 1..SHORT {
        let digit = digit_value(bytes[i]);
        if digit > 9 {
            return if bytes[i] == end {
                Some((value, &bytes[i + 1..]))
            } else {
                None
            };
        }
        value = value * 10 + digit;
    }
    None
}

/// The signed number at the front whose digits are a short number that this byte ends, and what follows the byte.
#[inline(always)]
#[tactic(auto, unfolding(crate::specs::Reading::signed_at))]
fn short_signed(end: u8, bytes: &[u8]) -> Option<(i64, &[u8])>
    requires { is_ascii_digit end ≡ false }
    ensures { IfSome result (λ x. spec.signed_at bytes.now ≡ Some (x.0, end ∷ x.1.now)) }
{
    match after(b'-', bytes) {
        Some(rest) => short_negative(end, rest),
        None => short_positive(end, bytes),
    }
}

/// The negative number whose minus sign stood before these bytes.
#[inline(always)]
fn short_negative(end: u8, bytes: &[u8]) -> Option<(i64, &[u8])>
    requires { is_ascii_digit end ≡ false }
    ensures { IfSome result (λ x. spec.negative_at bytes.now ≡ Some (x.0, end ∷ x.1.now)) }
{
    let (size, rest) = short_number(end, bytes)?;
    if size == 0 {
        return None;
    }
    Some((-((size - 1) as i64) - 1, rest))
}

/// The number that has no minus sign.
#[inline(always)]
#[tactic(auto, using(crate::proofs::ShortNumbers::short_positive))]
fn short_positive(end: u8, bytes: &[u8]) -> Option<(i64, &[u8])>
    requires { is_ascii_digit end ≡ false }
    ensures { IfSome result (λ x. spec.positive_at bytes.now ≡ Some (x.0, end ∷ x.1.now)) }
{
    let (size, rest) = short_number(end, bytes)?;
    Some((size as i64, rest))
}

/// The record that the bytes begin with, where it is in the usual form and a line feed stands behind it.
#[inline(always)]
fn usual_record(bytes: &[u8]) -> Option<UsualRecord>
    ensures { IfSome result (λ r.
        (f : FrontLine) → (Some (usual_line r) ≡ Some f) ↔ IsFront Keys.Numbers f.item f.len bytes.now) }
{
    let rest = after(b'r', bytes)?;
    let (stream, times) = leading_field(rest)?;
    let (time, numbers) = short_number(b',', times)?;
    if time > MAX_TIME {
        return None;
    }
    let (number, values) = short_number(b',', numbers)?;
    let (value, rest) = short_signed(b'\n', values)?;
    let len = bytes.len() - rest.len() - 1;
    Some(UsualRecord {
        stream,
        time,
        number,
        value,
        len,
    })
}

/// The same, where keys are numbers; nothing where they are words.
#[inline(always)]
pub(crate) fn read_usual(keys: Keys, bytes: &[u8]) -> Option<UsualRecord>
    ensures { IfSome result (λ r.
        (f : FrontLine) → (Some (usual_line r) ≡ Some f) ↔ IsFront keys f.item f.len bytes.now) }
{
    match keys {
        Keys::Numbers => usual_record(bytes),
        Keys::Words => None,
    }
}

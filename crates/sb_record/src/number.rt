//! Whole numbers as users spell them: decimal digits, without a sign and without a leading zero.

ghost use Rattle.std.specs.Prelude.{◌≡◌, ◌≤◌, ◌<◌, ◌↔◌, ◌^◌, ℕ, Some, IfSome, length, drop, decimal};
ghost use Rattle.std.specs.Option.{option_map};
ghost use Rattle.sb_record.specs.Reading as spec;

/// The number whose digits end after `len` bytes, and what follows it: none where there is no digit.
fn ended(bytes: &[u8], value: u64, len: usize) -> Option<(u64, &[u8])>
    requires { len ≤ length bytes.now }
    ensures { option_map (λ x. (x.0, x.1.now)) result ≡ spec.ended_number value len (drop len bytes.now) }
{
    if len > 0 {
        Some((value, &bytes[len..]))
    } else {
        None
    }
}

/// Whether a number has gone on past a first digit of zero.
fn is_leading_zero(value: u64, len: usize) -> bool
    ensures { result ≡ spec.is_leading_zero value len }
{
    value == 0 && len > 0
}

/// The number at the front, below 10^19, and what follows it.
fn leading_digits(bytes: &[u8]) -> Option<(u64, &[u8])>
    ensures { option_map (λ x. (x.0, x.1.now)) result ≡ spec.digits_from 0 0 bytes.now }
{
    let mut value = 0u64;
    'digits: for i in 0..bytes.len() {
        let digit = bytes[i];
        if !digit.is_ascii_digit() {
            return ended(bytes, value, i);
        }
        if is_leading_zero(value, i) {
            return None;
        }
        if value >= 1_000_000_000_000_000_000 {
            return None;
        }
        value = value * 10 + u64::from(digit - b'0');
    }
    ended(bytes, value, bytes.len())
}

/// The number at the front, up to a bound, and what follows it.
#[tactic(auto, unfolding(crate::specs::Reading::number_at))]
pub(crate) fn leading_number(most: u64, bytes: &[u8]) -> Option<(u64, &[u8])>
    ensures value { option_map (λ x. (x.0, x.1.now)) result ≡ spec.number_at most bytes.now }
    ensures small { IfSome result (λ x. x.0 ≤ most) }
{
    match leading_digits(bytes) {
        Some((value, rest)) if value <= most => Some((value, rest)),
        _ => None,
    }
}

/// The number that is all of a text, up to a bound.
#[tactic(auto, unfolding(crate::specs::Reading::whole_number))]
fn whole_number(most: u64, text: &[u8]) -> Option<u64>
    ensures { result ≡ spec.whole_number most text.now }
{
    let (value, rest) = leading_number(most, text)?;
    if rest.is_empty() { Some(value) } else { None }
}

/// The number that all of a text spells, where it is at most `most`. The bound itself is below 10^19.
pub fn read_number(most: u64, text: &[u8]) -> Option<u64>
    requires { most < 10 ^ 19 }
    ensures exact { (n : ℕ) → (result ≡ Some n) ↔ ((n ≤ most) × (text.now ≡ decimal n)) }
{
    whole_number(most, text)
}

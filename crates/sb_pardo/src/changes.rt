//! Changes of a record's key or value.

ghost use Rattle.std.specs.Prelude.{◌≡◌, ◌%◌, ◌/◌};
ghost use Rattle.sb_pardo.specs.KeyNumbers.{number_changed};
ghost use Rattle.sb_pardo.specs.Outputs as spec;
ghost use Rattle.sb_pardo.specs.Validity.{IsDivisor, IsValidChange};

use crate::operation::Change;
use sb_record::{Key, Record};

/// The record with the addend added to its value, modulo 2^64.
pub(crate) fn value_plus(input: &Record, addend: i64) -> Record
    ensures { result ≡ spec.value_plus input.now addend }
{
    Record {
        value: input.value.wrapping_add(addend),
        ..*input
    }
}

/// The record with its value multiplied by the factor, modulo 2^64.
fn value_times(input: &Record, factor: i64) -> Record
    ensures { result ≡ spec.value_times input.now factor }
{
    Record {
        value: input.value.wrapping_mul(factor),
        ..*input
    }
}

/// The record under another key.
pub(crate) fn with_key(input: &Record, key: Key) -> Record
    ensures { result ≡ record input.now { key = key } }
{
    Record { key, ..*input }
}

/// The key's remainder on division by the divisor, for a number. A word stays as it is.
fn remainder(key: Key, divisor: u64) -> Key
    requires { IsDivisor divisor }
    ensures { result ≡ number_changed (λ k. k % divisor) key }
{
    match key {
        Key::Number(number) => Key::Number(number % divisor),
        Key::Word(_) => key,
    }
}

/// The key's quotient by the divisor, rounded down, for a number. A word stays as it is.
fn quotient(key: Key, divisor: u64) -> Key
    requires { IsDivisor divisor }
    ensures { result ≡ number_changed (λ k. k / divisor) key }
{
    match key {
        Key::Number(number) => Key::Number(number / divisor),
        Key::Word(_) => key,
    }
}

/// The record, changed.
pub(crate) fn changed(change: Change, input: &Record) -> Record
    requires { IsValidChange change }
    ensures { result ≡ spec.changed_record change input.now }
{
    match change {
        Change::KeyMod(divisor) => with_key(input, remainder(input.key, divisor)),
        Change::KeyDiv(divisor) => with_key(input, quotient(input.key, divisor)),
        Change::KeySet(number) => with_key(input, Key::Number(number)),
        Change::ValueAdd(addend) => value_plus(input, addend),
        Change::ValueMul(factor) => value_times(input, factor),
        Change::ValueSet(value) => Record { value, ..*input },
    }
}

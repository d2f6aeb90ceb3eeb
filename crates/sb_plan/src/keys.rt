//! The values at the keys of a table.

ghost use Rattle.std.specs.Prelude.{◌≡◌, ◌≤◌, IfOk, MatchResult, Ok, Err};
ghost use Rattle.std.specs.Option.{option_map};
ghost use Rattle.toml.specs.Data.{as_array, as_integer, as_str, get_member};
ghost use Rattle.toml.specs.View.{array_view, table_view, view};
ghost use Rattle.sb_plan.specs.Keys.{is_one_of, key_text, number_at, number_between, typed_at};

use crate::fault::{PlanCause, PlanKey};
use toml::value::Array;
use toml::{Table, Value};

/// Whether the text is one of these keys.
pub(crate) fn is_one_of(text: &str, keys: &[PlanKey]) -> bool
    ensures { result ≡ is_one_of keys.now text.now }
{
    keys.iter().any(|key| text == key.text())
}

/// The value at a key, if the table has it.
pub(crate) fn value_at<'a>(table: &'a Table, key: PlanKey) -> Option<&'a Value>
    ensures { option_map (λ v. view v.now) result ≡ get_member (key_text key) (table_view table.now) }
{
    table.get(key.text())
}

/// The text at a key.
pub(crate) fn text_at<'a>(table: &'a Table, key: PlanKey) -> Result<&'a str, PlanCause>
    ensures { MatchResult result (λ s. typed_at as_str key (table_view table.now) ≡ Ok s.now)
        (λ e. typed_at as_str key (table_view table.now) ≡ Err e) }
{
    match value_at(table, key) {
        None => Err(PlanCause::Missing(key)),
        Some(value) => match value.as_str() {
            None => Err(PlanCause::WrongType(key)),
            Some(text) => Ok(text),
        },
    }
}

/// The integer at a key.
pub(crate) fn integer_at(table: &Table, key: PlanKey) -> Result<i64, PlanCause>
    ensures { result ≡ typed_at as_integer key (table_view table.now) }
{
    match value_at(table, key) {
        None => Err(PlanCause::Missing(key)),
        Some(value) => match value.as_integer() {
            None => Err(PlanCause::WrongType(key)),
            Some(number) => Ok(number),
        },
    }
}

/// The array at a key.
pub(crate) fn array_at<'a>(table: &'a Table, key: PlanKey) -> Result<&'a Array, PlanCause>
    ensures { MatchResult result (λ a. typed_at as_array key (table_view table.now) ≡ Ok (array_view a.now))
        (λ e. typed_at as_array key (table_view table.now) ≡ Err e) }
{
    match value_at(table, key) {
        None => Err(PlanCause::Missing(key)),
        Some(value) => match value.as_array() {
            None => Err(PlanCause::WrongType(key)),
            Some(array) => Ok(array),
        },
    }
}

/// An integer as a number from `low` to `high`.
pub(crate) fn number_between(number: i64, low: u64, high: u64) -> Option<u64>
    ensures { result ≡ number_between low high number }
{
    if number < 0 {
        return None;
    }
    let number = number as u64;
    if low <= number && number <= high {
        Some(number)
    } else {
        None
    }
}

/// The number at a key, from `low` to `high`.
#[tactic(auto, unfolding(crate::specs::Keys::number_at))]
pub(crate) fn number_at(table: &Table, key: PlanKey, low: u64, high: u64) -> Result<u64, PlanCause>
    ensures value { result ≡ number_at low high key (table_view table.now) }
    ensures range { IfOk result (λ n. (low ≤ n) × (n ≤ high)) }
{
    let number = integer_at(table, key)?;
    match number_between(number, low, high) {
        Some(number) => Ok(number),
        None => Err(PlanCause::OutOfRange(key)),
    }
}

//! Operations: the four kinds of ParDo, and which of them a plan may have.

ghost use Rattle.std.specs.Prelude.{IsTrue, ◌↔◌, ◌≤◌};
ghost use Rattle.sb_pardo.specs.Validity.{IsDivisor, IsValid, IsValidChange};

use crate::table::Table;
use sb_record::{MAX_KEY, Sequence};

/// How many addends an [`Op::Expand`] may have.
pub const MAX_ADDENDS: usize = 8;

/// A field of a record, as a whole number: a key above the greatest `i64` is itself, and not negative. A key that is a
/// word is no number.
#[derive(Clone, Copy, Debug, PartialEq, Eq)]
pub enum Field {
    Time,
    Key,
    Value,
}

/// How a field has to stand to a number.
#[derive(Clone, Copy, Debug, PartialEq, Eq)]
pub enum Test {
    /// The field is less than the number.
    Less,
    /// The field is at most the number.
    AtMost,
    /// The field is the number.
    Equal,
    /// The field is at least the number.
    AtLeast,
    /// The field is more than the number.
    More,
}

/// A change of one field.
#[derive(Clone, Copy, Debug, PartialEq, Eq)]
pub enum Change {
    /// The key becomes its remainder on division by the number. A word stays as it is.
    KeyMod(u64),
    /// The key becomes its quotient by the number, rounded down. A word stays as it is.
    KeyDiv(u64),
    /// The key becomes the number, whatever it was.
    KeySet(u64),
    /// The number is added to the value, modulo 2^64.
    ValueAdd(i64),
    /// The value is multiplied by the number, modulo 2^64.
    ValueMul(i64),
    /// The value becomes the number.
    ValueSet(i64),
}

/// An operation, which gives a list of records for each record. It never changes a record's time.
#[derive(Drop)]
pub enum Op {
    /// The record where its field is a number that passes the test against the other number, and else nothing. So a
    /// filter on the key gives nothing for a word.
    Filter(Field, Test, i64),
    /// The record, changed.
    Map(Change),
    /// For each addend, in order, the record with the addend added to its value, modulo 2^64.
    Expand(Sequence<i64>),
    /// The record with the table's image of its key as its key, and nothing where the key is not in the table.
    Lookup(Table),
}

/// Whether a plan may have the operation: a divisor is from 1 to [`MAX_KEY`], a key that is set is at most [`MAX_KEY`],
/// and there are from 1 to [`MAX_ADDENDS`] addends.
pub fn is_valid(op: &Op) -> bool
    ensures { IsTrue result ↔ IsValid op.now }
{
    match op {
        Op::Filter(_, _, _) => true,
        Op::Map(change) => is_valid_change(*change),
        Op::Expand(addends) => {
            let addends = addends.as_slice();
            !addends.is_empty() && addends.len() <= MAX_ADDENDS
        }
        Op::Lookup(table) => table.has_key_images(),
    }
}

fn is_valid_change(change: Change) -> bool
    ensures { IsTrue result ↔ IsValidChange change }
{
    match change {
        Change::KeyMod(divisor) | Change::KeyDiv(divisor) => is_divisor(divisor),
        Change::KeySet(key) => key <= MAX_KEY,
        Change::ValueAdd(_) | Change::ValueMul(_) | Change::ValueSet(_) => true,
    }
}

fn is_divisor(number: u64) -> bool
    ensures { IsTrue result ↔ IsDivisor number }
{
    1 <= number && number <= MAX_KEY
}

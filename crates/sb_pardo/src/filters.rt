//! Tests of a record's field.

ghost use Rattle.std.specs.Prelude.{◌≡◌, pos};
ghost use Rattle.std.specs.Option.{option_map};
ghost use Rattle.std.specs.Ordering.{int_cmp};
ghost use Rattle.sb_pardo.specs.Outputs as spec;

use crate::operation::{Field, Test};
use sb_record::{Key, Record};
use std::cmp::Ordering;

/// How an unsigned number compares to a signed one, both as whole numbers.
fn compare_unsigned(unsigned: u64, signed: i64) -> Ordering
    ensures { result ≡ int_cmp (pos unsigned) signed }
{
    match u64::try_from(signed) {
        Ok(number) => unsigned.cmp(&number),
        Err(_) => Ordering::Greater,
    }
}

/// How the field compares to the number, both as whole numbers: none for a key that is a word.
fn compare_field(field: Field, input: &Record, number: i64) -> Option<Ordering>
    ensures { result ≡ option_map (λ x. int_cmp x number) (spec.field_of field input.now) }
{
    match field {
        Field::Time => Some(compare_unsigned(input.time, number)),
        Field::Key => match input.key {
            Key::Number(key) => Some(compare_unsigned(key, number)),
            Key::Word(_) => None,
        },
        Field::Value => Some(input.value.cmp(&number)),
    }
}

/// Whether the record's field is a number that stands in the test's relation to the other number.
pub(crate) fn passes(field: Field, test: Test, number: i64, input: &Record) -> bool
    ensures { result ≡ spec.is_passed test (spec.field_of field input.now) number }
{
    let Some(ordering) = compare_field(field, input, number) else {
        return false;
    };
    match test {
        Test::Less => ordering.is_lt(),
        Test::AtMost => ordering.is_le(),
        Test::Equal => ordering.is_eq(),
        Test::AtLeast => ordering.is_ge(),
        Test::More => ordering.is_gt(),
    }
}

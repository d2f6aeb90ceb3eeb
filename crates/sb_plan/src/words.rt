//! The words of plan files, and what they stand for: a table for each list of words, and one look-up.

ghost use Rattle.std.specs.Prelude.{◌≡◌, map};
ghost use Rattle.sb_plan.specs.Words as word;

use crate::keys::number_between;
use sb_pipeline::{Agg, Change, Combine, Field, Keys, LatePolicy, MAX_KEY, Test};

/// A kind of transform, without what its keys say.
#[derive(Clone, Copy, Debug, PartialEq, Eq)]
pub(crate) enum KindName {
    Filter,
    Map,
    Expand,
    Lookup,
    /// An aggregation that gives one value.
    Group(Agg),
    Top,
    Session,
    Join,
}

/// A change of a field, without its number.
#[derive(Clone, Copy, Debug, PartialEq, Eq)]
pub(crate) enum ChangeName {
    KeyMod,
    KeyDiv,
    KeySet,
    ValueAdd,
    ValueMul,
    ValueSet,
}

/// What stands beside the first word of the table that is the text.
fn named<T: Copy>(table: &[(&str, T)], text: &str) -> Option<T>
    ensures { result ≡ word.named (map (λ pair. (pair.0.now, pair.1)) table.now) text.now }
{
    table.iter().find(|pair| text == pair.0).map(|pair| pair.1)
}

const LATE: &[(&str, LatePolicy)] = &[("refuse", LatePolicy::Refuse), ("drop", LatePolicy::Drop)];

#[tactic(auto, unfolding(crate::specs::Words::late_named))]
pub(crate) fn late_named(text: &str) -> Option<LatePolicy>
    ensures { result ≡ word.late_named text.now }
{
    named(LATE, text)
}

const KEYS: &[(&str, Keys)] = &[("numbers", Keys::Numbers), ("words", Keys::Words)];

#[tactic(auto, unfolding(crate::specs::Words::keys_named))]
pub(crate) fn keys_named(text: &str) -> Option<Keys>
    ensures { result ≡ word.keys_named text.now }
{
    named(KEYS, text)
}

/// The aggregations that give one value: each is a kind of transform, and sessions may give it.
const AGGREGATES: &[(&str, Agg)] = &[
    ("count", Agg::Count),
    ("sum", Agg::Sum),
    ("min", Agg::Min),
    ("max", Agg::Max),
    ("distinct", Agg::Distinct),
];

#[tactic(auto, unfolding(crate::specs::Words::aggregate_named))]
pub(crate) fn aggregate_named(text: &str) -> Option<Agg>
    ensures { result ≡ word.aggregate_named text.now }
{
    named(AGGREGATES, text)
}

/// The kinds of transforms beside [`AGGREGATES`].
const OTHER_KINDS: &[(&str, KindName)] = &[
    ("filter", KindName::Filter),
    ("map", KindName::Map),
    ("expand", KindName::Expand),
    ("lookup", KindName::Lookup),
    ("top", KindName::Top),
    ("session", KindName::Session),
    ("join", KindName::Join),
];

#[tactic(auto, unfolding(crate::specs::Words::kind_named))]
pub(crate) fn kind_named(text: &str) -> Option<KindName>
    ensures { result ≡ word.kind_named text.now }
{
    named(OTHER_KINDS, text).or_else(|| aggregate_named(text).map(KindName::Group))
}

fn are_numbers(keys: Keys) -> bool
    ensures { result ≡ word.are_numbers keys }
{
    match keys {
        Keys::Numbers => true,
        Keys::Words => false,
    }
}

const FIELDS: &[(&str, Field)] = &[
    ("time", Field::Time),
    ("key", Field::Key),
    ("value", Field::Value),
];

/// The field that a filter tests, where keys are these.
#[tactic(auto, unfolding(crate::specs::Words::field_named))]
pub(crate) fn field_named(keys: Keys, text: &str) -> Option<Field>
    ensures { result ≡ word.field_named keys text.now }
{
    named(FIELDS, text).filter(|field| may_test(keys, *field))
}

fn may_test(keys: Keys, field: Field) -> bool
    ensures { result ≡ word.may_test keys field }
{
    match field {
        Field::Key => are_numbers(keys),
        Field::Time | Field::Value => true,
    }
}

const TESTS: &[(&str, Test)] = &[
    ("less", Test::Less),
    ("at_most", Test::AtMost),
    ("equal", Test::Equal),
    ("at_least", Test::AtLeast),
    ("more", Test::More),
];

#[tactic(auto, unfolding(crate::specs::Words::test_named))]
pub(crate) fn test_named(text: &str) -> Option<Test>
    ensures { result ≡ word.test_named text.now }
{
    named(TESTS, text)
}

const CHANGES: &[(&str, ChangeName)] = &[
    ("key_mod", ChangeName::KeyMod),
    ("key_div", ChangeName::KeyDiv),
    ("key_set", ChangeName::KeySet),
    ("value_add", ChangeName::ValueAdd),
    ("value_mul", ChangeName::ValueMul),
    ("value_set", ChangeName::ValueSet),
];

/// The change that a map makes, where keys are these.
#[tactic(auto, unfolding(crate::specs::Words::change_named))]
pub(crate) fn change_named(keys: Keys, text: &str) -> Option<ChangeName>
    ensures { result ≡ word.change_named keys text.now }
{
    named(CHANGES, text).filter(|name| may_change(keys, *name))
}

fn may_change(keys: Keys, name: ChangeName) -> bool
    ensures { result ≡ word.may_change keys name }
{
    match name {
        ChangeName::KeyMod | ChangeName::KeyDiv | ChangeName::KeySet => are_numbers(keys),
        ChangeName::ValueAdd | ChangeName::ValueMul | ChangeName::ValueSet => true,
    }
}

/// The change by the number, if it may have that number.
pub(crate) fn change_by(name: ChangeName, number: i64) -> Option<Change>
    ensures { result ≡ word.change_by name number }
{
    match name {
        ChangeName::KeyMod => number_between(number, 1, MAX_KEY).map(Change::KeyMod),
        ChangeName::KeyDiv => number_between(number, 1, MAX_KEY).map(Change::KeyDiv),
        ChangeName::KeySet => number_between(number, 0, MAX_KEY).map(Change::KeySet),
        ChangeName::ValueAdd => Some(Change::ValueAdd(number)),
        ChangeName::ValueMul => Some(Change::ValueMul(number)),
        ChangeName::ValueSet => Some(Change::ValueSet(number)),
    }
}

const COMBINES: &[(&str, Combine)] = &[
    ("add", Combine::Add),
    ("sub", Combine::Sub),
    ("mul", Combine::Mul),
    ("min", Combine::Min),
    ("max", Combine::Max),
    ("left", Combine::Left),
    ("right", Combine::Right),
];

#[tactic(auto, unfolding(crate::specs::Words::combine_named))]
pub(crate) fn combine_named(text: &str) -> Option<Combine>
    ensures { result ≡ word.combine_named text.now }
{
    named(COMBINES, text)
}

//! The kinds of aggregation, and the aggregation of the values of one keyed window.

ghost use Rattle.std.specs.Prelude.{◌≡◌, ◌↔◌, ◌∷◌, [], ◌<◌, length, take, IfSome, IfNone, IsTrue, IsOk, OnOk, OnErr};
ghost use Rattle.std.specs.Ordering.{int_cmp};
ghost use Rattle.sb_window.specs.records.Orders.{distinct, in_order};
ghost use Rattle.sb_window.specs.Aggregations.{sum_values};
ghost use Rattle.sb_windowed.specs.Aggregates.{IsValid, aggregate_values, greatest_first, signed_value};

use sb_window::NoMemory;

/// How many of the greatest values [`Agg::Top`] may ask for.
pub const MAX_TOP: u32 = 16;

/// What is made of the values of a keyed window.
#[derive(Clone, Copy, Debug, PartialEq, Eq)]
pub enum Agg {
    /// How many there are, modulo 2^64 and read as signed.
    Count,
    /// Their sum, which wraps as that of 64-bit numbers does.
    Sum,
    /// The least.
    Min,
    /// The greatest.
    Max,
    /// How many different ones there are, modulo 2^64 and read as signed.
    Distinct,
    /// So many of the greatest, 1 to [`MAX_TOP`] of them, greatest first. Equal values are repeated.
    Top(u32),
}

impl Agg {
    /// Whether the number of greatest values, where the aggregation has one, is 1 to [`MAX_TOP`].
    pub fn is_valid(self) -> bool
        ensures { IsTrue result ↔ IsValid self }
    {
        match self {
            Agg::Top(most) => (1..=MAX_TOP).contains(&most),
            _ => true,
        }
    }
}

/// Turns the values of a keyed window into those of its rows, in place. It takes memory only where there are no values,
/// which no keyed window with records has.
///
/// # Errors
///
/// [`NoMemory`] where there were no values, and no memory for one.
pub fn aggregated(agg: Agg, values: &mut Vec<i64>) -> Result<(), NoMemory>
    ensures ok { OnOk result (values.new.items ≡ aggregate_values agg values.old.items) }
    ensures err { OnErr result (values.new.items ≡ values.old.items) }
    ensures succeeds { 0 < length values.old.items → IsOk result }
{
    match agg {
        Agg::Count => leave_count(values),
        Agg::Sum => {
            let sum = wrapping_sum(values);
            leave_one(values, sum)
        }
        Agg::Min => match least(values) {
            Some(value) => leave_one(values, value),
            None => Ok(()),
        },
        Agg::Max => match greatest(values) {
            Some(value) => leave_one(values, value),
            None => Ok(()),
        },
        Agg::Distinct => leave_distinct_count(values),
        Agg::Top(most) => {
            sort_greatest_first(values);
            values.truncate(most as usize);
            Ok(())
        }
    }
}

// Leaves the number of values.
fn leave_count(values: &mut Vec<i64>) -> Result<(), NoMemory>
    ensures ok { OnOk result (values.new.items ≡ signed_value (length values.old.items) ∷ []) }
    ensures err { OnErr result (values.new.items ≡ values.old.items) }
    ensures succeeds { 0 < length values.old.items → IsOk result }
{
    let count = (values.len() as u64).cast_signed();
    leave_one(values, count)
}

// Leaves the number of different values.
fn leave_distinct_count(values: &mut Vec<i64>) -> Result<(), NoMemory>
    ensures ok { OnOk result (values.new.items ≡ signed_value (length (distinct int_cmp values.old.items)) ∷ []) }
    ensures err { OnErr result (values.new.items ≡ values.old.items) }
    ensures succeeds { 0 < length values.old.items → IsOk result }
{
    keep_distinct(values);
    leave_count(values)
}

// Leaves one value, in place of those that were there.
fn leave_one(values: &mut Vec<i64>, value: i64) -> Result<(), NoMemory>
    ensures ok { OnOk result (values.new.items ≡ value ∷ []) }
    ensures err { OnErr result (values.new.items ≡ values.old.items) }
    ensures succeeds { 0 < length values.old.items → IsOk result }
{
    values.clear();
    values.push(value)?;
    Ok(())
}

fn wrapping_sum(values: &[i64]) -> i64
    ensures { result ∷ [] ≡ sum_values values.now }
{
    values
        .iter()
        .fold(0, |sum: i64, value| sum.wrapping_add(*value))
}

/// Leaves each value once, least first.
pub fn keep_distinct(values: &mut Vec<i64>)
    ensures { values.new.items ≡ distinct int_cmp values.old.items }
{
    values.sort_unstable();
    values.dedup();
}

fn sort_greatest_first(values: &mut Vec<i64>)
    ensures { values.new.items ≡ greatest_first values.old.items }
{
    values.sort_unstable_by(|a, b| b.cmp(a));
}

fn least(values: &[i64]) -> Option<i64>
    ensures first { IfSome result (λ m. take 1 (in_order int_cmp values.now) ≡ m ∷ []) }
    ensures none { IfNone result (values.now ≡ []) }
{
    values.iter().copied().min()
}

fn greatest(values: &[i64]) -> Option<i64>
    ensures first { IfSome result (λ m. take 1 (greatest_first values.now) ≡ m ∷ []) }
    ensures none { IfNone result (values.now ≡ []) }
{
    values.iter().copied().max()
}

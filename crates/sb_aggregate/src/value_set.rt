//! Sets of values, which are held by their size.

ghost use Rattle.std.specs.Prelude.{◌≡◌, ◌∷◌, ◌++◌, [], ◌%◌, ◌^◌, length, IfOk};
ghost use Rattle.std.specs.Ordering.{int_cmp};
ghost use Rattle.sb_runs.specs.records.Orders.{distinct};
ghost use Rattle.sb_aggregate.specs.Held.{set_values};

use crate::sorted_list::SortedList;
use sb_runs::NoMemory;
use std::alloc::Global;
use std::collections::BTreeSet;

// How many values are held as a list at most. A list takes time by its length for each value that is added, so this
// bounds what a record costs.
const MOST_LISTED: usize = 1_024;

/// Different values: few as a sorted list, many as a set whose parts are small.
#[derive(Drop)]
pub(crate) enum ValueSet {
    Listed(SortedList),
    Grown(BTreeSet<i64>),
}

impl ValueSet {
    /// The different ones of values.
    ///
    /// # Errors
    ///
    /// [`NoMemory`].
    pub(crate) fn of_values(alloc: Global, values: Vec<i64>) -> Result<ValueSet, NoMemory>
        ensures { IfOk result (λ set. set_values set ≡ distinct int_cmp values.items) }
    {
        by_size(alloc, SortedList::of_values(values))
    }

    /// How many values there are.
    pub(crate) fn len(&self) -> u64
        ensures { result ≡ length (set_values self.now) % 2 ^ 64 }
    {
        match self {
            ValueSet::Listed(list) => list.len() as u64,
            ValueSet::Grown(set) => set.len() as u64,
        }
    }

    /// The set with a value more.
    ///
    /// # Errors
    ///
    /// [`NoMemory`].
    pub(crate) fn with_value(self, alloc: Global, value: i64) -> Result<ValueSet, NoMemory>
        ensures { IfOk result (λ set. set_values set ≡ distinct int_cmp (set_values self ++ value ∷ [])) }
    {
        match self {
            ValueSet::Listed(list) => {
                let mut list = list;
                list.insert(value)?;
                by_size(alloc, list)
            }
            ValueSet::Grown(set) => {
                let mut set = set;
                set.insert(value)?;
                Ok(ValueSet::Grown(set))
            }
        }
    }

    /// The values of both sets.
    ///
    /// # Errors
    ///
    /// [`NoMemory`].
    pub(crate) fn with_all(self, alloc: Global, more: ValueSet) -> Result<ValueSet, NoMemory>
        ensures { IfOk result (λ set. set_values set ≡ distinct int_cmp (set_values self ++ set_values more)) }
    {
        match (self, more) {
            (ValueSet::Listed(list), ValueSet::Listed(more)) => {
                by_size(alloc, list.merged(alloc, &more)?)
            }
            (ValueSet::Listed(list), ValueSet::Grown(set)) => {
                Ok(ValueSet::Grown(with_values(set, list.into_list())?))
            }
            (ValueSet::Grown(set), ValueSet::Listed(list)) => {
                Ok(ValueSet::Grown(with_values(set, list.into_list())?))
            }
            (ValueSet::Grown(set), ValueSet::Grown(more)) => {
                Ok(ValueSet::Grown(with_set(set, more)?))
            }
        }
    }

    /// A copy.
    ///
    /// # Errors
    ///
    /// [`NoMemory`].
    pub(crate) fn copied(&self, alloc: Global) -> Result<ValueSet, NoMemory>
        ensures { IfOk result (λ set. set_values set ≡ set_values self.now) }
    {
        match self {
            ValueSet::Listed(list) => Ok(ValueSet::Listed(list.copied(alloc)?)),
            ValueSet::Grown(set) => Ok(ValueSet::Grown(set.clone()?)),
        }
    }

    /// The values, least first.
    ///
    /// # Errors
    ///
    /// [`NoMemory`].
    pub(crate) fn into_list(self, alloc: Global) -> Result<Vec<i64>, NoMemory>
        ensures { IfOk result (λ values. values.items ≡ set_values self) }
    {
        match self {
            ValueSet::Listed(list) => Ok(list.into_list()),
            ValueSet::Grown(set) => {
                let mut values = Vec::new(alloc);
                for value in set {
                    values.push(value)?;
                }
                Ok(values)
            }
        }
    }
}

// The values of a list, held by their number.
fn by_size(alloc: Global, list: SortedList) -> Result<ValueSet, NoMemory>
    ensures { IfOk result (λ set. set_values set ≡ list) }
{
    if list.len() <= MOST_LISTED {
        Ok(ValueSet::Listed(list))
    } else {
        Ok(ValueSet::Grown(list.into_set(alloc)?))
    }
}

// A set with values more.
fn with_values(set: BTreeSet<i64>, values: Vec<i64>) -> Result<BTreeSet<i64>, NoMemory>
    ensures { IfOk result (λ all. all.keys ≡ distinct int_cmp (set.keys ++ values.items)) }
{
    let mut all = set;
    all.extend(values)?;
    Ok(all)
}

// The values of two large sets: those of the smaller one are put into the larger one.
fn with_set(set: BTreeSet<i64>, more: BTreeSet<i64>) -> Result<BTreeSet<i64>, NoMemory>
    ensures { IfOk result (λ all. all.keys ≡ distinct int_cmp (set.keys ++ more.keys)) }
{
    if set.len() < more.len() {
        appended(more, set)
    } else {
        appended(set, more)
    }
}

// The values of two sets, which are put together in one pass unless one of them has few.
fn appended(set: BTreeSet<i64>, more: BTreeSet<i64>) -> Result<BTreeSet<i64>, NoMemory>
    ensures { IfOk result (λ all. all.keys ≡ distinct int_cmp (set.keys ++ more.keys)) }
{
    let (mut all, mut more) = (set, more);
    all.append(&mut more)?;
    Ok(all)
}

#[cfg(test)]
mod tests {
    use super::*;
    use std::test::Fail;

    // The values from `first` up to `end`, added one by one.
    fn added(alloc: Global, first: i64, end: i64) -> Result<ValueSet, NoMemory> {
        let mut set = ValueSet::of_values(alloc, Vec::new(alloc))?;
        for value in first..end {
            set = set.with_value(alloc, value)?;
        }
        Ok(set)
    }

    fn is_run(alloc: Global, set: ValueSet, first: i64, end: i64) -> Result<bool, NoMemory> {
        let values = set.into_list(alloc)?;
        Ok(values.into_iter().eq(first..end))
    }

    #[test]
    fn sets_of_each_size(rt: HostRuntime) -> Result<(), Fail> {
        let alloc = rt.alloc();
        let cases = [
            ((0, 3), (2, 5), (0, 5), true),
            ((2, 5), (0, 3), (0, 5), true),
            ((0, 1_024), (0, 1_024), (0, 1_024), true),
            ((0, 1_024), (1_023, 1_025), (0, 1_025), false),
            ((0, 1_000), (900, 1_100), (0, 1_100), false),
            ((0, 1_100), (1_099, 1_102), (0, 1_102), false),
            ((-2, 1), (0, 1_100), (-2, 1_100), false),
            ((0, 1_100), (1_000, 2_200), (0, 2_200), false),
            ((1_000, 2_300), (0, 1_100), (0, 2_300), false),
        ];
        for (one, other, all, is_few) in cases {
            let more = added(alloc, other.0, other.1)?;
            let set = added(alloc, one.0, one.1)?.with_all(alloc, more)?;
            assert_eq!(rt; matches!(&set, ValueSet::Listed(_)), is_few, "{all:?}");
            assert!(rt; is_run(alloc, set, all.0, all.1)?, "{all:?}");
        }
        Ok(())
    }

    #[test]
    fn ends_of_the_range(rt: HostRuntime) -> Result<(), Fail> {
        let alloc = rt.alloc();
        let ends = vec![in alloc; i64::MAX, i64::MIN, 0, i64::MAX]?;
        let more = vec![in alloc; i64::MIN, 1]?;
        let set = ValueSet::of_values(alloc, ends)?.with_value(alloc, i64::MIN)?;
        let all = set.with_all(alloc, ValueSet::of_values(alloc, more)?)?;
        let want = vec![in alloc; i64::MIN, 0, 1, i64::MAX]?;
        assert_eq!(rt; all.into_list(alloc)?, want);
        Ok(())
    }
}

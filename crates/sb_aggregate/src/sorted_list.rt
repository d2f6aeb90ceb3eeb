//! Sorted lists: sets of few values.

ghost use Rattle.std.specs.Prelude.{◌≡◌, ◌∷◌, ◌++◌, [], length, IfOk, OnOk};
ghost use Rattle.std.specs.List.Sorted.{IsStrictlySortedBy};
ghost use Rattle.std.specs.Ordering.{int_cmp};
ghost use Rattle.sb_runs.specs.records.Orders.{distinct};

use sb_runs::NoMemory;
use sb_windowed::keep_distinct;
use std::alloc::Global;
use std::collections::BTreeSet;
use std::marker::Model;

/// Different values in order, which contracts see as their list. As long as they are few, a value is added and two
/// lists are put together in less time than in a [`BTreeSet`].
#[derive(Drop)]
pub(crate) struct SortedList {
    values: Vec<i64>,
}

impl Model for SortedList {
    ghost use Rattle.std.specs.Prelude.{ℤ, List};
    ghost use Rattle.std.specs.List.Sorted.{IsStrictlySortedBy};
    ghost use Rattle.std.specs.Ordering.{int_cmp};

    ghost Value = { List ℤ };

    ghost view = { λ s. s.values.items };

    ghost invariant = { λ s. IsStrictlySortedBy int_cmp s.values.items };
}

impl SortedList {
    /// The different ones of values.
    pub(crate) fn of_values(values: Vec<i64>) -> SortedList
        ensures { result ≡ distinct int_cmp values.items }
    {
        let mut values = values;
        keep_distinct(&mut values);
        SortedList { values }
    }

    /// How many values there are.
    pub(crate) fn len(&self) -> usize
        ensures { result ≡ length self.now }
    {
        self.values.len()
    }

    /// Adds a value, unless it is there.
    ///
    /// # Errors
    ///
    /// [`NoMemory`]; the list is as it was then.
    pub(crate) fn insert(&mut self, value: i64) -> Result<(), NoMemory>
        ensures { OnOk result (self.new ≡ distinct int_cmp (self.old ++ value ∷ [])) }
    {
        if let Err(place) = self.values.binary_search(&value) {
            self.values.insert(place, value)?;
        }
        Ok(())
    }

    /// The values of both lists.
    ///
    /// # Errors
    ///
    /// [`NoMemory`].
    pub(crate) fn merged(&self, alloc: Global, more: &SortedList) -> Result<SortedList, NoMemory>
        ensures { IfOk result (λ all. all ≡ distinct int_cmp (self.now ++ more.now)) }
    {
        let values = merge(alloc, &self.values, &more.values)?;
        Ok(SortedList { values })
    }

    /// A copy.
    ///
    /// # Errors
    ///
    /// [`NoMemory`].
    pub(crate) fn copied(&self, alloc: Global) -> Result<SortedList, NoMemory>
        ensures { IfOk result (λ copy. copy ≡ self.now) }
    {
        let values = Vec::from_slice(alloc, &self.values)?;
        Ok(SortedList { values })
    }

    /// The values, least first.
    pub(crate) fn into_list(self) -> Vec<i64>
        ensures { result.items ≡ self }
    {
        self.values
    }

    /// The values as a set that may grow large.
    ///
    /// # Errors
    ///
    /// [`NoMemory`].
    pub(crate) fn into_set(self, alloc: Global) -> Result<BTreeSet<i64>, NoMemory>
        ensures { IfOk result (λ set. set.keys ≡ self) }
    {
        let set = BTreeSet::from_iter(alloc, self.values)?;
        Ok(set)
    }
}

// The values of two sorted lists, each once, which are put together in one pass. It branches on no value, since which
// of two values is the lesser can't be foretold.
fn merge(alloc: Global, values: &[i64], more: &[i64]) -> Result<Vec<i64>, NoMemory>
    requires values { IsStrictlySortedBy int_cmp values.now }
    requires more { IsStrictlySortedBy int_cmp more.now }
    ensures { IfOk result (λ all. all.items ≡ distinct int_cmp (values.now ++ more.now)) }
{
    let mut all = Vec::with_capacity(alloc, values.len() + more.len())?;
    let mut place = 0;
    let mut place_of_more = 0;
    while place < values.len() && place_of_more < more.len() {
        let value = values[place];
        let other = more[place_of_more];
        all.push(value.min(other))?;
        place += usize::from(value <= other);
        place_of_more += usize::from(other <= value);
    }
    all.extend_from_slice(&values[place..])?;
    all.extend_from_slice(&more[place_of_more..])?;
    Ok(all)
}

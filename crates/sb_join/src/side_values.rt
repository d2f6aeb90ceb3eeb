//! What a join keeps of one keyed window: the values that came on both sides.

ghost use Rattle.std.specs.Prelude.{◌≡◌, [], ◌∷◌, ◌++◌, OnOk, IfOk};
ghost use Rattle.sb_windowed.specs.declared.join.Side.TheVariants.{Left as OnLeft, Right as OnRight};
ghost use Rattle.sb_join.specs.Entries.{of_side};

use sb_runs::{Joiner, KeyedWindow, NoMemory, compare_windows, later_window};
use sb_windowed::Side;
use std::alloc::Global;
use std::cmp::Ordering;
use std::marker::Model;

/// The values of a keyed window, in the order in which they came. Contracts see them as a list, each with its side.
///
/// The first one stands by itself, so that a window with one value takes no memory of its own.
#[derive(Drop)]
pub(crate) struct SideValues {
    first: (Side, i64),
    others: Vec<(Side, i64)>,
}

impl Model for SideValues {
    ghost use Rattle.std.specs.Prelude.{ℤ, List, ◌∷◌};
    ghost use Rattle.sb_windowed.specs.declared.join.Side.{Side as ASide};

    ghost Value = { List (ASide × ℤ) };

    ghost view = { λ s. s.first ∷ s.others.items };
}

impl SideValues {
    /// One value. It takes no memory.
    pub(crate) fn of_one(alloc: Global, side: Side, value: i64) -> SideValues
        ensures { result ≡ (side, value) ∷ [] }
    {
        SideValues {
            first: (side, value),
            others: Vec::new(alloc),
        }
    }

    /// Adds values that came later.
    ///
    /// # Errors
    ///
    /// [`NoMemory`]; some of them may have been added.
    pub(crate) fn append(&mut self, later: SideValues) -> Result<(), NoMemory>
        ensures { OnOk result (self.new ≡ self.old ++ later) }
    {
        let mut more = later.others;
        self.others.push(later.first)?;
        self.others.append(&mut more)?;
        Ok(())
    }

    /// A copy.
    ///
    /// # Errors
    ///
    /// [`NoMemory`].
    pub(crate) fn copied(&self, alloc: Global) -> Result<SideValues, NoMemory>
        ensures { IfOk result (λ copy. copy ≡ self.now) }
    {
        Ok(SideValues {
            first: self.first,
            others: Vec::from_slice(alloc, &self.others)?,
        })
    }

    /// Puts the values of each side in place of what is in a vector.
    ///
    /// # Errors
    ///
    /// [`NoMemory`]; what is in the vectors is unknown then.
    pub(crate) fn split_into(
        &self,
        left: &mut Vec<i64>,
        right: &mut Vec<i64>,
    ) -> Result<(), NoMemory>
        ensures left { OnOk result (left.new.items ≡ of_side OnLeft self.now) }
        ensures right { OnOk result (right.new.items ≡ of_side OnRight self.now) }
    {
        left.clear();
        right.clear();
        push_on_side(self.first, left, right)?;
        push_all(&self.others, left, right)
    }
}

// Adds each value to those of its side.
fn push_all(
    values: &[(Side, i64)],
    left: &mut Vec<i64>,
    right: &mut Vec<i64>,
) -> Result<(), NoMemory>
    ensures left { OnOk result (left.new.items ≡ left.old.items ++ of_side OnLeft values.now) }
    ensures right { OnOk result (right.new.items ≡ right.old.items ++ of_side OnRight values.now) }
{
    for value in values {
        push_on_side(*value, left, right)?;
    }
    Ok(())
}

// Adds a value to those of its side.
fn push_on_side(
    value: (Side, i64),
    left: &mut Vec<i64>,
    right: &mut Vec<i64>,
) -> Result<(), NoMemory>
    ensures left { OnOk result (left.new.items ≡ left.old.items ++ of_side OnLeft (value ∷ [])) }
    ensures right { OnOk result (right.new.items ≡ right.old.items ++ of_side OnRight (value ∷ [])) }
{
    match value.0 {
        Side::Left => left.push(value.1)?,
        Side::Right => right.push(value.1)?,
    }
    Ok(())
}

/// Joins the values of a keyed window: the later ones come behind.
#[derive(Drop)]
pub(crate) struct SideJoiner {
    pub(crate) alloc: Global,
}

impl Joiner for SideJoiner {
    type Entry = (KeyedWindow, SideValues);

    type Value = SideValues;

    ghost seen = { λ e. e };

    ghost joined = { λ j v w. v ++ w };

    fn end(entry: &(KeyedWindow, SideValues)) -> u64 {
        entry.0.end
    }

    fn compare(one: &(KeyedWindow, SideValues), other: &(KeyedWindow, SideValues)) -> Ordering {
        compare_windows(&one.0, &other.0)
    }

    fn join(
        &self,
        entry: &mut (KeyedWindow, SideValues),
        later: (KeyedWindow, SideValues),
    ) -> Result<(), NoMemory> {
        entry.1.append(later.1)
    }

    fn later(
        &self,
        entry: &(KeyedWindow, SideValues),
        by: u64,
    ) -> Result<(KeyedWindow, SideValues), NoMemory> {
        Ok((later_window(&entry.0, by), entry.1.copied(self.alloc)?))
    }
}

//! Partial values: what is kept of the values of a keyed window until it closes.

ghost use Rattle.std.specs.Prelude.{◌≡◌, ◌∷◌, ◌++◌, [], ◌%◌, ◌^◌, length, true, IsSome, IfSome, IfOk, OnOk};
ghost use Rattle.sb_windowed.specs.Aggregates.{IsValid};
ghost use Rattle.sb_aggregate.specs.Partials.{is_single, partial_values, join_values, final_values, joining, rows_of_values};
ghost use Rattle.sb_aggregate.specs.Held.{held_values};

use crate::value_set::ValueSet;
use sb_runs::{Joiner, KeyedWindow, NoMemory, Record, compare_windows, later_window};
use sb_windowed::{Agg, aggregated};
use std::alloc::Global;
use std::cmp::Ordering;
use std::marker::Model;

/// The partial value of the values of a keyed window, which contracts see as a list: a count, a sum, the least or the
/// greatest value alone, or the different values in order, or the greatest values, greatest first.
#[derive(Drop)]
pub(crate) struct Partial {
    held: Held,
}

// A partial value by its form. A single value takes no memory of its own.
#[derive(Drop)]
enum Held {
    One(i64),
    Different(ValueSet),
    Several(Vec<i64>),
}

impl Model for Partial {
    ghost use Rattle.std.specs.Prelude.{ℤ, List};

    ghost Value = { List ℤ };

    ghost use Rattle.sb_aggregate.specs.Held.{held_values};

    ghost view = { λ p. held_values p.held };
}

/// The aggregation that makes one partial value of two.
pub(crate) fn joining_of(agg: Agg) -> Agg
    ensures { result ≡ joining agg }
{
    match agg {
        Agg::Count => Agg::Sum,
        agg => agg,
    }
}

/// What stands for a value where partial values are joined: counts begin at 1.
pub(crate) fn first_of(agg: Agg, value: i64) -> i64
    ensures { partial_values (joining agg) (result ∷ []) ≡ partial_values agg (value ∷ []) }
{
    match agg {
        Agg::Count => 1,
        _ => value,
    }
}

/// What two partial values come to, each a single value, where it is always a single value too.
pub(crate) fn joined_of(agg: Agg, one: i64, other: i64) -> Option<i64>
    ensures joined { IfSome result (λ value. value ∷ [] ≡ join_values agg (one ∷ []) (other ∷ [])) }
    ensures some { is_single agg ≡ true → IsSome result }
{
    match agg {
        Agg::Count | Agg::Sum => Some(one.wrapping_add(other)),
        Agg::Min => Some(one.min(other)),
        Agg::Max => Some(one.max(other)),
        Agg::Distinct | Agg::Top(_) => None,
    }
}

impl Partial {
    /// That of a single number.
    pub(crate) fn single(value: i64) -> Partial
        ensures { result ≡ value ∷ [] }
    {
        Partial {
            held: Held::One(value),
        }
    }

    /// The partial value of one value.
    pub(crate) fn of_one(agg: Agg, value: i64) -> Partial
        requires { IsValid agg }
        ensures { result ≡ partial_values agg (value ∷ []) }
    {
        let value = match agg {
            Agg::Count => 1,
            _ => value,
        };
        Partial {
            held: Held::One(value),
        }
    }

    /// Joins another partial value to this one.
    ///
    /// # Errors
    ///
    /// [`NoMemory`]; both are lost then.
    pub(crate) fn join(&mut self, alloc: Global, agg: Agg, more: Partial) -> Result<(), NoMemory>
        ensures { OnOk result (self.new ≡ join_values agg self.old more) }
    {
        if let (Held::One(one), Held::One(other)) = (&self.held, &more.held) {
            if let Some(joined) = joined_of(agg, *one, *other) {
                self.held = Held::One(joined);
                return Ok(());
            }
        }
        let held = std::mem::replace(&mut self.held, Held::One(0));
        self.held = match more.held {
            Held::One(value) => with_value(alloc, agg, held, value)?,
            more => with_values(alloc, agg, held, more)?,
        };
        Ok(())
    }

    /// A copy.
    ///
    /// # Errors
    ///
    /// [`NoMemory`].
    pub(crate) fn copied(&self, alloc: Global) -> Result<Partial, NoMemory>
        ensures { IfOk result (λ copy. copy ≡ self.now) }
    {
        let held = match &self.held {
            Held::One(value) => Held::One(*value),
            Held::Different(values) => Held::Different(values.copied(alloc)?),
            Held::Several(values) => Held::Several(Vec::from_slice(alloc, values)?),
        };
        Ok(Partial { held })
    }

    /// Adds the rows of a keyed window that has this partial value.
    ///
    /// # Errors
    ///
    /// [`NoMemory`]; some of the rows may have been added.
    pub(crate) fn push_rows(
        self,
        alloc: Global,
        agg: Agg,
        window: &KeyedWindow,
        rows: &mut Vec<Record>,
    ) -> Result<(), NoMemory>
        ensures { OnOk result (rows.new.items ≡ rows.old.items ++ rows_of_values window.now (final_values agg self)) }
    {
        match (agg, self.held) {
            (Agg::Distinct, held) => push_row(window, held.len().cast_signed(), rows),
            (_, Held::One(value)) => push_row(window, value, rows),
            (_, held) => {
                for value in held.into_list(alloc)? {
                    push_row(window, value, rows)?;
                }
                Ok(())
            }
        }
    }
}

/// Joins the partial values of an aggregation.
#[derive(Drop)]
pub(crate) struct PartialJoiner {
    pub(crate) alloc: Global,
    pub(crate) agg: Agg,
}

impl Joiner for PartialJoiner {
    type Entry = (KeyedWindow, Partial);

    type Value = Partial;

    ghost seen = { λ e. e };

    ghost joined = { λ j v w. join_values j.agg v w };

    fn end(entry: &(KeyedWindow, Partial)) -> u64 {
        entry.0.end
    }

    fn compare(one: &(KeyedWindow, Partial), other: &(KeyedWindow, Partial)) -> Ordering {
        compare_windows(&one.0, &other.0)
    }

    fn join(
        &self,
        entry: &mut (KeyedWindow, Partial),
        later: (KeyedWindow, Partial),
    ) -> Result<(), NoMemory> {
        entry.1.join(self.alloc, self.agg, later.1)
    }

    fn later(
        &self,
        entry: &(KeyedWindow, Partial),
        by: u64,
    ) -> Result<(KeyedWindow, Partial), NoMemory> {
        Ok((later_window(&entry.0, by), entry.1.copied(self.alloc)?))
    }
}

impl Held {
    // How many values there are.
    fn len(&self) -> u64
        ensures { result ≡ length (held_values self.now) % 2 ^ 64 }
    {
        match self {
            Held::One(_) => 1,
            Held::Different(values) => values.len(),
            Held::Several(values) => values.len() as u64,
        }
    }

    fn into_list(self, alloc: Global) -> Result<Vec<i64>, NoMemory>
        ensures { IfOk result (λ values. values.items ≡ held_values self) }
    {
        match self {
            Held::One(value) => {
                let mut values = Vec::new(alloc);
                values.push(value)?;
                Ok(values)
            }
            Held::Different(values) => values.into_list(alloc),
            Held::Several(values) => Ok(values),
        }
    }
}

// What is held with the partial value of one value more.
fn with_value(alloc: Global, agg: Agg, held: Held, value: i64) -> Result<Held, NoMemory>
    ensures { IfOk result (λ h. held_values h ≡ join_values agg (held_values held) (value ∷ [])) }
{
    match (agg, held) {
        (Agg::Distinct, Held::Different(values)) => {
            Ok(Held::Different(values.with_value(alloc, value)?))
        }
        (agg, held) => {
            let mut values = held.into_list(alloc)?;
            values.push(value)?;
            made_of(alloc, agg, values)
        }
    }
}

// What is held with another partial value.
fn with_values(alloc: Global, agg: Agg, held: Held, more: Held) -> Result<Held, NoMemory>
    ensures { IfOk result (λ h. held_values h ≡ join_values agg (held_values held) (held_values more)) }
{
    match (agg, held, more) {
        // Which of the two came first doesn't matter.
        (agg, Held::One(value), more) => with_value(alloc, agg, more, value),
        (Agg::Distinct, Held::Different(values), Held::Different(more)) => {
            Ok(Held::Different(values.with_all(alloc, more)?))
        }
        (agg, held, more) => {
            let mut values = held.into_list(alloc)?;
            let mut more = more.into_list(alloc)?;
            values.append(&mut more)?;
            made_of(alloc, agg, values)
        }
    }
}

// What is held of partial values, one after the other.
fn made_of(alloc: Global, agg: Agg, values: Vec<i64>) -> Result<Held, NoMemory>
    ensures { IfOk result (λ h. held_values h ≡ partial_values (joining agg) values.items) }
{
    match joining_of(agg) {
        Agg::Distinct => Ok(Held::Different(ValueSet::of_values(alloc, values)?)),
        agg => {
            let mut values = values;
            aggregated(agg, &mut values)?;
            Ok(Held::Several(values))
        }
    }
}

// Adds a row of a keyed window.
pub(crate) fn push_row(
    window: &KeyedWindow,
    value: i64,
    rows: &mut Vec<Record>,
) -> Result<(), NoMemory>
    ensures { OnOk result (rows.new.items ≡ rows.old.items ++ rows_of_values window.now (value ∷ [])) }
{
    rows.push(Record {
        time: window.end.saturating_sub(1),
        key: window.key,
        value,
    })?;
    Ok(())
}

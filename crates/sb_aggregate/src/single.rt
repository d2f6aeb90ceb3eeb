//! Entries of 24 bytes: for keys that are numbers, where a partial value is always a single number.

ghost use Rattle.std.specs.Prelude.{◌≡◌, ◌∷◌, [], true, IsSome, IfSome};
ghost use Rattle.sb_aggregate.specs.Partials.{is_single, join_values};
ghost use Rattle.sb_aggregate.specs.Numbers.{single_entry};

use crate::partial::{Partial, joined_of};
use crate::placing::Numbered;
use sb_runs::{Joiner, NoMemory};
use sb_windowed::Agg;
use std::cmp::Ordering;
use std::marker::Model;

/// Joins the partial values of an aggregation that always makes a single number of two. Contracts see it as that
/// aggregation.
#[derive(Drop)]
pub(crate) struct SingleJoiner {
    agg: Agg,
}

impl Model for SingleJoiner {
    ghost use Rattle.std.specs.Prelude.{◌≡◌, true};
    ghost use Rattle.sb_windowed.specs.declared.aggregate.Agg.{Agg as AnAgg};
    ghost use Rattle.sb_aggregate.specs.Partials.{is_single};

    ghost Value = { AnAgg };

    ghost view = { λ j. j.agg };

    ghost invariant = { λ j. is_single j.agg ≡ true };
}

impl SingleJoiner {
    /// That of an aggregation, if there is one.
    pub(crate) fn of(agg: Agg) -> Option<SingleJoiner>
        ensures joiner { IfSome result (λ joiner. joiner ≡ agg) }
        ensures single { IsSome result → is_single agg ≡ true }
    {
        match agg {
            Agg::Count | Agg::Sum | Agg::Min | Agg::Max => Some(SingleJoiner { agg }),
            Agg::Distinct | Agg::Top(_) => None,
        }
    }

    // What two partial values come to.
    fn joined(&self, one: i64, other: i64) -> i64
        ensures { result ∷ [] ≡ join_values self.now (one ∷ []) (other ∷ []) }
    {
        match joined_of(self.agg, one, other) {
            Some(value) => value,
            None => unreachable!(),
        }
    }
}

impl Joiner for SingleJoiner {
    type Entry = Numbered;

    type Value = Partial;

    ghost seen = { single_entry };

    ghost joined = { λ j v w. join_values j v w };

    fn end(entry: &Numbered) -> u64 {
        entry.end
    }

    fn compare(one: &Numbered, other: &Numbered) -> Ordering {
        if one.end != other.end {
            return one.end.cmp(&other.end);
        }
        one.key.cmp(&other.key)
    }

    fn join(&self, entry: &mut Numbered, later: Numbered) -> Result<(), NoMemory> {
        entry.value = self.joined(entry.value, later.value);
        Ok(())
    }

    fn later(&self, entry: &Numbered, by: u64) -> Result<Numbered, NoMemory> {
        Ok(Numbered {
            end: entry.end + by,
            ..*entry
        })
    }
}

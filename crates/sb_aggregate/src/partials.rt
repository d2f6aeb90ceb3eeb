//! The partial values of many keyed windows, in the form that takes the least room.
//!
//! As long as all keys are numbers, and partial values are single numbers, entries take 24 bytes, and else 80. A node
//! keeps one of the two forms: it goes over to the larger one once a part needs that.

ghost use Rattle.std.specs.Prelude.{◌≡◌, ◌+◌, ◌*◌, ◌^◌, ◌<◌, ◌≤◌, [], nat_lt, None, if◌then◌else◌, OnOk, IfOk};
ghost use Rattle.std.specs.List.{AllByRecursion};
ghost use Rattle.sb_runs.specs.records.Records.{sorted_records};
ghost use Rattle.sb_runs.specs.window.declared.keyed_window.KeyedWindow.{KeyedWindow as Window};
ghost use Rattle.sb_runs.specs.window.Gatherings.{joined_value, rows_of_entries};
ghost use Rattle.sb_runs.specs.Runs.{found, found_in, spread_value, IsRun};
ghost use Rattle.sb_aggregate.specs.Held.{run_of, runs_of};
ghost use Rattle.sb_aggregate.specs.Partials.{final_values, join_values, PartialValues};

use crate::partial::{Partial, PartialJoiner};
use crate::rows::{rows_of, rows_of_singles};
use crate::single::SingleJoiner;
use sb_runs::{NoMemory, Record, Run, Runs, spread};
use sb_windowed::Agg;
use std::alloc::Global;
use std::collections::VecDeque;

/// The partial values of a part: a run.
#[derive(Drop)]
pub(crate) enum Partials {
    /// Single numbers, of keys that are numbers.
    Single(Run<SingleJoiner>),
    /// Any others.
    Any(Run<PartialJoiner>),
}

impl Partials {
    /// Spreads what there is for panes to the windows: a pane lies in `count` windows, the first of which ends as it
    /// does, and each other one `every` after the one before.
    ///
    /// # Errors
    ///
    /// [`NoMemory`].
    pub(crate) fn spread(
        self,
        alloc: Global,
        agg: Agg,
        every: u64,
        count: u64,
    ) -> Result<Partials, NoMemory>
        requires some { 1 ≤ count }
        requires ends { AllByRecursion (λ e. e.0.end + count * every < 2 ^ 64) (run_of self) }
        ensures { IfOk result (λ all. (q : Window) → found (run_of all) q
            ≡ spread_value (join_values agg) every count (run_of self) q) }
    {
        match (self, SingleJoiner::of(agg)) {
            (Partials::Single(run), Some(joiner)) => {
                Ok(Partials::Single(spread(alloc, &joiner, run, every, count)?))
            }
            (panes, _) => {
                let joiner = PartialJoiner { alloc, agg };
                let run = panes.into_any(alloc)?;
                Ok(Partials::Any(spread(alloc, &joiner, run, every, count)?))
            }
        }
    }

    // The same in the form for any partial values.
    fn into_any(self, alloc: Global) -> Result<Run<PartialJoiner>, NoMemory>
        ensures { IfOk result (λ run. run ≡ run_of self) }
    {
        match self {
            Partials::Single(run) => any_of(alloc, run),
            Partials::Any(run) => Ok(run),
        }
    }
}

/// The partial values that a node keeps: runs.
#[derive(Drop)]
pub(crate) enum KeptPartials {
    /// Single numbers, of keys that are numbers.
    Single(Runs<SingleJoiner>),
    /// Any others.
    Any(Runs<PartialJoiner>),
}

impl KeptPartials {
    /// None. It takes no memory.
    pub(crate) fn new(alloc: Global) -> KeptPartials
        ensures { runs_of result ≡ [] }
    {
        KeptPartials::Single(Runs::new(alloc))
    }

    /// Adds those of a part, whose values come after the others.
    ///
    /// # Errors
    ///
    /// [`NoMemory`]; what is kept is unknown then.
    pub(crate) fn push(&mut self, alloc: Global, agg: Agg, part: Partials) -> Result<(), NoMemory>
        ensures { OnOk result ((q : Window) → found_in (join_values agg) (runs_of self.new) q
            ≡ joined_value (join_values agg) (found_in (join_values agg) (runs_of self.old) q)
            (found (run_of part) q)) }
    {
        let kept = std::mem::replace(self, KeptPartials::new(alloc));
        match (kept, part, SingleJoiner::of(agg)) {
            (KeptPartials::Single(mut runs), Partials::Single(run), Some(joiner)) => {
                runs.push(alloc, &joiner, run)?;
                *self = KeptPartials::Single(runs);
            }
            (kept, part, _) => {
                let mut runs = kept.into_any(alloc, agg)?;
                runs.push(alloc, &PartialJoiner { alloc, agg }, part.into_any(alloc)?)?;
                *self = KeptPartials::Any(runs);
            }
        }
        Ok(())
    }

    /// Takes off what there is for the keyed windows that end by the mark, and gives its rows, in order.
    ///
    /// # Errors
    ///
    /// [`NoMemory`]; what is kept is unknown then.
    pub(crate) fn close(
        &mut self,
        alloc: Global,
        agg: Agg,
        mark: u64,
    ) -> Result<Vec<Record>, NoMemory>
        ensures closed { IfOk result (λ rows. (run : PartialValues) × IsRun run
            × ((q : Window) → found run q
            ≡ (if nat_lt mark q.end then None else found_in (join_values agg) (runs_of self.old) q))
            × (rows.items ≡ sorted_records (rows_of_entries (final_values agg) run))) }
        ensures opened { OnOk result ((q : Window) → found_in (join_values agg) (runs_of self.new) q
            ≡ (if nat_lt mark q.end then found_in (join_values agg) (runs_of self.old) q else None)) }
    {
        let kept = std::mem::replace(self, KeptPartials::new(alloc));
        match (kept, SingleJoiner::of(agg)) {
            (KeptPartials::Single(mut runs), Some(joiner)) => {
                let closed = runs.close(alloc, &joiner, mark)?;
                *self = KeptPartials::Single(runs);
                rows_of_singles(alloc, &joiner, closed)
            }
            (kept, _) => {
                let joiner = PartialJoiner { alloc, agg };
                let mut runs = kept.into_any(alloc, agg)?;
                let closed = runs.close(alloc, &joiner, mark)?;
                *self = KeptPartials::Any(runs);
                rows_of(&joiner, closed)
            }
        }
    }

    // The same in the form for any partial values.
    fn into_any(self, alloc: Global, agg: Agg) -> Result<Runs<PartialJoiner>, NoMemory>
        ensures { IfOk result (λ runs. (q : Window) → found_in (join_values agg) runs q
            ≡ found_in (join_values agg) (runs_of self) q) }
    {
        match self {
            KeptPartials::Single(runs) => any_of_all(alloc, agg, runs),
            KeptPartials::Any(runs) => Ok(runs),
        }
    }
}

// A run in the form for any partial values.
fn any_of(alloc: Global, run: Run<SingleJoiner>) -> Result<Run<PartialJoiner>, NoMemory>
    ensures { IfOk result (λ any. any ≡ run) }
{
    let singles = run.into_kept();
    let mut kept = VecDeque::with_capacity(alloc, singles.len())?;
    for single in singles.iter() {
        kept.push_back((single.window(), Partial::single(single.value)))?;
    }
    Ok(Run::of_kept(kept))
}

// Runs in the form for any partial values.
fn any_of_all(
    alloc: Global,
    agg: Agg,
    runs: Runs<SingleJoiner>,
) -> Result<Runs<PartialJoiner>, NoMemory>
    ensures { IfOk result (λ all. (q : Window) → found_in (join_values agg) all q
        ≡ found_in (join_values agg) runs q) }
{
    let joiner = PartialJoiner { alloc, agg };
    let mut rest = runs.into_list();
    let mut all = Runs::new(alloc);
    'runs: while let Some(run) = rest.pop_front() {
        all.push(alloc, &joiner, any_of(alloc, run)?)?;
    }
    Ok(all)
}

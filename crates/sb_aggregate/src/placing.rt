//! The values of a bundle, each placed at the pane of its record.
//!
//! A value is joined at once to one that was placed at the same pane, where that one is still remembered. So where many
//! records fall in one pane, few values are left to put in order. What is remembered changes no result, only time.

ghost use Rattle.std.specs.Prelude.{◌≡◌, ◌∷◌, [], ◌<◌, true, false, IsTrue, map, OnOk, IfOk};
ghost use Rattle.sb_runs.specs.records.Reorderings.{IsReordered};
ghost use Rattle.sb_runs.specs.records.declared.key.Key.TheVariants.{Number};
ghost use Rattle.sb_runs.specs.window.declared.keyed_window.KeyedWindow.{KeyedWindow as Window};
ghost use Rattle.sb_runs.specs.window.Gatherings.{joined_value};
ghost use Rattle.sb_windowed.specs.Aggregates.{IsValid};
ghost use Rattle.sb_aggregate.specs.Partials.{is_single, partial_values, joining, join_values};
ghost use Rattle.sb_runs.specs.Placed.{placed_value};
ghost use Rattle.sb_aggregate.specs.Held.{run_of};
ghost use Rattle.sb_aggregate.specs.Numbers.{numbered_entry};
ghost use Rattle.sb_runs.specs.Runs.{found};

use crate::partial::{Partial, PartialJoiner, joined_of, joining_of};
use crate::partials::Partials;
use crate::ranking::sort_numbers;
use crate::single::SingleJoiner;
use sb_runs::{Key, KeyedWindow, NoMemory, Run};
use sb_windowed::Agg;
use std::alloc::Global;
use std::marker::Model;

/// How many panes are remembered at most.
pub(crate) const SLOTS: usize = 1024;

/// A value at the pane of a key that is a number.
#[derive(Clone, Copy)]
pub(crate) struct Numbered {
    pub(crate) end: u64,
    pub(crate) key: u64,
    pub(crate) value: i64,
}

/// Partial values at panes, each a single value, in any order. Contracts see them as the list of all.
///
/// Those of keys that are numbers are kept apart: they take less room, and are put in order in less time.
#[derive(Drop)]
pub(crate) struct Placing {
    numbers: Vec<Numbered>,
    words: Vec<(KeyedWindow, i64)>,
}

impl Model for Placing {
    ghost use Rattle.std.specs.Prelude.{ℤ, List, ◌++◌, map};
    ghost use Rattle.sb_runs.specs.window.declared.keyed_window.KeyedWindow.{KeyedWindow as Window};
    ghost use Rattle.sb_aggregate.specs.Numbers.{numbered_entry};

    ghost Value = { List (Window × ℤ) };

    ghost view = { λ p. map numbered_entry p.numbers.items ++ p.words.items };
}

impl Numbered {
    // Where its pane is remembered.
    fn slot(&self) -> usize
        ensures { result < SLOTS }
    {
        let end = self.end.wrapping_mul(0x9E37_79B9_7F4A_7C15);
        let key = self.key.wrapping_mul(0xD6E8_FEB8_6659_FD93);
        ((end ^ key) >> 32) as usize % SLOTS
    }

    // What panes are put in order by: the end, and then the key.
    #[inline(always)]
    pub(crate) fn rank(&self) -> u128 {
        (u128::from(self.end) << 64) | u128::from(self.key)
    }

    // Its pane.
    pub(crate) fn window(&self) -> KeyedWindow
        ensures { result ≡ (numbered_entry self.now).0 }
    {
        KeyedWindow {
            end: self.end,
            key: Key::Number(self.key),
        }
    }
}

impl Placing {
    /// No values, with room for as many at keys that are numbers.
    ///
    /// # Errors
    ///
    /// [`NoMemory`].
    pub(crate) fn new(alloc: Global, room: usize) -> Result<Placing, NoMemory>
        ensures { IfOk result (λ placing. placing ≡ []) }
    {
        Ok(Placing {
            numbers: Vec::with_capacity(alloc, room)?,
            words: Vec::new(alloc),
        })
    }

    /// Places a value at a pane. In `slots` is remembered where values of panes were placed last; it begins with zeros.
    ///
    /// # Errors
    ///
    /// [`NoMemory`].
    pub(crate) fn add(
        &mut self,
        slots: &mut [u16; SLOTS],
        agg: Agg,
        window: KeyedWindow,
        value: i64,
    ) -> Result<(), NoMemory>
        ensures { OnOk result ((q : Window) → placed_value (partial_values (joining agg)) self.new q
            ≡ joined_value (join_values agg) (placed_value (partial_values (joining agg)) self.old q)
            (placed_value (partial_values (joining agg)) ((window, value) ∷ []) q)) }
    {
        let KeyedWindow { end, key } = window;
        let Key::Number(key) = key else {
            self.words.push((window, value))?;
            return Ok(());
        };
        let entry = Numbered { end, key, value };
        let slot = entry.slot();
        if join_at(agg, &mut self.numbers, usize::from(slots[slot]), &entry) {
            return Ok(());
        }
        slots[slot] = u16::try_from(self.numbers.len()).unwrap_or(0);
        self.numbers.push(entry)?;
        Ok(())
    }

    /// Puts the values in order, and gives what they come to at each pane.
    ///
    /// # Errors
    ///
    /// [`NoMemory`].
    pub(crate) fn run(&mut self, alloc: Global, agg: Agg) -> Result<Partials, NoMemory>
        requires { IsValid agg }
        ensures { IfOk result
            (λ run. (q : Window) → found (run_of run) q ≡ placed_value (partial_values (joining agg)) self.old q) }
    {
        sort_numbers(alloc, &mut self.numbers)?;
        if self.words.is_empty() {
            if let Some(joiner) = SingleJoiner::of(agg) {
                let run = run_of_singles(alloc, agg, &joiner, &self.numbers)?;
                return Ok(Partials::Single(run));
            }
        }
        sort_words(&mut self.words);
        let joiner = PartialJoiner { alloc, agg };
        let numbers = run_of_numbers(alloc, agg, &self.numbers)?;
        let words = run_of_words(alloc, agg, &self.words)?;
        Ok(Partials::Any(numbers.merged(alloc, &joiner, words)?))
    }
}

// Joins a value to the one at this place, and answers true, where both are of the same pane and give a single value.
fn join_at(agg: Agg, numbers: &mut Vec<Numbered>, at: usize, entry: &Numbered) -> bool
    ensures joined { IsTrue result → (q : Window)
        → placed_value (partial_values (joining agg)) (map numbered_entry numbers.new.items) q
        ≡ joined_value (join_values agg)
        (placed_value (partial_values (joining agg)) (map numbered_entry numbers.old.items) q)
        (placed_value (partial_values (joining agg)) (numbered_entry entry.now ∷ []) q) }
    ensures left { result ≡ false → numbers.new.items ≡ numbers.old.items }
{
    if at >= numbers.len() {
        return false;
    }
    let Numbered { end, key, value } = numbers[at];
    if end != entry.end || key != entry.key {
        return false;
    }
    let Some(joined) = joined_of(agg, value, entry.value) else {
        return false;
    };
    numbers[at] = Numbered {
        end,
        key,
        value: joined,
    };
    true
}

// Puts values in the order of panes. Nothing but time depends on that order.
fn sort_words(words: &mut Vec<(KeyedWindow, i64)>)
    ensures { IsReordered words.new.items words.old.items }
{
    words.sort_unstable();
}

// What values at keys that are numbers come to, where that is a single number at each.
fn run_of_singles(
    alloc: Global,
    agg: Agg,
    joiner: &SingleJoiner,
    numbers: &[Numbered],
) -> Result<Run<SingleJoiner>, NoMemory>
    requires joiner { joiner.now ≡ agg }
    requires single { is_single agg ≡ true }
    ensures { IfOk result (λ run. (q : Window)
        → found run q ≡ placed_value (partial_values (joining agg)) (map numbered_entry numbers.now) q) }
{
    let mut run = Run::with_room(alloc, numbers.len())?;
    for entry in numbers {
        add_single(alloc, joiner, entry.end, entry.key, entry.value, &mut run)?;
    }
    Ok(run)
}

// Joins a value to a run of single numbers.
fn add_single(
    alloc: Global,
    joiner: &SingleJoiner,
    end: u64,
    key: u64,
    value: i64,
    run: &mut Run<SingleJoiner>,
) -> Result<(), NoMemory>
    requires { is_single joiner.now ≡ true }
    ensures { OnOk result ((q : Window) → found run.new q ≡ joined_value (join_values joiner.now) (found run.old q)
        (found ((record { end = end; key = Number key }, partial_values (joining joiner.now) (value ∷ [])) ∷ []) q)) }
{
    run.add(alloc, joiner, Numbered { end, key, value })
}

// What values at keys that are numbers come to.
fn run_of_numbers(
    alloc: Global,
    agg: Agg,
    numbers: &[Numbered],
) -> Result<Run<PartialJoiner>, NoMemory>
    requires { IsValid agg }
    ensures { IfOk result (λ run. (q : Window)
        → found run q ≡ placed_value (partial_values (joining agg)) (map numbered_entry numbers.now) q) }
{
    let joiner = PartialJoiner { alloc, agg };
    let mut run = Run::with_room(alloc, numbers.len())?;
    for entry in numbers {
        let partial = Partial::of_one(joining_of(agg), entry.value);
        run.add(alloc, &joiner, (entry.window(), partial))?;
    }
    Ok(run)
}

// What values at other keys come to.
fn run_of_words(
    alloc: Global,
    agg: Agg,
    words: &[(KeyedWindow, i64)],
) -> Result<Run<PartialJoiner>, NoMemory>
    requires { IsValid agg }
    ensures { IfOk result
        (λ run. (q : Window) → found run q ≡ placed_value (partial_values (joining agg)) words.now q) }
{
    let joiner = PartialJoiner { alloc, agg };
    let mut run = Run::with_room(alloc, words.len())?;
    for entry in words {
        let window = KeyedWindow { ..entry.0 };
        let partial = Partial::of_one(joining_of(agg), entry.1);
        run.add(alloc, &joiner, (window, partial))?;
    }
    Ok(run)
}

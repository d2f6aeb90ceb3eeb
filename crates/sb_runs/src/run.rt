//! Sorted runs: for each of some keyed windows a value, in the windows' order.

ghost use Rattle.std.specs.Prelude.{◌≡◌, ◌∷◌, ◌++◌, [], ◌+◌, ◌^◌, ◌<◌, ◌≤◌, length, map, take, drop, nat_lt, None, if◌then◌else◌, true, IsTrue, OnOk, IfOk};
ghost use Rattle.std.specs.List.{AllByRecursion};
ghost use Rattle.sb_window.specs.declared.keyed_window.KeyedWindow.{KeyedWindow as Window};
ghost use Rattle.sb_window.specs.Gatherings.{joined_value};
ghost use Rattle.sb_runs.specs.Merged.{merged};
ghost use Rattle.sb_runs.specs.Merges.{begins_by};
ghost use Rattle.sb_runs.specs.Runs.{IsRun, found, shifted_by};

use crate::closed::Closed;
use crate::entries::Entries;
use crate::joiner::Joiner;
use sb_window::NoMemory;
use std::alloc::Global;
use std::cmp::Ordering;
use std::collections::VecDeque;
use std::marker::Model;

/// A value for each of some keyed windows, in the windows' order. Contracts see it as the list of these entries, which
/// is a finite map.
#[derive(Drop)]
pub struct Run<J: Joiner> {
    entries: Entries<J>,
}

impl<J: Joiner> Model for Run<J> {
    ghost use Rattle.std.specs.Prelude.{List};
    ghost use Rattle.sb_window.specs.declared.keyed_window.KeyedWindow.{KeyedWindow as Window};
    ghost use Rattle.sb_runs.specs.Runs.{IsRun};

    ghost Value = { List (Window × J.Value) };

    ghost view = { λ r. r.entries };

    ghost invariant = { λ r. IsRun r.entries };
}

impl<J: Joiner> Run<J> {
    /// The run without entries. It takes no memory.
    pub fn new(alloc: Global) -> Run<J>
        ensures { result ≡ [] }
    {
        Run {
            entries: Entries::new(alloc),
        }
    }

    /// The run without entries, with room for so many.
    ///
    /// # Errors
    ///
    /// [`NoMemory`].
    pub fn with_room(alloc: Global, room: usize) -> Result<Run<J>, NoMemory>
        ensures { IfOk result (λ run. run ≡ []) }
    {
        Ok(Run {
            entries: Entries::with_room(alloc, room)?,
        })
    }

    /// The run of these entries, whose windows rise.
    pub fn of_kept(kept: VecDeque<J::Entry>) -> Run<J>
        requires { IsRun (map J.seen kept.items) }
        ensures { result ≡ map J.seen kept.items }
    {
        Run {
            entries: Entries::of_kept(kept),
        }
    }

    /// How many entries there are.
    pub fn len(&self) -> usize
        ensures { result ≡ length self.now }
    {
        self.entries.len()
    }

    /// Joins an entry. No other is moved if its window is the last of the run, or behind it.
    ///
    /// # Errors
    ///
    /// [`NoMemory`]; what the run has is unknown then.
    pub fn add(&mut self, alloc: Global, joiner: &J, entry: J::Entry) -> Result<(), NoMemory>
        ensures { OnOk result ((q : Window) → found self.new q
            ≡ joined_value (J.joined joiner.now) (found self.old q) (found (J.seen entry ∷ []) q)) }
    {
        if is_behind(&self.entries, &entry) {
            self.entries.push(entry)?;
            return Ok(());
        }
        let entries = std::mem::replace(&mut self.entries, Entries::new(alloc));
        self.entries = with_entry(alloc, joiner, entries, entry)?;
        Ok(())
    }

    /// The run with the values of a later one joined. If the windows of the later one are all behind those of this one,
    /// none are compared.
    ///
    /// # Errors
    ///
    /// [`NoMemory`].
    pub fn merged(self, alloc: Global, joiner: &J, later: Run<J>) -> Result<Run<J>, NoMemory>
        ensures { IfOk result (λ run. (q : Window) → found run q
            ≡ joined_value (J.joined joiner.now) (found self q) (found later q)) }
    {
        if self.len() == 0 {
            return Ok(later);
        }
        if later.len() == 0 {
            return Ok(self);
        }
        if is_before(&self.entries, &later.entries) {
            let entries = self.entries.followed_by(later.entries)?;
            return Ok(Run { entries });
        }
        let entries = merge(alloc, joiner, self, later)?;
        Ok(Run { entries })
    }

    /// The run with windows that end so much later, and with copies of its values.
    ///
    /// # Errors
    ///
    /// [`NoMemory`].
    pub fn shifted(&self, alloc: Global, joiner: &J, by: u64) -> Result<Run<J>, NoMemory>
        requires { AllByRecursion (λ e. e.0.end + by < 2 ^ 64) self.now }
        ensures { IfOk result (λ run. run ≡ shifted_by by self.now) }
    {
        let entries = self.entries.later(alloc, joiner, by)?;
        Ok(Run { entries })
    }

    /// Cuts the run into the entries of the keyed windows that end by the mark, and the others. If all of them do, none
    /// is moved.
    ///
    /// # Errors
    ///
    /// [`NoMemory`].
    pub fn split_at(self, alloc: Global, mark: u64) -> Result<(Run<J>, Run<J>), NoMemory>
        ensures closed { IfOk result (λ parts. (q : Window) → found parts.0 q
            ≡ (if nat_lt mark q.end then None else found self q)) }
        ensures opened { IfOk result (λ parts. (q : Window) → found parts.1 q
            ≡ (if nat_lt mark q.end then found self q else None)) }
    {
        if ends_by(&self.entries, mark) {
            return Ok((self, Run::new(alloc)));
        }
        let mut open = self.entries;
        let mut closed = Entries::with_room(alloc, open.count_closed(mark))?;
        'entries: while is_first_closed(&open, mark) {
            move_first(&mut open, &mut closed)?;
        }
        Ok((Run { entries: closed }, Run { entries: open }))
    }

    /// The entries as they are kept, in the windows' order.
    pub fn into_kept(self) -> VecDeque<J::Entry>
        ensures items { map J.seen result.items ≡ self }
        ensures ordered { IsRun self }
    {
        self.entries.into_kept()
    }

    /// The entries, in the windows' order.
    pub(crate) fn into_entries(self) -> Entries<J>
        ensures items { result ≡ self }
        ensures ordered { IsRun self }
    {
        self.entries
    }
}

// Joins an entry to others.
fn with_entry<J: Joiner>(
    alloc: Global,
    joiner: &J,
    entries: Entries<J>,
    entry: J::Entry,
) -> Result<Entries<J>, NoMemory>
    requires { IsRun entries }
    ensures run { IfOk result (λ all. IsRun all) }
    ensures joined { IfOk result (λ all. (q : Window) → found all q
        ≡ joined_value (J.joined joiner.now) (found entries q) (found (J.seen entry ∷ []) q)) }
{
    let mut all = entries;
    let Some(mut last) = all.pop_last() else {
        all.push(entry)?;
        return Ok(all);
    };
    match J::compare(&last, &entry) {
        Ordering::Less => {
            all.push(last)?;
            all.push(entry)?;
            Ok(all)
        }
        Ordering::Equal => {
            joiner.join(&mut last, entry)?;
            all.push(last)?;
            Ok(all)
        }
        Ordering::Greater => {
            all.push(last)?;
            let mut one = Entries::new(alloc);
            one.push(entry)?;
            merge(alloc, joiner, Run { entries: all }, Run { entries: one })
        }
    }
}

// The entries of two runs as one, where those of the same keyed window are joined.
fn merge<J: Joiner>(
    alloc: Global,
    joiner: &J,
    earlier: Run<J>,
    later: Run<J>,
) -> Result<Entries<J>, NoMemory>
    ensures { IfOk result (λ all. all ≡ merged (J.joined joiner.now) earlier later) }
{
    let mut both = Closed::new(earlier, later);
    let mut all = Entries::with_room(alloc, both.most())?;
    'entries: while let Some(entry) = both.next(joiner)? {
        all.push(entry)?;
    }
    Ok(all)
}

// Whether the windows of a run are before those of another.
fn is_before<J: Joiner>(ones: &Entries<J>, others: &Entries<J>) -> bool
    requires ones { IsRun ones.now }
    requires others { IsRun others.now }
    ensures { IsTrue result → IsRun (ones.now ++ others.now) }
{
    match (ones.last(), others.first()) {
        (Some(one), Some(other)) => J::compare(one, other).is_lt(),
        _ => false,
    }
}

// Whether the window of an entry is behind all windows of a run.
fn is_behind<J: Joiner>(entries: &Entries<J>, entry: &J::Entry) -> bool
    requires { IsRun entries.now }
    ensures { IsTrue result → IsRun (entries.now ++ J.seen entry.now ∷ []) }
{
    match entries.last() {
        Some(last) => J::compare(last, entry).is_lt(),
        None => true,
    }
}

// Moves the first entry, if there is one, to the end of others.
fn move_first<J: Joiner>(from: &mut Entries<J>, into: &mut Entries<J>) -> Result<(), NoMemory>
    ensures from { OnOk result (from.new ≡ drop 1 from.old) }
    ensures into { OnOk result (into.new ≡ into.old ++ take 1 from.old) }
{
    if let Some(first) = from.pop_first() {
        into.push(first)?;
    }
    Ok(())
}

// Whether there is a first window, and it ends by the mark.
fn is_first_closed<J: Joiner>(entries: &Entries<J>, mark: u64) -> bool
    ensures { result ≡ begins_by mark entries.now }
{
    match entries.first() {
        Some(first) => J::end(first) <= mark,
        None => false,
    }
}

// Whether there are entries, and the windows of all of them end by the mark.
fn ends_by<J: Joiner>(entries: &Entries<J>, mark: u64) -> bool
    requires { IsRun entries.now }
    ensures { result ≡ true → AllByRecursion (λ e. e.0.end ≤ mark) entries.now }
{
    match entries.last() {
        Some(last) => J::end(last) <= mark,
        None => false,
    }
}

//! What a closing takes off: the entries of two runs, merged as they are taken one after the other.

ghost use Rattle.std.specs.Prelude.{◌≡◌, ◌-◌, ◌++◌, take, drop, length, map, OnOk, IfOk};
ghost use Rattle.std.specs.Option.{option_to_list};
ghost use Rattle.sb_runs.specs.Merged.{merged};
ghost use Rattle.sb_runs.specs.Merges.{firsts_cmp, joined_firsts};
ghost use Rattle.sb_runs.specs.Runs.{IsRun};

use crate::entries::Entries;
use crate::joiner::Joiner;
use crate::run::Run;
use sb_window::NoMemory;
use std::cmp::Ordering;
use std::marker::Model;

/// The entries of two runs that closed. Contracts see it as both, and what is given as what they come to merged.
///
/// Whoever makes something of each entry takes them as they are merged, so that no run is built for it.
#[derive(Drop)]
pub struct Closed<J: Joiner> {
    ones: Entries<J>,
    others: Entries<J>,
}

impl<J: Joiner> Model for Closed<J> {
    ghost use Rattle.std.specs.Prelude.{List};
    ghost use Rattle.sb_window.specs.declared.keyed_window.KeyedWindow.{KeyedWindow as Window};
    ghost use Rattle.sb_runs.specs.Runs.{IsRun};

    ghost Value = { List (Window × J.Value) × List (Window × J.Value) };

    ghost view = { λ c. (c.ones, c.others) };

    ghost invariant = { λ c. IsRun c.ones × IsRun c.others };
}

impl<J: Joiner> Closed<J> {
    /// Two runs, the second of which came later.
    pub(crate) fn new(ones: Run<J>, others: Run<J>) -> Closed<J>
        ensures both { result ≡ (ones, others) }
        ensures runs { IsRun ones × IsRun others }
    {
        Closed {
            ones: ones.into_entries(),
            others: others.into_entries(),
        }
    }

    /// How many entries both runs have: at most so many are given.
    pub fn most(&self) -> usize {
        self.ones.len().saturating_add(self.others.len())
    }

    /// The next entry, in the windows' order, if there is one. What both runs have for a keyed window is joined.
    ///
    /// # Errors
    ///
    /// [`NoMemory`]; entries may be lost then.
    pub fn next(&mut self, joiner: &J) -> Result<Option<J::Entry>, NoMemory>
        ensures first { IfOk result (λ next. map J.seen (option_to_list next)
            ≡ take 1 (merged (J.joined joiner.now) self.old.0 self.old.1)) }
        ensures rest { OnOk result (merged (J.joined joiner.now) self.new.0 self.new.1
            ≡ drop 1 (merged (J.joined joiner.now) self.old.0 self.old.1)) }
    {
        match compare_firsts(&self.ones, &self.others) {
            Some(Ordering::Less) => Ok(self.ones.pop_first()),
            Some(Ordering::Equal) => joined_first(joiner, &mut self.ones, &mut self.others),
            Some(Ordering::Greater) => Ok(self.others.pop_first()),
            None => Ok(first_left(&mut self.ones, &mut self.others)),
        }
    }
}

// How the first windows compare, if there are both.
#[inline(always)]
fn compare_firsts<J: Joiner>(ones: &Entries<J>, others: &Entries<J>) -> Option<Ordering>
    ensures { result ≡ firsts_cmp ones.now others.now }
{
    let one = ones.first()?;
    let other = others.first()?;
    Some(J::compare(one, other))
}

// The first entries, joined, if there are both.
fn joined_first<J: Joiner>(
    joiner: &J,
    ones: &mut Entries<J>,
    others: &mut Entries<J>,
) -> Result<Option<J::Entry>, NoMemory>
    ensures ones { ones.new ≡ drop 1 ones.old }
    ensures others { others.new ≡ drop 1 others.old }
    ensures entry { IfOk result (λ entry. map J.seen (option_to_list entry)
        ≡ joined_firsts (J.joined joiner.now) ones.old others.old) }
{
    let (one, other) = (ones.pop_first(), others.pop_first());
    let (Some(mut entry), Some(later)) = (one, other) else {
        return Ok(None);
    };
    joiner.join(&mut entry, later)?;
    Ok(Some(entry))
}

// Takes off the first entry of the first list, or if there is none, of the second.
fn first_left<J: Joiner>(ones: &mut Entries<J>, others: &mut Entries<J>) -> Option<J::Entry>
    ensures first { map J.seen (option_to_list result) ≡ take 1 (ones.old ++ others.old) }
    ensures ones { ones.new ≡ drop 1 ones.old }
    ensures others { others.new ≡ drop (1 - length ones.old) others.old }
{
    if ones.len() == 0 {
        return others.pop_first();
    }
    ones.pop_first()
}

//! The entries of a run, in the form in which they are kept.

ghost use Rattle.std.specs.Prelude.{◌≡◌, ◌∷◌, ◌++◌, ◌-◌, ◌+◌, ◌^◌, ◌<◌, [], ◌↔◌, take, drop, length, map, slice_index_or, IsSome, IfSome, IfNone, OnOk, OnErr, IfOk};
ghost use Rattle.std.specs.Option.{option_to_list};
ghost use Rattle.std.specs.List.{AllByRecursion};
ghost use Rattle.sb_runs.specs.Runs.{shifted_by};

use crate::joiner::Joiner;
use sb_window::NoMemory;
use std::alloc::Global;
use std::collections::VecDeque;
use std::marker::Model;

/// Entries, one after the other. Contracts see them as the list of the keyed windows with their values.
///
/// They are a deque, since the least windows are closed first: what stays is not moved then.
#[derive(Drop)]
pub(crate) struct Entries<J: Joiner> {
    kept: VecDeque<J::Entry>,
}

impl<J: Joiner> Model for Entries<J> {
    ghost use Rattle.std.specs.Prelude.{List, map};
    ghost use Rattle.sb_window.specs.declared.keyed_window.KeyedWindow.{KeyedWindow as Window};

    ghost Value = { List (Window × J.Value) };

    ghost view = { λ e. map J.seen e.kept.items };
}

impl<J: Joiner> Entries<J> {
    /// No entries. It takes no memory.
    pub(crate) fn new(alloc: Global) -> Entries<J>
        ensures { result ≡ [] }
    {
        Entries {
            kept: VecDeque::new(alloc),
        }
    }

    /// No entries, with room for so many.
    ///
    /// # Errors
    ///
    /// [`NoMemory`].
    pub(crate) fn with_room(alloc: Global, room: usize) -> Result<Entries<J>, NoMemory>
        ensures { IfOk result (λ entries. entries ≡ []) }
    {
        Ok(Entries {
            kept: VecDeque::with_capacity(alloc, room)?,
        })
    }

    /// Those that are kept so.
    pub(crate) fn of_kept(kept: VecDeque<J::Entry>) -> Entries<J>
        ensures { result ≡ map J.seen kept.items }
    {
        Entries { kept }
    }

    /// As they are kept.
    pub(crate) fn into_kept(self) -> VecDeque<J::Entry>
        ensures { map J.seen result.items ≡ self }
    {
        self.kept
    }

    /// How many entries there are.
    pub(crate) fn len(&self) -> usize
        ensures { result ≡ length self.now }
    {
        self.kept.len()
    }

    /// The first entry, if there is one.
    pub(crate) fn first(&self) -> Option<&J::Entry>
        ensures variant { IsSome result ↔ (0 < length self.now) }
        ensures lookup { IfSome result (λ e. J.seen e.now ≡ slice_index_or self.now 0 (J.seen e.now)) }
    {
        self.kept.front()
    }

    /// The last entry, if there is one.
    pub(crate) fn last(&self) -> Option<&J::Entry>
        ensures variant { IsSome result ↔ (0 < length self.now) }
        ensures lookup { IfSome result (λ e. J.seen e.now
            ≡ slice_index_or self.now (length self.now - 1) (J.seen e.now)) }
    {
        self.kept.back()
    }

    /// Takes off the first entry, if there is one.
    pub(crate) fn pop_first(&mut self) -> Option<J::Entry>
        ensures first { map J.seen (option_to_list result) ≡ take 1 self.old }
        ensures rest { self.new ≡ drop 1 self.old }
    {
        self.kept.pop_front()
    }

    /// Takes off the last entry, if there is one.
    pub(crate) fn pop_last(&mut self) -> Option<J::Entry>
        ensures last { self.old ≡ self.new ++ map J.seen (option_to_list result) }
        ensures none { IfNone result (self.new ≡ []) }
    {
        self.kept.pop_back()
    }

    /// Adds an entry behind the others.
    ///
    /// # Errors
    ///
    /// [`NoMemory`]; the entries are as they were then.
    pub(crate) fn push(&mut self, entry: J::Entry) -> Result<(), NoMemory>
        ensures added { OnOk result (self.new ≡ self.old ++ J.seen entry ∷ []) }
        ensures same { OnErr result (self.new ≡ self.old) }
    {
        self.kept.push_back(entry)?;
        Ok(())
    }

    /// The entries, and others behind them.
    ///
    /// # Errors
    ///
    /// [`NoMemory`].
    pub(crate) fn followed_by(self, more: Entries<J>) -> Result<Entries<J>, NoMemory>
        ensures { IfOk result (λ all. all ≡ self ++ more) }
    {
        let (mut kept, mut behind) = (self.kept, more.kept);
        kept.append(&mut behind)?;
        Ok(Entries { kept })
    }

    /// Copies, with windows that end so much later.
    ///
    /// # Errors
    ///
    /// [`NoMemory`].
    pub(crate) fn later(&self, alloc: Global, joiner: &J, by: u64) -> Result<Entries<J>, NoMemory>
        requires { AllByRecursion (λ e. e.0.end + by < 2 ^ 64) self.now }
        ensures { IfOk result (λ entries. entries ≡ shifted_by by self.now) }
    {
        let mut kept = VecDeque::with_capacity(alloc, self.kept.len())?;
        for entry in self.kept.iter() {
            kept.push_back(joiner.later(entry, by)?)?;
        }
        Ok(Entries { kept })
    }

    /// How many entries, from the first one on, have windows that end by the mark, if the windows rise. It says how much
    /// room to ask for, and nothing depends on it.
    pub(crate) fn count_closed(&self, mark: u64) -> usize {
        self.kept.partition_point(|entry| J::end(entry) <= mark)
    }
}

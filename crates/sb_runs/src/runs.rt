//! The sorted runs of a node: parts that came are kept side by side, and are merged if there are many or as they close.

ghost use Rattle.std.specs.Prelude.{◌≡◌, ◌+◌, ◌<◌, ◌≤◌, ◌++◌, [], length, nat_lt, None, if◌then◌else◌, IfNone, OnOk, IfOk};
ghost use Rattle.std.specs.Option.{option_to_list};
ghost use Rattle.sb_window.specs.declared.keyed_window.KeyedWindow.{KeyedWindow as Window};
ghost use Rattle.sb_window.specs.Gatherings.{joined_value};
ghost use Rattle.sb_runs.specs.Merged.{merged};
ghost use Rattle.sb_runs.specs.Merges.{with_run};
ghost use Rattle.sb_runs.specs.Runs.{found, found_in, IsAssociative, IsRun};

use crate::closed::Closed;
use crate::joiner::Joiner;
use crate::run::Run;
use sb_window::NoMemory;
use std::alloc::Global;
use std::collections::VecDeque;
use std::marker::Model;

// How many runs are kept at most. Each closing looks at the first window of each of them.
const MOST_RUNS: usize = 64;

// How many runs are left at most if there were too many. Each has at least twice as many entries as the next, so there
// are fewer, but for nodes that keep billions of entries.
const MOST_STACKED: usize = 32;

/// Runs, the first part that came first. Contracts see them as the list of the runs, which stands for the finite map of
/// all: what the runs have for a keyed window, joined.
#[derive(Drop)]
pub struct Runs<J: Joiner> {
    runs: VecDeque<Run<J>>,
}

impl<J: Joiner> Model for Runs<J> {
    ghost use Rattle.std.specs.Prelude.{List, length, ◌≤◌};
    ghost use Rattle.sb_window.specs.declared.keyed_window.KeyedWindow.{KeyedWindow as Window};
    ghost use Rattle.sb_runs.specs.declared.runs.TheConstants.{MOST_RUNS};

    ghost Value = { List (List (Window × J.Value)) };

    ghost view = { λ r. r.runs.items };

    ghost invariant = { λ r. length r.runs.items ≤ MOST_RUNS };
}

impl<J: Joiner> Runs<J> {
    /// No runs. It takes no memory.
    pub fn new(alloc: Global) -> Runs<J>
        ensures { result ≡ [] }
    {
        Runs {
            runs: VecDeque::new(alloc),
        }
    }

    /// The runs, that of the first part first.
    pub fn into_list(self) -> VecDeque<Run<J>>
        ensures { result.items ≡ self }
    {
        self.runs
    }

    /// Adds a run, whose values come after those of the others.
    ///
    /// # Errors
    ///
    /// [`NoMemory`]; what is kept is unknown then.
    pub fn push(&mut self, alloc: Global, joiner: &J, run: Run<J>) -> Result<(), NoMemory>
        requires { IsAssociative (J.joined joiner.now) }
        ensures { OnOk result ((q : Window) → found_in (J.joined joiner.now) self.new q
            ≡ joined_value (J.joined joiner.now) (found_in (J.joined joiner.now) self.old q) (found run q)) }
    {
        let runs = std::mem::replace(&mut self.runs, VecDeque::new(alloc));
        let mut runs = fewer(alloc, joiner, runs)?;
        runs.push_back(run)?;
        self.runs = runs;
        Ok(())
    }

    /// Takes off what the runs have for the keyed windows that end by the mark.
    ///
    /// # Errors
    ///
    /// [`NoMemory`]; what is kept is unknown then.
    pub fn close(&mut self, alloc: Global, joiner: &J, mark: u64) -> Result<Closed<J>, NoMemory>
        requires { IsAssociative (J.joined joiner.now) }
        ensures run { IfOk result (λ both. IsRun (merged (J.joined joiner.now) both.0 both.1)) }
        ensures closed { IfOk result (λ both. (q : Window) → found (merged (J.joined joiner.now) both.0 both.1) q
            ≡ (if nat_lt mark q.end then None else found_in (J.joined joiner.now) self.old q)) }
        ensures opened { OnOk result ((q : Window) → found_in (J.joined joiner.now) self.new q
            ≡ (if nat_lt mark q.end then found_in (J.joined joiner.now) self.old q else None)) }
    {
        let runs = std::mem::replace(&mut self.runs, VecDeque::new(alloc));
        let (closed, open) = split_all(alloc, joiner, runs, mark)?;
        self.runs = open;
        let (first, last) = into_two(alloc, joiner, closed)?;
        Ok(Closed::new(first, last))
    }
}

// The runs, merged if there are as many as may be.
fn fewer<J: Joiner>(
    alloc: Global,
    joiner: &J,
    runs: VecDeque<Run<J>>,
) -> Result<VecDeque<Run<J>>, NoMemory>
    requires groups { IsAssociative (J.joined joiner.now) }
    requires bound { length runs.items ≤ MOST_RUNS }
    ensures same { IfOk result (λ few. (q : Window) → found_in (J.joined joiner.now) few.items q
        ≡ found_in (J.joined joiner.now) runs.items q) }
    ensures bound { IfOk result (λ few. length few.items < MOST_RUNS) }
{
    if runs.len() < MOST_RUNS {
        return Ok(runs);
    }
    stacked(alloc, joiner, runs)
}

// The runs on a stack, on which small ones are merged.
fn stacked<J: Joiner>(
    alloc: Global,
    joiner: &J,
    runs: VecDeque<Run<J>>,
) -> Result<VecDeque<Run<J>>, NoMemory>
    requires { IsAssociative (J.joined joiner.now) }
    ensures same { IfOk result (λ stack. (q : Window) → found_in (J.joined joiner.now) stack.items q
        ≡ found_in (J.joined joiner.now) runs.items q) }
    ensures bound { IfOk result (λ stack. length stack.items ≤ MOST_STACKED) }
{
    let mut rest = runs;
    let mut stack = VecDeque::new(alloc);
    'runs: while let Some(run) = rest.pop_front() {
        stack_up(alloc, joiner, &mut stack, run)?;
    }
    Ok(stack)
}

// Puts a run on a stack, after it is merged with the last ones, as long as these are small.
fn stack_up<J: Joiner>(
    alloc: Global,
    joiner: &J,
    stack: &mut VecDeque<Run<J>>,
    run: Run<J>,
) -> Result<(), NoMemory>
    requires { IsAssociative (J.joined joiner.now) }
    ensures joined { OnOk result ((q : Window) → found_in (J.joined joiner.now) stack.new.items q
        ≡ joined_value (J.joined joiner.now) (found_in (J.joined joiner.now) stack.old.items q) (found run q)) }
    ensures bound { OnOk result (length stack.new.items ≤ MOST_STACKED) }
{
    let mut top = run;
    'small: while let Some(last) = pop_small(stack, top.len()) {
        top = last.merged(alloc, joiner, top)?;
    }
    keep(stack, top)
}

// Takes off the last run if it has less than twice as many entries as one that comes, or if there are too many runs.
fn pop_small<J: Joiner>(stack: &mut VecDeque<Run<J>>, coming: usize) -> Option<Run<J>>
    ensures items { stack.old.items ≡ stack.new.items ++ option_to_list result }
    ensures room { IfNone result (length stack.new.items < MOST_STACKED) }
{
    let last = stack.back()?;
    let size = last.len();
    if coming <= size / 2 && stack.len() < MOST_STACKED {
        return None;
    }
    stack.pop_back()
}

// Adds a run, if it has entries.
fn keep<J: Joiner>(runs: &mut VecDeque<Run<J>>, run: Run<J>) -> Result<(), NoMemory>
    ensures items { OnOk result (runs.new.items ≡ with_run runs.old.items run) }
    ensures bound { OnOk result (length runs.new.items ≤ length runs.old.items + 1) }
{
    if run.len() != 0 {
        runs.push_back(run)?;
    }
    Ok(())
}

// Cuts each run at a mark: what closes, and the others.
fn split_all<J: Joiner>(
    alloc: Global,
    joiner: &J,
    runs: VecDeque<Run<J>>,
    mark: u64,
) -> Result<(VecDeque<Run<J>>, VecDeque<Run<J>>), NoMemory>
    requires { IsAssociative (J.joined joiner.now) }
    ensures closed { IfOk result (λ parts. (q : Window) → found_in (J.joined joiner.now) parts.0.items q
        ≡ (if nat_lt mark q.end then None else found_in (J.joined joiner.now) runs.items q)) }
    ensures opened { IfOk result (λ parts. (q : Window) → found_in (J.joined joiner.now) parts.1.items q
        ≡ (if nat_lt mark q.end then found_in (J.joined joiner.now) runs.items q else None)) }
    ensures bound { IfOk result (λ parts. length parts.1.items ≤ length runs.items) }
{
    let mut rest = runs;
    let mut closed = VecDeque::new(alloc);
    let mut open = VecDeque::new(alloc);
    'runs: while let Some(run) = rest.pop_front() {
        let (part, others) = run.split_at(alloc, mark)?;
        keep(&mut closed, part)?;
        keep(&mut open, others)?;
    }
    Ok((closed, open))
}

// All runs of a stack as one.
fn into_one<J: Joiner>(
    alloc: Global,
    joiner: &J,
    stack: VecDeque<Run<J>>,
) -> Result<Run<J>, NoMemory>
    requires { IsAssociative (J.joined joiner.now) }
    ensures { IfOk result (λ run. (q : Window) → found run q ≡ found_in (J.joined joiner.now) stack.items q) }
{
    let mut rest = stack;
    let mut all = Run::new(alloc);
    'runs: while let Some(last) = rest.pop_back() {
        all = last.merged(alloc, joiner, all)?;
    }
    Ok(all)
}

// The last run, and all before it as one.
fn into_two<J: Joiner>(
    alloc: Global,
    joiner: &J,
    runs: VecDeque<Run<J>>,
) -> Result<(Run<J>, Run<J>), NoMemory>
    requires { IsAssociative (J.joined joiner.now) }
    ensures { IfOk result (λ both. (q : Window)
        → joined_value (J.joined joiner.now) (found both.0 q) (found both.1 q)
        ≡ found_in (J.joined joiner.now) runs.items q) }
{
    let mut rest = runs;
    let Some(last) = rest.pop_back() else {
        return Ok((Run::new(alloc), Run::new(alloc)));
    };
    let stack = stacked(alloc, joiner, rest)?;
    Ok((into_one(alloc, joiner, stack)?, last))
}

//! Panes: the stretches of time from one end of windows to the next. All times of a pane lie in the same windows, so
//! the values of records are gathered by pane first, and what is made of them is spread to the windows then.

ghost use Rattle.std.specs.Prelude.{◌≡◌, ◌+◌, ◌-◌, ◌*◌, ◌/◌, ◌^◌, ◌<◌, ◌≤◌, IfOk};
ghost use Rattle.std.specs.List.{AllByRecursion};
ghost use Rattle.sb_window.specs.declared.keyed_window.KeyedWindow.{KeyedWindow as Window};
ghost use Rattle.sb_window.specs.Gatherings.{joined_value};
ghost use Rattle.sb_runs.specs.Runs.{found, shifted_by, spread_value, IsAssociative};

use crate::joiner::Joiner;
use crate::run::Run;
use sb_window::NoMemory;
use std::alloc::Global;

/// Spreads what a run has for panes to the windows: a pane lies in `count` windows, the first of which ends as it does,
/// and each other one `every` after the one before.
///
/// The run is joined with itself, shifted, so that the number of merges grows as the logarithm of `count`.
///
/// # Errors
///
/// [`NoMemory`].
pub fn spread<J: Joiner>(
    alloc: Global,
    joiner: &J,
    panes: Run<J>,
    every: u64,
    count: u64,
) -> Result<Run<J>, NoMemory>
    requires groups { IsAssociative (J.joined joiner.now) }
    requires some { 1 ≤ count }
    requires ends { AllByRecursion (λ e. e.0.end + count * every < 2 ^ 64) panes }
    ensures { IfOk result (λ run. (q : Window) → found run q
        ≡ spread_value (J.joined joiner.now) every count panes q) }
{
    if count == 1 || panes.len() == 0 {
        return Ok(panes);
    }
    let mut run = panes;
    let mut behind = Run::new(alloc);
    let mut step = every;
    let mut rest = count;
    'doubled: while rest > 1 {
        behind = with_odd(alloc, joiner, &run, step, rest, behind)?;
        run = doubled(alloc, joiner, run, step)?;
        step *= 2;
        rest /= 2;
    }
    run.merged(alloc, joiner, behind)
}

// What stands behind. If a run is to be spread to an odd number of windows, its last shift comes before that.
fn with_odd<J: Joiner>(
    alloc: Global,
    joiner: &J,
    run: &Run<J>,
    step: u64,
    count: u64,
    behind: Run<J>,
) -> Result<Run<J>, NoMemory>
    requires groups { IsAssociative (J.joined joiner.now) }
    requires some { 1 ≤ count }
    requires width { count * step < 2 ^ 64 }
    requires ends { AllByRecursion (λ e. e.0.end + (count - 1) * step < 2 ^ 64) run.now }
    ensures { IfOk result (λ all. (q : Window)
        → joined_value (J.joined joiner.now)
        (spread_value (J.joined joiner.now) step (count / 2 * 2) run.now q) (found all q)
        ≡ joined_value (J.joined joiner.now)
        (spread_value (J.joined joiner.now) step count run.now q) (found behind q)) }
{
    if count % 2 == 0 {
        return Ok(behind);
    }
    let last = run.shifted(alloc, joiner, (count - 1) * step)?;
    last.merged(alloc, joiner, behind)
}

// The run, joined with itself one step later.
fn doubled<J: Joiner>(alloc: Global, joiner: &J, run: Run<J>, step: u64) -> Result<Run<J>, NoMemory>
    requires { AllByRecursion (λ e. e.0.end + step < 2 ^ 64) run }
    ensures { IfOk result (λ both. (q : Window) → found both q
        ≡ joined_value (J.joined joiner.now) (found run q) (found (shifted_by step run) q)) }
{
    let later = run.shifted(alloc, joiner, step)?;
    run.merged(alloc, joiner, later)
}

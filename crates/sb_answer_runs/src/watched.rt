//! A run whose rows are shown in a live table, and the last row of a key there.

ghost use Rattle.std.specs.Prelude.{◌≡◌, IfOk};
ghost use Rattle.sb_answers.specs.live.Changes.{rows_in};
ghost use Rattle.sb_answers.specs.live.Lasts as spec;
ghost use Rattle.sb_answers.specs.alone.RunEnds.{AreSizes};
ghost use Rattle.sb_answer_runs.specs.Watches.{WatchCause, Watches};

use sb_answers::{
    Dropped, Key, LiveOut, LiveRows, NoMemory, Plan, Record, Source, Stop, key_named, live,
};
use sb_run::{RunEnd, Sizes, run};
use std::sync::Wait;
use std::thread::Threads;
use std::time::Clock;

/// What a run tells that was watched for a key.
#[derive(Clone, Copy, Debug, PartialEq, Eq)]
pub(crate) struct Watched {
    /// Where reading stopped.
    pub(crate) stop: Stop,
    /// The last row of the key among the rows that are due there, if it has one.
    pub(crate) last: Option<Record>,
}

// The last row of the key that was shown, if there is a key.
fn last_if_any<R: Wait + Drop>(out: &LiveOut<R>, key: Option<Key>) -> Option<Record>
    ensures { result ≡ spec.last_if_any key (rows_in out.now.changes) }
{
    match key {
        Some(key) => out.last(&key),
        None => None,
    }
}

/// Runs a plan over an input, shows its rows in a live table, and tells where reading stopped and the last row of the
/// key with this text among the rows that are due there: all rows at the end of the input, else those below the low
/// watermark. A text that names no key has no row. The late records that the plan drops go to the end of `dropped`.
///
/// Whether the call returns is not said: the table waits for its readers, and workers for one another.
///
/// # Errors
///
/// If there was not enough memory.
pub(crate) fn watch<W: AllocGlobal + Threads + Wait + Clock + Sync, S: Source>(
    rt: &W,
    plan: Plan,
    sizes: Sizes,
    key: &[u8],
    input: &mut S,
    dropped: &mut Vec<Dropped>,
) -> Result<Watched, NoMemory>
    requires sizes { AreSizes sizes }
    ensures watched { Watches plan key.now (S.left input.old) (S.left input.new)
        dropped.old.items dropped.new.items result }
    ensures input { WatchCause (S.faults input.old) (S.faults input.new) result }
    ensures end { IfOk result (λ watched. watched.stop ≡ Stop.End → S.has_ended input.new) }
    ensures name { S.name input.new ≡ S.name input.old }
{
    let alloc = rt.alloc();
    let named = key_named(plan.keys(), key);
    let (out, readers) = live(alloc, rt, 1)?;
    let mut rows = LiveRows::new(out);
    let mut taps = Vec::new(alloc);
    let end = run(rt, plan, sizes, input, &mut rows, &mut taps, dropped);
    drop(readers);
    let out = rows.into_out();
    let last = last_if_any(&out, named);
    out.end();
    match end {
        RunEnd::Done(_) => Ok(Watched {
            stop: Stop::End,
            last,
        }),
        RunEnd::Refused(refusal) => Ok(Watched {
            stop: Stop::Refused(refusal),
            last,
        }),
        RunEnd::Input => Ok(Watched {
            stop: Stop::Fault,
            last,
        }),
        RunEnd::Memory => Err(NoMemory),
        // The rows of a run rise, and no tap was handed in.
        RunEnd::Output | RunEnd::Tap { .. } => unreachable!(),
    }
}

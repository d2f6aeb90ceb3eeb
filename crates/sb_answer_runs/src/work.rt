//! The answer to `work`: the engine sums records that are made from their number, and a summary of its rows is written.
//!
//! Neither an input nor a folder is needed for it, and one text stands for all rows: so runs with other numbers of
//! workers and sizes of bundles can be compared, and timed, by a few words.

ghost use Rattle.std.specs.Prelude.{◌≡◌, ℕ, List, IfOk};
ghost use Rattle.sb_answers.specs.outside.Folders.{Load};
ghost use Rattle.sb_answers.specs.base.pipeline.Shapes.{sum_shape};
ghost use Rattle.sb_answers.specs.alone.RunEnds as ends;
ghost use Rattle.sb_answers.specs.words.Options.{AreInRange};
ghost use Rattle.sb_answers.specs.words.Words.{IsAmount};
ghost use Rattle.sb_answers.specs.told.Outcomes.{IsNoTap, IsRead};
ghost use Rattle.sb_answers.specs.Answers.{IsWorkAnswer};
ghost use Rattle.sb_answers.specs.Faults.{HasCause, HidesNoFault, faults_of};
ghost use Rattle.sb_answers.specs.Summaries.{summary_text, sums_text, work_rows};
ghost use Rattle.sb_answer_runs.specs.WorkSteps.{SumsWork};

use sb_answers::{
    Ending, GenSource, NoMemory, Note, Options, Plan, Sink, Status, Summary, WORK_WINDOW, print,
    sizes_of, sum_plan,
};
use sb_run::{RunEnd, Sizes, run};
use std::sync::Wait;
use std::thread::Threads;
use std::time::Clock;

/// Answers with the summary of the sums over so many records that are made.
pub fn answer_work<W: AllocGlobal + Threads + Wait + Clock + Sync, K: Sink>(
    rt: &W,
    records: u64,
    options: Options,
    out: &mut K,
) -> Ending
    requires amount { IsAmount records }
    requires range { AreInRange options }
    ensures answer { IsWorkAnswer records (K.taken out.old) (K.taken out.new) result }
    ensures read { IsRead result.status }
    ensures no_tap { IsNoTap result.status }
    ensures cause { (reads : ℕ) (loads : List Load) → HasCause
        (faults_of reads (K.sink_state out.old) loads)
        (faults_of reads (K.sink_state out.new) loads) result.status }
    ensures no_fault_hidden { (reads : ℕ) (loads : List Load) → HidesNoFault
        (faults_of reads (K.sink_state out.old) loads)
        (faults_of reads (K.sink_state out.new) loads) result.status }
{
    let alloc = rt.alloc();
    match summary_of(rt, records, sizes_of(&options)) {
        Ok(summary) => Ending::of(alloc, print(out, text_of(records, &summary).as_slice())),
        Err(NoMemory) => Ending::of(alloc, Status::Memory),
    }
}

/// The summary of all rows over so many records.
fn summary_of<W: AllocGlobal + Threads + Wait + Clock + Sync>(
    rt: &W,
    records: u64,
    sizes: Sizes,
) -> Result<Summary, NoMemory>
    requires amount { IsAmount records }
    requires sizes { ends.AreSizes sizes }
    ensures { IfOk result (λ summary. sums_text records summary ≡ summary_text records (work_rows records)) }
{
    let plan = sum_plan(rt.alloc(), WORK_WINDOW)?;
    let mut summary = Summary::new();
    match run_work(rt, plan, sizes, records, &mut summary) {
        RunEnd::Done(_) => Ok(summary),
        RunEnd::Memory => Err(NoMemory),
        // The lines that are made are accepted, and neither their source nor a summary ever fails.
        _ => unreachable!(),
    }
}

/// Runs the plan over so many records, and adds the numbers of its rows to a summary.
fn run_work<W: AllocGlobal + Threads + Wait + Clock + Sync>(
    rt: &W,
    plan: Plan,
    sizes: Sizes,
    records: u64,
    summary: &mut Summary,
) -> RunEnd
    requires plan { plan ≡ sum_shape WORK_WINDOW }
    requires amount { IsAmount records }
    requires sizes { ends.AreSizes sizes }
    ensures { SumsWork records summary.old summary.new result }
{
    let alloc = rt.alloc();
    let mut source = GenSource::new(records);
    let mut taps = Vec::new(alloc);
    let mut dropped = Vec::new(alloc);
    run(
        rt,
        plan,
        sizes,
        &mut source,
        summary,
        &mut taps,
        &mut dropped,
    )
}

/// The four lines of a summary.
fn text_of(records: u64, summary: &Summary) -> Note
    ensures { result ≡ sums_text records summary.now }
{
    let mut text = Note::new();
    text.push(b"records ");
    text.push_number(records);
    text.push(b"\nrows ");
    text.push_number(summary.count());
    text.push(b"\nsum ");
    text.push_signed(summary.sum());
    text.push(b"\ncheck ");
    text.push_signed(summary.check());
    text.push(b"\n");
    text
}

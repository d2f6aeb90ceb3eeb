//! Runs over lines that are made from numbers: what they leave is what the plain program leaves, and their diaries are
//! settled.

use crate::tries::{SLOW, run, strings_of};
use std::sync::Wait;
use std::thread::Threads;
use std::time::Clock;
use trial_cases::{
    Difference, Taps, Trial, Ways, around_of, check_bytes, check_number, lines_from, words_of,
};

/// The words of an audit.
const AUDIT: &[&str] = &["audit"];

/// How an audit ends of a diary that is legal and settled.
const SETTLED: &[u8] = b" settled\n";

/// The rows and the notes of a run of these words, which has to be done.
fn left_by(
    rt: &(impl AllocGlobal + Threads + Wait + Clock + Sync),
    words: &[String],
    trial: &Trial,
) -> Result<(Vec<u8>, Vec<u8>), Difference> {
    let alloc = rt.alloc();
    let mut taps: Taps = Vec::new(alloc);
    let mut around = around_of(alloc, trial)?;
    let status = run(rt, words, &mut around, &mut taps)?;
    check_number(alloc, words, "exit code", status.code().into(), 0)?;
    let rows = Vec::from_slice(alloc, around.out.taken())?;
    let notes = Vec::from_slice(alloc, around.notes.taken())?;
    Ok((rows, notes))
}

/// Audits a diary, which has to be legal and settled.
fn try_diary(
    rt: &(impl AllocGlobal + Threads + Wait + Clock + Sync),
    trial: &mut Trial,
    diary: Vec<u8>,
) -> Result<(), Difference> {
    let alloc = rt.alloc();
    let words = strings_of(alloc, AUDIT)?;
    trial.text = diary;
    let (answer, _) = left_by(rt, &words, trial)?;
    if answer.ends_with(SETTLED) {
        return Ok(());
    }
    check_bytes(alloc, &words, "the audit's answer", &answer, SETTLED)
}

/// Runs a trial with so many workers over lines that are made from this number.
fn try_seed(
    rt: &(impl AllocGlobal + Threads + Wait + Clock + Sync),
    trial: &mut Trial,
    workers: u64,
    seed: u64,
) -> Result<(), Difference> {
    let alloc = rt.alloc();
    trial.text = lines_from(alloc, seed)?;
    let slow = strings_of(alloc, SLOW)?;
    let words = words_of(alloc, &trial.words, Some(workers))?;
    let (wanted, _) = left_by(rt, &slow, trial)?;
    let (rows, diary) = left_by(rt, &words, trial)?;
    check_bytes(alloc, &words, "rows", &rows, &wanted)?;
    try_diary(rt, trial, diary)
}

/// Runs a trial with each number of workers over lines that are made from each of its numbers. Its words have to ask
/// for the diary. Says how many runs that were.
pub fn try_by_seeds(
    rt: &(impl AllocGlobal + Threads + Wait + Clock + Sync),
    trial: &mut Trial,
    ways: &Ways,
) -> Result<u64, Difference> {
    let mut runs = 0u64;
    for workers in &ways.workers {
        for seed in 0..ways.seeds {
            try_seed(rt, trial, *workers, seed)?;
            runs = runs.saturating_add(1);
        }
    }
    Ok(runs)
}

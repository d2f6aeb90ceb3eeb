//! The cases of a data file, tried one after the other.

use crate::tries::try_case;
use anyhow::{Result, bail};
use std::fs::File;
use std::rt::Files;
use std::sync::Wait;
use std::thread::Threads;
use std::time::Clock;
use trial_cases::{Difference, PlacedCase, cases_of};

/// How many cases a file has, how many runs they were, and how many cases differ.
#[derive(Clone, Copy, Drop)]
pub struct Counts {
    pub cases: u64,
    pub runs: u64,
    pub differing: u64,
}

/// Tries the cases of a file, and prints what differs.
pub fn try_subject(
    rt: &(impl AllocGlobal + Print + Files<File = File> + Threads + Wait + Clock + Sync),
    subject: &str,
) -> Result<Counts> {
    let mut counts = Counts {
        cases: 0,
        runs: 0,
        differing: 0,
    };
    for placed in cases_of(rt, subject)? {
        try_one(rt, placed, &mut counts)?;
    }
    Ok(counts)
}

/// Tries a case, and prints what differs.
fn try_one(
    rt: &(impl AllocGlobal + Print + Files<File = File> + Threads + Wait + Clock + Sync),
    placed: PlacedCase,
    counts: &mut Counts,
) -> Result<()> {
    let PlacedCase { place, case } = placed;
    counts.cases = counts.cases.saturating_add(1);
    match try_case(rt, case) {
        Ok(runs) => counts.runs = counts.runs.saturating_add(runs),
        Err(Difference::Found(text)) => {
            counts.differing = counts.differing.saturating_add(1);
            println!(rt; "{place}: {text}")?;
        }
        Err(Difference::Memory) => bail!("out of memory"),
        Err(Difference::File) => bail!("the file of a tap could not be written or read"),
    }
    Ok(())
}

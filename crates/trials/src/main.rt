//! Tests of the whole program: runs in memory, as data files say.
//!
//! Each word of the command line names a file of cases, without its ending `.toml`. A case says what is around a run
//! (the words, the files, the input, and which calls fail), what the run has to leave (rows, an exit code, notes), and
//! in which ways it is run. What differs is printed, one line a case, and then how many cases and runs the file had.
//! `data/README.md` describes the files; `trial_cases` reads them.
#![tactic(auto)]

mod seeds;
mod subjects;
mod tries;

use anyhow::{Result, ensure};
use std::env;

fn main(rt: HostRuntime) -> Result<()> {
    let mut differing = 0u64;
    for subject in env::args(&rt)?.skip(1) {
        let counts = subjects::try_subject(&rt, &subject)?;
        let subject = &subject;
        println!(rt; "{subject}: {} cases, {} runs", counts.cases, counts.runs)?;
        differing = differing.saturating_add(counts.differing);
    }
    ensure!(differing == 0, "{differing} cases differ");
    Ok(())
}

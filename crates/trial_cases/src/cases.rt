//! Cases of a data file.

use crate::fields::Fields;
use crate::tables::{Case, Trial, Ways};
use crate::values::check_keys;
use anyhow::Result;
use std::alloc::Global;

/// The numbers of workers that a case is run with if it names none.
const WORKERS: [u64; 4] = [1, 2, 4, 8];

/// The fields of a group and of its cases.
const FIELDS: [&str; 23] = [
    "name", "case", "words", "plan", "table", "files", "unloaded", "text", "reads", "writes",
    "tells", "taps", "rows", "code", "notes", "faults", "seen", "head", "workers", "pieces",
    "slow", "lines", "seeds",
];

/// The case of these fields.
pub fn case_of(alloc: Global, fields: Fields<'_>) -> Result<Case> {
    check_keys(fields.group, &FIELDS)?;
    check_keys(fields.case, &FIELDS)?;
    Ok(Case {
        trial: trial_of(alloc, fields)?,
        ways: ways_of(alloc, fields)?,
    })
}

fn trial_of(alloc: Global, fields: Fields<'_>) -> Result<Trial> {
    Ok(Trial {
        words: fields.words(alloc)?,
        files: fields.files(alloc)?,
        unloaded: fields.numbers(alloc, "unloaded", &[])?,
        text: fields.text(alloc, "text")?,
        reads: fields.calls(alloc, "reads")?,
        writes: fields.calls(alloc, "writes")?,
        tells: fields.calls(alloc, "tells")?,
        taps: fields.taps(alloc)?,
        rows: fields.text(alloc, "rows")?,
        code: fields.number("code")?,
        notes: fields.text(alloc, "notes")?,
        faults: fields.number("faults")?,
        seen: fields.numbers(alloc, "seen", &[])?,
        head: fields.text(alloc, "head")?,
    })
}

fn ways_of(alloc: Global, fields: Fields<'_>) -> Result<Ways> {
    Ok(Ways {
        workers: fields.numbers(alloc, "workers", &WORKERS)?,
        pieces: fields.numbers(alloc, "pieces", &[])?,
        slow: fields.flag("slow")?,
        lines: fields.lines()?,
        seeds: fields.number("seeds")?,
    })
}

//! What a run has left, compared with what it has to leave.

ghost use Rattle.std.specs.Prelude.{◌≡◌, OnOk};

use crate::around::{Around, Taps};
use crate::difference::Difference;
use crate::tables::Trial;
use std::alloc::Global;

/// The exit code of a load that failed.
const LOAD_FAILED: u8 = 6;

/// Compares bytes that a run of these words has left with those that it has to leave.
pub fn check_bytes(
    alloc: Global,
    words: &[String],
    what: &str,
    left: &[u8],
    wanted: &[u8],
) -> Result<(), Difference>
    ensures { OnOk result (left.now ≡ wanted.now) }
{
    if left == wanted {
        return Ok(());
    }
    Err(Difference::Found(format!(in alloc;
        "{words:?}: {what}: \"{}\", not \"{}\"",
        left.escape_ascii(),
        wanted.escape_ascii()
    )?))
}

/// Compares a number that a run of these words has left with that which it has to leave.
pub fn check_number(
    alloc: Global,
    words: &[String],
    what: &str,
    left: u64,
    wanted: u64,
) -> Result<(), Difference>
    ensures { OnOk result (left ≡ wanted) }
{
    if left == wanted {
        return Ok(());
    }
    Err(Difference::Found(format!(in alloc; "{words:?}: {what}: {left}, not {wanted}")?))
}

/// Compares the notes, the exit code, the rows and the number of failed loads.
pub fn check_left(
    alloc: Global,
    words: &[String],
    trial: &Trial,
    code: u8,
    around: &Around,
) -> Result<(), Difference>
    ensures notes { OnOk result (around.now.notes.taken ≡ trial.now.notes.items) }
    ensures code { OnOk result (code ≡ trial.now.code) }
    ensures rows { OnOk result (around.now.out.taken ≡ trial.now.rows.items) }
{
    let loads = u64::from(code == LOAD_FAILED);
    check_bytes(alloc, words, "notes", around.notes.taken(), &trial.notes)?;
    check_number(alloc, words, "exit code", code.into(), trial.code)?;
    check_bytes(alloc, words, "rows", around.out.taken(), &trial.rows)?;
    check_number(
        alloc,
        words,
        "failed loads",
        around.folder.faults() as u64,
        loads,
    )
}

/// Compares how many rows the taps that are left have seen.
pub fn check_seen(
    alloc: Global,
    words: &[String],
    trial: &Trial,
    taps: &Taps,
) -> Result<(), Difference> {
    let seen = trial.seen.as_slice();
    check_number(alloc, words, "taps", taps.len() as u64, seen.len() as u64)?;
    for (tap, rows) in taps.iter().zip(seen) {
        check_number(alloc, words, "rows that a tap saw", tap.seen(), *rows)?;
    }
    Ok(())
}

/// Compares how often reads have failed.
pub fn check_reads(
    alloc: Global,
    words: &[String],
    trial: &Trial,
    around: &Around,
) -> Result<(), Difference> {
    check_number(
        alloc,
        words,
        "failed reads",
        around.input.faults(),
        trial.faults,
    )
}

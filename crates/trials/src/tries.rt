//! Runs a trial in each of its ways, and compares what it leaves with what it has to leave.

ghost use Rattle.std.specs.Prelude.{◌≡◌, OnOk};

use crate::seeds::try_by_seeds;
use sb_cli::{Status, streambox};
use std::alloc::{AllocError, Global};
use std::fs::File;
use std::rt::Files;
use std::sync::Wait;
use std::thread::Threads;
use std::time::Clock;
use std::{fs, mem};
use trial_cases::{
    Around, Calls, Case, Difference, HEAD, Lines, Taps, Trial, Watch, Ways, around_of, check_bytes,
    check_left, check_reads, check_seen, count_of, head_of, words_of,
};

/// How many taps a run has at most here.
const MOST_TAPS: usize = 2;

/// The words of the plain program.
pub const SLOW: &[&str] = &["slow", "p.toml"];

/// The words of a run over two files, of which that of stream a has the lines.
const LINES_OF_A: &[&str] = &["feeds", "p.toml", "lines", "none"];

/// The same, of stream b.
const LINES_OF_B: &[&str] = &["feeds", "p.toml", "none", "lines"];

/// How a note of a line begins, where the line is one of file a.
const FILE_A: &[u8] = b"file a: ";

/// The same, of file b.
const FILE_B: &[u8] = b"file b: ";

/// Runs the words, past taps.
pub fn run(
    rt: &(impl AllocGlobal + Threads + Wait + Clock + Sync),
    words: &[String],
    around: &mut Around,
    taps: &mut Taps,
) -> Result<Status, Difference> {
    if taps.len() > MOST_TAPS {
        let text = String::from_str(rt.alloc(), "too many taps")?;
        return Err(Difference::Found(text));
    }
    Ok(streambox(
        rt,
        words,
        &mut around.input,
        &mut around.out,
        &mut around.notes,
        &mut around.folder,
        taps,
    ))
}

/// Runs the words past the taps, and compares what the run leaves with what the trial says.
fn run_and_check(
    rt: &(impl AllocGlobal + Threads + Wait + Clock + Sync),
    words: &[String],
    trial: &Trial,
    around: &mut Around,
    taps: &mut Taps,
) -> Result<(), Difference>
    ensures notes { OnOk result (around.new.notes.taken ≡ trial.now.notes.items) }
    ensures rows { OnOk result (around.new.out.taken ≡ trial.now.rows.items) }
{
    let status = run(rt, words, around, taps)?;
    check_left(rt.alloc(), words, trial, status.code(), around)?;
    check_seen(rt.alloc(), words, trial, taps)
}

/// Compares what a tap has written to its file, if there is one, and removes the file.
fn check_head(
    rt: &(impl AllocGlobal + Files<File = File>),
    words: &[String],
    trial: &Trial,
) -> Result<(), Difference> {
    for watch in &trial.taps {
        if let Watch::Head(_) = watch {
            let bytes = fs::read(rt, HEAD)?;
            fs::remove_file(rt, HEAD)?;
            check_bytes(rt.alloc(), words, "rows of a tap", &bytes, &trial.head)?;
        }
    }
    Ok(())
}

/// Runs a trial with so many workers, or those that its words name, and compares what it leaves.
///
/// The taps are boxed here, since the gate takes no function that hands out a `dyn` value that it makes.
fn try_out(
    rt: &(impl AllocGlobal + Files<File = File> + Threads + Wait + Clock + Sync),
    trial: &Trial,
    workers: Option<u64>,
) -> Result<(), Difference> {
    let alloc = rt.alloc();
    let words = words_of(alloc, &trial.words, workers)?;
    let mut taps: Taps = Vec::new(alloc);
    for watch in &trial.taps {
        match watch {
            Watch::Head(most) => taps.push(Box::new(alloc, head_of(rt, *most)?)?)?,
            Watch::Count(failing) => taps.push(Box::new(alloc, count_of(alloc, failing)?)?)?,
        }
    }
    let mut around = around_of(alloc, trial)?;
    run_and_check(rt, &words, trial, &mut around, &mut taps)?;
    // Several workers may read on while a row is written.
    if workers.unwrap_or(1) == 1 {
        check_reads(alloc, &words, trial, &around)?;
    }
    check_head(rt, &words, trial)
}

/// Runs a trial with each number of workers, 0 where its words stand as they are, and says how many runs that were.
fn try_by_workers(
    rt: &(impl AllocGlobal + Files<File = File> + Threads + Wait + Clock + Sync),
    trial: &Trial,
    workers: &[u64],
) -> Result<u64, Difference> {
    for number in workers {
        let workers = if *number == 0 { None } else { Some(*number) };
        try_out(rt, trial, workers)?;
    }
    Ok(workers.len() as u64)
}

/// The same, with the input in pieces of each of these sizes, if there are any.
fn try_by_pieces(
    rt: &(impl AllocGlobal + Files<File = File> + Threads + Wait + Clock + Sync),
    trial: &mut Trial,
    ways: &Ways,
) -> Result<u64, Difference> {
    if ways.pieces.is_empty() {
        return try_by_workers(rt, trial, &ways.workers);
    }
    let mut runs = 0u64;
    for most in &ways.pieces {
        trial.reads.most = usize::try_from(*most).unwrap_or(0);
        runs = runs.saturating_add(try_by_workers(rt, trial, &ways.workers)?);
    }
    Ok(runs)
}

/// Runs the plan of a trial by the plain program.
fn try_slow(
    rt: &(impl AllocGlobal + Files<File = File> + Threads + Wait + Clock + Sync),
    trial: &mut Trial,
) -> Result<u64, Difference> {
    trial.words = strings_of(rt.alloc(), SLOW)?;
    try_by_workers(rt, trial, &[0])
}

/// Words as a run takes them.
pub fn strings_of(alloc: Global, words: &[&str]) -> Result<Vec<String>, AllocError> {
    let mut strings = Vec::new(alloc);
    for word in words {
        strings.push(String::from_str(alloc, word)?)?;
    }
    Ok(strings)
}

/// The notes of a run over a file, by those of the run over the same lines: the note of a line names the file.
fn notes_of_file(alloc: Global, file: &[u8], notes: &[u8]) -> Result<Vec<u8>, AllocError> {
    let mut named = Vec::new(alloc);
    for note in notes.split_inclusive(|byte| *byte == b'\n') {
        if note.starts_with(b"line ") {
            named.extend_from_slice(file)?;
        }
        named.extend_from_slice(note)?;
    }
    Ok(named)
}

/// Makes a trial one over two files: one has its lines, and the other none.
fn move_to_files(
    alloc: Global,
    trial: &mut Trial,
    words: &[&str],
    file: &[u8],
) -> Result<(), AllocError> {
    let lines = mem::replace(&mut trial.text, Vec::new(alloc));
    trial
        .files
        .insert(String::from_str(alloc, "lines")?, lines)?;
    trial
        .files
        .insert(String::from_str(alloc, "none")?, Vec::new(alloc))?;
    trial.notes = notes_of_file(alloc, file, &trial.notes)?;
    trial.words = strings_of(alloc, words)?;
    trial.reads = Calls {
        most: 0,
        failing: Vec::new(alloc),
    };
    Ok(())
}

/// Runs a trial by `feeds` with each number of workers: the lines are in the file of their stream, and the other file
/// has none. It has to leave the same rows, and the same notes, in which lines name the file. Nothing is run if the
/// lines are of both streams, since a file has those of one.
fn try_by_files(
    rt: &(impl AllocGlobal + Files<File = File> + Threads + Wait + Clock + Sync),
    trial: &mut Trial,
    ways: &Ways,
) -> Result<u64, Difference> {
    let (words, file) = match ways.lines {
        Lines::OfA => (LINES_OF_A, FILE_A),
        Lines::OfB => (LINES_OF_B, FILE_B),
        Lines::OfBoth => return Ok(0),
    };
    move_to_files(rt.alloc(), trial, words, file)?;
    try_by_workers(rt, trial, &ways.workers)
}

/// Runs a case in each of its ways, and says how many runs that were.
pub fn try_case(
    rt: &(impl AllocGlobal + Files<File = File> + Threads + Wait + Clock + Sync),
    case: Case,
) -> Result<u64, Difference> {
    let Case { mut trial, ways } = case;
    if ways.seeds > 0 {
        return try_by_seeds(rt, &mut trial, &ways);
    }
    let mut runs = try_by_pieces(rt, &mut trial, &ways)?;
    if ways.slow {
        runs = runs.saturating_add(try_slow(rt, &mut trial)?);
    }
    Ok(runs.saturating_add(try_by_files(rt, &mut trial, &ways)?))
}

//! What is around a run, in memory: its input, where its rows and notes go, its folder, its taps and its words.

ghost use Rattle.std.specs.Prelude.{◌≤◌, All, IfOk};

use crate::tables::{Calls, Trial};
use sb_emit::{CountTap, HeadTap, Tap};
use sb_outside::{MemFolder, MemSink, MemSource, StdSink};
use std::alloc::{AllocError, Global};
use std::collections::BTreeMap;
use std::fs::File;
use std::io;
use std::rt::Files;

/// Taps in a list.
pub type Taps = Vec<Box<dyn Tap>>;

/// The file that a tap writes rows to.
pub const HEAD: &str = "head";

/// How many calls of a source or a sink have a limit, if one is asked for.
const LIMITED_CALLS: usize = 200;

/// What is around a run.
#[derive(Drop)]
pub struct Around {
    pub input: MemSource,
    pub out: MemSink,
    pub notes: MemSink,
    pub folder: MemFolder,
}

/// The most that each call moves.
fn limits(alloc: Global, most: usize) -> Result<Vec<usize>, AllocError>
    ensures { IfOk result (λ limits. All (λ n. 1 ≤ n) limits.items) }
{
    if most == 0 {
        return Ok(Vec::new(alloc));
    }
    vec![in alloc; most; LIMITED_CALLS]
}

fn source_of(alloc: Global, text: &[u8], calls: &Calls) -> Result<MemSource, AllocError> {
    let bytes = Vec::from_slice(alloc, text)?;
    let failing = Vec::from_slice(alloc, &calls.failing)?;
    Ok(MemSource::new(bytes, limits(alloc, calls.most)?, failing))
}

fn sink_of(alloc: Global, calls: &Calls) -> Result<MemSink, AllocError> {
    let failing = Vec::from_slice(alloc, &calls.failing)?;
    Ok(MemSink::new(alloc, limits(alloc, calls.most)?, failing))
}

/// A folder with these files, of which the loads with these numbers fail.
fn folder_of(
    alloc: Global,
    files: &BTreeMap<String, Vec<u8>>,
    unloaded: &[u64],
) -> Result<MemFolder, AllocError> {
    let mut copies = BTreeMap::new(alloc);
    for (name, bytes) in files {
        copies.insert(name.clone()?, Vec::from_slice(alloc, bytes)?)?;
    }
    let failing = Vec::from_slice(alloc, unloaded)?;
    Ok(MemFolder::new(alloc, copies, failing))
}

/// What is around a trial.
pub fn around_of(alloc: Global, trial: &Trial) -> Result<Around, AllocError> {
    Ok(Around {
        input: source_of(alloc, &trial.text, &trial.reads)?,
        out: sink_of(alloc, &trial.writes)?,
        notes: sink_of(alloc, &trial.tells)?,
        folder: folder_of(alloc, &trial.files, &trial.unloaded)?,
    })
}

/// A tap that has enough of so many rows, which it writes to the file.
pub fn head_of(
    rt: &(impl AllocGlobal + Files<File = File>),
    most: u32,
) -> io::Result<HeadTap<StdSink<File>>> {
    let file = File::create(rt, HEAD)?;
    Ok(HeadTap::new(most.max(1), StdSink::new(file)))
}

/// A tap that counts rows, and fails at the calls with these numbers.
pub fn count_of(alloc: Global, failing: &[u64]) -> Result<CountTap, AllocError> {
    Ok(CountTap::new(Vec::from_slice(alloc, failing)?))
}

/// The words, and then those for a number of workers, if there is one.
pub fn words_of(
    alloc: Global,
    words: &[String],
    workers: Option<u64>,
) -> Result<Vec<String>, AllocError> {
    let mut strings = Vec::new(alloc);
    for word in words {
        strings.push(word.clone()?)?;
    }
    if let Some(workers) = workers {
        strings.push(String::from_str(alloc, "--workers")?)?;
        strings.push(format!(in alloc; "{workers}")?)?;
    }
    Ok(strings)
}

//! A trial: a run, with all that is around it, and what it has to leave.

use std::collections::BTreeMap;

/// How the calls of a source or a sink go.
#[derive(Drop)]
pub struct Calls {
    /// The most bytes that a call moves, 0 for no limit.
    pub most: usize,
    /// The numbers of the calls that fail, from 1.
    pub failing: Vec<u64>,
}

/// A tap of a run.
#[derive(Drop)]
pub enum Watch {
    /// It writes rows to a file, and has enough from the row of this number on, at least 1.
    Head(u32),
    /// It counts rows, and fails at the calls with these numbers.
    Count(Vec<u64>),
}

/// A run, and what it has to leave.
#[derive(Drop)]
pub struct Trial {
    /// The words, before those that say how many workers there are.
    pub words: Vec<String>,
    /// The names and the bytes of the files of the folder.
    pub files: BTreeMap<String, Vec<u8>>,
    /// The numbers of the loads that fail, from 1.
    pub unloaded: Vec<u64>,
    /// The input.
    pub text: Vec<u8>,
    /// How the input is read.
    pub reads: Calls,
    /// How rows are written.
    pub writes: Calls,
    /// How notes are written.
    pub tells: Calls,
    /// The taps.
    pub taps: Vec<Watch>,
    /// The rows that it has to leave.
    pub rows: Vec<u8>,
    /// The exit code that it has to leave.
    pub code: u64,
    /// The notes that it has to leave.
    pub notes: Vec<u8>,
    /// How often reads have failed, if there is one worker.
    pub faults: u64,
    /// How many rows the taps that are left have seen.
    pub seen: Vec<u64>,
    /// What the tap that writes rows to a file has to leave there, if there is one.
    pub head: Vec<u8>,
}

/// Of which stream the lines of a trial are.
#[derive(Clone, Copy, Drop)]
pub enum Lines {
    OfA,
    OfB,
    OfBoth,
}

/// In which ways a trial is run.
#[derive(Drop)]
pub struct Ways {
    /// The numbers of workers, 0 where the words stand as they are.
    pub workers: Vec<u64>,
    /// The most bytes that a read moves, each tried with each number of workers; none: as the trial says.
    pub pieces: Vec<u64>,
    /// Whether the plan is run by the plain program too.
    pub slow: bool,
    /// Of which stream the lines are: those of one are run by `feeds` too.
    pub lines: Lines,
    /// For how many numbers the input is made from the number, in place of the trial's.
    pub seeds: u64,
}

/// A trial, and how it is run.
#[derive(Drop)]
pub struct Case {
    pub trial: Trial,
    pub ways: Ways,
}

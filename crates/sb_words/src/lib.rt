//! The words of a command line, and what they ask for.
//!
//! | Words | What they ask for |
//! |---|---|
//! | `sum SIZE`, then options | the sums of stream a over windows of that size, 1 to 10^12 |
//! | `run PLAN`, then options | the rows of the plan in that file |
//! | `slow PLAN` | the same rows, by the plain program |
//! | `audit` | what the diary text on the input says, if it is legal |
//! | `work N`, then options | the summary of sums over N records that are made, 1 to [`sb_generator::MAX_RECORDS`] |
//! | `watch PLAN KEY`, then options | the last row of a key over the plan's rows |
//! | `feeds PLAN FILE_A FILE_B`, then options | the rows of the plan over two files, one of each stream |
//! | `part PLAN`, then options | the rows of a first part of an input |
//! | `save PLAN` | the checkpoint of a first part of an input |
//! | `resume PLAN CHECKPOINT`, then options | the rows of the rest of an input |
//!
//! PLAN, FILE_A, FILE_B and CHECKPOINT are names of files: such a name has at least one byte and does not begin with
//! `-`. A KEY is a [`sb_record::Word`] of 1 to 24 bytes that does not begin with `-`. The options stand behind the
//! arguments in any order, each at most once. An option and its value are two words.
//!
//! | Option | Range | Without it | What it sets |
//! |---|---|---|---|
//! | `--workers N` | 1 to [`MAX_WORKERS`] | [`DEFAULT_WORKERS`] | how many threads work |
//! | `--bundle B` | 1 to [`sb_bundle::MAX_BUNDLE`] | [`DEFAULT_BUNDLE`] | the most records of a bundle |
//! | `--pending P` | 1 to [`MAX_PENDING`] | [`DEFAULT_PENDING`] | the most bundles that wait or are out in a source's lane |
//! | `--diary` | | no | whether diaries are kept and written |
//! | `--taps` | | no | whether rows are offered to the taps |
//!
//! `work`, `watch`, `part` and `resume` take neither `--diary` nor `--taps`.
//!
//! A number is decimal digits, without a sign and without leading zeros. Nothing else is taken: no `--bundle=8`, no
//! abbreviation, no `--`, no `--help`.
#![tactic(auto)]

pub mod laws;
mod options;
mod planned;
mod request;
mod setting;

pub use options::{
    DEFAULT_BUNDLE, DEFAULT_PENDING, DEFAULT_WORKERS, MAX_PENDING, MAX_WORKERS, Options,
};
pub use request::{Request, command_of, read_amount};
pub use setting::{Setting, read_count};

// What the crates above name of the crates below.
pub use sb_bundle::MAX_BUNDLE;
pub use sb_generator::MAX_RECORDS;
pub use sb_window::{MAX_SIZE, NoMemory};

//! What the sink of a pipeline keeps: rows, until a watermark lies above their times.
//!
//! [`SinkKept`] is a grouping, as that of an aggregate is: parts of rows come in, and a closing gives the rows below
//! its mark in order. What happens to them then, `sb_sink` says.
#![tactic(auto)]

mod run;
mod sink;

pub use sink::SinkKept;

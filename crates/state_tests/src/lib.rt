//! Tests of what a run keeps and shows beside the engine: diaries and their audit (`sb_diary`), checkpoints
//! (`sb_checkpoint`), the rows of the sink (`sb_sink`) and the live table (`sb_live`). They stand apart because the gate
//! proves a crate with tests twice. Nothing stands on this crate.
#![tactic(auto)]

#[cfg(test)]
mod audits;
#[cfg(test)]
mod checkpoint_texts;
#[cfg(test)]
mod checkpoints;
#[cfg(test)]
mod diaries;
#[cfg(test)]
mod live_tables;
#[cfg(test)]
mod sinks;

//! Tests of the crates that read and write texts: `sb_words`, `sb_arguments`, `sb_plan`, `sb_emit` and `sb_generator`.
//! They stand apart because the gate proves a crate with tests twice. Nothing stands on this crate.
#![tactic(auto)]

#[cfg(test)]
mod generated;
#[cfg(test)]
mod outputs;
#[cfg(test)]
mod plans;
#[cfg(test)]
mod words;

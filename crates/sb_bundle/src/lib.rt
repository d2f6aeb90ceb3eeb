//! Bundles: the pieces of an epoch that workers process.
//!
//! Watermarks cut a stream into epochs. The records of an epoch may be processed in any order, a bundle at a time. A
//! [`Cutter`] takes the records of a stream one by one and cuts each epoch into bundles of a fixed size; the last
//! [`Bundle`] of an epoch may be shorter, and has at least one record. [`laws`] states what this comes to over a whole
//! stream.
#![tactic(auto)]

mod bundle;
mod cutter;
pub mod laws;

pub use bundle::{Bundle, MAX_BUNDLE};
pub use cutter::Cutter;

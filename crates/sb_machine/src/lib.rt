//! The machine: it runs the events of the core on a moment, as a program that one can try.
//!
//! [`first`] gives the moment before any event of a plan, [`step`] does an event where its condition holds, and [`run`]
//! does a list of them. No program of this repository runs it: it shows that the definitions of `sb_core` can be worked
//! out, and tests try them by it.
#![tactic(auto)]

mod begin;
mod bundles;
mod closings;
mod copying;
mod feeding;
mod hold;
mod lanes;
mod machine;
mod marks;
mod operate;

pub use machine::{RunStop, StepStop, first, run, step};

// What the crates above name of the crates below.
pub use sb_slow::slow_rows;

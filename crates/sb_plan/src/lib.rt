//! Plan files: the plan that a text describes, or the first test that it fails.
//!
//! A plan file is a TOML document. Its `transform` is an array of 1 to 12 tables, one for each transform in its order.
//! Its `late` and `keys`, which may be left out, say what becomes of late records and what keys are.
//!
//! [`plan_of`] reads it and answers the first test that fails: those of the document, then those of each table in its
//! order, then those of the whole. The tests, in this order, are the definitions in specs/.
#![tactic(auto)]

mod addends;
mod element;
mod ending;
mod entry;
mod fault;
mod keys;
mod kinds;
pub mod laws;
mod name;
mod plan_text;
mod settings;
mod stop;
mod table;
mod wiring;
mod words;

pub use fault::{PlanCause, PlanFault, PlanKey, PlanStop};
pub use plan_text::plan_of;

/// How many bytes a plan file may have.
pub const MAX_PLAN_BYTES: usize = 1_048_576;

/// How many bytes the table file of a look-up may have.
pub const MAX_TABLE_BYTES: usize = 4_194_304;

/// How many bytes the name of a transform may have.
pub const MAX_NAME_BYTES: usize = 32;

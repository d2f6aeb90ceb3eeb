//! The grouping of aggregates: how an aggregation is worked out as records come.
//!
//! An [`Aggregate`] keeps a partial value for each keyed window that is open. Workers make an [`AggPart`] of each
//! bundle, it absorbs them in any order, and a mark closes windows and gives their rows. What an aggregation gives over
//! whole lists is defined in `sb_windowed`.
#![tactic(auto)]

mod grouping;
mod part;
mod partial;
mod partials;
mod placing;
mod ranking;
mod rows;
mod single;
mod sorted_list;
mod value_set;

pub use grouping::Aggregate;
pub use part::{AggPart, part_of};

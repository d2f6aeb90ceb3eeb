//! The grouping of joins: how the pairs of a left and a right record are found as records come.
//!
//! A [`JoinKept`] keeps the values of both inputs for each keyed window that is open. Workers make a [`JoinPart`] of each
//! bundle, it absorbs them in any order, and a mark closes windows and gives their rows. What a join gives over whole
//! lists is defined in `sb_windowed`.
#![tactic(auto)]

mod kept;
mod part;
mod rows;
mod side_values;

pub use kept::JoinKept;
pub use part::{JoinPart, join_part_of};

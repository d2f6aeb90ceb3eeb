//! The right to take steps in a cascade, and what goes with it.

use sb_hand::Claim;
use sb_shared::{Keeping, Pass};

/// The right of one worker to take steps in a cascade. It has at most one bundle or closing in hand.
#[derive(Drop)]
pub struct CascadePass {
    pub(crate) seat: Pass<Keeping>,
    /// How many records the bundle in hand gave, once they are delivered.
    pub(crate) delivered: Option<u64>,
    /// How many rows of the closing in hand are delivered.
    pub(crate) gone: usize,
    /// The bundle in hand, if it comes from `fill`, which found no free place for it.
    pub(crate) kept: Option<Claim>,
    /// Where what is in hand gives its output below, if that is known.
    pub(crate) link: Option<u64>,
}

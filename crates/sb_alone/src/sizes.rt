//! The sizes of a run.

/// The most workers of a run.
pub const MAX_WORKERS: u32 = 64;

/// The sizes of a run. What it writes does not depend on them.
#[derive(Clone, Copy, Debug, PartialEq, Eq)]
pub struct Sizes {
    /// How many workers there are, 1 to [`MAX_WORKERS`]. [`execute_alone`](crate::execute_alone) has one in any case.
    pub workers: u32,
    /// The most records of a bundle, 1 to [`MAX_BUNDLE`](sb_bundle::MAX_BUNDLE).
    pub bundle: u32,
    /// From how many bundles on, waiting or out, a stream's lane refuses arrivals: 1 to
    /// [`MAX_PENDING`](sb_hand::MAX_PENDING).
    pub pending: u32,
    /// Whether diaries keep their lines in memory.
    pub keeps_diaries: bool,
}

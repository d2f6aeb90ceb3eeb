//! The limits of the program.

/// The most bytes that a checkpoint file may have.
pub const MAX_CHECKPOINT_BYTES: usize = 268_435_456;

/// The size of the windows whose sums `work` makes, in units of time.
pub const WORK_WINDOW: u64 = 10;

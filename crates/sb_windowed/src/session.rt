//! Sessions: how long their gap may be.

/// The greatest gap of sessions, in the unit of the times of records.
pub const MAX_GAP: u64 = 1_000_000_000_000;

//! Bundles of records.

use sb_record::{Record, Sequence};

/// The most records of a bundle.
pub const MAX_BUNDLE: u32 = 65_536;

/// Records of one epoch that are processed together.
#[derive(Drop)]
pub struct Bundle {
    /// The number that its lane gives it, 0 until then.
    pub number: u64,
    /// How many watermarks stand before the records.
    pub epoch: u64,
    /// The watermark before the epoch, 0 in the first: no record of the epoch has a time below it.
    pub floor: u64,
    /// The records, in the order in which they came.
    pub records: Sequence<Record>,
}

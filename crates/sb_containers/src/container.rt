//! Containers, and the lanes in which they stand.

use sb_base::{Bundle, Sequence};

/// The container of an epoch in a lane: its bundles, and its watermark once it has come.
#[derive(Drop)]
pub struct Cont {
    /// How many watermarks of the lane stand before the container's records.
    pub epoch: u64,
    /// The watermark before the epoch, 0 in the first: no record of the epoch has a time below it.
    pub floor: u64,
    /// The bundles that no worker has taken yet, in order of arrival.
    pub waiting: Sequence<Bundle>,
    /// The numbers of the bundles that were taken and are not finished.
    pub out: Sequence<u64>,
    /// The watermark that ends the epoch. With it the container is sealed: no bundle comes any more.
    pub mark: Option<u64>,
    /// Whether the container is being closed.
    pub closing: bool,
}

/// A lane of a node: its containers, in order of epoch.
#[derive(Drop)]
pub struct CoreLane {
    pub conts: Sequence<Cont>,
    /// How many bundles have arrived.
    pub arrived: u64,
    /// The watermarks of all sealed epochs, in order.
    pub marks: Sequence<u64>,
    /// How many epochs have ended: their containers are gone.
    pub ended: u64,
}

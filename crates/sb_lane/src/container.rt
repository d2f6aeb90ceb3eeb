//! What a lane has of one epoch.

ghost use Rattle.std.specs.Prelude.{◌+◌, ◌≤◌, vec_len, vec_capacity};
ghost use Rattle.std.specs.VecDeque.{deque_len};

use sb_containers::Bundle;
use std::collections::VecDeque;

/// What a lane has of one epoch. There is always room to take each bundle that waits.
#[derive(Drop)]
pub struct Container {
    /// How many watermarks of the lane stand before the container's records.
    pub epoch: u64,
    /// The watermark before the epoch, 0 in the first: no record of the epoch has a time below it.
    pub floor: u64,
    /// The bundles that no worker has taken yet, in order of arrival.
    pub waiting: VecDeque<Bundle>,
    /// The numbers of the bundles that were taken and are not finished.
    pub out: Vec<u64>,
    /// The watermark that ends the epoch. With it the container is sealed: no bundle comes any more.
    pub mark: Option<u64>,
    /// Whether the container is being closed.
    pub closing: bool,
    /// The place of the container below that takes the output, once it is known.
    pub down: Option<u64>,
    ghost room: { deque_len waiting + vec_len out ≤ vec_capacity out },
}

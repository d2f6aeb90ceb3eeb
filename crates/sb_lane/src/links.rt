//! The links of containers to those below.

ghost use Rattle.std.specs.Prelude.{◌≡◌};
ghost use Rattle.sb_lane.specs.Links.{down_of, with_link, links_of};
ghost use Rattle.sb_lane.specs.Placed.{conts_of};

use crate::arena::Arena;
use crate::finding::epoch_at;

/// Links the container of an epoch to a place below.
pub(crate) fn link_in_epoch(containers: &mut Arena, epoch: u64, down: u64)
    ensures conts { conts_of containers.new ≡ conts_of containers.old }
    ensures links { links_of containers.new ≡ with_link epoch down (links_of containers.old) }
{
    if let Some(at) = epoch_at(containers, epoch) {
        containers.link(at, down);
    }
}

/// The place below that the container of an epoch is linked to.
pub(crate) fn down_in(containers: &Arena, epoch: u64) -> Option<u64>
    ensures { result ≡ down_of epoch (links_of containers.now) }
{
    match epoch_at(containers, epoch) {
        Some(at) => containers.get(at).down,
        None => None,
    }
}

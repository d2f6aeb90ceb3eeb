//! Bundles are taken by workers, and finished.

ghost use Rattle.std.specs.Prelude.{◌≡◌, ◌+◌, None, Some, IfSome, IfNone};
ghost use Rattle.sb_lane.specs.Changes.{DifferInRooms};
ghost use Rattle.sb_lane.specs.Links.{links_of};
ghost use Rattle.sb_lane.specs.Placed.{conts_of};
ghost use Rattle.sb_lane.specs.Taking.{finish_first, take_first};
ghost use Rattle.sb_lane.specs.Unfinished.{unfinished_of};

use crate::arena::Arena;
use crate::finding::{epoch_at, first_waiting};
use sb_containers::Bundle;

/// Takes the first waiting bundle of the oldest container that has one.
pub(crate) fn take_oldest(containers: &mut Arena) -> Option<Bundle>
    ensures taken { IfSome result (λ b. take_first (conts_of containers.old) ≡ Some (b, conts_of containers.new)) }
    ensures links { links_of containers.new ≡ links_of containers.old }
    ensures unfinished { unfinished_of (conts_of containers.new) ≡ unfinished_of (conts_of containers.old) }
    ensures none { IfNone result (take_first (conts_of containers.old) ≡ None) }
    ensures same { IfNone result (DifferInRooms containers.old containers.new) }
{
    let at = first_waiting(containers)?;
    containers.take(at)
}

/// Finishes a bundle of an epoch. Gives how many numbers are gone.
pub(crate) fn finish_at(containers: &mut Arena, epoch: u64, number: u64) -> usize
    ensures list { conts_of containers.new ≡ finish_first epoch number (conts_of containers.old) }
    ensures links { links_of containers.new ≡ links_of containers.old }
    ensures gone { unfinished_of (conts_of containers.new) + result ≡ unfinished_of (conts_of containers.old) }
{
    let Some(at) = epoch_at(containers, epoch) else {
        return 0;
    };
    containers.finish(at, number)
}

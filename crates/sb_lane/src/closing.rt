//! The oldest container closes.

ghost use Rattle.std.specs.Prelude.{◌≡◌, ◌<◌, ◌∷◌, List, length};
ghost use Rattle.sb_containers.specs.declared.container.Cont.{Cont as ACont};
ghost use Rattle.sb_containers.specs.Lanes.{with_first_closing};
ghost use Rattle.sb_lane.specs.Links.{links_of};
ghost use Rattle.sb_lane.specs.Looks.{look_of};
ghost use Rattle.sb_lane.specs.Placed.{cont_of, conts_of};
ghost use Rattle.sb_lane.specs.Unfinished.{unfinished_of};

use crate::answers::{LaneClose, NotYet};
use crate::arena::Arena;
use crate::container::Container;

// What this container answers to a closing, as the oldest.
fn look_in(c: &Container) -> Result<LaneClose, NotYet>
    ensures { (cs : List ACont) → result ≡ look_of (cont_of c.now ∷ cs) }
{
    let epoch = c.epoch;
    if c.closing {
        return Err(NotYet::Closing { epoch });
    }
    let Some(mark) = c.mark else {
        return Err(NotYet::Unsealed { epoch });
    };
    if !c.waiting.is_empty() {
        return Err(NotYet::Waiting {
            epoch,
            count: c.waiting.len() as u64,
        });
    }
    if !c.out.is_empty() {
        return Err(NotYet::Out {
            epoch,
            count: c.out.len() as u64,
        });
    }
    Ok(LaneClose { epoch, mark })
}

/// What the oldest container answers to a closing.
pub(crate) fn look_at(containers: &Arena) -> Result<LaneClose, NotYet>
    ensures { result ≡ look_of (conts_of containers.now) }
{
    if containers.len() == 0 {
        return Err(NotYet::NoContainer);
    }
    look_in(containers.get(0))
}

/// The oldest container is closing.
pub(crate) fn close_first(containers: &mut Arena)
    requires { 0 < length containers.old }
    ensures list { conts_of containers.new ≡ with_first_closing (conts_of containers.old) }
    ensures links { links_of containers.new ≡ links_of containers.old }
    ensures unfinished { unfinished_of (conts_of containers.new) ≡ unfinished_of (conts_of containers.old) }
{
    containers.close(0);
}

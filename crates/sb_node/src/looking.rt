//! Looks at the lanes of a node.

ghost use Rattle.std.specs.Prelude.{◌≡◌, ◌≤◌, true, [], ◌∷◌, length, is_some, slice_get};
ghost use Rattle.std.specs.Prelude.{All, Some, Ok, IfOk, IfErr, IfSome, IfNone};
ghost use Rattle.sb_lane.specs.containers.Marks.{first_is_closing};
ghost use Rattle.sb_lane.specs.declared.answers.LaneClose.{LaneClose as AClose};
ghost use Rattle.sb_lane.specs.LaneView.{LaneView};
ghost use Rattle.sb_lane.specs.Looks.{look_of};
ghost use Rattle.sb_lane.specs.Placed.{conts_of};
ghost use Rattle.sb_lane.specs.Taking.{take_first};
ghost use Rattle.sb_node.specs.Changes.{HasLane};
ghost use Rattle.sb_node.specs.Looking.{EarlierCannotClose, IsNotYet, NoneClosing, NoneWaits};

use crate::state::NodeState;
use sb_lane::{Lane, LaneClose, NotYet};

/// What a lane answers to a closing, and whether its oldest container is closing.
fn look_at(lane: &Lane) -> (Result<LaneClose, NotYet>, bool)
    ensures look { result.0 ≡ look_of (conts_of lane.now.containers) }
    ensures closing { result.1 ≡ first_is_closing (conts_of lane.now.containers) }
{
    let look = lane.look();
    let is_closing = matches!(look, Err(NotYet::Closing { .. }));
    (look, is_closing)
}

/// The same as [`NodeState::may_close`], of two lanes.
fn first_of_two(left: &Lane, right: &Lane) -> Result<(u32, u64), NotYet>
    ensures ok { IfOk result (λ p. (at : LaneView) × (slice_get (left.now ∷ right.now ∷ []) p.0 ≡ Some at)
        × (close : AClose) × (look_of (conts_of at.containers) ≡ Ok close) × (close.epoch ≡ p.1)) }
    ensures first { IfOk result (λ p. EarlierCannotClose p.0 (left.now ∷ right.now ∷ [])) }
    ensures none { IfOk result (λ p. NoneClosing (left.now ∷ right.now ∷ [])) }
    ensures err { IfErr result (λ why. IsNotYet (left.now ∷ right.now ∷ []) why) }
{
    let (first, is_first) = look_at(left);
    let (second, is_second) = look_at(right);
    match first {
        Err(why) if is_first => Err(why),
        Ok(close) if !is_second => Ok((0, close.epoch)),
        _ => match second {
            Ok(close) => Ok((1, close.epoch)),
            Err(why) => Err(why),
        },
    }
}

impl NodeState {
    /// The first lane in which a bundle waits.
    pub fn waiting_lane(&self) -> Option<u32>
        requires few { length self.now.lanes.items ≤ 2 }
        ensures some { IfSome result (λ l. (at : LaneView) × HasLane l at self.now
            × (is_some (take_first (conts_of at.containers)) ≡ true)) }
        ensures none { IfNone result (All NoneWaits self.now.lanes.items) }
    {
        for lane in 0..self.lanes.len() {
            if self.lanes[lane].waits() {
                return Some(lane as u32);
            }
        }
        None
    }

    /// The first lane whose oldest container can close, and that container's epoch. If a closing of the node is under
    /// way, or no lane's oldest container can close, the answer is why.
    pub fn may_close(&self) -> Result<(u32, u64), NotYet>
        requires lanes { (1 ≤ length self.now.lanes.items) × (length self.now.lanes.items ≤ 2) }
        ensures ok { IfOk result (λ p. (at : LaneView) × HasLane p.0 at self.now
            × (close : AClose) × (look_of (conts_of at.containers) ≡ Ok close) × (close.epoch ≡ p.1)) }
        ensures first { IfOk result (λ p. EarlierCannotClose p.0 self.now.lanes.items) }
        ensures none { IfOk result (λ p. NoneClosing self.now.lanes.items) }
        ensures err { IfErr result (λ why. IsNotYet self.now.lanes.items why) }
    {
        match self.lanes.as_slice() {
            [own] => match own.look() {
                Ok(close) => Ok((0, close.epoch)),
                Err(why) => Err(why),
            },
            [left, right] => first_of_two(left, right),
            _ => Err(NotYet::NoContainer),
        }
    }
}

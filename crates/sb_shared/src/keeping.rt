//! The rule that the turns and the shelf keep.

use crate::shared_node::SharedNode;
use crate::telling::{Change, Hands, Piece, Setting};
use sb_turn::Keep;

/// What lies under the turns and on the shelf of a cascade, and its rule: the cascade shows a moment.
pub struct Keeping;

impl Keep for Keeping {
    ghost use Rattle.sb_shared.specs.Doings.{is_event};
    ghost use Rattle.sb_shared.specs.Found.{IsFound, IsLaid};
    ghost use Rattle.sb_shared.specs.Leavings.{Looks};
    ghost use Rattle.sb_shared.specs.Passing.{fitting, found, splits};
    ghost use Rattle.sb_shared.specs.Shown.{ShowsMoment};
    ghost use Rattle.sb_shared.specs.SharedNodes.{lines_of};
    ghost use Rattle.sb_shared.specs.Views.{after, first_hands, idle_hands};
    ghost use Rattle.sb_shared.specs.Views.{hands_after_claim, hands_after_put, hands_after_raise};

    type State = SharedNode;

    type Piece = Piece;

    type Change = Change;

    type View = Hands;

    type About = Setting;

    ghost lines_of = { lines_of };

    ghost is_event = { is_event };

    ghost first = { λ _. first_hands };

    ghost idle = { idle_hands };

    ghost after = { after };

    ghost laid = { hands_after_put };

    ghost claimed = { hands_after_claim };

    ghost told = { hands_after_raise };

    ghost rule = { ShowsMoment };

    ghost allows = { λ a w i x y c. Looks a i x y c };

    ghost finds = { IsFound };

    ghost fits = { IsLaid };

    fn lines(state: &SharedNode) -> u64 {
        state.lines()
    }

    ghost splits = { splits };

    ghost found = { found };

    ghost fitting = { fitting };
}

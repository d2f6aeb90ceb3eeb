//! Who has which numbers in hand.

use sb_turn::Keep;
use std::collections::LinkedList;

/// What a pass has in hand. No value of it is made.
pub struct Hand {
    pub numbers: LinkedList<u64>,
}

pub struct Hands;

impl Keep for Hands {
    ghost use Rattle.std.specs.Prelude.{false, []};
    ghost use Rattle.turn_uses.specs.InHand.{hand, without, with_one, IsKept, kept_with_idle};

    type State = u64;

    type Piece = u64;

    type Change = ();

    type View = Hand;

    type About = Vec<u64>;

    ghost lines_of = { λ _. 0 };

    ghost is_event = { λ _. false };

    ghost first = { λ a. hand a.items };

    ghost idle = { hand [] };

    ghost after = { λ w _ _. w };

    ghost laid = { without };

    ghost claimed = { with_one };

    ghost told = { λ w _. w };

    ghost rule = { λ a shelf _ _ _ views. IsKept a.items shelf views };

    ghost allows = { λ _ _ _ _ _ _. Unit {0} };

    ghost finds = { λ _ _ _ _. Unit {0} };

    ghost fits = { λ _ _. Unit {0} };

    fn lines(state: &u64) -> u64 {
        let _ = state;
        0
    }

    ghost splits = { λ a shelf _ _ _ views k. kept_with_idle a.items shelf views k };

    ghost found = { λ _ _ _ _ _ _ _ _ _ _ _ _ _. tt };

    ghost fitting = { λ _ _ _ _ _ _ _ _ _ _. tt };
}

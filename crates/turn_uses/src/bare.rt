//! A client that lays nothing on the shelf: it closes after one claim, which finds nothing.
ghost use Rattle.std.specs.Prelude.{◌≡◌, ◌≤◌, length, IfSome};

use sb_turn::{Keep, MAX_NODES, Turns};
use std::alloc::Global;

pub struct Bare;

impl Keep for Bare {
    ghost use Rattle.std.specs.Prelude.{◌≡◌, false, List, Option, None, replicate};
    ghost use Rattle.turn_uses.specs.Bare.{IsBare, nothing_fits};

    type State = u64;

    type Piece = ();

    type Change = ();

    type View = ();

    type About = ();

    ghost lines_of = { λ _. 0 };

    ghost is_event = { λ _. false };

    ghost first = { λ _. tt };

    ghost idle = { tt };

    ghost after = { λ _ _ _. tt };

    ghost laid = { λ _ _. tt };

    ghost claimed = { λ _ _. tt };

    ghost told = { λ _ _. tt };

    ghost rule = { λ _ shelf _ _ _ _. IsBare shelf };

    ghost allows = { λ _ _ _ _ _ _. Unit {0} };

    ghost finds = { λ _ _ _ _. Unit {0} };

    ghost fits = { λ _ _. ⊥ };

    fn lines(state: &u64) -> u64 {
        let _ = state;
        0
    }

    ghost splits = { λ _ shelf _ _ _ _ k. k };

    ghost found = { λ _ _ _ _ _ _ _ _ _ _ _ _ _. tt };

    ghost fitting = { λ _ shelf _ _ _ _ k p b e. nothing_fits shelf k p b e };
}

/// The states, back from under their turns.
pub fn open_and_shut(alloc: Global, states: Vec<u64>) -> Option<Vec<u64>>
    requires { (1 ≤ length states.items) × (length states.items ≤ MAX_NODES) }
{
    let Ok((turns, mut pass)) = Turns::<Bare>::new(alloc, states, &()) else {
        return None;
    };
    match turns.claim(&mut pass) {
        None => Some(turns.close(pass)),
        Some(_) => unreachable!(),
    }
}

/// The states, of which the first has one more: a second pass enters its turn, and is taken in again.
pub fn add_one(alloc: Global, states: Vec<u64>) -> Option<Vec<u64>>
    requires { (1 ≤ length states.items) × (length states.items ≤ MAX_NODES) }
{
    let Ok((turns, mut first)) = Turns::<Bare>::new(alloc, states, &()) else {
        return None;
    };
    let mut second = turns.split(&mut first);
    if let Some(mut guard) = turns.try_enter(0, &mut second) {
        guard.state = guard.state.wrapping_add(1);
        turns.leave(guard, &mut second, ());
    }
    turns.join(&mut first, second);
    match turns.claim(&mut first) {
        None => Some(turns.close(first)),
        Some(_) => unreachable!(),
    }
}

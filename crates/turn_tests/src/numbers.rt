//! Turns over numbers, without events, and a shelf of numbers. The rule asks nothing of them.

ghost use Rattle.std.specs.Prelude.{◌≡◌, ℕ, List, false};

use sb_turn::{Keep, Reason, Turns};
use std::test::Fail;

/// Numbers under turns, and numbers on the shelf.
pub(crate) struct Numbers;

impl Keep for Numbers {
    type State = u64;

    type Piece = u64;

    type Change = ();

    type View = ();

    type About = ();

    ghost lines_of = { λ _. 0 };

    ghost is_event = { λ _. false };

    ghost first = { λ _. tt };

    ghost idle = { tt };

    ghost after = { λ _ _ _. tt };

    ghost laid = { λ _ _. tt };

    ghost claimed = { λ _ _. tt };

    ghost told = { λ _ _. tt };

    ghost rule = { λ _ _ _ _ _ _. Unit {0} };

    ghost allows = { λ _ _ _ _ _ _. Unit {0} };

    ghost finds = { λ _ _ _ _. Unit {0} };

    ghost fits = { λ _ _. Unit {0} };

    fn lines(state: &u64) -> u64 {
        let _ = state;
        0
    }

    ghost splits = { λ _ _ _ _ _ _ _. tt };

    ghost found = { λ _ _ _ _ _ _ _ _ _ _ _ _ _. tt };

    ghost fitting = { λ _ _ _ _ _ _ _ _ _ _. tt };
}

#[test]
fn one_turn_goes_from_pass_to_pass(rt: HostRuntime) -> Result<(), Fail> {
    let states = vec![in rt.alloc(); 5u64]?;
    let (turns, mut first) = Turns::<Numbers>::new(rt.alloc(), states, &())?;
    let mut second = turns.split(&mut first);
    let Some(held) = turns.try_enter(0, &mut first) else {
        panic!(rt; "the turn was free")
    };
    if let Some(guard) = turns.try_enter(0, &mut second) {
        turns.leave(guard, &mut second, ());
        panic!(rt; "the turn was held")
    }
    turns.leave(held, &mut first, ());
    let Some(held) = turns.try_enter(0, &mut second) else {
        panic!(rt; "the turn was left")
    };
    assert!(rt; held.state == 5);
    turns.leave(held, &mut second, ());
    let waited = turns.enter(&rt, 0, &mut second);
    turns.leave(waited, &mut second, ());
    turns.join(&mut first, second);
    let None = turns.claim(&mut first) else {
        panic!(rt; "the shelf was empty")
    };
    assert!(rt; turns.close(first).as_slice() == [5].as_slice());
    Ok(())
}

#[test]
fn each_node_has_a_turn_of_its_own(rt: HostRuntime) -> Result<(), Fail> {
    let states = vec![in rt.alloc(); 5u64, 7u64]?;
    let (turns, mut first) = Turns::<Numbers>::new(rt.alloc(), states, &())?;
    let mut second = turns.split(&mut first);
    let Some(zero) = turns.try_enter(0, &mut first) else {
        panic!(rt; "turn 0 was free")
    };
    if let Some(guard) = turns.try_enter(0, &mut second) {
        turns.leave(guard, &mut second, ());
        panic!(rt; "turn 0 was held")
    }
    let Some(mut one) = turns.try_enter(1, &mut second) else {
        panic!(rt; "turn 1 was free")
    };
    turns.leave(zero, &mut first, ());
    one.state = one.state.wrapping_add(1);
    turns.leave(one, &mut second, ());
    let Some(zero) = turns.try_enter(0, &mut second) else {
        panic!(rt; "turn 0 was left")
    };
    turns.leave(zero, &mut second, ());
    turns.join(&mut first, second);
    let None = turns.claim(&mut first) else {
        panic!(rt; "the shelf was empty")
    };
    assert!(rt; turns.close(first).as_slice() == [5, 8].as_slice());
    Ok(())
}

#[test]
fn the_state_word_never_falls(rt: HostRuntime) -> Result<(), Fail> {
    let states = vec![in rt.alloc(); 5u64]?;
    let (turns, mut first) = Turns::<Numbers>::new(rt.alloc(), states, &())?;
    let mut second = turns.split(&mut first);
    assert!(rt; turns.reason(&mut second) == Reason::Running);
    let cases = [
        (Reason::Running, Reason::Running),
        (Reason::Ended, Reason::Ended),
        (Reason::Running, Reason::Ended),
        (Reason::Memory, Reason::Memory),
        (Reason::Fault, Reason::Memory),
        (Reason::Ended, Reason::Memory),
    ];
    for (raised, seen) in cases {
        turns.stop(&mut second, raised);
        assert!(rt; turns.reason(&mut first) == seen);
    }
    Ok(())
}

#[test]
fn a_piece_is_claimed_once(rt: HostRuntime) -> Result<(), Fail> {
    let states = vec![in rt.alloc(); 5u64]?;
    let (turns, mut pass) = Turns::<Numbers>::new(rt.alloc(), states, &())?;
    assert!(rt; turns.claim(&mut pass) == None);
    assert!(rt; turns.put(&mut pass, 9) == None);
    assert!(rt; turns.claim(&mut pass) == Some(9));
    assert!(rt; turns.claim(&mut pass) == None);
    for piece in 0..64 {
        assert!(rt; turns.put(&mut pass, piece) == None);
    }
    assert!(rt; turns.put(&mut pass, 64) == Some(64));
    for piece in 0..64 {
        assert!(rt; turns.claim(&mut pass) == Some(piece));
    }
    let mut other = turns.split(&mut pass);
    assert!(rt; turns.put(&mut other, 3) == None);
    assert!(rt; turns.claim(&mut pass) == Some(3));
    turns.join(&mut pass, other);
    let None = turns.claim(&mut pass) else {
        panic!(rt; "the shelf was empty")
    };
    assert!(rt; turns.close(pass).as_slice() == [5].as_slice());
    Ok(())
}

//! Uses of [`sb_turn`]: numbers go over the shelf and each comes back once, and a state is changed under its turn.
#![tactic(auto)]

ghost use Rattle.std.specs.Prelude.{◌≡◌, IfSome, true, []};
ghost use Rattle.std.specs.List.Sorted.{IsPermutation};
ghost use Rattle.sb_turn.specs.Passes.{IsPassOf, IsFree, IsFirst, IsSamePass, ShowsEmpty, about, seat_view};
ghost use Rattle.turn_uses.specs.InHand.{hand};

mod bare;
mod hands;

pub use bare::{add_one, open_and_shut};
use hands::Hands;
use sb_turn::{Pass, Turns};
use std::alloc::Global;

/// Lays all that the pass has in hand.
fn lay_all(turns: &Turns<Hands>, pass: &mut Pass<Hands>, numbers: &Vec<u64>) -> bool
    requires pass { IsPassOf turns.now pass.old × IsFree pass.old }
    requires hand { (seat_view pass.old).client ≡ hand numbers.now.items }
    ensures pass { IsSamePass pass.old pass.new × IsFree pass.new
        × ((seat_view pass.new).count ≡ (seat_view pass.old).count) }
    ensures hand { result ≡ true → (seat_view pass.new).client ≡ hand [] }
{
    for i in 0..numbers.len() {
        match turns.put(pass, numbers[i]) {
            None => {}
            Some(_) => return false,
        }
    }
    true
}

/// Claims what lies on the shelf, until nothing does.
fn claim_all(turns: &Turns<Hands>, pass: &mut Pass<Hands>, out: &mut Vec<u64>) -> bool
    requires pass { IsPassOf turns.now pass.old × IsFree pass.old × ((seat_view pass.old).count ≡ 0) }
    requires hand { (seat_view pass.old).client ≡ hand out.old.items }
    ensures pass { IsSamePass pass.old pass.new × IsFree pass.new × ((seat_view pass.new).count ≡ 0) }
    ensures hand { result ≡ true → (seat_view pass.new).client ≡ hand out.new.items }
    ensures empty { result ≡ true → ShowsEmpty pass.new }
{
    for _ in 0..65 {
        match turns.claim(pass) {
            None => return true,
            Some(piece) => {
                if out.push(piece).is_err() {
                    return false;
                }
            }
        }
    }
    false
}

/// Lays each number on the shelf, and claims what lies there. What comes out is what was laid, each number as often.
/// `None` if there is no memory, or no place.
pub fn lay_and_claim(alloc: Global, numbers: &Vec<u64>) -> Option<Vec<u64>>
    ensures { IfSome result (λ out. IsPermutation numbers.now.items out.items) }
{
    let Ok(states) = vec![in alloc; 0u64] else {
        return None;
    };
    let mut out = Vec::new(alloc);
    let Ok((turns, mut pass)) = Turns::<Hands>::new(alloc, states, numbers) else {
        return None;
    };
    if !lay_all(&turns, &mut pass, numbers) {
        return None;
    }
    if !claim_all(&turns, &mut pass, &mut out) {
        return None;
    }
    turns.close(pass);
    Some(out)
}

#[cfg(test)]
mod tests;

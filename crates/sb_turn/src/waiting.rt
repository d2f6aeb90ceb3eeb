//! Waiting for a turn, and waking who waits.
//!
//! A wake costs a call of the system, so a leaving makes none if nobody waits. No wake is lost, since all steps stand
//! in one order. Who waits is counted before it tries, and sleeps only if the word is still as its try found it, held.
//! Whoever holds the turn frees the word first and looks at the count then, so it finds the waiter counted and wakes
//! one. If that is another waiter, it gets the turn and leaves it, or finds it held by one who will leave it. This is
//! argued and not proved: no clause promises that a thread gets on.
ghost use Rattle.std.specs.Prelude.{◌≡◌, ℕ, ◌<◌, ◌≤◌, [], ◌∷◌};
ghost use Rattle.sb_turn.specs.declared.turns.Slot.TheVariants.{Empty};
ghost use Rattle.sb_turn.specs.Turning.{won_view, tried_view};
ghost use Rattle.sb_turn.specs.Passes.{IsPassOf, IsFree, IsSamePass, node_count, about, seat_view};

use crate::keep::{Keep, MAX_STATE_LINES};
use crate::turns::{Guard, Pass, Turns};
use std::marker::Brand;
use std::sync::Wait;
use std::sync::atomic::Ordering::SeqCst;

impl<K: Keep> Turns<K> {
    // Waits for the turn of a node. It is counted before its first try, and until it has the turn.
    pub(crate) fn wait<R: Wait>(&self, rt: &R, node: u32, pass: &mut Pass<K>) -> Guard<K>
        requires pass { IsPassOf self.now pass.old × IsFree pass.old }
        requires node { node < node_count self.now }
        ensures pass { IsSamePass pass.old pass.new }
        ensures turn { (result.node ≡ node) × (result.found.value ≡ result.state)
            × ((tries : ℕ) × (pass.new.me
            ≡ (won_view node result.state (tried_view node tries (seat_view pass.old)), (node, Empty) ∷ []))) }
        ensures lines { K.lines_of result.state ≤ MAX_STATE_LINES }
        ensures finds { K.finds (about self.now) (seat_view pass.old).client node result.state }
    {
        let waiting = &self.hints.waiting[node as usize];
        waiting.fetch_add(1, SeqCst);
        for _ in rt.forever() {
            match self.attempt::<Brand>(node, pass) {
                Ok(guard) => {
                    waiting.fetch_sub(1, SeqCst);
                    return guard;
                }
                Err(found) => self
                    .table
                    .shared
                    .park(rt, node as usize + 1, (found % 4294967296) as u32),
            }
        }
        unreachable!()
    }

    // Wakes one that waits for the turn of a node, if any does. The word must have been freed before.
    pub(crate) fn wake(&self, node: u32)
        requires node { node < node_count self.now }
    {
        if self.hints.waiting[node as usize].load(SeqCst) != 0 {
            self.table.shared.wake_one(node as usize + 1);
        }
    }
}

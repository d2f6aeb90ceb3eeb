//! Entering a turn: in one try, or by waiting for it.
ghost use Rattle.std.specs.Prelude.{◌≡◌, ℕ, ◌<◌, ◌≤◌, [], ◌∷◌, IfOk, IfSome, MatchOption, MatchResult};
ghost use Rattle.sb_turn.specs.declared.turns.Slot.TheVariants.{Empty};
ghost use Rattle.sb_turn.specs.Turning.{lost_view, won_view, tried_view};
ghost use Rattle.sb_turn.specs.Facts.{Finds};
ghost use Rattle.sb_turn.specs.Passes.{IsPassOf, IsFree, IsSamePass, node_count, about, seat_view};

use crate::keep::{Keep, MAX_STATE_LINES};
use crate::plays::{Enter, Finding};
use crate::turns::{Guard, Pass, Slot, Turns};
use std::marker::Brand;
use std::snapshot::Snapshot;
use std::sync::Wait;

impl<K: Keep> Turns<K> {
    // One try. If the word was held, it is given back as it was found.
    pub(crate) fn attempt<M: Finding<K::View, K::State>>(
        &self,
        node: u32,
        pass: &mut Pass<K>,
    ) -> Result<Guard<K>, u64>
        requires pass { IsPassOf self.now pass.old × IsFree pass.old }
        requires node { node < node_count self.now }
        requires fact { Finds (K.rule (about self.now)) M.fact }
        ensures pass { IsSamePass pass.old pass.new }
        ensures turn { MatchResult result
            (λ g. (g.node ≡ node) × (g.found.value ≡ g.state)
            × (pass.new.me ≡ (won_view node g.state (seat_view pass.old), (node, Empty) ∷ [])))
            (λ _. pass.new.me ≡ (lost_view node (seat_view pass.old), [])) }
        ensures lines { IfOk result (λ g. K.lines_of g.state ≤ MAX_STATE_LINES) }
        ensures fact { IfOk result (λ g. M.fact (seat_view pass.old).client node g.state) }
    {
        let table = &self.table.shared;
        let found = table.fetch_or::<Enter<K, M>>(pass, node as usize + 1, 1);
        if found % 2 == 1 {
            return Err(found);
        }
        match table.exchange(pass, node as usize, Slot::Empty) {
            Slot::State(padded) => {
                let state = padded.into_inner();
                let found = Snapshot::of(&state);
                Ok(Guard { node, state, found })
            }
            _ => unreachable!(),
        }
    }

    /// The turn of a node, if it is free. None only if the node's own word was held at this call's one step, which
    /// the trace lists. The call waits for nobody and asks for no memory.
    pub fn try_enter(&self, node: u32, pass: &mut Pass<K>) -> Option<Guard<K>>
        requires pass { IsPassOf self.now pass.old × IsFree pass.old }
        requires node { node < node_count self.now }
        ensures pass { IsSamePass pass.old pass.new }
        ensures turn { MatchOption result
            (pass.new.me ≡ (lost_view node (seat_view pass.old), []))
            (λ g. (g.node ≡ node) × (g.found.value ≡ g.state)
            × (pass.new.me ≡ (won_view node g.state (seat_view pass.old), (node, Empty) ∷ []))) }
        ensures lines { IfSome result (λ g. K.lines_of g.state ≤ MAX_STATE_LINES) }
        ensures finds { IfSome result (λ g. K.finds (about self.now) (seat_view pass.old).client node g.state) }
    {
        match self.attempt::<Brand>(node, pass) {
            Ok(guard) => Some(guard),
            Err(_) => None,
        }
    }

    /// The turn of a node, however long others hold it. Between tries the thread sleeps on the node's word; each
    /// leaving wakes one that waits.
    pub fn enter<R: Wait>(&self, rt: &R, node: u32, pass: &mut Pass<K>) -> Guard<K>
        requires pass { IsPassOf self.now pass.old × IsFree pass.old }
        requires node { node < node_count self.now }
        ensures pass { IsSamePass pass.old pass.new }
        ensures turn { (result.node ≡ node) × (result.found.value ≡ result.state)
            × ((tries : ℕ) × (pass.new.me
            ≡ (won_view node result.state (tried_view node tries (seat_view pass.old)), (node, Empty) ∷ []))) }
        ensures lines { K.lines_of result.state ≤ MAX_STATE_LINES }
        ensures finds { K.finds (about self.now) (seat_view pass.old).client node result.state }
    {
        match self.attempt::<Brand>(node, pass) {
            Ok(guard) => guard,
            Err(_) => self.wait(rt, node, pass),
        }
    }
}

//! Leaving a turn, by a change that the caller's rule allows.
ghost use Rattle.std.specs.Prelude.{◌≡◌, ℕ, ◌+◌, ◌*◌, ◌<◌, ◌≤◌, true, Option, Some, None, [], ◌∷◌, ◌++◌};
ghost use Rattle.crossbeam_utils.specs.Padded.{padded_value};
ghost use Rattle.crossbeam_utils.specs.declared.cache_padded.CachePadded.{CachePadded};
ghost use Rattle.sb_turn.specs.declared.turns.Slot.TheVariants.{State as Lies};
ghost use Rattle.sb_turn.specs.Turning.{hold_of, left_view, one_if};
ghost use Rattle.sb_turn.specs.Owed.{Leaves};
ghost use Rattle.sb_turn.specs.Passes.{IsPassOf, Holds, IsSamePass, node_count, about, seat_view};

use crate::keep::{Keep, MAX_STATE_LINES};
use crate::plays::{Leave, Telling};
use crate::turns::{Guard, Pass, Slot, Turns};
use crossbeam_utils::CachePadded;
use std::marker::Brand;
use std::snapshot::Snapshot;

impl<K: Keep> Turns<K> {
    // Frees the node's word, once its state is in its slot.
    fn give<M: Telling<K::Change>>(
        &self,
        pass: &mut Pass<K>,
        node: u32,
        lines: u64,
        found: &Snapshot<K::State>,
        after: &Snapshot<K::State>,
        change: &K::Change,
    )
        requires told { M.change ≡ Some change.now }
        requires pass { IsPassOf self.now pass.old }
        requires node { node < node_count self.now }
        requires turn { ((seat_view pass.old).hold ≡ Some (hold_of node found.now.value))
            × ((seat_view pass.old).active ≡ true)
            × ((c : CachePadded K.State) × (padded_value c ≡ after.now.value)
            × (pass.old.me.1 ≡ (node, Lies c) ∷ [])) }
        requires lines { (K.lines_of after.now.value ≡ lines)
            × (K.lines_of after.now.value ≡ K.lines_of found.now.value + one_if (K.is_event change.now))
            × (lines ≤ MAX_STATE_LINES) }
        requires rule { Leaves K.is_event (K.rule (about self.now)) pass.old.id
            (seat_view pass.old).client (seat_view pass.old).seen
            node found.now.value after.now.value change.now
            (K.after (seat_view pass.old).client node change.now) }
        ensures pass { IsSamePass pass.old pass.new }
        ensures turn { pass.new.me ≡ (
          left_view node lines change.now
              (K.after (seat_view pass.old).client node change.now) (seat_view pass.old),
          [],
        ) }
    {
        // For the proof: clauses alone speak of these three.
        let _ = found;
        let _ = after;
        let _ = change;
        self.table
            .shared
            .store::<Leave<K, M>>(pass, node as usize + 1, 2 * lines);
    }

    /// Puts the guard's state home, frees the turn and wakes one that waits for it, if any does. The caller owes that
    /// the rule allows the change of this pass and these two states, that it stays, and that an event adds one line to
    /// the state and any other change none. The call waits for nobody and asks for no memory.
    pub fn leave(&self, guard: Guard<K>, pass: &mut Pass<K>, change: K::Change)
        requires pass { IsPassOf self.now pass.old × (guard.node < node_count self.now) }
        requires turn { Holds guard.node guard.found.value pass.old }
        requires lines { (K.lines_of guard.state ≡ K.lines_of guard.found.value + one_if (K.is_event change))
            × (K.lines_of guard.state ≤ MAX_STATE_LINES) }
        requires allowed { K.allows (about self.now) (seat_view pass.old).client
            guard.node guard.found.value guard.state change }
        requires rule { Leaves K.is_event (K.rule (about self.now)) pass.old.id
            (seat_view pass.old).client (seat_view pass.old).seen
            guard.node guard.found.value guard.state change
            (K.after (seat_view pass.old).client guard.node change) }
        ensures pass { IsSamePass pass.old pass.new }
        ensures turn { pass.new.me ≡ (
          left_view guard.node (K.lines_of guard.state) change
              (K.after (seat_view pass.old).client guard.node change) (seat_view pass.old),
          [],
        ) }
    {
        let Guard { node, state, found } = guard;
        let lines = K::lines(&state);
        let after = Snapshot::of(&state);
        match self
            .table
            .shared
            .exchange(pass, node as usize, Slot::State(CachePadded::new(state)))
        {
            Slot::Empty => {}
            _ => unreachable!(),
        }
        self.give::<Brand>(pass, node, lines, &found, &after, &change);
        self.wake(node);
    }
}

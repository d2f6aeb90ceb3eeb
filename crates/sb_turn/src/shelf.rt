//! The shelf: 64 places, on which pieces pass from thread to thread without a turn.
ghost use Rattle.std.specs.Prelude.{◌≡◌, ◌≢◌, ℕ, ◌+◌, ◌<◌, Some, true, List, length, [], ◌∷◌};
ghost use Rattle.std.specs.Prelude.{MatchBool, MatchOption, IfSome, IfNone};
ghost use Rattle.std.specs.List.{All};
ghost use Rattle.sb_turn.specs.declared.turns.Slot.TheVariants.{Empty, Piece};
ghost use Rattle.sb_turn.specs.Turning.{grips, missed_view, missed_alone, filled_view, claimed_view, freed_view};
ghost use Rattle.sb_turn.specs.Turning.{after_looks, after_put, after_search, after_claim};
ghost use Rattle.sb_turn.specs.Facts.{Fits};
ghost use Rattle.sb_turn.specs.Owed.{Lays, Takes};
ghost use Rattle.sb_turn.specs.Passes.{IsPassOf, IsFree, IsSamePass, ShowsEmpty, node_count, about, seat_view};

use crate::keep::Keep;
use crate::plays::{Claim, Fill, Fitting, Free, Reserve};
use crate::turns::{Pass, Slot, Turns};
use std::marker::Brand;

/// How many places the shelf has.
pub const PLACES: u64 = 64;

impl<K: Keep> Turns<K> {
    // Takes a place in hand, if it is free.
    fn reserve(&self, pass: &mut Pass<K>, place: u64) -> bool
        requires pass { IsPassOf self.now pass.old × IsFree pass.old }
        requires place { place < PLACES }
        ensures pass { IsSamePass pass.old pass.new }
        ensures place { MatchBool result
            (pass.new.me ≡ (grips place (seat_view pass.old), (node_count self.now + place, Empty) ∷ []))
            ((found : ℕ) × (found ≢ 0) × (pass.new.me ≡ (missed_view place found (seat_view pass.old), []))) }
    {
        let word = self.count as usize + 1 + place as usize;
        self.table
            .shared
            .compare_exchange::<Reserve<K>>(pass, word, 0, 1)
            == 0
    }

    // Lays the piece on the place in hand.
    fn lay(&self, pass: &mut Pass<K>, place: u64, piece: K::Piece)
        requires pass { IsPassOf self.now pass.old × ((seat_view pass.old).place ≡ Some place)
            × ((seat_view pass.old).active ≡ true)
            × (pass.old.me.1 ≡ (node_count self.now + place, Empty) ∷ []) }
        requires place { place < PLACES }
        requires rule { Lays (K.rule (about self.now)) pass.old.id (seat_view pass.old).client piece
            (K.laid (seat_view pass.old).client piece) }
        ensures pass { IsSamePass pass.old pass.new }
        ensures place { pass.new.me
            ≡ (filled_view (K.laid (seat_view pass.old).client piece) (seat_view pass.old), []) }
    {
        let slot = self.count as usize + place as usize;
        match self.table.shared.exchange(pass, slot, Slot::Piece(piece)) {
            Slot::Empty => {}
            _ => unreachable!(),
        }
        let word = self.count as usize + 1 + place as usize;
        self.table.shared.store::<Fill<K>>(pass, word, 2);
    }

    /// Lays a piece on a free place. It comes back only if each of the 64 places was looked at in this call, at a step
    /// of its own that the trace lists, and was not free. The call waits for nobody and asks for no memory.
    pub fn put(&self, pass: &mut Pass<K>, piece: K::Piece) -> Option<K::Piece>
        requires pass { IsPassOf self.now pass.old × IsFree pass.old }
        requires rule { Lays (K.rule (about self.now)) pass.old.id (seat_view pass.old).client piece
            (K.laid (seat_view pass.old).client piece) }
        ensures pass { IsSamePass pass.old pass.new × IsFree pass.new }
        ensures laid { MatchOption result
            ((words : List ℕ) × (length words < PLACES) × All (λ w. w ≢ 0) words
            × (seat_view pass.new
            ≡ after_put words (K.laid (seat_view pass.old).client piece) (seat_view pass.old)))
            (λ p. (p ≡ piece) × ((words : List ℕ) × (length words ≡ PLACES) × All (λ w. w ≢ 0) words
            × (seat_view pass.new ≡ after_looks words (seat_view pass.old)))) }
    {
        for place in 0..PLACES {
            if self.reserve(pass, place) {
                self.lay(pass, place, piece);
                return None;
            }
        }
        Some(piece)
    }

    // The piece of a place, if it is full.
    fn pick<M: Fitting<K::Piece>>(&self, pass: &mut Pass<K>, place: u64) -> Option<K::Piece>
        requires pass { IsPassOf self.now pass.old × IsFree pass.old }
        requires place { place < PLACES }
        requires rule { Takes (K.rule (about self.now)) pass.old.id (seat_view pass.old).client K.claimed }
        requires fact { Fits (K.rule (about self.now)) M.fact }
        ensures pass { IsSamePass pass.old pass.new }
        ensures place { MatchOption result
            ((found : ℕ) × (found ≢ 2) × (pass.new.me ≡ (missed_alone place found (seat_view pass.old), [])))
            (λ p. pass.new.me
            ≡ (freed_view (claimed_view place (K.claimed (seat_view pass.old).client p) (seat_view pass.old)), [])) }
        ensures fact { IfSome result M.fact }
    {
        let word = self.count as usize + 1 + place as usize;
        let found = self
            .table
            .shared
            .compare_exchange::<Claim<K, M>>(pass, word, 2, 1);
        if found != 2 {
            return None;
        }
        let slot = self.count as usize + place as usize;
        match self.table.shared.exchange(pass, slot, Slot::Empty) {
            Slot::Piece(piece) => {
                self.table.shared.store::<Free<K>>(pass, word, 0);
                Some(piece)
            }
            _ => unreachable!(),
        }
    }

    /// A piece of the shelf, which no other claim gets. None only if each of the 64 places was looked at in this call,
    /// at a step of its own that the trace lists, and was not full. None to the first pass, while no other is out,
    /// shows the shelf empty until its next `split` or `put`. The call waits for nobody and asks for no memory.
    pub fn claim(&self, pass: &mut Pass<K>) -> Option<K::Piece>
        requires pass { IsPassOf self.now pass.old × IsFree pass.old }
        requires rule { Takes (K.rule (about self.now)) pass.old.id (seat_view pass.old).client K.claimed }
        ensures pass { IsSamePass pass.old pass.new × IsFree pass.new }
        ensures claimed { MatchOption result
            ((words : List ℕ) × (length words ≡ PLACES) × All (λ w. w ≢ 2) words
            × (seat_view pass.new ≡ after_search words (seat_view pass.old)))
            (λ p. (words : List ℕ) × (length words < PLACES) × All (λ w. w ≢ 2) words
            × (seat_view pass.new
            ≡ after_claim words (K.claimed (seat_view pass.old).client p) (seat_view pass.old))) }
        ensures shows { IfNone result ((seat_view pass.old).count ≡ 0 → ShowsEmpty pass.new) }
        ensures fits { IfSome result (λ p. K.fits (about self.now) p) }
    {
        for place in 0..PLACES {
            if let Some(piece) = self.pick::<Brand>(pass, place) {
                return Some(piece);
            }
        }
        None
    }
}

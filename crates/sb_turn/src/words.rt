//! The state word, by which passes tell each other that the work ends. It only rises.
ghost use Rattle.std.specs.Prelude.{◌≡◌, ◌≤◌, true};
ghost use Rattle.sb_turn.specs.Turning.{saw, raised_view, AtMost};
ghost use Rattle.sb_turn.specs.Owed.{Learns, Raises};
ghost use Rattle.sb_turn.specs.Passes.{IsPassOf, IsSamePass, about, seat_view};
ghost use Rattle.sb_turn.specs.Reasons.{number_of};

use crate::keep::{Keep, Lesson};
use crate::plays::{Learn, Look, Stop};
use crate::reason::{Reason, number, reason_of};
use crate::turns::{Pass, Turns};

impl<K: Keep> Turns<K> {
    /// Raises the state word to the reason, if it is lower, and calls the helpers that sleep. The caller owes that the
    /// rule allows this pass the reason.
    pub fn stop(&self, pass: &mut Pass<K>, reason: Reason)
        requires pass { IsPassOf self.now pass.old × ((seat_view pass.old).active ≡ true) }
        requires rule { Raises (K.rule (about self.now)) pass.old.id (seat_view pass.old).client (number_of reason)
            (K.told (seat_view pass.old).client (number_of reason)) }
        ensures pass { IsSamePass pass.old pass.new }
        ensures word { pass.new.me ≡ (
          raised_view (number_of reason)
              (K.told (seat_view pass.old).client (number_of reason)) (seat_view pass.old),
          pass.old.me.1,
        ) }
    {
        self.table
            .shared
            .fetch_max::<Stop<K>>(pass, 0, number(reason));
        self.hints.call_all();
    }

    /// The state word, by one load. It is at least each number that the pass, or one that it joined, saw or raised.
    pub fn reason(&self, pass: &mut Pass<K>) -> Reason
        requires pass { IsPassOf self.now pass.old × ((seat_view pass.old).active ≡ true) }
        ensures pass { IsSamePass pass.old pass.new }
        ensures word { pass.new.me ≡ (saw (number_of result) (seat_view pass.old), pass.old.me.1) }
        ensures least { (seat_view pass.old).seen ≤ number_of result }
        ensures listed { AtMost (number_of result) (seat_view pass.old).trace
            × AtMost (number_of result) (seat_view pass.old).joined }
    {
        let found = self.table.shared.load::<Look<K>>(pass, 0);
        reason_of(found)
    }

    /// As `reason`, and it tells a fact that the rule gives at this step.
    pub fn reason_as<M: Lesson<K::View>>(&self, pass: &mut Pass<K>) -> Reason
        requires pass { IsPassOf self.now pass.old × ((seat_view pass.old).active ≡ true) }
        requires rule { Learns (K.rule (about self.now)) pass.old.id (seat_view pass.old).client M.fact }
        ensures pass { IsSamePass pass.old pass.new }
        ensures word { pass.new.me ≡ (saw (number_of result) (seat_view pass.old), pass.old.me.1) }
        ensures least { (seat_view pass.old).seen ≤ number_of result }
        ensures listed { AtMost (number_of result) (seat_view pass.old).trace
            × AtMost (number_of result) (seat_view pass.old).joined }
        ensures fact { M.fact (seat_view pass.old).client }
    {
        let found = self.table.shared.load::<Learn<K, M>>(pass, 0);
        reason_of(found)
    }
}

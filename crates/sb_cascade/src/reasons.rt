//! The state word: whether the work goes on, or why it ends.

ghost use Rattle.std.specs.Prelude.{◌≡◌, ◌≢◌, ◌≤◌};
ghost use Rattle.sb_shared.specs.turn.Passes.{IsSamePass};
ghost use Rattle.sb_shared.specs.turn.Reasons.{number_of};
ghost use Rattle.sb_shared.specs.turn.Turning.{raised_view, saw};
ghost use Rattle.sb_cascade.specs.Calls.{HasSame, IsFeeder, IsReady, IsSame, hands, setting_of, view_of};
ghost use Rattle.sb_shared.specs.Found.{IsShown};
ghost use Rattle.sb_shared.specs.Views.{hands_after_raise};

use crate::cascade::Cascade;
use crate::pass::CascadePass;
use sb_shared::Reason;
use std::marker::Brand;

impl Cascade {
    /// Raises the state word to a reason, if it is lower. Any pass may say that there was no memory, but the feeder's
    /// alone may end the work for another reason. It takes no memory and waits for nobody.
    pub fn stop(&self, pass: &mut CascadePass, reason: Reason)
        requires pass { IsReady self.now pass.old }
        requires feeder { reason ≢ Reason.Memory → IsFeeder pass.old }
        ensures pass { IsReady self.now pass.new × IsSamePass pass.old.seat pass.new.seat }
        ensures kept { (pass.new.kept ≡ pass.old.kept) × (pass.new.gone ≡ pass.old.gone) }
        ensures word { view_of pass.new ≡ raised_view (number_of reason)
            (hands_after_raise (hands pass.old) (number_of reason)) (view_of pass.old) }
    {
        self.turns.stop(&mut pass.seat, reason);
    }

    /// The state word, by one load: it is at least each number that the pass, or one that it joined, saw or raised. At
    /// that step the cascade shows a sound moment in which the pass has in hand what it has. It takes no memory and
    /// waits for nobody.
    pub fn reason(&self, pass: &mut CascadePass) -> Reason
        requires pass { IsReady self.now pass.old }
        ensures pass { IsReady self.now pass.new × IsSame pass.old pass.new × HasSame pass.old pass.new }
        ensures word { view_of pass.new ≡ saw (number_of result) (view_of pass.old) }
        ensures least { (view_of pass.old).seen ≤ number_of result }
        ensures shown { IsShown (setting_of self.now) (hands pass.old) }
    {
        self.turns.reason_as::<Brand>(&mut pass.seat)
    }
}

//! Bundles are taken out of a node.

ghost use Rattle.std.specs.Prelude.{◌≡◌, ◌≤◌, ℕ, length, false, IfNone, IfSome};
ghost use Rattle.sb_cascade.specs.Calls.{FoundHeld, HasBundle, HasSame, IsEmptyHanded, IsReady, IsSame, IsUnder};
ghost use Rattle.sb_cascade.specs.Calls.{LeftAtOnce, LeftBy, plan_of, setting_of};
ghost use Rattle.sb_shared.specs.Found.{IsClaim};
ghost use Rattle.sb_cascade.specs.Told.{Is, IsTake};
ghost use Rattle.sb_shared.specs.declared.telling.Change.TheVariants as change;
ghost use Rattle.sb_hand.specs.work.declared.claim.Claim.{Claim as AClaim};

use crate::cascade::Cascade;
use crate::pass::CascadePass;
use sb_hand::Claim;
use sb_shared::{Change, Guard, Keeping, Taken};
use std::snapshot::Snapshot;
use std::sync::Wait;

/// What a try to take a bundle gave.
#[derive(Drop)]
pub enum TryTake {
    /// A bundle.
    Got(Claim),
    /// No lane of the node had a waiting bundle.
    Nothing,
    /// The node's turn was held.
    Held,
}

impl Cascade {
    /// Takes a waiting bundle under the turn that the guard is, and leaves it.
    fn take_under(&self, guard: Guard<Keeping>, pass: &mut CascadePass, node: u32) -> Option<Claim>
        requires guard { (guard.node ≡ node) × (guard.found.value ≡ guard.state) }
        requires pass { IsUnder self.now node guard.state pass.old × IsEmptyHanded pass.old }
        ensures pass { IsReady self.now pass.new × IsSame pass.old pass.new }
        ensures some { IfSome result (λ c. (c.node ≡ node) × IsClaim (setting_of self.now) c
            × HasBundle c false pass.new × LeftAtOnce node (IsTake c) pass.old pass.new) }
        ensures none { IfNone result (HasSame pass.old pass.new × LeftAtOnce node (Is change.Idle) pass.old pass.new) }
    {
        let mut guard = guard;
        match guard.state.take() {
            Some(Taken { lane, bundle, link }) => {
                let claim = Claim { node, lane, bundle };
                let told = Snapshot::of(&claim);
                let change = Change::Take { claim: told, link };
                self.leave(guard, &mut pass.seat, change);
                pass.link = link;
                Some(claim)
            }
            None => {
                self.leave(guard, &mut pass.seat, Change::Idle);
                None
            }
        }
    }

    /// Takes a bundle that waits in a node: a transform or the sink. It takes no memory, but may wait for the node's
    /// turn. None only if, under the turn, no lane of the node had a waiting bundle.
    pub fn take<R: Wait>(&self, rt: &R, pass: &mut CascadePass, node: u32) -> Option<Claim>
        requires pass { IsReady self.now pass.old × IsEmptyHanded pass.old }
        requires node { node ≤ length (plan_of self.now).steps }
        ensures pass { IsReady self.now pass.new × IsSame pass.old pass.new }
        ensures some { IfSome result (λ c. (c.node ≡ node) × IsClaim (setting_of self.now) c
            × HasBundle c false pass.new × LeftBy node (IsTake c) pass.old pass.new) }
        ensures none { IfNone result (HasSame pass.old pass.new × LeftBy node (Is change.Idle) pass.old pass.new) }
    {
        let guard = self.turns.enter(rt, node, &mut pass.seat);
        self.take_under(guard, pass, node)
    }

    /// The same, if the node's turn is free: it waits for nobody. [`TryTake::Held`] only if the node's word was held at
    /// this call's one step.
    pub fn try_take(&self, pass: &mut CascadePass, node: u32) -> TryTake
        requires pass { IsReady self.now pass.old × IsEmptyHanded pass.old }
        requires node { node ≤ length (plan_of self.now).steps }
        ensures pass { IsReady self.now pass.new × IsSame pass.old pass.new }
        ensures got { (c : AClaim) → result ≡ TryTake.Got c → (c.node ≡ node) × IsClaim (setting_of self.now) c
            × HasBundle c false pass.new × LeftAtOnce node (IsTake c) pass.old pass.new }
        ensures nothing { result ≡ TryTake.Nothing
            → HasSame pass.old pass.new × LeftAtOnce node (Is change.Idle) pass.old pass.new }
        ensures was_held { result ≡ TryTake.Held → HasSame pass.old pass.new × FoundHeld node pass.old pass.new }
    {
        let Some(guard) = self.turns.try_enter(node, &mut pass.seat) else {
            return TryTake::Held;
        };
        match self.take_under(guard, pass, node) {
            Some(claim) => TryTake::Got(claim),
            None => TryTake::Nothing,
        }
    }
}

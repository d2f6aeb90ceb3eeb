//! Bundles pass from worker to worker by the shelf.

ghost use Rattle.std.specs.Prelude.{◌≡◌, ◌≤◌, true, false, [], length, None, Some, IfNone, IfSome, MatchOption};
ghost use Rattle.sb_shared.specs.turn.Passes.{ShowsEmpty};
ghost use Rattle.sb_cascade.specs.Calls.{HasBundle, IsEmptyHanded, IsReady, IsSame, MayFill};
ghost use Rattle.sb_cascade.specs.Calls.{passes_out, plan_of, setting_of};
ghost use Rattle.sb_shared.specs.Found.{IsClaim};
ghost use Rattle.sb_cascade.specs.Shelving.{ClaimedOne, EndsWith, FoundNoneFree, FoundNoneFull, KeepsOne, WasIdle};

use crate::cascade::Cascade;
use crate::pass::CascadePass;
use sb_hand::Claim;
use sb_shared::Piece;
use std::sync::Wait;

impl Cascade {
    /// Lays a bundle in hand on a free place. It comes back only if each of the 64 places was looked at and was not
    /// free.
    fn lay(&self, pass: &mut CascadePass, claim: Claim) -> Option<Claim>
        requires pass { IsReady self.now pass.old × HasBundle claim false pass.old }
        ensures pass { IsReady self.now pass.new × IsSame pass.old pass.new }
        ensures laid { MatchOption result (IsEmptyHanded pass.new × EndsWith [] pass.old pass.new)
            (λ c. (c ≡ claim) × HasBundle claim false pass.new × FoundNoneFree pass.old pass.new) }
    {
        let piece = Piece {
            claim,
            link: pass.link,
        };
        match self.turns.put(&mut pass.seat, piece) {
            None => {
                pass.link = None;
                None
            }
            Some(Piece { claim, link: _ }) => Some(claim),
        }
    }

    /// Moves the bundles that wait in a node to the shelf, each taken in a turn of its own. True exactly if the pass
    /// keeps a bundle when the call ends; it keeps one that it did not keep before only if each of the 64 places was
    /// looked at in this call and was not free. False only if, under a turn of this call, no lane of the node had a
    /// waiting bundle. It takes no memory, but may wait for the node's turn.
    pub fn fill<R: Wait>(&self, rt: &R, pass: &mut CascadePass, node: u32) -> bool
        requires pass { IsReady self.now pass.old × MayFill pass.old }
        requires node { node ≤ length (plan_of self.now).steps }
        ensures pass { IsReady self.now pass.new × IsSame pass.old pass.new }
        ensures yes { result ≡ true → KeepsOne node pass.old pass.new }
        ensures no { result ≡ false → IsEmptyHanded pass.new × WasIdle node pass.old pass.new }
    {
        if pass.kept.is_some() {
            return true;
        }
        for _ in rt.forever() {
            let Some(claim) = self.take(rt, pass, node) else {
                return false;
            };
            if let Some(claim) = self.lay(pass, claim) {
                pass.kept = Some(claim);
                return true;
            }
        }
        unreachable!()
    }

    /// The bundle that the pass keeps, or else one of the shelf, which no other claim gets. None only if the pass kept
    /// none and each of the 64 places was looked at in this call and was not full. None to the feeder's pass, while no
    /// other is out, shows the shelf empty until its next `split` or `fill`. It takes no memory and waits for nobody.
    pub fn claim(&self, pass: &mut CascadePass) -> Option<Claim>
        requires pass { IsReady self.now pass.old × MayFill pass.old }
        ensures pass { IsReady self.now pass.new × IsSame pass.old pass.new }
        ensures some { IfSome result (λ c. IsClaim (setting_of self.now) c × HasBundle c false pass.new
            × ClaimedOne c pass.old pass.new) }
        ensures none { IfNone result (IsEmptyHanded pass.new × FoundNoneFull pass.old pass.new) }
        ensures shows { IfNone result (passes_out pass.old ≡ 0 → ShowsEmpty pass.new.seat) }
    {
        if let Some(claim) = pass.kept.take() {
            return Some(claim);
        }
        match self.turns.claim(&mut pass.seat) {
            Some(Piece { claim, link }) => {
                pass.link = link;
                Some(claim)
            }
            None => None,
        }
    }
}

//! What a worker does with a bundle in hand: what it gives goes below, and it is done with.

ghost use Rattle.std.specs.Prelude.{◌≡◌, ◌≤◌, Bool, false, true, length, None, IsOk, MatchOption, OnErr, OnOk};
ghost use Rattle.sb_hand.specs.base.pipeline.declared.transform.Down.{Down as ADown};
ghost use Rattle.sb_hand.specs.core.Events.{below};
ghost use Rattle.sb_cascade.specs.Calls.{HasBundle, HasSame, IsEmptyHanded, IsReady, IsSame, LeftBy, LeftSpent};
ghost use Rattle.sb_cascade.specs.Calls.{hands, plan_of, setting_of};
ghost use Rattle.sb_shared.specs.Shown.{operator_of};
ghost use Rattle.sb_cascade.specs.Told.{Is, IsDelivery, IsFinish};
ghost use Rattle.sb_cascade.specs.Working.{GivesBelow, LeftBelow, NeedsNoPart};
ghost use Rattle.sb_shared.specs.declared.telling.Change.TheVariants as change;
ghost use Rattle.sb_hand.specs.work.Processing.{IsPart};

use crate::cascade::Cascade;
use crate::pass::CascadePass;
use sb_hand::{Bundle, NoMemory, Part, Receipt, Record, Sequence};
use sb_shared::{Change, Reason};
use std::snapshot::Snapshot;
use std::sync::Wait;

impl Cascade {
    /// Puts what a transform of single records gives for a bundle in hand into the lane below. It may wait for the turn
    /// of the node below.
    ///
    /// # Errors
    ///
    /// [`NoMemory`]; then nothing has changed, but the records are dropped.
    pub fn deliver<R: Wait>(
        &self,
        rt: &R,
        pass: &mut CascadePass,
        claim: &Receipt,
        records: Vec<Record>,
    ) -> Result<(), NoMemory>
        requires pass { IsReady self.now pass.old × HasBundle claim.now false pass.old }
        requires gives { GivesBelow (operator_of (setting_of self.now) claim.now.node)
            claim.now.bundle.records records.items }
        ensures pass { IsReady self.now pass.new × IsSame pass.old pass.new }
        ensures delivered { OnOk result (HasBundle claim.now true pass.new
            × LeftBelow self.now claim.now.node (IsDelivery claim.now) pass.old pass.new) }
        ensures same { OnErr result (HasSame pass.old pass.new) }
        ensures tried { OnErr result (LeftBelow self.now claim.now.node (Is change.Nothing) pass.old pass.new) }
    {
        let (node, epoch, floor) = (claim.node(), claim.epoch(), claim.floor());
        let down = self.setting.plan.down(node);
        let count = records.len() as u64;
        let bundle = Bundle {
            number: 0,
            epoch,
            floor,
            records: Sequence::new(records),
        };
        let mut guard = self.turns.enter(rt, down.node, &mut pass.seat);
        match guard.state.put(down.lane, pass.link, bundle) {
            Ok(place) => {
                let told = Snapshot::of(claim);
                self.leave(
                    guard,
                    &mut pass.seat,
                    Change::Deliver { claim: told, place },
                );
                pass.link = Some(place);
                pass.delivered = Some(count);
                Ok(())
            }
            Err(_) => {
                self.leave(guard, &mut pass.seat, Change::Nothing);
                Err(NoMemory)
            }
        }
    }

    /// A bundle in hand is done with: what it gave was delivered, or it gave nothing, or the node takes this part of it
    /// in. It may wait for the turn of the bundle's node. Without a part it takes no memory.
    ///
    /// # Errors
    ///
    /// [`NoMemory`]; then what the node keeps is unknown, the state word says that there was no memory, and the pass
    /// still has the bundle in hand.
    pub fn finish<R: Wait>(
        &self,
        rt: &R,
        pass: &mut CascadePass,
        claim: Receipt,
        part: Option<Part>,
    ) -> Result<(), NoMemory>
        requires pass { IsReady self.now pass.old
            × ((delivered : Bool) × HasBundle claim delivered pass.old
            × MatchOption part
            (NeedsNoPart (operator_of (setting_of self.now) claim.node) claim.bundle.records delivered)
            (λ p. (delivered ≡ false)
            × IsPart (operator_of (setting_of self.now) claim.node) claim.lane claim.bundle.records p)) }
        requires node { claim.node ≤ length (plan_of self.now).steps }
        ensures pass { IsReady self.now pass.new × IsSame pass.old pass.new }
        ensures finished { OnOk result (IsEmptyHanded pass.new
            × ((delivered : Bool) × HasBundle claim delivered pass.old
            × LeftBy claim.node (IsFinish claim delivered) pass.old pass.new)) }
        ensures succeeds { part ≡ None → IsOk result }
        ensures spent { OnErr result (HasSame pass.old pass.new × LeftSpent claim.node pass.old pass.new) }
    {
        match part {
            None => {
                self.finish_given(rt, pass, claim);
                Ok(())
            }
            Some(part) => self.finish_part(rt, pass, claim, part),
        }
    }

    /// A bundle of a transform of single records is done with.
    fn finish_given<R: Wait>(&self, rt: &R, pass: &mut CascadePass, claim: Receipt)
        requires pass { IsReady self.now pass.old
            × ((delivered : Bool) × HasBundle claim delivered pass.old
            × NeedsNoPart (operator_of (setting_of self.now) claim.node) claim.bundle.records delivered) }
        requires node { claim.node ≤ length (plan_of self.now).steps }
        ensures pass { IsReady self.now pass.new × IsSame pass.old pass.new × IsEmptyHanded pass.new }
        ensures left { (delivered : Bool) × HasBundle claim delivered pass.old
            × LeftBy claim.node (IsFinish claim delivered) pass.old pass.new }
    {
        let length = pass.delivered.unwrap_or(0);
        let link = pass.link;
        let mut guard = self.turns.enter(rt, claim.node(), &mut pass.seat);
        let (lane, epoch, number) = (claim.lane(), claim.epoch(), claim.number());
        guard.state.finish(lane, epoch, number, length, link);
        let change = Change::Finish {
            claim: Snapshot::of(&claim),
            delivered: pass.delivered.is_some(),
        };
        self.leave(guard, &mut pass.seat, change);
        pass.link = None;
        pass.delivered = None;
    }

    /// A node takes its part of a bundle in, and the bundle is done with.
    fn finish_part<R: Wait>(
        &self,
        rt: &R,
        pass: &mut CascadePass,
        claim: Receipt,
        part: Part,
    ) -> Result<(), NoMemory>
        requires pass { IsReady self.now pass.old × HasBundle claim false pass.old }
        requires part { IsPart (operator_of (setting_of self.now) claim.node) claim.lane claim.bundle.records part }
        requires node { claim.node ≤ length (plan_of self.now).steps }
        ensures pass { IsReady self.now pass.new × IsSame pass.old pass.new }
        ensures finished { OnOk result (IsEmptyHanded pass.new
            × LeftBy claim.node (IsFinish claim false) pass.old pass.new) }
        ensures spent { OnErr result (HasSame pass.old pass.new × LeftSpent claim.node pass.old pass.new) }
    {
        let mut guard = self.turns.enter(rt, claim.node(), &mut pass.seat);
        let (lane, epoch, number) = (claim.lane(), claim.epoch(), claim.number());
        match guard.state.absorb(lane, epoch, number, part) {
            Ok(()) => {
                let change = Change::Finish {
                    claim: Snapshot::of(&claim),
                    delivered: false,
                };
                self.leave(guard, &mut pass.seat, change);
                pass.link = None;
                Ok(())
            }
            Err(_) => {
                self.turns.stop(&mut pass.seat, Reason::Memory);
                self.leave(guard, &mut pass.seat, Change::Spent);
                Err(NoMemory)
            }
        }
    }
}

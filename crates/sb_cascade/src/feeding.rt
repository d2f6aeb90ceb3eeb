//! What the feeder does: it brings bundles and watermarks, and drains rows.

ghost use Rattle.std.specs.Prelude.{◌≡◌, ◌+◌, length, IfErr, IfOk, OnErr, OnOk};
ghost use Rattle.sb_cascade.specs.Bringing.{IsTurnedBack, LeftSource, MayArrive, MaySeal};
ghost use Rattle.sb_cascade.specs.Calls.{HasSame, IsEmptyHanded, IsFeeder, IsReady, LeftBy};
ghost use Rattle.sb_cascade.specs.Calls.{hands, passes_out, plan_of, setting_of};
ghost use Rattle.sb_shared.specs.Found.{IsDrained};
ghost use Rattle.sb_shared.specs.Shown.{AreLater};
ghost use Rattle.sb_cascade.specs.Told.{Is, IsArrival, IsDrain};
ghost use Rattle.sb_shared.specs.Views.{stream_feed, with_bundle, with_drained, with_mark};
ghost use Rattle.sb_shared.specs.declared.telling.Change.TheVariants as change;

use crate::cascade::Cascade;
use crate::pass::CascadePass;
use sb_hand::{ArriveStop, Bundle, NoMemory, Record, Sequence, Stream};
use sb_shared::Change;
use std::snapshot::Snapshot;
use std::sync::Wait;

impl Cascade {
    /// Puts a bundle of a stream, of its next epoch, into the stream's lane, and gives the number that it has there. It
    /// may wait for the turn of the node that takes the stream.
    ///
    /// # Errors
    ///
    /// The bundle comes back: [`ArriveStop::Full`] only if, under the turn, as many bundles as the limit were waiting
    /// or out in the lane, and [`ArriveStop::Memory`] if no memory was found. A bundle is never taken where so many
    /// are.
    pub fn arrive<R: Wait>(
        &self,
        rt: &R,
        pass: &mut CascadePass,
        stream: Stream,
        bundle: Bundle,
    ) -> Result<u64, ArriveStop>
        requires pass { IsReady self.now pass.old × IsFeeder pass.old × IsEmptyHanded pass.old }
        requires bundle { MayArrive self.now pass.old stream bundle }
        ensures pass { IsReady self.now pass.new × IsFeeder pass.new × IsEmptyHanded pass.new }
        ensures out { passes_out pass.new ≡ passes_out pass.old }
        ensures fed { OnOk result (hands pass.new ≡ record (hands pass.old) {
          feed = with_bundle stream bundle.records (hands pass.old).feed;
        }) }
        ensures number { IfOk result (λ n. n ≡ length (stream_feed stream (hands pass.old).feed).bundles + 1) }
        ensures left { OnOk result (LeftSource self.now stream (IsArrival stream bundle.records) pass.old pass.new) }
        ensures same { OnErr result (HasSame pass.old pass.new) }
        ensures back { IfErr result (λ e. IsTurnedBack self.now stream bundle pass.old pass.new e) }
    {
        let Some(down) = self.setting.plan.source(stream) else {
            return Err(ArriveStop::Memory(bundle));
        };
        let mut guard = self.turns.enter(rt, down.node, &mut pass.seat);
        let told = Snapshot::of(&bundle.records);
        match guard.state.arrive(down.lane, bundle) {
            Ok(number) => {
                let change = Change::Arrive {
                    stream,
                    records: told,
                };
                self.leave(guard, &mut pass.seat, change);
                Ok(number)
            }
            Err(ArriveStop::Full(bundle)) => {
                self.leave(guard, &mut pass.seat, Change::Full { lane: down.lane });
                Err(ArriveStop::Full(bundle))
            }
            Err(ArriveStop::Memory(bundle)) => {
                self.leave(guard, &mut pass.seat, Change::Nothing);
                Err(ArriveStop::Memory(bundle))
            }
        }
    }

    /// Seals the next epoch of a stream's lane with a watermark. It may wait for the turn of the node that takes the
    /// stream.
    ///
    /// # Errors
    ///
    /// [`NoMemory`]; then nothing has changed.
    pub fn seal<R: Wait>(
        &self,
        rt: &R,
        pass: &mut CascadePass,
        stream: Stream,
        mark: u64,
    ) -> Result<(), NoMemory>
        requires pass { IsReady self.now pass.old × IsFeeder pass.old × IsEmptyHanded pass.old }
        requires mark { MaySeal self.now pass.old stream mark }
        ensures pass { IsReady self.now pass.new × IsFeeder pass.new × IsEmptyHanded pass.new }
        ensures out { passes_out pass.new ≡ passes_out pass.old }
        ensures fed { OnOk result (hands pass.new ≡ record (hands pass.old) {
          feed = with_mark stream mark (hands pass.old).feed;
        }) }
        ensures left { OnOk result (LeftSource self.now stream (Is (change.Seal stream mark)) pass.old pass.new) }
        ensures same { OnErr result (HasSame pass.old pass.new) }
        ensures tried { OnErr result (LeftSource self.now stream (Is change.Nothing) pass.old pass.new) }
    {
        let Some(down) = self.setting.plan.source(stream) else {
            return Err(NoMemory);
        };
        let mut guard = self.turns.enter(rt, down.node, &mut pass.seat);
        match guard.state.seal(down.lane, mark) {
            Ok(()) => {
                self.leave(guard, &mut pass.seat, Change::Seal { stream, mark });
                Ok(())
            }
            Err(_) => {
                self.leave(guard, &mut pass.seat, Change::Nothing);
                Err(NoMemory)
            }
        }
    }

    /// Takes the rows that the sink has closed since the last drain. They are later than all rows drained before, and
    /// under the turn the cascade shows a moment that has no others. It takes no memory, but may wait for the sink's
    /// turn.
    pub fn drain<R: Wait>(&self, rt: &R, pass: &mut CascadePass) -> Vec<Record>
        requires pass { IsReady self.now pass.old × IsFeeder pass.old × IsEmptyHanded pass.old }
        ensures pass { IsReady self.now pass.new × IsFeeder pass.new × IsEmptyHanded pass.new }
        ensures out { passes_out pass.new ≡ passes_out pass.old }
        ensures rows { hands pass.new ≡ record (hands pass.old) {
          feed = with_drained result.items (hands pass.old).feed;
        } }
        ensures later { AreLater (hands pass.old).feed.drained result.items }
        ensures all { IsDrained (setting_of self.now) (hands pass.new).feed }
        ensures left { LeftBy (length (plan_of self.now).steps) (IsDrain result.items) pass.old pass.new }
    {
        let sink = self.setting.plan.transforms();
        let mut guard = self.turns.enter(rt, sink, &mut pass.seat);
        let rows = Sequence::new(guard.state.drain(self.alloc));
        let told = Snapshot::of(&rows);
        self.leave(guard, &mut pass.seat, Change::Drain(told));
        rows.into_vec()
    }
}

//! A shared cascade as an engine, by the pass of the feeder.

ghost use Rattle.std.specs.Prelude.{◌≡◌, ◌<◌, ◌++◌, List, All, IfOk};
ghost use Rattle.sb_alone.specs.feeds.base.records.declared.item.Record.{Record as ARecord};
ghost use Rattle.sb_alone.specs.feeds.one_feed.Feeds.{Fed, MayArrive, MaySeal, with_bundle, with_mark};
ghost use Rattle.sb_worker.specs.cascade.Calls.{plan_of, setting_of};
ghost use Rattle.sb_engines.specs.Feeders.{HasFed, IsStill};

use crate::shared::common::Common;
use crate::shared::pace::Pace;
use crate::shared::working::{bring, keep_up, take_out};
use sb_alone::{Bundle, END_MARK, Engine, NoMemory, Plan, Record, Stream};
use sb_worker::{CascadePass, Gate};
use std::sync::Wait;
use std::time::Clock;

/// The engine of several workers, as its feeder has it.
#[derive(Drop)]
pub struct Feeder<'a, W, G> {
    pub common: &'a Common<'a, W, G>,
    pub pass: &'a mut CascadePass,
    /// Who works off little epochs.
    pub pace: Pace,
}

// Rows lie ready once a watermark has come down to the sink. So they are taken out at each watermark, and where the
// feeder had to wait for room. Behind a few records the feeder first works off what there is to do, as one worker does:
// so the rows of this watermark are among them.
impl<'a, W: Wait + Clock, G: Gate> Engine for Feeder<'a, W, G> {
    ghost use Rattle.std.specs.Prelude.{◌≡◌};
    ghost use Rattle.std.proofs.Common.{◌∙◌, refl};
    ghost use Rattle.sb_worker.specs.cascade.Calls.{plan_of, setting_of};
    ghost use Rattle.sb_engines.specs.Feeders.{HasFed, IsStill};
    ghost use Rattle.sb_engines.specs.EngineLaws.{bundle_of_same, plan_of_same, still_here, still_of_same};

    ghost stands = { λ e f rows. HasFed e.common.now.cascade.now e.pass.now f rows };

    ghost same = { λ a b. (b.common.now.cascade.now ≡ a.common.now.cascade.now) × (b.pass.ghost_name ≡ a.pass.ghost_name)
        × IsStill a.common.now.cascade.now a.pass.now b.pass.now };

    ghost plan = { λ e. plan_of e.common.now.cascade.now };

    ghost size = { λ e. (setting_of e.common.now.cascade.now).bundle };

    fn plan(&self) -> &Plan {
        self.common.cascade.plan()
    }

    fn arrive(&mut self, stream: Stream, bundle: Bundle) -> Result<Vec<Record>, NoMemory> {
        self.pace.came(
            self.common.rt,
            self.common.cascade,
            bundle.records.items.len(),
        );
        match bring(self.common, self.pass, stream, bundle) {
            Ok(true) => Ok(take_out(self.common, self.pass)),
            Ok(false) => Ok(Vec::new(self.common.alloc)),
            Err(NoMemory) => Err(NoMemory),
        }
    }

    fn seal(&mut self, stream: Stream, mark: u64) -> Result<Vec<Record>, NoMemory> {
        self.common
            .cascade
            .seal(self.common.rt, self.pass, stream, mark)?;
        keep_up(self.common, self.pass, &mut self.pace)?;
        Ok(take_out(self.common, self.pass))
    }

    ghost so_far = { λ e f rows h. h.so_far };

    ghost same_here = { λ e f rows h. (refl, refl, still_here e.common.now.cascade.now e.pass.now h.ready) };

    ghost same_then = { λ a b c p q. (
      q.0 ∙ p.0,
      q.1 ∙ p.1,
      still_of_same a.common.now.cascade.now b.common.now.cascade.now a.pass.now b.pass.now c.pass.now p.0 p.2 q.2,
    ) };

    ghost same_plan = { λ a b p. plan_of_same a.common.now.cascade.now b.common.now.cascade.now p.0 };

    ghost same_size = { λ a b p. bundle_of_same a.common.now.cascade.now b.common.now.cascade.now p.0 };
}

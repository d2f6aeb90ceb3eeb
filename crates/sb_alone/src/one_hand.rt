//! A hand as an engine: what comes is worked off at once.

ghost use Rattle.std.specs.Prelude.{◌<◌, ◌++◌, List, All, IfOk, OnOk};
ghost use Rattle.sb_feeds.specs.base.records.declared.item.Record.{Record as ARecord};
ghost use Rattle.sb_feeds.specs.one_feed.Feeds.{Fed, MayArrive, MaySeal, with_bundle, with_mark};
ghost use Rattle.sb_alone.specs.Rested.{HasSameSetting, IsRestedSoFar};

use crate::working::work_off;
use sb_feeds::{Bundle, END_MARK, Engine, NoMemory, Plan, Record, Stream};
use sb_hand::{ArriveStop, Hand};

/// The engine of one worker: a hand in which nothing is left to do between two calls.
#[derive(Drop)]
pub(crate) struct OneHand {
    pub(crate) hand: Hand,
}

impl Engine for OneHand {
    ghost use Rattle.sb_alone.specs.Rested.{HasSameSetting, IsRestedSoFar};
    ghost use Rattle.sb_alone.specs.SettingLaws.{same_as_before, same_then};

    ghost stands = { λ e f rows. IsRestedSoFar e.hand f rows };

    ghost same = { λ a b. HasSameSetting a.hand b.hand };

    ghost plan = { λ e. e.hand.plan };

    ghost size = { λ e. e.hand.bundle };

    fn plan(&self) -> &Plan {
        self.hand.plan()
    }

    fn arrive(&mut self, stream: Stream, bundle: Bundle) -> Result<Vec<Record>, NoMemory> {
        match self.hand.arrive(stream, bundle) {
            Ok(_) => return work_off(&mut self.hand),
            Err(ArriveStop::Memory(_)) => Err(NoMemory),
            Err(ArriveStop::Full(_)) => unreachable!(),
        }
    }

    fn seal(&mut self, stream: Stream, mark: u64) -> Result<Vec<Record>, NoMemory> {
        match self.hand.seal(stream, mark) {
            Ok(()) => work_off(&mut self.hand),
            Err(NoMemory) => Err(NoMemory),
        }
    }

    ghost so_far = { λ e f rows h. h.so_far };

    ghost same_here = { λ e f rows h. same_as_before e.hand };

    ghost same_then = { λ a b c p q. same_then a.hand b.hand c.hand p q };

    ghost same_plan = { λ a b p. p.plan };

    ghost same_size = { λ a b p. p.bundle };
}

//! How a run ends, by where feeding stopped.

ghost use Rattle.std.specs.Prelude.{◌≡◌};
ghost use Rattle.sb_alone.specs.Ending.{early_by, end_by};

use crate::run_end::RunEnd;
use sb_feeds::{GiveStop, Stop};
use sb_hand::Hand;

/// How a run ends that stopped early.
pub fn early_end(why: GiveStop) -> RunEnd
    ensures { result ≡ early_by why }
{
    match why {
        GiveStop::Output => RunEnd::Output,
        GiveStop::Tap { place } => RunEnd::Tap { place },
        GiveStop::Memory => RunEnd::Memory,
    }
}

/// How a run ends whose input was fed to a hand.
pub fn end_of(hand: Hand, fed: Result<Stop, GiveStop>) -> RunEnd
    ensures { result ≡ end_by hand fed }
{
    match fed {
        Ok(Stop::End) => RunEnd::Done(hand),
        Ok(Stop::Refused(refusal)) => RunEnd::Refused(refusal),
        Ok(Stop::Fault) => RunEnd::Input,
        Err(why) => early_end(why),
    }
}

//! How a run over two record files ends, by where feeding stopped.

ghost use Rattle.std.specs.Prelude.{◌≡◌};
ghost use Rattle.sb_run.specs.FilesEnding.{early_by, end_by};

use crate::files::inlets::FilesStop;
use sb_engines::{GiveStop, Hand, TwoEnd};

/// How a run ends that stopped early.
pub(crate) fn early_end(why: GiveStop) -> TwoEnd
    ensures { result ≡ early_by why }
{
    match why {
        GiveStop::Output => TwoEnd::Output,
        GiveStop::Tap { place } => TwoEnd::Tap { place },
        GiveStop::Memory => TwoEnd::Memory,
    }
}

/// How a run ends whose files were fed up to their stops, and all of it worked off by a hand.
pub(crate) fn end_of(hand: Hand, stop: FilesStop) -> TwoEnd
    ensures { result ≡ end_by hand stop }
{
    match stop {
        FilesStop::End => TwoEnd::Done(hand),
        FilesStop::Refused { stream, refusal } => TwoEnd::Refused { stream, refusal },
    }
}

//! Working off what a hand has, and taking its rows out.

ghost use Rattle.std.specs.Prelude.{◌≡◌, ◌≤◌, ◌<◌, ◌^◌, ◌++◌, ℕ, List, All, map, length, slice_get, IfOk, OnOk};
ghost use Rattle.sb_feeds.specs.base.records.declared.item.Record.{Record as ARecord};
ghost use Rattle.sb_hand.specs.Stepping.{IsIdle};
ghost use Rattle.sb_feeds.specs.one_feed.Feeds.{AreRowsSoFar, Fed};
ghost use Rattle.sb_feeds.specs.one_feed.GiveCauses.{GiveCause};
ghost use Rattle.sb_feeds.specs.one_feed.Gives.{Gives};
ghost use Rattle.sb_alone.specs.Rested.{HasSameSetting, IsRested, IsRestedSoFar, IsWhole};

use sb_feeds::{END_MARK, GiveStop, NoMemory, Record, RowOut, Tap, give_out};
use sb_hand::{Did, Hand};

// Steps a node until nothing is left to do there.
fn settle_node(hand: &mut Hand, node: u32) -> Result<(), NoMemory>
    requires { node ≤ length hand.old.plan.steps }
    ensures same { HasSameSetting hand.old hand.new }
    ensures whole { OnOk result ((f : Fed) (rows : List ARecord) → IsWhole hand.old f rows → IsWhole hand.new f rows) }
    ensures idle { OnOk result (IsIdle node hand.new.nodes) }
    ensures earlier { OnOk result ((k : ℕ) → k < node
        → slice_get hand.new.nodes k ≡ slice_get hand.old.nodes k) }
{
    'steps: loop {
        match hand.step(node) {
            Ok(Did::Nothing) => return Ok(()),
            Ok(Did::Bundle | Did::Closing) => {}
            Err(NoMemory) => return Err(NoMemory),
        }
    }
}

// Steps each node, in order, until nothing is left to do.
fn settle(hand: &mut Hand) -> Result<(), NoMemory>
    ensures same { HasSameSetting hand.old hand.new }
    ensures whole { OnOk result ((f : Fed) (rows : List ARecord) → IsWhole hand.old f rows → IsWhole hand.new f rows) }
    ensures idle { OnOk result ((k : ℕ) → k ≤ length hand.old.plan.steps → IsIdle k hand.new.nodes) }
{
    let sink = hand.plan().transforms();
    'nodes: for node in 0..=sink {
        settle_node(hand, node)?;
    }
    Ok(())
}

/// Works off what a hand has, and takes its rows out.
///
/// # Errors
///
/// [`NoMemory`]. Then nothing is known of the hand.
pub(crate) fn work_off(hand: &mut Hand) -> Result<Vec<Record>, NoMemory>
    requires whole { (f : Fed) × (rows : List ARecord) × IsWhole hand.old f rows }
    ensures same { HasSameSetting hand.old hand.new }
    ensures rests { (f : Fed) (before : List ARecord) → IsWhole hand.old f before
        → IfOk result (λ rows. IsRestedSoFar hand.new f (before ++ rows.items)) }
    ensures times { IfOk result (λ rows. All (λ r. r.time < END_MARK) rows.items) }
{
    match settle(hand) {
        Ok(()) => Ok(hand.drain()),
        Err(NoMemory) => Err(NoMemory),
    }
}

/// Works off what a hand has, and gives out its rows.
///
/// # Errors
///
/// Those of [`give_out`], and `Memory`. Then nothing is known of the hand.
pub fn flow<R: RowOut>(
    hand: &mut Hand,
    out: &mut R,
    taps: &mut Vec<Box<dyn Tap>>,
) -> Result<(), GiveStop>
    requires whole { (f : Fed) × (rows : List ARecord) × IsWhole hand.old f rows }
    requires few { length taps.old.items < 2 ^ 32 }
    ensures same { HasSameSetting hand.old hand.new }
    ensures gives { (f : Fed) (before : List ARecord) → IsWhole hand.old f before → AreRowsSoFar hand.old.plan f before
        → Gives hand.old.plan (IsRested hand.new f) R.after R.part out.old out.new
        (map (λ t. tap_state t) taps.old.items) (map (λ t. tap_state t) taps.new.items) f before result }
    ensures fewer { OnOk result (length taps.new.items ≤ length taps.old.items) }
    ensures cause { GiveCause (R.row_state out.old) (R.row_state out.new) result }
{
    match work_off(hand) {
        Ok(rows) => give_out(&rows, out, taps),
        Err(NoMemory) => Err(GiveStop::Memory),
    }
}

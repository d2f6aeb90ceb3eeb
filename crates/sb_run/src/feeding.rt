//! Feeding what comes out of the ring of an input to a shared cascade.

ghost use Rattle.std.specs.Prelude.{◌≡◌, ◌≤◌, ◌<◌, ◌^◌, ◌++◌, ◌∷◌, [], false, List, map, length, OnOk, IfNone, IfSome};
ghost use Rattle.sb_engines.specs.feeds.base.records.declared.item.Record.{Record as ARecord};
ghost use Rattle.sb_engines.specs.feeds.base.pipeline.Shapes.{streams_of};
ghost use Rattle.sb_engines.specs.worker.cascade.Calls.{plan_of, setting_of};
ghost use Rattle.sb_engines.specs.feeds.one_feed.Feeds.{Fed, nothing_fed};
ghost use Rattle.sb_engines.specs.feeds.one_feed.GiveCauses.{GiveCause};
ghost use Rattle.sb_engines.specs.feeds.one_feed.Gives.{Gives};
ghost use Rattle.sb_engines.specs.feeds.InputFed.{MayCome, MayFollow, fed_with};
ghost use Rattle.sb_engines.specs.feeds.InputEnds.{begun_values, ring_in, values_received};
ghost use Rattle.sb_engines.specs.Feeders.{HasFed, IsStill};
ghost use Rattle.sb_run.specs.InputPops.{FeedsPopped};

use crate::ahead::Ahead;
use sb_engines::{
    CascadePass, Common, Did, Feeder, Gate, GiveStop, InputFed, InputIn, NoMemory, Pace, Patience,
    RowOut, Signals, Stop, Tap, end_work, give_out, reason_of, step_too, take_out, take_value,
};
use std::sync::Wait;
use std::time::Clock;

// Takes a value that came. The rows that come out then are given out.
fn take<W: Wait + Clock, G: Gate, R: RowOut>(
    common: &Common<'_, W, G>,
    pass: &mut CascadePass,
    pace: &mut Pace,
    next: InputFed,
    out: &mut R,
    taps: &mut Vec<Box<dyn Tap>>,
) -> Result<(), GiveStop>
    requires may { (f : Fed) × (rows : List ARecord) × HasFed common.now.cascade.now pass.old f rows
        × MayCome (plan_of common.now.cascade.now) (setting_of common.now.cascade.now).bundle f next }
    requires few { length taps.old.items < 2 ^ 32 }
    ensures same { IsStill common.now.cascade.now pass.old pass.new }
    ensures gives { (f : Fed) (rows : List ARecord) → HasFed common.now.cascade.now pass.old f rows
        → MayCome (plan_of common.now.cascade.now) (setting_of common.now.cascade.now).bundle f next
        → Gives (plan_of common.now.cascade.now) (HasFed common.now.cascade.now pass.new (fed_with next f))
        R.after R.part out.old out.new
        (map (λ t. tap_state t) taps.old.items) (map (λ t. tap_state t) taps.new.items) (fed_with next f) rows result }
    ensures fewer { OnOk result (length taps.new.items ≤ length taps.old.items) }
    ensures cause { GiveCause (R.row_state out.old) (R.row_state out.new) result }
{
    let mut engine = Feeder {
        common,
        pass,
        pace: *pace,
    };
    let taken = take_value(&mut engine, next, out, taps);
    *pace = engine.pace;
    taken
}

// Gives out the rows that lie ready.
fn give_ready<W: Wait, G: Gate, R: RowOut>(
    common: &Common<'_, W, G>,
    pass: &mut CascadePass,
    out: &mut R,
    taps: &mut Vec<Box<dyn Tap>>,
) -> Result<(), GiveStop>
    requires feeder { (f : Fed) × (rows : List ARecord) × HasFed common.now.cascade.now pass.old f rows }
    requires few { length taps.old.items < 2 ^ 32 }
    ensures same { IsStill common.now.cascade.now pass.old pass.new }
    ensures gives { (f : Fed) (rows : List ARecord) → HasFed common.now.cascade.now pass.old f rows
        → Gives (plan_of common.now.cascade.now) (HasFed common.now.cascade.now pass.new f)
        R.after R.part out.old out.new
        (map (λ t. tap_state t) taps.old.items) (map (λ t. tap_state t) taps.new.items) f rows result }
    ensures fewer { OnOk result (length taps.new.items ≤ length taps.old.items) }
    ensures cause { GiveCause (R.row_state out.old) (R.row_state out.new) result }
{
    let rows = take_out(common, pass);
    give_out(&rows, out, taps)
}

// The next value that came, unless too many of the bundles that came before wait.
fn pop<G: Gate>(inward: &mut InputIn, gate: &Ahead<'_, G>, brought: u64) -> Option<InputFed>
    ensures ring { ring_in inward.new ≡ ring_in inward.old }
    ensures some { IfSome result (λ next. values_received inward.new ≡ values_received inward.old ++ next ∷ []) }
    ensures follows { IfSome result (λ next. MayFollow (values_received inward.old) next) }
    ensures none { IfNone result (values_received inward.new ≡ values_received inward.old) }
{
    if gate.is_far(brought) {
        return None;
    }
    inward.pop()
}

// Nothing came, or enough: the feeder works as the others do. If there is nothing to do for a while, it gives out the
// rows that lie ready, and sleeps until something comes.
fn idle<W: Wait + Clock, G: Gate, R: RowOut>(
    common: &Common<'_, W, G>,
    pass: &mut CascadePass,
    inward: &mut InputIn,
    signals: &Signals,
    patience: &mut Patience,
    out: &mut R,
    taps: &mut Vec<Box<dyn Tap>>,
) -> Result<(), GiveStop>
    requires feeder { (f : Fed) × (rows : List ARecord) × HasFed common.now.cascade.now pass.old f rows }
    requires few { length taps.old.items < 2 ^ 32 }
    ensures ring { ring_in inward.new ≡ ring_in inward.old }
    ensures none { values_received inward.new ≡ values_received inward.old }
    ensures same { IsStill common.now.cascade.now pass.old pass.new }
    ensures gives { (f : Fed) (rows : List ARecord) → HasFed common.now.cascade.now pass.old f rows
        → Gives (plan_of common.now.cascade.now) (HasFed common.now.cascade.now pass.new f)
        R.after R.part out.old out.new
        (map (λ t. tap_state t) taps.old.items) (map (λ t. tap_state t) taps.new.items) f rows result }
    ensures fewer { OnOk result (length taps.new.items ≤ length taps.old.items) }
    ensures cause { GiveCause (R.row_state out.old) (R.row_state out.new) result }
{
    match step_too(common, pass) {
        Ok(Did::Bundle | Did::Closing) => {
            patience.renew();
            Ok(())
        }
        Ok(Did::Nothing) => {
            if !patience.is_spent() {
                patience.pause();
                return Ok(());
            }
            match give_ready(common, pass, out, taps) {
                Ok(()) => {
                    inward.rest(common.rt, signals);
                    Ok(())
                }
                Err(why) => Err(why),
            }
        }
        Err(NoMemory) => Err(GiveStop::Memory),
    }
}

// Feeds what comes out of the ring up to the stop, and answers where reading stopped.
fn feed_values<W: Wait + Clock, G: Gate, R: RowOut>(
    common: &Common<'_, W, Ahead<'_, G>>,
    pass: &mut CascadePass,
    inward: &mut InputIn,
    signals: &Signals,
    out: &mut R,
    taps: &mut Vec<Box<dyn Tap>>,
) -> Result<Stop, GiveStop>
    requires begins { HasFed common.now.cascade.now pass.old nothing_fed [] }
    requires nothing { values_received inward.old
        ≡ begun_values (streams_of (plan_of common.now.cascade.now)) (setting_of common.now.cascade.now).bundle }
    requires few { length taps.old.items < 2 ^ 32 }
    ensures ring { ring_in inward.new ≡ ring_in inward.old }
    ensures same { IsStill common.now.cascade.now pass.old pass.new }
    ensures feeds { FeedsPopped (plan_of common.now.cascade.now) (setting_of common.now.cascade.now).bundle
        (values_received inward.new) (HasFed common.now.cascade.now pass.new) R.after R.part out.old out.new
        (map (λ t. tap_state t) taps.old.items) (map (λ t. tap_state t) taps.new.items) result }
    ensures fewer { OnOk result (length taps.new.items ≤ length taps.old.items) }
    ensures cause { GiveCause (R.row_state out.old) (R.row_state out.new) result }
{
    let mut pace = Pace::new();
    let mut patience = Patience::new();
    let mut brought = 0_u64;
    for _ in common.rt.forever() {
        match pop(inward, common.gate, brought) {
            Some(InputFed::Stop(stop)) => return Ok(stop),
            Some(InputFed::NoMemory) => return Err(GiveStop::Memory),
            Some(next) => {
                patience.renew();
                if matches!(&next, InputFed::Bundle(_, _)) {
                    brought = brought.wrapping_add(1);
                }
                match take(common, pass, &mut pace, next, out, taps) {
                    Ok(()) => {}
                    Err(why) => return Err(why),
                }
            }
            None => {
                pace.waited();
                match idle(common, pass, inward, signals, &mut patience, out, taps) {
                    Ok(()) => {}
                    Err(why) => return Err(why),
                }
            }
        }
    }
    unreachable!()
}

// The feeder's work over what a reader sends that has begun.
fn feed_begun<W: Wait + Clock, G: Gate, R: RowOut>(
    common: &Common<'_, W, Ahead<'_, G>>,
    pass: &mut CascadePass,
    inward: &mut InputIn,
    signals: &Signals,
    out: &mut R,
    taps: &mut Vec<Box<dyn Tap>>,
) -> Result<Stop, GiveStop>
    requires begins { HasFed common.now.cascade.now pass.old nothing_fed [] }
    requires nothing { values_received inward.old
        ≡ begun_values (streams_of (plan_of common.now.cascade.now)) (setting_of common.now.cascade.now).bundle }
    requires few { length taps.old.items < 2 ^ 32 }
    ensures ring { ring_in inward.new ≡ ring_in inward.old }
    ensures same { IsStill common.now.cascade.now pass.old pass.new }
    ensures feeds { FeedsPopped (plan_of common.now.cascade.now) (setting_of common.now.cascade.now).bundle
        (values_received inward.new) (HasFed common.now.cascade.now pass.new) R.after R.part out.old out.new
        (map (λ t. tap_state t) taps.old.items) (map (λ t. tap_state t) taps.new.items) result }
    ensures fewer { OnOk result (length taps.new.items ≤ length taps.old.items) }
    ensures cause { GiveCause (R.row_state out.old) (R.row_state out.new) result }
{
    let stop = match feed_values(common, pass, inward, signals, out, taps) {
        Ok(stop) => stop,
        Err(why) => {
            signals.end();
            common.cascade.stop(pass, reason_of(why));
            return Err(why);
        }
    };
    match end_work(common, pass) {
        Ok(()) => Ok(stop),
        Err(NoMemory) => Err(GiveStop::Memory),
    }
}

/// The feeder's work: it feeds what comes out of the ring of an input to a cascade that was fed nothing yet, steps
/// until nothing is left to do, says in the state word that the run ends, and answers where reading stopped. The rows
/// that lie ready as a watermark comes, as a lane is full, or where nothing comes for a while, are written and offered.
///
/// False, and the answer says no more, if the reader has not begun for about a second: then it is given up, and nothing
/// was done.
///
/// # Errors
///
/// The first failure to write or to offer rows, or want of memory, of this worker or another. Nothing more is then
/// written or offered, and the reader ends behind its read.
pub(crate) fn feed_popped<W: Wait + Clock, G: Gate, R: RowOut>(
    common: &Common<'_, W, Ahead<'_, G>>,
    pass: &mut CascadePass,
    inward: &mut InputIn,
    signals: &Signals,
    out: &mut R,
    taps: &mut Vec<Box<dyn Tap>>,
) -> (bool, Result<Stop, GiveStop>)
    requires begins { HasFed common.now.cascade.now pass.old nothing_fed [] }
    requires nothing { values_received inward.old
        ≡ begun_values (streams_of (plan_of common.now.cascade.now)) (setting_of common.now.cascade.now).bundle }
    requires few { length taps.old.items < 2 ^ 32 }
    ensures ring { ring_in inward.new ≡ ring_in inward.old }
    ensures same { IsStill common.now.cascade.now pass.old pass.new }
    ensures left { result.0 ≡ false → (pass.new ≡ pass.old) × (out.new ≡ out.old) × (taps.new ≡ taps.old) }
    ensures feeds { FeedsPopped (plan_of common.now.cascade.now) (setting_of common.now.cascade.now).bundle
        (values_received inward.new) (HasFed common.now.cascade.now pass.new) R.after R.part out.old out.new
        (map (λ t. tap_state t) taps.old.items) (map (λ t. tap_state t) taps.new.items) result.1 }
    ensures fewer { OnOk result.1 (length taps.new.items ≤ length taps.old.items) }
    ensures cause { GiveCause (R.row_state out.old) (R.row_state out.new) result.1 }
{
    if !signals.has_begun(common.rt) {
        return (false, Err(GiveStop::Memory));
    }
    let fed = feed_begun(common, pass, inward, signals, out, taps);
    (true, fed)
}

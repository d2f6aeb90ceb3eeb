//! The marks up to which a node is closed.

ghost use Rattle.std.specs.Prelude.{◌≡◌, ◌≤◌, ◌<◌, ◌+◌, ◌^◌, List, ◌∷◌, All, Some, length, sum_by};
ghost use Rattle.std.specs.Prelude.{slice_get, slice_index, slice_set};
ghost use Rattle.sb_core.specs.containers.declared.container.Cont.{Cont as ACont};
ghost use Rattle.sb_core.specs.containers.declared.container.CoreLane.{CoreLane as ALane};
ghost use Rattle.sb_core.specs.containers.Lanes.{with_first_closing};
ghost use Rattle.sb_core.specs.containers.Marks as spec;

use sb_core::{Cont, CoreLane};

/// Whether the first container is closing.
pub(crate) fn first_is_closing(conts: &[Cont]) -> bool
    ensures { result ≡ spec.first_is_closing conts.now }
{
    match conts.first() {
        Some(cont) => cont.closing,
        None => false,
    }
}

/// How many epochs of the lane have begun to close: no more than are sealed.
fn begun_count(lane: &CoreLane) -> u64
    requires { spec.begun_count lane.now ≤ length lane.now.marks }
    ensures value { result ≡ spec.begun_count lane.now }
    ensures small { result < 2 ^ 63 }
{
    // No more have begun than are sealed, so `min` changes nothing. It is there for the bound: a list has fewer than
    // 2^63 elements, so the counts of two lanes, and one more, fit into 64 bits.
    let sealed = lane.marks.items.len() as u64;
    if first_is_closing(lane.conts.as_slice()) {
        sealed.min(lane.ended + 1)
    } else {
        sealed.min(lane.ended)
    }
}

/// How many epochs of the lanes of a node have begun to close. There are at most two, so one more fits.
pub(crate) fn begun_in(lanes: &[CoreLane]) -> u64
    requires most { length lanes.now ≤ 2 }
    requires begun { All (λ lane. spec.begun_count lane ≤ length lane.marks) lanes.now }
    ensures value { result ≡ sum_by spec.begun_count lanes.now }
    ensures small { result < u64.MAX }
{
    let mut count = 0;
    for lane in lanes {
        count += begun_count(lane);
    }
    count
}

/// The mark at a place, or 0.
fn mark_at(marks: &[u64], place: u64) -> u64
    ensures { result ≡ slice_index marks.now place }
{
    marks.get(place as usize).copied().unwrap_or(0)
}

/// The mark of the last epoch that has ended, or 0.
fn last_ended(lane: &CoreLane) -> u64
    ensures { result ≡ spec.last_of_first lane.now.ended lane.now.marks }
{
    if lane.ended == 0 {
        return 0;
    }
    mark_at(lane.marks.as_slice(), lane.ended - 1)
}

/// The mark of the last epoch that has begun to close, once the first container is closing.
fn with_first(lane: &CoreLane) -> u64
    ensures { result ≡ spec.last_of_first (lane.now.ended + 1) lane.now.marks }
{
    mark_at(lane.marks.as_slice(), lane.ended)
}

/// The mark of the last epoch that has begun to close, or 0.
fn last_begun(lane: &CoreLane) -> u64
    ensures { result ≡ spec.last_of_first (spec.begun_count lane.now) lane.now.marks }
{
    if first_is_closing(lane.conts.as_slice()) {
        with_first(lane)
    } else {
        last_ended(lane)
    }
}

/// The mark up to which a node with these lanes is closed.
pub(crate) fn least_begun_mark(lanes: &[CoreLane]) -> u64
    ensures { result ≡ spec.least_begun_mark lanes.now }
{
    match lanes {
        [] => 0,
        [lane] => last_begun(lane),
        [lane, rest @ ..] => last_begun(lane).min(least_begun_mark(rest)),
    }
}

/// The same, once the first container of a lane is closing.
pub(crate) fn least_begun_mark_with(lanes: &[CoreLane], begins: usize) -> u64
    ensures { (lane : ALane) (cont : ACont) (conts : List ACont)
        → slice_get lanes.now begins ≡ Some lane → lane.conts ≡ cont ∷ conts
        → result ≡ spec.least_begun_mark
        (slice_set lanes.now begins (record lane { conts = with_first_closing lane.conts })) }
{
    match lanes {
        [] => 0,
        [lane] => with_first(lane),
        [lane, rest @ ..] => {
            if begins == 0 {
                with_first(lane).min(least_begun_mark(rest))
            } else {
                last_begun(lane).min(least_begun_mark_with(rest, begins - 1))
            }
        }
    }
}

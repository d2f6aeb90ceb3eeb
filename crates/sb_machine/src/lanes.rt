//! What becomes of a lane: bundles come and go, it is sealed, and its oldest container closes.

ghost use Rattle.std.specs.Prelude.{◌≡◌, ◌<◌, ◌==◌, ◌+◌, not, if◌then◌else◌, Some, None, OnOk, OnErr, IfOk};
ghost use Rattle.std.specs.Prelude.{length, drop, filter, slice_get};
ghost use Rattle.std.specs.Option.{option_map};
ghost use Rattle.sb_core.specs.containers.Lanes as spec;
ghost use Rattle.sb_core.specs.Finding.{IsFirst};
ghost use Rattle.sb_core.specs.LaneSteps.{TakesOut};
ghost use Rattle.sb_machine.specs.Places.{IsPlaceOf, IsWaitingAt, without};

use sb_core::{Cont, CoreLane};
use sb_slow::{Bundle, NoMemory, Record, Sequence};
use std::alloc::Global;

/// The number of the first epoch that is not sealed.
pub(crate) fn next_epoch(lane: &CoreLane) -> u64
    ensures { result ≡ spec.next_epoch lane.now }
{
    lane.marks.as_slice().len() as u64
}

/// The floor of that epoch.
pub(crate) fn next_floor(lane: &CoreLane) -> u64
    ensures { result ≡ spec.next_floor lane.now }
{
    lane.marks.as_slice().last().copied().unwrap_or(0)
}

/// Where the container of an epoch is, or, as an error, where it is to be put.
fn find_epoch(conts: &[Cont], epoch: u64) -> Result<usize, usize>
    ensures { IsPlaceOf epoch conts.now result }
{
    for place in 0..conts.len() {
        let there = conts[place].epoch;
        if there == epoch {
            return Ok(place);
        }
        if epoch < there {
            return Err(place);
        }
    }
    Err(conts.len())
}

/// A container in which nothing has arrived.
fn fresh(alloc: Global, epoch: u64, floor: u64) -> Cont
    ensures { result ≡ spec.fresh epoch floor }
{
    Cont {
        epoch,
        floor,
        waiting: Sequence::new(Vec::new(alloc)),
        out: Sequence::new(Vec::new(alloc)),
        mark: None,
        closing: false,
    }
}

/// Puts a bundle into a container.
fn add_bundle(cont: &mut Cont, bundle: Bundle) -> Result<(), NoMemory>
    ensures ok { OnOk result (cont.new ≡ spec.with_bundle bundle cont.old) }
    ensures err { OnErr result (cont.new ≡ cont.old) }
{
    cont.waiting.items.push(bundle)?;
    Ok(())
}

/// Puts records as a bundle into the container of an epoch, which is made where it is not there.
pub(crate) fn put(
    alloc: Global,
    lane: &mut CoreLane,
    epoch: u64,
    floor: u64,
    records: Sequence<Record>,
) -> Result<(), NoMemory>
    requires { lane.old.arrived < u64.MAX }
    ensures ok { OnOk result (lane.new ≡ spec.with_arrival epoch floor records lane.old) }
    ensures err { OnErr result (lane.new ≡ lane.old) }
{
    // Numbers begin with 1: a Deliver with number 0 is of a closing.
    let bundle = Bundle {
        number: lane.arrived + 1,
        epoch,
        floor,
        records,
    };
    let conts = &mut lane.conts;
    match find_epoch(conts.as_slice(), epoch) {
        Ok(place) => add_bundle(&mut conts.items[place], bundle)?,
        Err(place) => {
            let mut cont = fresh(alloc, epoch, floor);
            add_bundle(&mut cont, bundle)?;
            conts.items.insert(place, cont)?;
        }
    }
    lane.arrived += 1;
    Ok(())
}

/// Seals the next epoch with a mark. Its container is made where it is not there.
pub(crate) fn seal(alloc: Global, lane: &mut CoreLane, mark: u64) -> Result<(), NoMemory>
    ensures ok { OnOk result (lane.new ≡ spec.with_seal mark lane.old) }
    ensures err { OnErr result (lane.new ≡ lane.old) }
{
    let (epoch, floor) = (next_epoch(lane), next_floor(lane));
    let (conts, marks) = (&mut lane.conts, &mut lane.marks);
    // The room for the mark comes first: once a container has it, nothing may fail.
    marks.items.reserve(1)?;
    match find_epoch(conts.as_slice(), epoch) {
        Ok(place) => conts.items[place].mark = Some(mark),
        Err(place) => {
            let mut cont = fresh(alloc, epoch, floor);
            cont.mark = Some(mark);
            conts.items.insert(place, cont)?;
        }
    }
    marks.items.push_reserved(mark);
    Ok(())
}

/// The place of the bundle of a number.
fn find_bundle(bundles: &[Bundle], number: u64) -> Option<usize>
    ensures { IsFirst (λ b. b.number == number) bundles.now result }
{
    bundles.iter().position(|b| b.number == number)
}

/// The place of the container in which the bundle of a number waits, and the bundle's place there.
fn find_waiting(conts: &[Cont], number: u64) -> Option<(usize, usize)>
    ensures { IsWaitingAt number conts.now result }
{
    for at in 0..conts.len() {
        if let Some(place) = find_bundle(conts[at].waiting.as_slice(), number) {
            return Some((at, place));
        }
    }
    None
}

/// Takes the waiting bundle at a place out of a container: its number is out.
fn take_out(cont: &mut Cont, place: usize, number: u64) -> Result<Bundle, NoMemory>
    requires { place < length cont.old.waiting }
    ensures ok { OnOk result (cont.new ≡ without number place cont.old) }
    ensures bundle { IfOk result (λ b. slice_get cont.old.waiting place ≡ Some b) }
    ensures err { OnErr result (cont.new ≡ cont.old) }
{
    cont.out.items.push(number)?;
    Ok(cont.waiting.items.remove(place))
}

/// Takes the waiting bundle of a number out, if there is one.
pub(crate) fn take(lane: &mut CoreLane, number: u64) -> Result<Option<Bundle>, NoMemory>
    ensures taken { IfOk result (TakesOut number lane.old lane.new) }
    ensures err { OnErr result (lane.new ≡ lane.old) }
{
    let conts = &mut lane.conts;
    let Some((at, place)) = find_waiting(conts.as_slice(), number) else {
        return Ok(None);
    };
    Ok(Some(take_out(&mut conts.items[at], place, number)?))
}

/// The numbers without this one.
fn leave_out(numbers: &mut Vec<u64>, number: u64)
    ensures { numbers.new.items ≡ filter (λ n. not (n == number)) numbers.old.items }
{
    numbers.retain(|n| *n != number);
}

/// A bundle is no longer out of a container, where that is of the epoch.
fn finish_in(cont: &mut Cont, epoch: u64, number: u64)
    ensures { cont.new ≡ (if cont.old.epoch == epoch
        then record cont.old { out = filter (λ n. not (n == number)) cont.old.out }
        else cont.old) }
{
    if cont.epoch == epoch {
        leave_out(&mut cont.out.items, number);
    }
}

/// A bundle of an epoch is no longer out.
pub(crate) fn finish(lane: &mut CoreLane, epoch: u64, number: u64)
    ensures { lane.new ≡ record lane.old { conts = spec.finish_in epoch number lane.old.conts } }
{
    for cont in lane.conts.items.iter_mut() {
        finish_in(cont, epoch, number);
    }
}

/// The epoch of the first container, where it may close.
pub(crate) fn closable(lane: &CoreLane) -> Option<u64>
    ensures { result ≡ option_map (λ c. c.epoch) (spec.closable lane.now.ended lane.now.conts) }
{
    let cont = lane.conts.as_slice().first()?;
    if cont.epoch == lane.ended
        && cont.mark.is_some()
        && cont.waiting.as_slice().is_empty()
        && cont.out.as_slice().is_empty()
    {
        Some(cont.epoch)
    } else {
        None
    }
}

/// The first container is closing.
pub(crate) fn begin(lane: &mut CoreLane)
    ensures { lane.new ≡ record lane.old { conts = spec.with_first_closing lane.old.conts } }
{
    if let Some(cont) = lane.conts.items.first_mut() {
        cont.closing = true;
    }
}

/// The first container is gone.
pub(crate) fn end(lane: &mut CoreLane)
    requires { lane.old.ended < u64.MAX }
    ensures { lane.new ≡ record lane.old { conts = drop 1 lane.old.conts; ended = lane.old.ended + 1 } }
{
    if !lane.conts.as_slice().is_empty() {
        let _ = lane.conts.items.remove(0);
    }
    lane.ended += 1;
}

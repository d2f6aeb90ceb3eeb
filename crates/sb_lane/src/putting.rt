//! Changes to the container of an epoch, which is made, in order of epoch, where it is not there: a bundle comes, a
//! watermark comes, or a place is asked for.

ghost use Rattle.std.specs.Prelude.{◌≡◌, ◌≤◌, ◌<◌, ◌+◌, length, Some, OnOk, OnErr, IsOk, IfOk, IfErr};
ghost use Rattle.sb_containers.specs.Lanes.{with_bundle};
ghost use Rattle.sb_lane.specs.Changes.{ChangesEpoch, DifferInRooms, StandsAt, StandsWithRoom};
ghost use Rattle.sb_lane.specs.Finding.{IsHigherAt, IsOfEpoch, LowerBefore};
ghost use Rattle.sb_lane.specs.Links.{links_of};
ghost use Rattle.sb_lane.specs.Placed.{conts_of, room_in};
ghost use Rattle.sb_lane.specs.Taking.{at_epoch};
ghost use Rattle.sb_lane.specs.Unfinished.{unfinished_of};

use crate::arena::Arena;
use crate::filling::{empty, make_room};
use crate::finding::{index_of, is_at};
use sb_containers::{Bundle, NoMemory};
use std::alloc::Global;

// Puts a bundle into the container at an index, which is of its epoch.
fn put_found(containers: &mut Arena, at: usize, bundle: Bundle) -> Result<(), Bundle>
    requires within { at < length containers.old }
    requires here { IsOfEpoch bundle.epoch at (conts_of containers.old) }
    requires before { LowerBefore bundle.epoch at (conts_of containers.old) }
    ensures ok { OnOk result
        (ChangesEpoch bundle.epoch bundle.floor (with_bundle bundle) containers.old containers.new) }
    ensures err { IfErr result (λ b. b ≡ bundle) }
    ensures same { OnErr result (DifferInRooms containers.old containers.new) }
{
    containers.put(at, bundle)
}

// Puts a bundle into a new container of its epoch, at its index.
fn put_new(containers: &mut Arena, alloc: Global, at: usize, bundle: Bundle) -> Result<(), Bundle>
    requires within { at ≤ length containers.old }
    requires before { LowerBefore bundle.epoch at (conts_of containers.old) }
    requires above { IsHigherAt bundle.epoch at containers.old }
    ensures ok { OnOk result
        (ChangesEpoch bundle.epoch bundle.floor (with_bundle bundle) containers.old containers.new) }
    ensures err { IfErr result (λ b. b ≡ bundle) }
    ensures same { OnErr result (DifferInRooms containers.old containers.new) }
{
    match containers.insert_bundle(alloc, at, bundle) {
        Ok(_) => Ok(()),
        Err(bundle) => Err(bundle),
    }
}

/// Puts a bundle into the container of its epoch.
pub(crate) fn put_at(containers: &mut Arena, alloc: Global, bundle: Bundle) -> Result<(), Bundle>
    ensures ok { OnOk result
        (ChangesEpoch bundle.epoch bundle.floor (with_bundle bundle) containers.old containers.new) }
    ensures err { IfErr result (λ b. b ≡ bundle) }
    ensures same { OnErr result (DifferInRooms containers.old containers.new) }
{
    let at = index_of(containers, bundle.epoch);
    if is_at(containers, at, bundle.epoch) {
        put_found(containers, at, bundle)
    } else {
        put_new(containers, alloc, at, bundle)
    }
}

/// Puts a bundle into the container of its epoch, which stands at this place. It looks for nothing.
pub(crate) fn put_in_place(
    containers: &mut Arena,
    place: usize,
    bundle: Bundle,
) -> Result<(), Bundle>
    requires { StandsAt bundle.epoch place containers.old }
    ensures ok { OnOk result
        (conts_of containers.new ≡ at_epoch bundle.epoch (with_bundle bundle) (conts_of containers.old)) }
    ensures unfinished { OnOk result
        (unfinished_of (conts_of containers.new) ≡ unfinished_of (conts_of containers.old) + 1) }
    ensures links { links_of containers.new ≡ links_of containers.old }
    ensures succeeds { 1 ≤ room_in bundle.epoch containers.old → IsOk result }
    ensures err { IfErr result (λ b. b ≡ bundle) }
    ensures same { OnErr result (DifferInRooms containers.old containers.new) }
{
    containers.put_at_place(place, bundle)
}

// Seals the container at an index, which is of the epoch.
fn seal_found(containers: &mut Arena, at: usize, epoch: u64, floor: u64, mark: u64)
    requires within { at < length containers.old }
    requires here { IsOfEpoch epoch at (conts_of containers.old) }
    requires before { LowerBefore epoch at (conts_of containers.old) }
    ensures { ChangesEpoch epoch floor (λ c. record c { mark = Some mark }) containers.old containers.new }
{
    // For the proof: clauses alone speak of them.
    let _ = (epoch, floor);
    containers.seal(at, mark);
}

// Puts a new, sealed container of an epoch at its index.
fn seal_new(
    containers: &mut Arena,
    alloc: Global,
    at: usize,
    epoch: u64,
    floor: u64,
    mark: u64,
) -> Result<(), NoMemory>
    requires within { at ≤ length containers.old }
    requires before { LowerBefore epoch at (conts_of containers.old) }
    requires above { IsHigherAt epoch at containers.old }
    ensures ok { OnOk result
        (ChangesEpoch epoch floor (λ c. record c { mark = Some mark }) containers.old containers.new) }
    ensures same { OnErr result (DifferInRooms containers.old containers.new) }
{
    match containers.insert(at, empty(alloc, epoch, floor, Some(mark))) {
        Ok(_) => Ok(()),
        Err(NoMemory) => Err(NoMemory),
    }
}

/// Seals the container of an epoch.
pub(crate) fn seal_at(
    containers: &mut Arena,
    alloc: Global,
    epoch: u64,
    floor: u64,
    mark: u64,
) -> Result<(), NoMemory>
    ensures ok { OnOk result
        (ChangesEpoch epoch floor (λ c. record c { mark = Some mark }) containers.old containers.new) }
    ensures same { OnErr result (DifferInRooms containers.old containers.new) }
{
    let at = index_of(containers, epoch);
    if is_at(containers, at, epoch) {
        seal_found(containers, at, epoch, floor, mark);
        Ok(())
    } else {
        seal_new(containers, alloc, at, epoch, floor, mark)
    }
}

// The place of the container at an index, which is of the epoch, once it has room for one bundle more.
fn place_found(containers: &mut Arena, at: usize, epoch: u64, floor: u64) -> Result<usize, NoMemory>
    requires within { at < length containers.old }
    requires here { IsOfEpoch epoch at (conts_of containers.old) }
    requires before { LowerBefore epoch at (conts_of containers.old) }
    ensures put { ChangesEpoch epoch floor (λ c. c) containers.old containers.new }
    ensures same { DifferInRooms containers.old containers.new }
    ensures at { IfOk result (λ p. StandsWithRoom epoch p containers.new) }
{
    // For the proof: clauses alone speak of them.
    let _ = (epoch, floor);
    match containers.make_room(at) {
        Ok(()) => Ok(containers.place(at)),
        Err(_) => Err(NoMemory),
    }
}

// The place of a new container of an epoch, at its index, with room for a bundle.
fn place_new(
    containers: &mut Arena,
    alloc: Global,
    at: usize,
    epoch: u64,
    floor: u64,
) -> Result<usize, NoMemory>
    requires within { at ≤ length containers.old }
    requires before { LowerBefore epoch at (conts_of containers.old) }
    requires above { IsHigherAt epoch at containers.old }
    ensures ok { OnOk result (ChangesEpoch epoch floor (λ c. c) containers.old containers.new) }
    ensures same { OnErr result (DifferInRooms containers.old containers.new) }
    ensures at { IfOk result (λ p. StandsWithRoom epoch p containers.new) }
{
    let mut made = empty(alloc, epoch, floor, None);
    match make_room(&mut made) {
        Ok(()) => containers.insert(at, made),
        Err(_) => Err(NoMemory),
    }
}

/// The place of the container of an epoch, with room for one bundle more.
pub(crate) fn place_at(
    containers: &mut Arena,
    alloc: Global,
    epoch: u64,
    floor: u64,
) -> Result<usize, NoMemory>
    ensures ok { OnOk result (ChangesEpoch epoch floor (λ c. c) containers.old containers.new) }
    ensures same { OnErr result (DifferInRooms containers.old containers.new) }
    ensures at { IfOk result (λ p. StandsWithRoom epoch p containers.new) }
{
    let at = index_of(containers, epoch);
    if is_at(containers, at, epoch) {
        place_found(containers, at, epoch, floor)
    } else {
        place_new(containers, alloc, at, epoch, floor)
    }
}

//! Where the container of an epoch stands, and where a bundle waits.

ghost use Rattle.std.specs.Prelude.{◌≡◌, ◌≤◌, ◌<◌, true, false, length, IfSome, IfNone, slice_index_or};
ghost use Rattle.sb_containers.specs.declared.container.Cont.{Cont as ACont};
ghost use Rattle.sb_lane.specs.Finding.{IsOfEpoch, LowerBefore, NoneWaitsBefore, OthersBefore};
ghost use Rattle.sb_lane.specs.Placed.{conts_of};

use crate::arena::Arena;

/// The index of the oldest container in which a bundle waits.
pub(crate) fn first_waiting(containers: &Arena) -> Option<usize>
    ensures within { IfSome result (λ i. i < length containers.now) }
    ensures waits { IfSome result (λ i.
        (d : ACont) → 0 < length (slice_index_or (conts_of containers.now) i d).waiting) }
    ensures before { IfSome result (λ i. NoneWaitsBefore i (conts_of containers.now)) }
    ensures none { IfNone result (NoneWaitsBefore (length containers.now) (conts_of containers.now)) }
{
    for i in 0..containers.len() {
        if !containers.get(i).waiting.is_empty() {
            return Some(i);
        }
    }
    None
}

/// The first index with an epoch of at least this one.
pub(crate) fn index_of(containers: &Arena, epoch: u64) -> usize
    ensures within { result ≤ length containers.now }
    ensures before { LowerBefore epoch result (conts_of containers.now) }
    ensures from { (d : ACont) → result < length containers.now
        → epoch ≤ (slice_index_or (conts_of containers.now) result d).epoch }
{
    for i in 0..containers.len() {
        if epoch <= containers.get(i).epoch {
            return i;
        }
    }
    containers.len()
}

/// Whether the container at an index is of the epoch.
pub(crate) fn is_at(containers: &Arena, at: usize, epoch: u64) -> bool
    ensures yes { result ≡ true → at < length containers.now }
    ensures here { result ≡ true → IsOfEpoch epoch at (conts_of containers.now) }
    ensures not { result ≡ false → at < length containers.now
        → (d : ACont) → (slice_index_or (conts_of containers.now) at d).epoch ≡ epoch → ⊥ }
{
    at < containers.len() && containers.get(at).epoch == epoch
}

/// The first index of an epoch, whatever the order is.
pub(crate) fn epoch_at(containers: &Arena, epoch: u64) -> Option<usize>
    ensures within { IfSome result (λ i. i < length containers.now) }
    ensures here { IfSome result (λ i. IsOfEpoch epoch i (conts_of containers.now)) }
    ensures before { IfSome result (λ i. OthersBefore epoch i (conts_of containers.now)) }
    ensures none { IfNone result (OthersBefore epoch (length containers.now) (conts_of containers.now)) }
{
    for i in 0..containers.len() {
        if containers.get(i).epoch == epoch {
            return Some(i);
        }
    }
    None
}

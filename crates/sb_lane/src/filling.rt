//! What becomes of a single container: bundles come, are taken and are finished.

ghost use Rattle.std.specs.Prelude.{◌≡◌, ◌≤◌, ◌+◌, ◌∷◌, ◌++◌, filter, not, ◌==◌, None, Some, []};
ghost use Rattle.std.specs.Prelude.{OnOk, OnErr, IsOk, IfErr, IfSome, IfNone, length, vec_len, vec_capacity};
ghost use Rattle.sb_containers.specs.Lanes.{fresh, with_bundle};
ghost use Rattle.sb_lane.specs.Placed.{cont_of, room_of};
ghost use Rattle.sb_lane.specs.Taking.{with_finished};

use crate::container::Container;
use sb_containers::Bundle;
use std::alloc::{AllocError, Global};
use std::collections::VecDeque;

/// A container without bundles, sealed or not.
pub(crate) fn empty(alloc: Global, epoch: u64, floor: u64, mark: Option<u64>) -> Container
    ensures cont { cont_of result ≡ record (fresh epoch floor) { mark = mark } }
    ensures down { result.down ≡ None }
{
    Container {
        epoch,
        floor,
        waiting: VecDeque::new(alloc),
        out: Vec::new(alloc),
        mark,
        closing: false,
        down: None,
    }
}

/// Makes room for one more bundle: for it to come in, and to be taken.
pub(crate) fn make_room(c: &mut Container) -> Result<(), AllocError>
    ensures cont { cont_of c.new ≡ cont_of c.old }
    ensures down { c.new.down ≡ c.old.down }
    ensures room { OnOk result (1 ≤ room_of c.new) }
{
    c.waiting.reserve(1)?;
    c.out.reserve(c.waiting.len() + 1)?;
    Ok(())
}

/// Puts a bundle at the end of a container, and makes room so that taking it needs no memory.
pub(crate) fn put_bundle(c: &mut Container, bundle: Bundle) -> Result<(), Bundle>
    ensures ok { OnOk result (cont_of c.new ≡ with_bundle bundle (cont_of c.old)) }
    ensures err { IfErr result (λ b. b ≡ bundle) }
    ensures same { OnErr result (cont_of c.new ≡ cont_of c.old) }
    ensures down { c.new.down ≡ c.old.down }
    ensures succeeds { 1 ≤ room_of c.old → IsOk result }
{
    if c.out.reserve(c.waiting.len() + 1).is_err() {
        return Err(bundle);
    }
    match c.waiting.push_back(bundle) {
        Ok(()) => Ok(()),
        Err(failed) => Err(failed.value),
    }
}

/// Takes the first waiting bundle: its number is out.
pub(crate) fn take_bundle(c: &mut Container) -> Option<Bundle>
    ensures some { IfSome result (λ b. c.old.waiting.items ≡ b ∷ c.new.waiting.items) }
    ensures cont { IfSome result (λ b. cont_of c.new
        ≡ record (cont_of c.old) { waiting = c.new.waiting.items; out = c.old.out.items ++ b.number ∷ [] }) }
    ensures none { IfNone result (c.old.waiting.items ≡ []) }
    ensures same { IfNone result (cont_of c.new ≡ cont_of c.old) }
    ensures down { c.new.down ≡ c.old.down }
{
    let bundle = c.waiting.pop_front()?;
    c.out.push_reserved(bundle.number);
    Some(bundle)
}

// A number goes out of a list, whose room stays.
fn leave_out(numbers: &mut Vec<u64>, number: u64)
    ensures items { numbers.new.items ≡ filter (λ n. not (n == number)) numbers.old.items }
    ensures len { vec_len numbers.new ≤ vec_len numbers.old }
    ensures capacity { vec_capacity numbers.new ≡ vec_capacity numbers.old }
{
    numbers.retain(|n| *n != number);
}

/// A bundle is no longer out. Gives how many numbers are gone.
pub(crate) fn finish_bundle(c: &mut Container, number: u64) -> usize
    ensures cont { cont_of c.new ≡ with_finished number (cont_of c.old) }
    ensures down { c.new.down ≡ c.old.down }
    ensures gone { length c.new.out.items + result ≡ length c.old.out.items }
{
    let before = c.out.len();
    leave_out(&mut c.out, number);
    before - c.out.len()
}

//! Containers in places that stay, chained in an order.

ghost use Rattle.std.specs.Prelude.{◌≡◌, ◌≤◌, ◌<◌, ◌+◌, ℕ, true, List, [], ◌∷◌, ◌++◌, length, drop, insert};
ghost use Rattle.std.specs.Prelude.{None, Some, OnOk, OnErr, IsOk, IfOk, IfErr, IfSome, IfNone};
ghost use Rattle.std.specs.Prelude.{slice_index_or, vec_len, vec_capacity};
ghost use Rattle.std.specs.VecDeque.{deque_len, deque_capacity};
ghost use Rattle.sb_containers.specs.base.bundle.declared.bundle.Bundle.{Bundle as ABundle};
ghost use Rattle.sb_containers.specs.declared.container.Cont.{Cont as ACont};
ghost use Rattle.sb_containers.specs.Lanes.{fresh, with_bundle};
ghost use Rattle.sb_lane.specs.Changes.{Changes, DifferInRooms, HasRoomAt, IsPlacedAt, LinksAt};
ghost use Rattle.sb_lane.specs.Links.{Link, links_of};
ghost use Rattle.sb_lane.specs.Placed.{Placed, containers_at, placed_at, cont_of, conts_of};
ghost use Rattle.sb_lane.specs.Slots.{AreSlots, HasPlace};
ghost use Rattle.sb_lane.specs.Taking.{with_finished};
ghost use Rattle.sb_lane.specs.Unfinished.{unfinished_in};

use crate::container::Container;
use crate::filling::{empty, finish_bundle, make_room, put_bundle, take_bundle};
use sb_containers::{Bundle, NoMemory};
use std::alloc::{AllocError, Global};
use std::collections::VecDeque;
use std::marker::Model;

/// Containers in places that stay, chained in an order. A place that is free is used again, so there are never more
/// places than there were containers at once.
#[derive(Drop)]
pub(crate) struct Arena {
    slots: Vec<Container>,
    // The places of the containers, in their order.
    order: VecDeque<usize>,
    // The other places; there is room for all places, so that an end needs no memory.
    free: Vec<usize>,
}

impl Model for Arena {
    ghost use Rattle.std.specs.Prelude.{List, length, vec_capacity};
    ghost use Rattle.sb_lane.specs.Placed.{Placed, containers_at};
    ghost use Rattle.sb_lane.specs.Slots.{AreSlots};

    ghost Value = { List Placed };

    ghost view = { λ s. containers_at s.slots.items s.order.items };

    ghost invariant = { λ s. AreSlots (length s.slots.items) (vec_capacity s.free) s.order.items s.free.items };
}

// Puts a place into an order that has room for it.
fn insert_reserved(order: &mut VecDeque<usize>, at: usize, place: usize)
    requires within { at ≤ length order.old.items }
    requires room { deque_len order.old < deque_capacity order.old }
    ensures { order.new.items ≡ insert order.old.items at place }
{
    let _done = order.insert(at, place);
}

// Makes room for one container more.
fn reserve_place(
    slots: &mut Vec<Container>,
    order: &mut VecDeque<usize>,
    free: &mut Vec<usize>,
) -> Result<(), AllocError>
    ensures slots { slots.new.items ≡ slots.old.items }
    ensures order { order.new.items ≡ order.old.items }
    ensures free { free.new.items ≡ free.old.items }
    ensures capacity { vec_capacity free.old ≤ vec_capacity free.new }
    ensures room { OnOk result (HasPlace
        (deque_len order.new) (deque_capacity order.new)
        (vec_len slots.new) (vec_capacity slots.new)
        (vec_len free.new) (vec_capacity free.new)) }
{
    order.reserve(1)?;
    if free.is_empty() {
        slots.reserve(1)?;
        free.reserve(slots.len() + 1)?;
    }
    Ok(())
}

// Puts a container into a place that is free, or else a new one, and the place into the order.
fn insert_made(
    slots: &mut Vec<Container>,
    order: &mut VecDeque<usize>,
    free: &mut Vec<usize>,
    at: usize,
    made: Container,
) -> usize
    requires within { at ≤ length order.old.items }
    requires room { HasPlace
        (deque_len order.old) (deque_capacity order.old)
        (vec_len slots.old) (vec_capacity slots.old)
        (vec_len free.old) (vec_capacity free.old) }
    requires are { AreSlots (length slots.old.items) (vec_capacity free.old) order.old.items free.old.items }
    ensures are { AreSlots (length slots.new.items) (vec_capacity free.new) order.new.items free.new.items }
    ensures list { containers_at slots.new.items order.new.items
        ≡ insert (containers_at slots.old.items order.old.items) at (placed_at result made) }
{
    match free.pop() {
        Some(place) => {
            slots[place] = made;
            insert_reserved(order, at, place);
            place
        }
        None => {
            let place = slots.len();
            slots.push_reserved(made);
            insert_reserved(order, at, place);
            place
        }
    }
}

impl Arena {
    /// No containers, and no places.
    pub(crate) fn new(alloc: Global) -> Arena
        ensures { result ≡ [] }
    {
        Arena {
            slots: Vec::new(alloc),
            order: VecDeque::new(alloc),
            free: Vec::new(alloc),
        }
    }

    /// How many containers there are.
    pub(crate) fn len(&self) -> usize
        ensures { result ≡ length self.now }
    {
        self.order.len()
    }

    /// The container at an index of the order.
    pub(crate) fn get(&self, at: usize) -> &Container
        requires { at < length self.now }
        ensures cont { (d : ACont) → slice_index_or (conts_of self.now) at d ≡ cont_of result.now }
        ensures down { (d : Link) → (slice_index_or (links_of self.now) at d).down ≡ result.now.down }
    {
        let place = self.order[at];
        &self.slots[place]
    }

    /// The place of the container at an index of the order.
    pub(crate) fn place(&self, at: usize) -> usize
        requires { at < length self.now }
        ensures { IsPlacedAt result at self.now }
    {
        self.order[at]
    }

    /// Puts a bundle into the container at an index.
    pub(crate) fn put(&mut self, at: usize, bundle: Bundle) -> Result<(), Bundle>
        requires { at < length self.old }
        ensures ok { OnOk result (Changes (with_bundle bundle) at self.old self.new) }
        ensures err { IfErr result (λ b. b ≡ bundle) }
        ensures same { OnErr result (DifferInRooms self.old self.new) }
        ensures succeeds { HasRoomAt at self.old → IsOk result }
    {
        let place = self.order[at];
        let c = &mut self.slots[place];
        put_bundle(c, bundle)
    }

    /// Puts a bundle into the container at a place, whatever its index is. It looks for nothing.
    pub(crate) fn put_at_place(&mut self, place: usize, bundle: Bundle) -> Result<(), Bundle>
        requires { (at : ℕ) × (at < length self.old) × IsPlacedAt place at self.old }
        ensures ok { OnOk result ((at : ℕ) → at < length self.old → IsPlacedAt place at self.old
            → Changes (with_bundle bundle) at self.old self.new) }
        ensures err { IfErr result (λ b. b ≡ bundle) }
        ensures same { OnErr result (DifferInRooms self.old self.new) }
        ensures succeeds { (at : ℕ) → at < length self.old → IsPlacedAt place at self.old → HasRoomAt at self.old
            → IsOk result }
    {
        let c = &mut self.slots[place];
        put_bundle(c, bundle)
    }

    /// Makes room for one bundle more in the container at an index.
    pub(crate) fn make_room(&mut self, at: usize) -> Result<(), AllocError>
        requires { at < length self.old }
        ensures same { DifferInRooms self.old self.new }
        ensures room { OnOk result (HasRoomAt at self.new) }
    {
        let place = self.order[at];
        let c = &mut self.slots[place];
        make_room(c)
    }

    /// Seals the container at an index.
    pub(crate) fn seal(&mut self, at: usize, mark: u64)
        requires { at < length self.old }
        ensures { Changes (λ c. record c { mark = Some mark }) at self.old self.new }
    {
        let place = self.order[at];
        let c = &mut self.slots[place];
        c.mark = Some(mark);
    }

    /// The container at an index is closing.
    pub(crate) fn close(&mut self, at: usize)
        requires { at < length self.old }
        ensures { Changes (λ c. record c { closing = true }) at self.old self.new }
    {
        let place = self.order[at];
        let c = &mut self.slots[place];
        c.closing = true;
    }

    /// Links the container at an index to a place below.
    pub(crate) fn link(&mut self, at: usize, down: u64)
        requires { at < length self.old }
        ensures conts { conts_of self.new ≡ conts_of self.old }
        ensures links { LinksAt down at self.old self.new }
    {
        let place = self.order[at];
        let c = &mut self.slots[place];
        c.down = Some(down);
    }

    /// Takes the first waiting bundle of the container at an index.
    pub(crate) fn take(&mut self, at: usize) -> Option<Bundle>
        requires { at < length self.old }
        ensures some { IfSome result (λ b. (bs : List ABundle)
            × ((d : ACont) → (slice_index_or (conts_of self.old) at d).waiting ≡ b ∷ bs)
            × Changes (λ c. record c { waiting = bs; out = c.out ++ b.number ∷ [] }) at self.old self.new) }
        ensures none { IfNone result ((d : ACont) → (slice_index_or (conts_of self.old) at d).waiting ≡ []) }
        ensures same { IfNone result (DifferInRooms self.old self.new) }
    {
        let place = self.order[at];
        let c = &mut self.slots[place];
        take_bundle(c)
    }

    /// A bundle of the container at an index is no longer out. Gives how many numbers are gone.
    pub(crate) fn finish(&mut self, at: usize, number: u64) -> usize
        requires { at < length self.old }
        ensures cont { Changes (with_finished number) at self.old self.new }
        ensures gone { (d : ACont)
            → length (with_finished number (slice_index_or (conts_of self.old) at d)).out + result
            ≡ length (slice_index_or (conts_of self.old) at d).out }
    {
        let place = self.order[at];
        let c = &mut self.slots[place];
        finish_bundle(c, number)
    }

    /// Puts a container at an index of the order, and gives its place.
    pub(crate) fn insert(&mut self, at: usize, made: Container) -> Result<usize, NoMemory>
        requires { at ≤ length self.old }
        ensures ok { IfOk result (λ p. self.new ≡ insert self.old at (placed_at p made)) }
        ensures same { OnErr result (self.new ≡ self.old) }
    {
        if reserve_place(&mut self.slots, &mut self.order, &mut self.free).is_err() {
            return Err(NoMemory);
        }
        Ok(insert_made(&mut self.slots, &mut self.order, &mut self.free, at, made))
    }

    /// Puts a new container with a bundle at an index of the order, and gives its place. Where memory is wanting, no
    /// container is left.
    pub(crate) fn insert_bundle(
        &mut self,
        alloc: Global,
        at: usize,
        bundle: Bundle,
    ) -> Result<usize, Bundle>
        requires { at ≤ length self.old }
        ensures ok { IfOk result (λ p. (room : ℕ) × (self.new ≡ insert self.old at (record {
          cont = with_bundle bundle (fresh bundle.epoch bundle.floor);
          place = p;
          down = None;
          room = room;
        }))) }
        ensures err { IfErr result (λ b. b ≡ bundle) }
        ensures same { OnErr result (self.new ≡ self.old) }
    {
        if reserve_place(&mut self.slots, &mut self.order, &mut self.free).is_err() {
            return Err(bundle);
        }
        let mut made = empty(alloc, bundle.epoch, bundle.floor, None);
        put_bundle(&mut made, bundle)?;
        Ok(insert_made(&mut self.slots, &mut self.order, &mut self.free, at, made))
    }

    /// Removes the first container, whose place is free then. Gives how many bundles waited or were out.
    pub(crate) fn end(&mut self) -> usize
        requires { 0 < length self.old }
        ensures list { self.new ≡ drop 1 self.old }
        ensures gone { (d : ACont) → result ≡ unfinished_in (slice_index_or (conts_of self.old) 0 d) }
    {
        match self.order.pop_front() {
            Some(place) => {
                self.free.push_reserved(place);
                let c = &self.slots[place];
                c.waiting.len() + c.out.len()
            }
            None => 0,
        }
    }
}

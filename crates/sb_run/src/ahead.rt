//! How far the feeder is ahead of the workers. No promise rests on it.
//!
//! A feeder that brings all that was read fills the lane of each stream. Then the workers process bundles faster than
//! windows are closed, and parts of later epochs pile up: that takes many times the memory, and each closing longer.

use sb_engines::{Down, Gate, Plan, Stream};
use std::sync::atomic::{AtomicU64, Ordering};

/// How many of the bundles that the feeder brought wait for each worker at most before it brings more: one to be taken
/// while the feeder processes one itself, and one more.
const AHEAD_OF_EACH: u64 = 2;

/// A gate that counts the bundles that came from the feeder.
#[derive(Drop)]
pub(crate) struct Ahead<'a, G> {
    gate: &'a G,
    source_a: Option<Down>,
    source_b: Option<Down>,
    /// How many of these bundles were taken.
    taken: AtomicU64,
    /// How many may wait.
    most: u64,
}

impl<'a, G: Gate> Gate for Ahead<'a, G> {
    fn pass(&self, node: u32, lane: u32, number: u64) {
        if is_at(self.source_a, node, lane) || is_at(self.source_b, node, lane) {
            self.taken.fetch_add(1, Ordering::SeqCst);
        }
        self.gate.pass(node, lane, number);
    }
}

// Whether it goes to this lane.
fn is_at(down: Option<Down>, node: u32, lane: u32) -> bool {
    match down {
        Some(down) => down.node == node && down.lane == lane,
        None => false,
    }
}

impl<'a, G: Gate> Ahead<'a, G> {
    /// Before the first bundle of a plan, which the feeder and so many helpers execute.
    pub(crate) fn new(gate: &'a G, plan: &Plan, helpers: usize) -> Ahead<'a, G> {
        Ahead {
            gate,
            source_a: plan.source(Stream::A),
            source_b: plan.source(Stream::B),
            taken: AtomicU64::new(0),
            most: AHEAD_OF_EACH.saturating_mul((helpers as u64).saturating_add(1)),
        }
    }

    /// Whether of so many bundles that were brought [`AHEAD_OF_EACH`] wait for each worker.
    pub(crate) fn is_far(&self, brought: u64) -> bool {
        brought.wrapping_sub(self.taken.load(Ordering::SeqCst)) >= self.most
    }
}

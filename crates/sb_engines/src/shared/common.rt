//! What the workers of a run share.

use sb_worker::{Cascade, CascadePass};
use std::alloc::Global;

/// What each worker has beside its pass.
#[derive(Drop)]
pub struct Common<'a, W, G> {
    /// Threads and a clock.
    pub rt: &'a W,
    pub alloc: Global,
    pub cascade: &'a Cascade,
    /// What each passes with a bundle in hand.
    pub gate: &'a G,
    /// The most records of a bundle.
    pub size: u32,
}

/// The passes of all workers.
#[derive(Drop)]
pub struct Passes {
    /// That of the worker that feeds.
    pub feeder: CascadePass,
    /// Those of all others.
    pub helpers: Vec<CascadePass>,
}

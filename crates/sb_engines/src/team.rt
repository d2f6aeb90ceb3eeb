//! What the workers of a run are given.

/// What the workers of a run are given: threads and a clock, and the gate that each passes with a bundle in hand.
#[derive(Drop)]
pub struct Team<'a, W, G> {
    pub rt: &'a W,
    pub gate: &'a G,
}

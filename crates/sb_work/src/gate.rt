//! A gate that workers pass with a bundle in hand.

/// What a worker passes between taking a bundle and processing it, outside of any turn. It may look on, and count.
pub trait Gate {
    /// A worker passes with the bundle of this number, of this lane of the node.
    fn pass(&self, node: u32, lane: u32, number: u64);
}

/// A gate that lets everybody pass at once.
pub struct OpenGate;

impl Gate for OpenGate {
    fn pass(&self, _node: u32, _lane: u32, _number: u64) {}
}

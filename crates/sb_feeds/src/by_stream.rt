//! One of each stream.

/// One of each stream.
#[derive(Drop)]
pub struct ByStream<T> {
    pub a: T,
    pub b: T,
}

//! Times of keys.

use sb_windowed::Key;

/// A time of a key. They are ordered by key, then time.
#[derive(Clone, Copy, Debug, PartialEq, Eq, PartialOrd, Ord)]
pub(crate) struct KeyedTime {
    pub key: Key,
    pub time: u64,
}

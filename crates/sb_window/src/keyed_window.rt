//! Windows of one key.

use sb_record::Key;

/// A window of one key: an aggregation gathers the values of the records that lie in it. Keyed windows are ordered by
/// end, then key.
#[derive(Clone, Copy, Debug, PartialEq, Eq, PartialOrd, Ord)]
pub struct KeyedWindow {
    /// Where the window ends: the times in it are below this. A row that the window gives has time `end - 1`.
    pub end: u64,
    pub key: Key,
}

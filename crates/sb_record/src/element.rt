//! Elements: records on the lanes of a node, which is what operators of a plan take.

use crate::item::Record;

/// A record on a lane of a node. Lanes count from 0; a join has two, every other node one.
#[derive(Clone, Copy, Debug, PartialEq, Eq)]
pub struct KeptRec {
    pub lane: u32,
    pub rec: Record,
}

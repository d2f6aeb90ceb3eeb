//! What a leaving of a turn does, what lies on the shelf, and what a pass knows.

use sb_shown::{Claim, Closing, Held, NotYet, Plan, Receipt, Record, Sequence, Stream};
use std::collections::LinkedList;
use std::snapshot::Snapshot;

/// What a leaving does to its node. It stands in the trace of the pass that left. What is told by a snapshot takes no
/// memory.
#[derive(Drop)]
pub enum Change {
    /// A bundle of a stream came.
    Arrive {
        stream: Stream,
        records: Snapshot<Sequence<Record>>,
    },
    /// A watermark of a stream came.
    Seal {
        stream: Stream,
        mark: u64,
    },
    /// A bundle was taken, and it is known or not where its output goes below.
    Take {
        claim: Snapshot<Claim>,
        link: Option<u64>,
    },
    /// What a transform of single records gives for a bundle was put below, to the container at a place.
    Deliver {
        claim: Snapshot<Receipt>,
        place: u64,
    },
    /// A bundle is done with. What it gives was delivered, or went into what the node keeps, or it gave nothing.
    Finish {
        claim: Snapshot<Receipt>,
        delivered: bool,
    },
    /// A closing began. At the sink nothing is passed below.
    Begin {
        closing: Snapshot<Closing>,
        passed: bool,
    },
    /// The next rows of a closing, at most so many, were put below, to the container at a place. The first rows, so
    /// many, were there already.
    Rows {
        closing: Snapshot<Closing>,
        first: usize,
        most: u32,
        place: u64,
    },
    /// The mark of a closing was passed below.
    Pass(Snapshot<Closing>),
    /// A closing ended.
    End(Snapshot<Closing>),
    /// Nothing: no bundle waits in the node.
    Idle,
    /// Nothing: no closing can begin, and this is why.
    NotYet(NotYet),
    /// Nothing: as many bundles of a lane as its limit are waiting or out.
    Full {
        lane: u32,
    },
    /// The tray was emptied.
    Drain(Snapshot<Sequence<Record>>),
    /// What the node keeps is unknown from now on.
    Spent,
    /// Nothing.
    Nothing,
}

/// A bundle on the shelf.
#[derive(Drop)]
pub struct Piece {
    pub claim: Claim,
    /// Where its output goes below, if that is known.
    pub link: Option<u64>,
}

/// A bundle that the feeder brought. No value of it is made.
pub struct FedBundle {
    pub epoch: u64,
    pub records: LinkedList<Record>,
}

/// What the feeder brought of a stream. No value of it is made.
pub struct StreamFeed {
    pub bundles: LinkedList<FedBundle>,
    pub marks: LinkedList<u64>,
}

/// What the feeder's pass alone knows: what it brought of each stream, the rows that it drained, and how it ended the
/// work. No value of it is made.
pub struct Feed {
    /// Whether it is the feeder's.
    pub on: bool,
    pub a: StreamFeed,
    pub b: StreamFeed,
    pub drained: LinkedList<Record>,
    /// The greatest number to which it raised the state word, but for that of no memory.
    pub raised: u64,
}

/// What a pass knows: the bundle or closing that it has in hand, where what it gives goes below, if that is known, and
/// what it fed. No value of it is made.
pub struct Hands {
    pub held: Option<Held>,
    pub link: Option<u64>,
    pub feed: Feed,
}

/// What a cascade was made with: contracts speak of it.
#[derive(Drop)]
pub struct Setting {
    pub plan: Plan,
    /// The most records of a bundle.
    pub bundle: u32,
    /// The most bundles of a stream that may be waiting or out.
    pub pending: u32,
    /// Whether diaries keep their lines.
    pub keeps: bool,
}

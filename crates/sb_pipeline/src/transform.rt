//! Transforms: what each does, and where what it gives goes.

ghost use Rattle.std.specs.Prelude.{◌≡◌};
ghost use Rattle.sb_pipeline.specs.Plans.{is_join, has_windows};

use sb_pardo::Op;
use sb_windowed::{Agg, Combine, Windows};

/// How many transforms a plan may have.
pub const MAX_TRANSFORMS: usize = 12;

/// What a transform does.
#[derive(Drop)]
pub enum Kind {
    /// Treats each record by itself.
    Do(Op),
    /// Aggregates the values of each window and key.
    Group(Agg, Windows),
    /// Aggregates the values of each session of a key: where the next time of the key is this gap or more later, the
    /// session is cut.
    Session(Agg, u64),
    /// Combines the records of lanes 0 and 1 that lie in the same window of the same key.
    Join(Combine, Windows),
}

impl Kind {
    /// Whether it is a join.
    pub fn is_join(&self) -> bool
        ensures { result ≡ is_join self.now }
    {
        matches!(self, Kind::Join(_, _))
    }

    /// Whether it gathers records by window: it is an aggregation, of windows or of sessions, or a join.
    pub fn has_windows(&self) -> bool
        ensures { result ≡ has_windows self.now }
    {
        matches!(
            self,
            Kind::Group(_, _) | Kind::Session(_, _) | Kind::Join(_, _)
        )
    }
}

/// A lane of a node: where records are sent. The left input of a join is its lane 0, the right one its lane 1, and
/// every other node has lane 0 alone.
#[derive(Clone, Copy, Debug, PartialEq, Eq)]
pub struct Down {
    pub node: u32,
    pub lane: u32,
}

/// A transform: what it does, and where what it gives goes.
#[derive(Drop)]
pub struct Step {
    pub kind: Kind,
    pub down: Down,
}

//! The grouping of a node of any kind.

ghost use Rattle.std.specs.Prelude.{◌≡◌, ◌≤◌, ℕ, true, List, [], length, slice_get, OnOk, OnErr, IfOk};
ghost use Rattle.sb_work.specs.base.records.declared.item.Record.{Record as ARecord};
ghost use Rattle.sb_work.specs.base.records.Elements.{on_lane};
ghost use Rattle.sb_work.specs.base.window.Groupings.{Adds, Closes};
ghost use Rattle.sb_work.specs.base.pipeline.Operators.{Operator, operator_at};
ghost use Rattle.sb_node.specs.Keeping.{IsSpent, IsMadeFor, IsPartFor, ShowsKept, closed_mark, gives};

use sb_session::Session;
use sb_sink::SinkKept;
use sb_work::{Aggregate, Grouping, JoinKept, Kind, NoMemory, Part, Plan, Record};
use std::alloc::Global;

/// What a node keeps between two closings.
#[derive(Drop)]
pub enum Kept {
    /// A transform of single records keeps nothing but the mark up to which it has closed.
    Nothing(Global, u64),
    /// Partial values of the windows of an aggregate.
    Aggregate(Aggregate),
    /// The records of open sessions.
    Session(Session),
    /// The values of both sides of a join.
    Join(JoinKept),
    /// The rows that the sink has not given.
    Sink(SinkKept),
}

impl Kept {
    /// What a transform or the sink keeps at the start: nothing. It takes no memory.
    pub fn new(alloc: Global, plan: &Plan, node: u32) -> Kept
        requires node { node ≤ length plan.now.steps }
        ensures made { IsMadeFor (operator_at (slice_get plan.now.steps node)) result }
        ensures unspent { IsSpent result → ⊥ }
        ensures closed { closed_mark result ≡ 0 }
        ensures empty { ShowsKept (operator_at (slice_get plan.now.steps node)) result [] }
    {
        if node == plan.transforms() {
            return Kept::Sink(SinkKept::new(alloc));
        }
        match plan.kind(node) {
            Kind::Do(_) => Kept::Nothing(alloc, 0),
            Kind::Group(agg, windows) => Kept::Aggregate(Aggregate::new(alloc, *agg, *windows)),
            Kind::Session(agg, gap) => Kept::Session(Session::new(alloc, *agg, *gap)),
            Kind::Join(combine, windows) => Kept::Join(JoinKept::new(alloc, *combine, *windows)),
        }
    }

    /// Whether an earlier call found no memory. From then on the content is unknown, and each call that may find none
    /// answers so.
    pub fn is_spent(&self) -> bool
        ensures yes { result ≡ true → IsSpent self.now }
        ensures not { IsSpent self.now → result ≡ true }
    {
        match self {
            Kept::Nothing(_, _) => false,
            Kept::Aggregate(kept) => kept.is_spent(),
            Kept::Session(kept) => kept.is_spent(),
            Kept::Join(kept) => kept.is_spent(),
            Kept::Sink(kept) => kept.is_spent(),
        }
    }

    /// Takes the part of a bundle in, none of whose records has a time below the closed mark.
    ///
    /// # Errors
    ///
    /// [`NoMemory`]; then it is spent.
    pub fn absorb(&mut self, part: Part) -> Result<(), NoMemory>
        requires takes { (IsSpent self.old → ⊥)
            → (lane : ℕ) × (records : List ARecord) × IsPartFor self.old part lane records }
        ensures was { OnOk result (IsSpent self.old → ⊥) }
        ensures is { OnOk result (IsSpent self.new → ⊥) }
        ensures made { OnOk result ((op : Operator) → IsMadeFor op self.old → IsMadeFor op self.new) }
        ensures closed { OnOk result (closed_mark self.new ≡ closed_mark self.old) }
        ensures adds { OnOk result ((lane : ℕ) (records : List ARecord) → IsPartFor self.old part lane records
            → Adds (closed_mark self.old) (gives self.old) (gives self.new) (on_lane lane records)) }
        ensures err { OnErr result (IsSpent self.new) }
    {
        match (self, part) {
            (Kept::Aggregate(kept), Part::Agg(part)) => kept.absorb(part),
            (Kept::Session(kept), Part::Rows(rows)) => kept.absorb(rows),
            (Kept::Join(kept), Part::Join(part)) => kept.absorb(part),
            (Kept::Sink(kept), Part::Rows(rows)) => kept.absorb(rows),
            _ => Err(NoMemory),
        }
    }

    /// Gives, in order, the rows that the mark closes, and keeps the rest.
    ///
    /// # Errors
    ///
    /// [`NoMemory`]; then it is spent.
    pub fn close(&mut self, mark: u64) -> Result<Vec<Record>, NoMemory>
        requires from { (IsSpent self.old → ⊥) → closed_mark self.old ≤ mark }
        ensures was { OnOk result (IsSpent self.old → ⊥) }
        ensures is { OnOk result (IsSpent self.new → ⊥) }
        ensures made { OnOk result ((op : Operator) → IsMadeFor op self.old → IsMadeFor op self.new) }
        ensures closed { OnOk result (closed_mark self.new ≡ mark) }
        ensures closes { IfOk result (λ rows. Closes mark (gives self.old) rows.items (gives self.new)) }
        ensures err { OnErr result (IsSpent self.new) }
    {
        match self {
            Kept::Nothing(alloc, closed) => {
                *closed = mark;
                Ok(Vec::new(*alloc))
            }
            Kept::Aggregate(kept) => kept.close(mark),
            Kept::Session(kept) => kept.close(mark),
            Kept::Join(kept) => kept.close(mark),
            Kept::Sink(kept) => kept.close(mark),
        }
    }
}

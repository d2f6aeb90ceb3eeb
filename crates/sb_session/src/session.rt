//! The grouping of sessions, as the engine asks for it.

ghost use Rattle.std.specs.Prelude.{◌≡◌, ◌≤◌, ◌<◌, List, All, OnOk, OnErr, IfOk};
ghost use Rattle.sb_windowed.specs.records.declared.element.KeptRec.{KeptRec as Element};
ghost use Rattle.sb_windowed.specs.records.declared.item.TheConstants as item;
ghost use Rattle.sb_windowed.specs.records.Elements.{all_records, on_lane};
ghost use Rattle.sb_windowed.specs.window.Groupings.{IsFrom, Adds, Closes};
ghost use Rattle.sb_windowed.specs.Aggregates.{GivesOne};
ghost use Rattle.sb_windowed.specs.Sessions.{session_rows};
ghost use Rattle.sb_session.specs.SessionStates as spec;
ghost use Rattle.sb_session.specs.SessionStates.{gives-orderless};

use crate::open::OpenSessions;
use sb_windowed::{Agg, Grouping, MAX_GAP, NoMemory, Record};
use std::alloc::Global;
use std::marker::Model;

/// The grouping of sessions: it keeps the records whose sessions are open. A part is a list of records on lane 0, each
/// with a time below [`END_MARK`](sb_windowed::END_MARK).
///
/// A record that is absorbed costs O(log n) where n are kept. A closing costs as much for each end that is due, and
/// each kept time makes one end. After a call that found no memory nothing is kept.
#[derive(Drop)]
pub struct Session {
    alloc: Global,
    agg: Agg,
    gap: u64,
    kept: Option<OpenSessions>,
    closed: u64,
}

impl Model for Session {
    ghost use Rattle.std.specs.Prelude.{◌≡◌, IfSome};
    ghost use Rattle.std.specs.Option.{is_none};
    ghost use Rattle.sb_windowed.specs.Aggregates.{GivesOne};
    ghost use Rattle.sb_session.specs.SessionStates as spec;

    ghost Value = { spec.SessionState };

    ghost view = { λ s. record {
      agg = s.agg;
      gap = s.gap;
      records = spec.records_in s.kept;
      closed = s.closed;
      spent = is_none s.kept;
    } };

    ghost invariant = { λ s. GivesOne s.agg × IfSome s.kept (λ o. o.gap ≡ s.gap) };
}

impl Session {
    /// A grouping that has absorbed nothing. A session is cut where the next time of its key is the gap or more later;
    /// the gap is 1 to [`MAX_GAP`]. The aggregation gives one value: it is not [`Agg::Top`].
    pub fn new(alloc: Global, agg: Agg, gap: u64) -> Session
        requires some_gap { 1 ≤ gap }
        requires most_gap { gap ≤ MAX_GAP }
        requires one { GivesOne agg }
        ensures empty { result ≡ spec.fresh agg gap }
        ensures fresh { (l : List Element) → spec.gives result l ≡ session_rows agg gap (all_records l) }
    {
        Session {
            alloc,
            agg,
            gap,
            kept: Some(OpenSessions::new(alloc, gap)),
            closed: 0,
        }
    }
}

impl Grouping for Session {
    type Part = Vec<Record>;

    ghost spent = { spec.IsSpent };

    ghost closed = { λ g. g.closed };

    ghost gives = { spec.gives };

    // the times of the part are those of records, so that a gap can be added
    ghost fits = { λ g part. spec.IsInTime part.items };

    // the elements are the records of the part, on lane 0
    ghost stands = { λ part es. es ≡ on_lane 0 part.items };

    ghost order = { gives-orderless };

    fn is_spent(&self) -> bool {
        self.kept.is_none()
    }

    fn absorb(&mut self, part: Vec<Record>) -> Result<(), NoMemory>
        requires fits { (spec.IsSpent self.old → ⊥) → spec.IsInTime part.items }
        ensures was { OnOk result (spec.IsSpent self.old → ⊥) }
        ensures is { OnOk result (spec.IsSpent self.new → ⊥) }
        ensures closed { OnOk result (self.new.closed ≡ self.old.closed) }
        ensures adds { OnOk result ((es : List Element) → es ≡ on_lane 0 part.items
            → IsFrom self.old.closed es → Adds self.old.closed (spec.gives self.old) (spec.gives self.new) es) }
        ensures agg { OnOk result (self.new.agg ≡ self.old.agg) }
        ensures gap { OnOk result (self.new.gap ≡ self.old.gap) }
        ensures err { OnErr result (spec.IsSpent self.new) }
    {
        let kept = self.kept.take().ok_or(NoMemory)?;
        self.kept = Some(kept.with(self.alloc, &part)?);
        Ok(())
    }

    fn close(&mut self, mark: u64) -> Result<Vec<Record>, NoMemory>
        ensures was { OnOk result (spec.IsSpent self.old → ⊥) }
        ensures is { OnOk result (spec.IsSpent self.new → ⊥) }
        ensures closed { OnOk result (self.new.closed ≡ mark) }
        ensures closes { IfOk result (λ rows. Closes mark (spec.gives self.old) rows.items (spec.gives self.new)) }
        ensures agg { OnOk result (self.new.agg ≡ self.old.agg) }
        ensures gap { OnOk result (self.new.gap ≡ self.old.gap) }
        ensures err { OnErr result (spec.IsSpent self.new) }
    {
        let kept = self.kept.take().ok_or(NoMemory)?;
        let closed = kept.close(self.alloc, self.agg, mark)?;
        self.kept = Some(closed.left);
        self.closed = mark;
        Ok(closed.rows)
    }
}

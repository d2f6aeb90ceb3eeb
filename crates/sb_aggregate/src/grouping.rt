//! The grouping of an aggregation: it keeps a partial value for each keyed window that is open.

ghost use Rattle.std.specs.Prelude.{◌≡◌, ◌≤◌, ℕ, [], List, true, false, OnOk, OnErr, IfOk};
ghost use Rattle.sb_aggregate.specs.Groups.{given, IsLike, IsMadeOf};
ghost use Rattle.sb_windowed.specs.Aggregates.{IsValid};
ghost use Rattle.sb_aggregate.specs.Orderless.{given-orderless};

use crate::part::AggPart;
use crate::partials::KeptPartials;
use sb_runs::{Grouping, NoMemory, Record, Trail, Windows};
use sb_windowed::Agg;
use std::alloc::Global;
use std::marker::Model;

/// An aggregation over windows, as records come. Contracts see it as the records that it absorbed and the mark of its
/// last closing; it keeps a partial value for each keyed window that is open and has records.
#[derive(Drop)]
pub struct Aggregate {
    alloc: Global,
    agg: Agg,
    windows: Windows,
    partials: KeptPartials,
    absorbed: Trail<Trail<Record>>,
    closed: u64,
    spent: bool,
}

impl Model for Aggregate {
    ghost use Rattle.std.specs.Prelude.{◌≡◌, false};
    ghost use Rattle.std.specs.List.{flat_map};
    ghost use Rattle.sb_aggregate.specs.Groups.{Absorbed, HasPartialsFrom};
    ghost use Rattle.sb_aggregate.specs.Held.{runs_of};

    ghost Value = { Absorbed };

    ghost view = { λ a. record {
      agg = a.agg;
      windows = a.windows;
      records = flat_map (λ l. l) a.absorbed;
      closed = a.closed;
      spent = a.spent;
    } };

    ghost invariant = { λ a. a.spent ≡ false
        → HasPartialsFrom a.closed a.agg a.windows (flat_map (λ l. l) a.absorbed) (runs_of a.partials) };
}

impl Aggregate {
    /// An aggregation that absorbed nothing. It takes no memory.
    pub fn new(alloc: Global, agg: Agg, windows: Windows) -> Aggregate
        ensures { result ≡ record { agg = agg; windows = windows; records = []; closed = 0; spent = false } }
    {
        Aggregate {
            alloc,
            agg,
            windows,
            partials: KeptPartials::new(alloc),
            absorbed: Trail::start(),
            closed: 0,
            spent: false,
        }
    }
}

impl Grouping for Aggregate {
    type Part = AggPart;

    ghost spent = { λ g. g.spent ≡ true };

    ghost closed = { λ g. g.closed };

    ghost gives = { given };

    ghost fits = { IsLike };

    ghost stands = { IsMadeOf };

    ghost order = { λ g l m h. given-orderless g l m h };

    fn is_spent(&self) -> bool {
        self.spent
    }

    fn absorb(&mut self, part: AggPart) -> Result<(), NoMemory> {
        if self.spent {
            return Err(NoMemory);
        }
        self.spent = true;
        self.partials.push(self.alloc, self.agg, part.partials)?;
        self.absorbed = self.absorbed.with(part.records);
        self.spent = false;
        Ok(())
    }

    fn close(&mut self, mark: u64) -> Result<Vec<Record>, NoMemory> {
        if self.spent {
            return Err(NoMemory);
        }
        self.spent = true;
        let rows = self.partials.close(self.alloc, self.agg, mark)?;
        self.closed = mark;
        self.spent = false;
        Ok(rows)
    }
}

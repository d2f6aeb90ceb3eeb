//! Whether rows rise.

ghost use Rattle.std.specs.Prelude.{IsTrue, ◌↔◌};
ghost use Rattle.sb_live.specs.Rising.{BeginAbove, RiseFrom, next_after};

use sb_emit::Record;

// Whether no time is below the one before it.
fn rise(rows: &[Record]) -> bool
    ensures { IsTrue result ↔ RiseFrom 0 rows.now }
{
    let mut last = 0;
    for row in rows {
        if row.time < last {
            return false;
        }
        last = row.time;
    }
    true
}

// Whether the first of the rows is above this time, where there are both.
fn begin_above(latest: Option<u64>, rows: &[Record]) -> bool
    ensures { IsTrue result ↔ BeginAbove latest rows.now }
{
    match (latest, rows.first()) {
        (Some(time), Some(first)) => time < first.time,
        _ => true,
    }
}

/// Whether no time is below the one before it, and the first is above this one, if there is one.
#[tactic(auto, using(crate::proofs::Earlier::rise_above, crate::proofs::Earlier::rises_above))]
pub fn rise_above(latest: Option<u64>, rows: &[Record]) -> bool
    ensures { IsTrue result ↔ RiseFrom (next_after latest) rows.now }
{
    begin_above(latest, rows) && rise(rows)
}

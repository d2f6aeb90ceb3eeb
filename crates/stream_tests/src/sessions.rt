//! Sessions with a gap of 5, by example.

ghost use Rattle.std.specs.Prelude.{◌≡◌, nat_lt};
ghost use Rattle.std.specs.List.{list_all};
ghost use Rattle.sb_base.specs.records.declared.item.TheConstants as item;
ghost use Rattle.sb_base.specs.windowed.Aggregates.{GivesOne};

use sb_base::{Agg, END_MARK, Grouping, Key, NoMemory, Record};
use sb_session::Session;
use std::alloc::Global;

const GAP: u64 = 5;

/// A record, as its time, key and value; or the row of a session, as its end, key and value.
type Line = (u64, u64, i64);

/// What a grouping is asked.
#[derive(Clone, Copy)]
enum Ask<'a> {
    /// To absorb records.
    Absorb(&'a [Line]),
    /// To close at a mark, and what rows that gives.
    Close(u64, &'a [Line]),
}

/// Whether the times of the records are below the last one of all.
fn are_in_time(part: &[Record]) -> bool
    ensures { result ≡ list_all (λ r. nat_lt r.time item.END_MARK) part.now }
{
    part.iter().all(|record| record.time < END_MARK)
}

/// Absorbs the records, where their times are such as may come.
fn absorb(session: &mut Session, part: Vec<Record>) -> Result<(), NoMemory> {
    if !are_in_time(&part) {
        return Err(NoMemory);
    }
    session.absorb(part)
}

fn records(alloc: Global, lines: &[Line]) -> Result<Vec<Record>, NoMemory> {
    let mut records = Vec::new(alloc);
    for (time, key, value) in lines {
        records.push(Record {
            time: *time,
            key: Key::Number(*key),
            value: *value,
        })?;
    }
    Ok(records)
}

/// The rows of sessions with these ends. A row has the last time before the end.
fn rows(alloc: Global, lines: &[Line]) -> Result<Vec<Record>, NoMemory> {
    let mut rows = records(alloc, lines)?;
    for row in &mut rows {
        row.time = row.time.saturating_sub(1);
    }
    Ok(rows)
}

/// Whether sessions with a gap of 5 give what is wanted of all that they are asked.
fn answers(alloc: Global, agg: Agg, asks: &[Ask]) -> Result<bool, NoMemory>
    requires { GivesOne agg }
{
    let mut session = Session::new(alloc, agg, GAP);
    let mut is_so = true;
    for ask in asks {
        match *ask {
            Ask::Absorb(lines) => {
                let part = records(alloc, lines)?;
                absorb(&mut session, part)?;
            }
            Ask::Close(mark, want) => {
                let want = rows(alloc, want)?;
                is_so = session.close(mark)? == want && is_so;
            }
        }
    }
    Ok(is_so && !session.is_spent())
}

#[test]
fn sums_of_sessions(rt: HostRuntime) {
    let cases: [&[Ask]; 7] = [
        // A time 4 later is in the session, and one 5 later is not.
        &[
            Ask::Absorb(&[(1, 1, 10), (5, 1, 1), (10, 1, 2)]),
            Ask::Close(END_MARK, &[(10, 1, 11), (15, 1, 2)]),
        ],
        // A record between two sessions makes one of them.
        &[
            Ask::Absorb(&[(1, 1, 1), (9, 1, 1)]),
            Ask::Close(1, &[]),
            Ask::Absorb(&[(5, 1, 1)]),
            Ask::Close(END_MARK, &[(14, 1, 3)]),
        ],
        // A session that has ended stays apart from what comes at its end.
        &[
            Ask::Absorb(&[(1, 1, 1)]),
            Ask::Close(6, &[(6, 1, 1)]),
            Ask::Absorb(&[(6, 1, 1)]),
            Ask::Close(END_MARK, &[(11, 1, 1)]),
        ],
        // A session that goes on stays open at the end that it would have had.
        &[
            Ask::Absorb(&[(1, 1, 1)]),
            Ask::Close(5, &[]),
            Ask::Absorb(&[(5, 1, 2)]),
            Ask::Close(6, &[]),
            Ask::Close(9, &[]),
            Ask::Close(10, &[(10, 1, 3)]),
            Ask::Close(END_MARK, &[]),
        ],
        // Each key has its own sessions. Rows of one time come in the order of keys.
        &[
            Ask::Absorb(&[(3, 2, 5), (1, 1, 1), (5, 1, 2), (5, 3, 7)]),
            Ask::Close(END_MARK, &[(8, 2, 5), (10, 1, 3), (10, 3, 7)]),
        ],
        // Equal times are one time of a session, with all their values.
        &[
            Ask::Absorb(&[(1, 1, 1), (1, 1, 2)]),
            Ask::Absorb(&[(1, 1, 2)]),
            Ask::Close(5, &[]),
            Ask::Close(6, &[(6, 1, 5)]),
        ],
        &[
            Ask::Absorb(&[]),
            Ask::Close(0, &[]),
            Ask::Close(END_MARK, &[]),
        ],
    ];
    for asks in cases {
        assert!(rt; answers(rt.alloc(), Agg::Sum, asks) == Ok(true));
    }
}

#[test]
fn what_sessions_give(rt: HostRuntime) {
    let cases = [
        (Agg::Count, 3),
        (Agg::Sum, 5),
        (Agg::Min, -1),
        (Agg::Max, 3),
        (Agg::Distinct, 2),
    ];
    for (agg, want) in cases {
        let asks = [
            Ask::Absorb(&[(1, 1, 3), (2, 1, -1), (2, 1, 3)]),
            Ask::Close(7, &[(7, 1, want)]),
        ];
        assert!(rt; answers(rt.alloc(), agg, &asks) == Ok(true), "{agg:?}");
    }
}

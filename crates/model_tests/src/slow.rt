//! What plans give, by example.

ghost use Rattle.std.specs.Prelude.{All, IfOk};
ghost use Rattle.sb_hand.specs.base.records.Lines.{IsItemInRange};

use crate::plans::{alone, chain, expanded, group, join, joined, place};
use sb_base::{
    Agg, Change, Combine, END_MARK, Field, Item, Key, Keys, Kind, MAX_KEY, MAX_TOP, Op, Plan,
    Record, Step, Table, Test, read_line,
};
use sb_machine::slow_rows;
use std::alloc::Global;
use std::test::Fail;

/// The items of lines, with a space between each two.
fn items_of(alloc: Global, keys: Keys, lines: &str) -> Result<Vec<Item>, Fail>
    ensures { IfOk result (λ items. All (IsItemInRange keys) items.items) }
{
    let mut items = Vec::new(alloc);
    // By this the prover is told of the types that an item holds.
    let _held = Record {
        time: 0,
        key: Key::Number(0),
        value: 0,
    };
    for line in lines.split_whitespace() {
        let item = read_line(line.as_bytes(), keys)?;
        items.push(item)?;
    }
    Ok(items)
}

/// Adds a key at the end of a text.
fn push_key(text: &mut String, key: &Key) -> Result<(), Fail> {
    match key {
        Key::Number(number) => write!(text, "{number}")?,
        Key::Word(word) => text.push_str(str::from_utf8(word.as_slice())?)?,
    }
    Ok(())
}

/// The rows below a time, as `end,key,value`, with a space between each two.
fn rows_below(alloc: Global, plan: Option<Plan>, lines: &str, below: u64) -> Result<String, Fail> {
    let plan = plan.ok_or("no plan")?;
    let items = items_of(alloc, plan.keys(), lines)?;
    let rows = slow_rows(alloc, &plan, &items, below)?;
    let mut text = String::new(alloc);
    for row in &rows {
        if !text.is_empty() {
            text.push_str(" ")?;
        }
        let end = row.time.saturating_add(1);
        write!(text, "{end},")?;
        push_key(&mut text, &row.key)?;
        write!(text, ",{}", row.value)?;
    }
    Ok(text)
}

/// All rows.
fn rows_of(alloc: Global, plan: Option<Plan>, lines: &str) -> Result<String, Fail> {
    rows_below(alloc, plan, lines, END_MARK)
}

/// Whether a plan has these rows for the lines.
fn gives(alloc: Global, plan: Option<Plan>, lines: &str, want: &str) -> Result<bool, Fail> {
    Ok(rows_of(alloc, plan, lines)?.as_str() == want)
}

/// The plan of an operation, with a row for each record that it gives.
fn each_output(alloc: Global, op: Op) -> Result<Option<Plan>, Fail> {
    let kinds = vec![in alloc; Kind::Do(op), group(Agg::Top(MAX_TOP), 1, 1)?]?;
    Ok(chain(alloc, kinds, None)?)
}

/// What is made of a session, its gap, the lines, and the rows.
const SESSIONS: [(Agg, u64, &str, &str); 5] = [
    (
        Agg::Sum,
        5,
        "r,a,1,1,10 r,a,5,1,1 r,a,10,1,2",
        "10,1,11 15,1,2",
    ),
    (Agg::Sum, 5, "r,a,1,1,1 r,a,9,1,1 w,a,1 r,a,5,1,1", "14,1,3"),
    (Agg::Sum, 5, "r,a,1,1,1 w,a,6 r,a,6,1,1", "6,1,1 11,1,1"),
    (Agg::Sum, 1, "r,a,1,1,1 r,a,1,1,2 r,a,2,1,4", "2,1,3 3,1,4"),
    (Agg::Max, 5, "r,a,1,2,1 r,a,3,1,7 r,a,4,2,5", "8,1,7 9,2,5"),
];

#[test]
fn aggregates_by_session(rt: HostRuntime) -> Result<(), Fail> {
    let alloc = rt.alloc();
    for (agg, gap, lines, want) in &SESSIONS {
        let plan = alone(alloc, Kind::Session(*agg, *gap))?;
        assert!(rt; gives(alloc, plan, lines, want)?, "{agg:?} {gap} {lines}");
    }
    assert!(rt; alone(alloc, Kind::Session(Agg::Sum, 0))?.is_none());
    assert!(rt; alone(alloc, Kind::Session(Agg::Top(1), 1))?.is_none());
    Ok(())
}

/// What is made of a window, its length, how often one starts, the lines, and the rows.
const WINDOWS: [(Agg, u64, u64, &str, &str); 6] = [
    (Agg::Sum, 10, 5, "r,a,7,1,2", "10,1,2 15,1,2"),
    (Agg::Sum, 10, 5, "r,a,5,1,2", "10,1,2 15,1,2"),
    (
        Agg::Sum,
        10,
        10,
        "r,a,3,1,5 r,b,4,1,100 r,a,3,2,7 w,a,5",
        "10,1,5 10,2,7",
    ),
    (Agg::Sum, 10, 10, "", ""),
    (
        Agg::Top(2),
        10,
        10,
        "r,a,1,1,5 r,a,2,1,5 r,a,3,1,3",
        "10,1,5 10,1,5",
    ),
    (
        Agg::Distinct,
        10,
        10,
        "r,a,1,1,5 r,a,2,1,5 r,a,3,1,-1",
        "10,1,2",
    ),
];

#[test]
fn aggregates_by_window_and_key(rt: HostRuntime) -> Result<(), Fail> {
    let alloc = rt.alloc();
    for (agg, size, every, lines, want) in &WINDOWS {
        let plan = alone(alloc, group(*agg, *size, *every)?)?;
        assert!(rt; gives(alloc, plan, lines, want)?, "{agg:?} of {lines}");
    }
    Ok(())
}

/// What is made of the values of one window, and the rows.
const ENDS: [(Agg, &str); 7] = [
    (Agg::Count, "10,1,4"),
    (Agg::Sum, "10,1,9"),
    (Agg::Min, "10,1,-9223372036854775808"),
    (Agg::Max, "10,1,9223372036854775807"),
    (Agg::Distinct, "10,1,3"),
    (Agg::Top(1), "10,1,9223372036854775807"),
    (
        Agg::Top(MAX_TOP),
        "10,1,-9223372036854775808 10,1,5 10,1,5 10,1,9223372036854775807",
    ),
];

#[test]
fn aggregates_the_ends_of_ranges(rt: HostRuntime) -> Result<(), Fail> {
    let alloc = rt.alloc();
    let lines = "r,a,1,1,5 r,a,2,1,-9223372036854775808 r,a,3,1,5 r,a,4,1,9223372036854775807";
    for (agg, want) in &ENDS {
        let plan = alone(alloc, group(*agg, 10, 10)?)?;
        assert!(rt; gives(alloc, plan, lines, want)?, "{agg:?}");
    }
    Ok(())
}

/// What is made of two values, and the rows of two pairs.
const COMBINED: [(Combine, &str); 7] = [
    (Combine::Add, "10,1,-9223372036854775802 10,1,-1"),
    (Combine::Sub, "10,1,-9223372036854775800 10,1,1"),
    (
        Combine::Mul,
        "10,1,-9223372036854775808 10,1,9223372036854775801",
    ),
    (Combine::Min, "10,1,-9223372036854775808 10,1,7"),
    (
        Combine::Max,
        "10,1,9223372036854775807 10,1,9223372036854775807",
    ),
    (Combine::Left, "10,1,-9223372036854775808 10,1,7"),
    (
        Combine::Right,
        "10,1,9223372036854775807 10,1,9223372036854775807",
    ),
];

/// Lines of both streams, and the rows of their sums.
const JOINED: [(&str, &str); 3] = [
    ("r,a,3,1,5 r,a,4,1,6 r,b,8,1,100", "10,1,105 10,1,106"),
    ("r,a,1,1,1 r,b,2,2,3", ""),
    ("r,a,9,1,1 r,b,10,1,3", ""),
];

#[test]
fn joins_by_window_and_key(rt: HostRuntime) -> Result<(), Fail> {
    let alloc = rt.alloc();
    // Each left record has one right record in its window and of its key.
    let lines =
        "r,a,1,1,-9223372036854775808 r,a,2,1,7 r,b,3,1,9223372036854775807 r,b,4,2,9 r,b,13,1,9";
    for (combine, want) in &COMBINED {
        let plan = joined(alloc, join(*combine, 10)?)?;
        assert!(rt; gives(alloc, plan, lines, want)?, "{combine:?}");
    }
    for (lines, want) in &JOINED {
        let plan = joined(alloc, join(Combine::Add, 10)?)?;
        assert!(rt; gives(alloc, plan, lines, want)?, "{lines}");
    }
    Ok(())
}

const LOW: &str = "1,0,-9223372036854775808";

const HIGH: &str = "1000000000000001,1000000000000000000,9223372036854775807";

const LOW_AND_HIGH: &str =
    "1,0,-9223372036854775808 1000000000000001,1000000000000000000,9223372036854775807";

/// Filters, and the rows of the least and the greatest record.
const FILTERS: [(Field, Test, i64, &str); 15] = [
    (Field::Time, Test::Less, 1_000_000_000_000_000, LOW),
    (
        Field::Time,
        Test::AtMost,
        1_000_000_000_000_000,
        LOW_AND_HIGH,
    ),
    (Field::Time, Test::Equal, 1_000_000_000_000_000, HIGH),
    (Field::Time, Test::AtLeast, 0, LOW_AND_HIGH),
    (Field::Time, Test::More, 0, HIGH),
    (Field::Key, Test::Less, 0, ""),
    (Field::Key, Test::AtMost, 0, LOW),
    (Field::Key, Test::Equal, 0, LOW),
    (Field::Key, Test::AtLeast, 1_000_000_000_000_000_000, HIGH),
    (Field::Key, Test::More, i64::MIN, LOW_AND_HIGH),
    (Field::Value, Test::Less, i64::MAX, LOW),
    (Field::Value, Test::AtMost, i64::MIN, LOW),
    (Field::Value, Test::Equal, i64::MAX, HIGH),
    (Field::Value, Test::AtLeast, i64::MIN, LOW_AND_HIGH),
    (Field::Value, Test::More, i64::MAX, ""),
];

#[test]
fn filters_each_field(rt: HostRuntime) -> Result<(), Fail> {
    let alloc = rt.alloc();
    let lines =
        "r,a,0,0,-9223372036854775808 r,a,1000000000000000,1000000000000000000,9223372036854775807";
    for (field, test, number, want) in &FILTERS {
        let plan = each_output(alloc, Op::Filter(*field, *test, *number))?;
        assert!(rt;
            gives(alloc, plan, lines, want)?,
            "{field:?} {test:?} {number}"
        );
    }
    Ok(())
}

/// Changes, a line, and its row.
const CHANGES: [(Change, &str, &str); 7] = [
    (Change::KeyMod(10), "r,a,1,1234,5", "2,4,5"),
    (
        Change::KeyMod(MAX_KEY),
        "r,a,1,1000000000000000000,5",
        "2,0,5",
    ),
    (Change::KeyDiv(100), "r,a,1,1299,5", "2,12,5"),
    (
        Change::KeySet(MAX_KEY),
        "r,a,1,0,5",
        "2,1000000000000000000,5",
    ),
    (
        Change::ValueAdd(1),
        "r,a,1,2,9223372036854775807",
        "2,2,-9223372036854775808",
    ),
    (Change::ValueMul(2), "r,a,1,2,9223372036854775807", "2,2,-2"),
    (
        Change::ValueSet(i64::MIN),
        "r,a,1,2,5",
        "2,2,-9223372036854775808",
    ),
];

#[test]
fn changes_one_field(rt: HostRuntime) -> Result<(), Fail> {
    let alloc = rt.alloc();
    for (change, line, want) in &CHANGES {
        let plan = each_output(alloc, Op::Map(*change))?;
        assert!(rt; gives(alloc, plan, line, want)?, "{change:?}");
    }
    Ok(())
}

/// The plan, with words for keys.
fn of_words(plan: Option<Plan>) -> Option<Plan> {
    plan.map(|plan| plan.with_keys(Keys::Words))
}

/// Lines with words for keys, and their rows of sums over windows of 10.
const WORDS: [(&str, &str); 2] = [
    (
        "r,a,1,redd,1 r,a,3,red,5 r,a,2,blue,7 r,a,4,red,2",
        "10,blue,7 10,red,7 10,redd,1",
    ),
    ("r,a,1,9,1 r,a,2,10,2", "10,10,2 10,9,1"),
];

#[test]
fn gathers_words(rt: HostRuntime) -> Result<(), Fail> {
    let alloc = rt.alloc();
    for (lines, want) in &WORDS {
        let plan = of_words(alone(alloc, group(Agg::Sum, 10, 10)?)?);
        assert!(rt; gives(alloc, plan, lines, want)?, "{lines}");
    }
    let plan = of_words(alone(alloc, Kind::Session(Agg::Sum, 5))?);
    let lines = "r,a,1,9,1 r,a,3,10,7 r,a,4,9,5";
    assert!(rt; gives(alloc, plan, lines, "8,10,7 9,9,6")?);
    let plan = of_words(joined(alloc, join(Combine::Add, 10)?)?);
    let lines = "r,a,1,red,1 r,a,1,reds,9 r,b,2,red,3 r,b,2,re,3";
    assert!(rt; gives(alloc, plan, lines, "10,red,4")?);
    Ok(())
}

#[test]
fn passes_on_from_windows_to_windows(rt: HostRuntime) -> Result<(), Fail> {
    let alloc = rt.alloc();
    let kinds = vec![in alloc; group(Agg::Sum, 10, 10)?, group(Agg::Max, 20, 20)?]?;
    let plan = chain(alloc, kinds, None)?;
    assert!(rt; gives(alloc, plan, "r,a,3,1,4 r,a,13,1,6", "20,1,6")?);
    Ok(())
}

#[test]
fn passes_on_from_a_join_to_windows(rt: HostRuntime) -> Result<(), Fail> {
    let alloc = rt.alloc();
    let kinds = vec![in alloc; join(Combine::Add, 10)?, group(Agg::Sum, 10, 10)?]?;
    let plan = chain(alloc, kinds, Some(place(0, 1)))?;
    assert!(rt; gives(alloc, plan, "r,a,3,1,5 r,a,4,1,6 r,b,8,1,100", "10,1,211")?);
    Ok(())
}

#[test]
fn passes_on_from_an_expansion_to_windows(rt: HostRuntime) -> Result<(), Fail> {
    let alloc = rt.alloc();
    let plan = expanded(alloc, vec![in alloc; 0, 10]?, Agg::Sum)?;
    assert!(rt; gives(alloc, plan, "r,a,3,1,5", "10,1,20")?);
    Ok(())
}

#[test]
fn counts_views_by_campaign(rt: HostRuntime) -> Result<(), Fail> {
    let alloc = rt.alloc();
    let mut campaigns = Table::new(alloc);
    for (advertisement, campaign) in [(101, 7), (102, 7), (103, 9)] {
        campaigns.insert(Key::Number(advertisement), Key::Number(campaign))?;
    }
    let kinds = vec![in alloc;
        Kind::Do(Op::Filter(Field::Value, Test::Equal, 1)),
        Kind::Do(Op::Lookup(campaigns)),
        group(Agg::Count, 10_000, 10_000)?,
    ]?;
    let lines =
        "r,a,1200,101,1 r,a,800,103,1 r,a,2500,102,0 r,a,9999,102,1 w,a,10000 r,a,10000,999,1 r,a,15000,103,1";
    assert!(rt;
        gives(
            alloc,
            chain(alloc, kinds, None)?,
            lines,
            "10000,7,2 10000,9,1 20000,9,1"
        )?
    );
    Ok(())
}

#[test]
fn sends_each_stream_where_it_goes(rt: HostRuntime) -> Result<(), Fail> {
    let alloc = rt.alloc();
    // The right input takes what the filter passes of stream a, and the left one stream b.
    let filter = Step {
        kind: Kind::Do(Op::Filter(Field::Value, Test::More, 0)),
        down: place(1, 1),
    };
    let join = Step {
        kind: join(Combine::Sub, 10)?,
        down: place(2, 0),
    };
    let steps = vec![in alloc; filter, join]?;
    let plan = Plan::new(steps, Some(place(0, 0)), Some(place(1, 0)));
    assert!(rt;
        gives(
            alloc,
            plan,
            "r,a,1,1,-4 r,a,2,1,3 r,b,3,1,10 r,b,4,1,-20",
            "10,1,-23 10,1,7"
        )?
    );
    Ok(())
}

/// A time, and the rows below it.
const BELOW: [(u64, &str); 5] = [
    (9, ""),
    (10, "10,1,4"),
    (19, "10,1,4"),
    (20, "10,1,4 20,1,6"),
    (u64::MAX, "10,1,4 20,1,6 30,1,8"),
];

#[test]
fn cuts_rows_off(rt: HostRuntime) -> Result<(), Fail> {
    let alloc = rt.alloc();
    let lines = "r,a,10,1,6 r,a,3,1,4 r,a,23,1,8";
    for (below, want) in &BELOW {
        let plan = alone(alloc, group(Agg::Sum, 10, 10)?)?;
        let rows = rows_below(alloc, plan, lines, *below)?;
        assert!(rt; rows.as_str() == *want, "below {below}");
    }
    Ok(())
}

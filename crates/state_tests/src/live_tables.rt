//! A live table, by example.

ghost use Rattle.std.specs.Prelude.{◌<◌, All, IsTrue};

use sb_emit::RowOut;
use sb_live::{LiveOut, LiveReader, LiveRows, TableEnded, key_named, live};
use sb_outside::SinkFault;
use sb_record::{END_MARK, Key, Keys, MAX_KEY, NoMemory, Record, Word};
use std::sync::Wait;
use std::test::Fail;
use std::thread::join;

/// The time and the value of the last row of a key, if it has one.
type Last = Option<(u64, i64)>;

fn record(time: u64, number: u64, value: i64) -> Record {
    let key = Key::Number(number);
    Record { time, key, value }
}

/// The row with this key, time and value.
fn row_of(number: u64, last: Last) -> Option<Record> {
    match last {
        Some((time, value)) => Some(record(time, number, value)),
        None => None,
    }
}

/// Shows rows, if they may be shown.
fn show<R: Wait + Drop>(out: &mut LiveOut<R>, rows: &[Record]) -> Result<(), NoMemory> {
    if out.may_show(rows) {
        return out.show(rows);
    }
    Ok(())
}

/// Whether the writer, a reader that was made before and one that is made now find this last row of a key.
fn all_find<R: Wait + Drop>(
    out: &mut LiveOut<R>,
    early: &mut LiveReader,
    number: u64,
    last: Last,
) -> bool {
    let key = Key::Number(number);
    let row = row_of(number, last);
    let is_found = match out.reader() {
        Ok(mut late) => late.get(&key) == Ok(row),
        Err(NoMemory) => true,
    };
    is_found && out.last(&key) == row && early.get(&key) == Ok(row)
}

#[test]
fn the_last_row_of_a_key_is_found(rt: HostRuntime) -> Result<(), Fail> {
    let (mut out, mut readers) = live(rt.alloc(), rt, 2)?;
    for (rows, one, two) in [
        ([record(9, 1, 7)].as_slice(), Some((9, 7)), None),
        // Of the rows of one call the last counts. They may be of one time.
        (
            &[record(19, 1, 4), record(19, 2, 5), record(19, 1, -4)],
            Some((19, -4)),
            Some((19, 5)),
        ),
        // A row of this time was shown by the call before.
        (&[record(19, 1, 8)], Some((19, -4)), Some((19, 5))),
    ] {
        if show(&mut out, rows).is_err() {
            out.end();
            return Err(NoMemory.into());
        }
        for (number, last) in [(1, one), (2, two), (3, None)] {
            assert!(rt; all_find(&mut out, &mut readers[0], number, last));
        }
    }
    out.end();
    assert!(rt; readers[1].get(&Key::Number(1)) == Err(TableEnded));
    Ok(())
}

/// Whether all rows are of times that rows may have.
fn are_timely(rows: &[Record]) -> bool
    ensures { IsTrue result → All (λ r. r.time < END_MARK) rows.now }
{
    rows.iter().all(|row| row.time < END_MARK)
}

/// Gives rows to an output.
fn give<O: RowOut>(out: &mut O, rows: &[Record]) -> Result<(), SinkFault> {
    if are_timely(rows) {
        return out.rows(rows);
    }
    out.finish()
}

#[test]
fn an_output_shows_rows_and_refuses_those_that_fall(rt: HostRuntime) -> Result<(), Fail> {
    let (out, mut readers) = live(rt.alloc(), rt, 1)?;
    let mut shown = LiveRows::new(out);
    let key = Key::Number(1);
    for (rows, answer, last) in [
        ([record(9, 1, 7)].as_slice(), Ok(()), (9, 7)),
        (
            &[record(29, 1, 5), record(19, 1, 4)],
            Err(SinkFault::Failed),
            (9, 7),
        ),
        (&[record(19, 1, 4)], Ok(()), (19, 4)),
        (&[record(9, 1, 7)], Err(SinkFault::Failed), (19, 4)),
        (
            &[record(19, 1, 3), record(29, 1, 5)],
            Err(SinkFault::Failed),
            (19, 4),
        ),
        (&[record(29, 1, 3), record(29, 1, 5)], Ok(()), (29, 5)),
    ] {
        let given = give(&mut shown, rows);
        if given == Err(SinkFault::Memory) {
            shown.into_out().end();
            return Err(NoMemory.into());
        }
        assert!(rt; given == answer);
        assert!(rt; readers[0].get(&key) == Ok(row_of(1, Some(last))));
    }
    assert!(rt; give(&mut shown, &[record(END_MARK, 1, 7)]) == Ok(()));
    let out = shown.into_out();
    assert!(rt; out.last(&key) == row_of(1, Some((29, 5))));
    out.end();
    Ok(())
}

/// The word as a key.
fn word_key(text: &str) -> Option<Key> {
    Word::new(text.as_bytes()).map(Key::Word)
}

/// Whether a text names this key where keys are numbers, and this one where they are words.
fn names(text: &str, number: Option<Key>, word: Option<Key>) -> bool {
    key_named(Keys::Numbers, text.as_bytes()) == number
        && key_named(Keys::Words, text.as_bytes()) == word
}

#[test]
fn a_text_names_a_key_of_the_kind(rt: HostRuntime) {
    for (text, number, word) in [
        ("7", Some(Key::Number(7)), word_key("7")),
        (
            "1000000000000000000",
            Some(Key::Number(MAX_KEY)),
            word_key("1000000000000000000"),
        ),
        ("1000000000000000001", None, word_key("1000000000000000001")),
        ("07", None, word_key("07")),
        ("seven", None, word_key("seven")),
        ("se,ven", None, None),
        ("", None, None),
    ] {
        assert!(rt; names(text, number, word), "{text}");
    }
}

/// How many calls are shown while threads ask, and how often each of these asks.
const ROUNDS: u64 = 20_000;

/// Shows calls of two rows, one of each key, at times that rise.
fn show_all<R: Wait + Drop>(out: &mut LiveOut<R>) -> Result<(), NoMemory> {
    for round in 0..ROUNDS {
        let rows = [record(2 * round, 1, 0), record(2 * round + 1, 2, 0)];
        if out.may_show(&rows) {
            out.show(&rows)?;
        }
    }
    Ok(())
}

/// Whether a reader sees the time of a key fall, or its row go.
fn sees_one_fall(reader: &mut LiveReader, number: u64) -> bool {
    let key = Key::Number(number);
    let mut latest = None;
    for _ in 0..ROUNDS {
        let time = match reader.get(&key) {
            Ok(Some(row)) => Some(row.time),
            Ok(None) | Err(TableEnded) => None,
        };
        if time < latest {
            return true;
        }
        latest = time;
    }
    false
}

#[test]
fn readers_beside_a_writer_see_no_time_fall(rt: HostRuntime) -> Result<(), Fail> {
    let (mut out, mut readers) = live(rt.alloc(), rt, 2)?;
    let (Some(mut one), Some(mut two)) = (readers.pop(), readers.pop()) else {
        out.end();
        return Ok(());
    };
    let (shown, falls) = join(
        &rt,
        || show_all(&mut out),
        || join(
            &rt,
            || sees_one_fall(&mut one, 1),
            || sees_one_fall(&mut two, 2),
        ),
    );
    assert!(rt; falls == (false, false));
    let last = out.last(&Key::Number(2));
    out.end();
    shown?;
    assert!(rt; last == row_of(2, Some((2 * ROUNDS - 1, 0))));
    Ok(())
}

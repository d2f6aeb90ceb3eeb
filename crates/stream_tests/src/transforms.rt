//! What each operation gives for records, those at the ends of their ranges too; and which texts are tables.

ghost use Rattle.sb_base.specs.records.Keys.{IsKey};

use sb_base::{
    Change, Field, Key, Keys, MAX_KEY, Op, Record, RowFault, Sequence, Table, TableFault,
    TableStop, Test, Word, apply, is_valid,
};
use std::alloc::{AllocError, Global};
use std::test::Fail;

/// One more than the greatest `i64`.
const HIGH_KEY: u64 = 9_223_372_036_854_775_808;

/// A word of the most bytes that one may have.
const LONGEST: &str = "xxxxxxxxxxxxxxxxxxxxxxxx";

fn at(time: u64, number: u64, value: i64) -> Record {
    let key = Key::Number(number);
    Record { time, key, value }
}

/// The text as a key, where it is a word, else the number 0.
fn word(text: &str) -> Key
    ensures { IsKey result }
{
    match Word::new(text.as_bytes()) {
        Some(word) => Key::Word(word),
        None => Key::Number(0),
    }
}

fn named(time: u64, text: &str, value: i64) -> Record {
    let key = word(text);
    Record { time, key, value }
}

/// Whether an operation that a plan may have gives these outputs.
fn gives(alloc: Global, op: &Op, inputs: &[Record], outputs: &[Record]) -> bool {
    let mut into = Vec::new(alloc);
    if !is_valid(op) {
        return false;
    }
    apply(op, inputs, &mut into) == Ok(()) && into.as_slice() == outputs
}

/// Whether an operation that a plan may have gives the first of these inputs, and the second.
fn given_of(alloc: Global, op: &Op, inputs: &[Record]) -> Option<(bool, bool)> {
    let mut into = Vec::new(alloc);
    if !is_valid(op) || apply(op, inputs, &mut into) != Ok(()) {
        return None;
    }
    match inputs {
        [first, second, ..] => Some((into.contains(first), into.contains(second))),
        _ => None,
    }
}

/// Filters, and whether the least and the greatest record pass.
const FILTERS: [(Field, Test, i64, bool, bool); 16] = [
    (Field::Time, Test::Less, 20, true, false),
    (Field::Time, Test::AtMost, 20, true, true),
    (Field::Time, Test::Equal, 20, false, true),
    (Field::Time, Test::AtLeast, 11, false, true),
    (Field::Time, Test::More, 10, false, true),
    (Field::Key, Test::Less, i64::MAX, true, false),
    (Field::Key, Test::AtMost, 0, true, false),
    (Field::Key, Test::Equal, i64::MIN, false, false),
    (Field::Key, Test::AtLeast, i64::MAX, false, true),
    (Field::Key, Test::More, i64::MAX, false, true),
    (Field::Key, Test::More, -1, true, true),
    (Field::Value, Test::Less, i64::MAX, true, false),
    (Field::Value, Test::AtMost, i64::MIN, true, false),
    (Field::Value, Test::Equal, i64::MIN, true, false),
    (Field::Value, Test::AtLeast, 0, false, true),
    (Field::Value, Test::More, i64::MIN, false, true),
];

#[test]
fn filters_by_each_field(rt: HostRuntime) {
    let inputs = [at(10, 0, i64::MIN), at(20, HIGH_KEY, i64::MAX)];
    for (field, test, number, low_passes, high_passes) in &FILTERS {
        let op = Op::Filter(*field, *test, *number);
        let given = given_of(rt.alloc(), &op, &inputs);
        assert!(rt;
            given == Some((*low_passes, *high_passes)),
            "{field:?} {test:?} {number}"
        );
    }
}

/// Filters by the key, and whether the key 9 passes.
const KEY_FILTERS: [(Field, Test, i64, bool); 7] = [
    (Field::Key, Test::Less, 9, false),
    (Field::Key, Test::Less, 10, true),
    (Field::Key, Test::AtMost, 9, true),
    (Field::Key, Test::Equal, 9, true),
    (Field::Key, Test::AtLeast, 9, true),
    (Field::Key, Test::More, 9, false),
    (Field::Key, Test::More, -1, true),
];

#[test]
fn passes_no_word_by_its_key(rt: HostRuntime) {
    let inputs = [named(10, "9", 5), at(10, 9, 5), named(10, "9", 5)];
    for (field, test, limit, number_passes) in &KEY_FILTERS {
        let op = Op::Filter(*field, *test, *limit);
        let given = given_of(rt.alloc(), &op, &inputs);
        assert!(rt; given == Some((false, *number_passes)), "{test:?} {limit}");
    }
}

#[test]
fn filters_words_by_their_values(rt: HostRuntime) {
    let op = Op::Filter(Field::Value, Test::Equal, 5);
    let inputs = [named(10, "9", 5), named(10, "cat", 6), named(10, "dog", 5)];
    let outputs = [named(10, "9", 5), named(10, "dog", 5)];
    assert!(rt; gives(rt.alloc(), &op, &inputs, &outputs));
}

/// Changes, the number that is the key of a record and its value, and what they become.
const CHANGES: [(Change, (u64, i64), (u64, i64)); 12] = [
    (Change::KeyMod(10), (1_234, 5), (4, 5)),
    (Change::KeyMod(MAX_KEY), (MAX_KEY, 5), (0, 5)),
    (Change::KeyDiv(100), (1_299, 5), (12, 5)),
    (Change::KeyDiv(1), (MAX_KEY, 5), (MAX_KEY, 5)),
    (Change::KeySet(MAX_KEY), (0, 5), (MAX_KEY, 5)),
    (Change::ValueAdd(-7), (2, 5), (2, -2)),
    (Change::ValueAdd(1), (2, i64::MAX), (2, i64::MIN)),
    (Change::ValueAdd(-1), (2, i64::MIN), (2, i64::MAX)),
    (Change::ValueMul(-3), (2, 5), (2, -15)),
    (Change::ValueMul(2), (2, i64::MAX), (2, -2)),
    (Change::ValueMul(-1), (2, i64::MIN), (2, i64::MIN)),
    (Change::ValueSet(i64::MIN), (2, 5), (2, i64::MIN)),
];

#[test]
fn changes_one_field(rt: HostRuntime) {
    for (change, from, to) in &CHANGES {
        let (input, output) = (at(1, from.0, from.1), at(1, to.0, to.1));
        let op = Op::Map(*change);
        assert!(rt; gives(rt.alloc(), &op, &[input], &[output]), "{change:?}");
    }
}

/// Whether a change makes the one record of the other.
fn changes(alloc: Global, change: Change, input: Record, output: Record) -> bool {
    gives(alloc, &Op::Map(change), &[input], &[output])
}

#[test]
fn changes_one_field_of_a_record_of_a_word(rt: HostRuntime) {
    let alloc = rt.alloc();
    assert!(rt; changes(alloc, Change::KeyMod(7), named(1, "9", 5), named(1, "9", 5)));
    assert!(rt; changes(alloc, Change::KeyDiv(7), named(1, "9", 5), named(1, "9", 5)));
    assert!(rt; changes(alloc, Change::KeySet(7), named(1, "9", 5), at(1, 7, 5)));
    assert!(rt;
        changes(
            alloc,
            Change::ValueAdd(1),
            named(1, "cat", 5),
            named(1, "cat", 6)
        )
    );
}

/// Has an operation append what it gives, if a plan may have it.
fn appends(op: &Op, inputs: &[Record], into: &mut Vec<Record>) -> bool {
    if !is_valid(op) {
        return false;
    }
    apply(op, inputs, into) == Ok(())
}

/// Whether a key gets this image in place of that one.
fn sets(table: &mut Table, key: Key, image: Key, before: Option<Key>) -> bool
    requires { IsKey image }
{
    table.insert(key, image) == Ok(before)
}

fn ten_and_minus_one(alloc: Global) -> Result<Op, AllocError> {
    Ok(Op::Expand(Sequence::new(Vec::from_slice(alloc, &[10, -1])?)))
}

#[test]
fn appends_in_order(rt: HostRuntime) -> Result<(), Fail> {
    let mut table = Table::new(rt.alloc());
    assert!(rt; sets(&mut table, Key::Number(1), Key::Number(5), None));
    assert!(rt;
        sets(
            &mut table,
            Key::Number(HIGH_KEY),
            Key::Number(MAX_KEY),
            None
        )
    );
    assert!(rt;
        sets(
            &mut table,
            Key::Number(1),
            Key::Number(6),
            Some(Key::Number(5))
        )
    );
    assert!(rt; image_of(&table, 1) == Some(6) && image_of(&table, 2) == None);

    let look_up = Op::Lookup(table);
    let expand = ten_and_minus_one(rt.alloc())?;
    let inputs = [at(3, HIGH_KEY, 0), at(4, 2, 0), at(5, 1, i64::MIN)];
    let mut into = Vec::new(rt.alloc());
    assert!(rt; appends(&look_up, &inputs, &mut into));
    let inputs = [at(4, 2, 0), at(5, 1, i64::MIN)];
    assert!(rt; appends(&expand, &inputs, &mut into));
    let outputs = [
        at(3, MAX_KEY, 0),
        at(5, 6, i64::MIN),
        at(4, 2, 10),
        at(4, 2, -1),
        at(5, 1, i64::MIN + 10),
        at(5, 1, i64::MAX),
    ];
    assert!(rt; into.as_slice() == outputs.as_slice());
    Ok(())
}

#[test]
fn appends_records_of_words_in_order(rt: HostRuntime) -> Result<(), Fail> {
    let mut table = Table::new(rt.alloc());
    assert!(rt; sets(&mut table, word("cat"), word("pet"), None));
    assert!(rt; sets(&mut table, word("dog"), Key::Number(7), None));
    assert!(rt; sets(&mut table, Key::Number(1), word("one"), None));

    let look_up = Op::Lookup(table);
    let expand = ten_and_minus_one(rt.alloc())?;
    let mut into = Vec::new(rt.alloc());
    let inputs = [
        named(3, "dog", 0),
        named(4, "elm", 0),
        at(5, 1, 0),
        named(6, "1", 0),
        named(7, "cat", 0),
    ];
    assert!(rt; appends(&look_up, &inputs, &mut into));
    assert!(rt; appends(&expand, &[named(8, "elm", 0)], &mut into));
    let outputs = [
        at(3, 7, 0),
        named(5, "one", 0),
        named(7, "pet", 0),
        named(8, "elm", 10),
        named(8, "elm", -1),
    ];
    assert!(rt; into.as_slice() == outputs.as_slice());
    Ok(())
}

const NO_CHANGES: [Change; 5] = [
    Change::KeyMod(0),
    Change::KeyDiv(0),
    Change::KeyMod(1_000_000_000_000_000_001),
    Change::KeyDiv(1_000_000_000_000_000_001),
    Change::KeySet(1_000_000_000_000_000_001),
];

/// Whether a plan may have an expansion by so many addends.
fn may_expand(alloc: Global, addends: usize) -> Result<bool, AllocError> {
    let op = Op::Expand(Sequence::new(vec![in alloc; 1; addends]?));
    Ok(is_valid(&op))
}

#[test]
fn refuses_what_a_plan_may_not_have(rt: HostRuntime) -> Result<(), Fail> {
    for change in &NO_CHANGES {
        assert!(rt; !is_valid(&Op::Map(*change)), "{change:?}");
    }
    for (addends, valid) in &[(0, false), (1, true), (8, true), (9, false)] {
        assert!(rt;
            may_expand(rt.alloc(), *addends)? == *valid,
            "{addends} addends"
        );
    }
    Ok(())
}

/// The table of a text of numbers.
fn read_numbers(alloc: Global, text: &str) -> Result<Table, TableStop> {
    Table::read(alloc, text.as_bytes(), Keys::Numbers)
}

/// The image of a number, where it is a number too.
fn image_of(table: &Table, number: u64) -> Option<u64> {
    match table.image(&Key::Number(number)) {
        Some(Key::Number(image)) => Some(image),
        _ => None,
    }
}

/// Why the text is no table of numbers, where it is none.
fn stop_of(alloc: Global, text: &str) -> Option<TableStop> {
    read_numbers(alloc, text).err()
}

/// Why the text is no table of words, where it is none.
fn stop_of_words(alloc: Global, text: &str) -> Option<TableStop> {
    Table::read(alloc, text.as_bytes(), Keys::Words).err()
}

const fn fault(row: u32, what: RowFault) -> Option<TableStop> {
    Some(TableStop::Fault(TableFault { row, what }))
}

/// The spellings of one table.
const SPELLINGS: [&str; 8] = [
    "101,7\n102,7\n103,9\n",
    "101,7\n102,7\n103,9",
    "101,7\r\n102,7\r\n103,9\r\n",
    "101,7\r102,7\r103,9\r",
    "\n\r\n101,7\n\n\n102,7\n\r103,9\n\n",
    "\"101\",7\n102,\"7\"\n\"103\",\"9\"",
    "\u{feff}101,7\n102,7\n103,9\n",
    "103,9\n102,7\n101,7\n",
];

const NO_ROWS: [&str; 4] = ["", "\n", "\r\n\r\n", "\u{feff}"];

/// Numbers, and their images in that table.
const IMAGES: [(u64, Option<u64>); 9] = [
    (101, Some(7)),
    (102, Some(7)),
    (103, Some(9)),
    (0, None),
    (7, None),
    (9, None),
    (100, None),
    (104, None),
    (MAX_KEY, None),
];

/// The first number that has another image in the table of a text than in [`IMAGES`].
fn first_other(alloc: Global, text: &str) -> Result<Option<u64>, TableStop> {
    let table = read_numbers(alloc, text)?;
    for (key, image) in &IMAGES {
        if image_of(&table, *key) != *image {
            return Ok(Some(*key));
        }
    }
    Ok(None)
}

/// The image of a number in the table of a text.
fn image_in(alloc: Global, text: &str, number: u64) -> Result<Option<u64>, TableStop> {
    Ok(image_of(&read_numbers(alloc, text)?, number))
}

#[test]
fn reads_one_table_in_all_its_spellings(rt: HostRuntime) {
    for text in &SPELLINGS {
        assert!(rt; first_other(rt.alloc(), text) == Ok(None), "{text:?}");
    }
    for text in &NO_ROWS {
        assert!(rt; image_in(rt.alloc(), text, 0) == Ok(None), "{text:?}");
    }
    let ends = "0,1000000000000000000\n1000000000000000000,0\n";
    assert!(rt; image_in(rt.alloc(), ends, 0) == Ok(Some(MAX_KEY)));
    assert!(rt; image_in(rt.alloc(), ends, MAX_KEY) == Ok(Some(0)));
}

/// Texts that are no tables of numbers, the first faulty row, and its first fault.
const FAULTY: [(&str, u32, RowFault); 17] = [
    ("101,7\n101,8\n", 2, RowFault::Repeated),
    ("101,7\n\"101\",7\n", 2, RowFault::Repeated),
    ("\n\n101,7\n\r\n\n101,7\n", 2, RowFault::Repeated),
    ("101\n", 1, RowFault::Width),
    ("1,2,3\n", 1, RowFault::Width),
    ("101,7,\n", 1, RowFault::Width),
    ("\"101,7\"\n", 1, RowFault::Width),
    ("\"101,7\n102,7\n", 1, RowFault::Width),
    ("101,7\n102\n103,7\n", 2, RowFault::Width),
    ("101,7\n102,7\n103,7,9\n", 3, RowFault::Width),
    // Two faults in one row.
    ("x\n", 1, RowFault::Width),
    ("x,y,z\n", 1, RowFault::Width),
    ("x,y\n", 1, RowFault::Key),
    ("101,7\n101,7,7\n", 2, RowFault::Width),
    ("101,7\n101,y\n", 2, RowFault::Image),
    // A fault in each of two rows.
    ("101,y\nx,7\n", 1, RowFault::Image),
    ("101,7\n101,8\n102\n", 2, RowFault::Repeated),
];

#[test]
fn names_the_first_fault_of_the_first_faulty_row(rt: HostRuntime) {
    for (text, row, what) in &FAULTY {
        assert!(rt; stop_of(rt.alloc(), text) == fault(*row, *what), "{text:?}");
    }
}

const NO_KEYS: [&str; 13] = [
    "",
    "x",
    "-1",
    "-0",
    "+1",
    "01",
    "00",
    " 1",
    "1 ",
    "1.0",
    "0x1",
    "1000000000000000001",
    "18446744073709551616",
];

/// Why the second row is faulty where the text stands for its key, and where it stands for its image.
fn stops_with(
    alloc: Global,
    text: &str,
) -> Result<(Option<TableStop>, Option<TableStop>), AllocError> {
    let key = format!(in alloc; "1,7\n{text},7\n")?;
    let image = format!(in alloc; "1,7\n2,{text}\n")?;
    Ok((stop_of(alloc, &key), stop_of(alloc, &image)))
}

#[test]
fn takes_keys_in_one_spelling_alone(rt: HostRuntime) -> Result<(), Fail> {
    let wanted = (fault(2, RowFault::Key), fault(2, RowFault::Image));
    for text in &NO_KEYS {
        assert!(rt; stops_with(rt.alloc(), text)? == wanted, "{text:?}");
    }
    Ok(())
}

/// The text of a table with these numbers as keys, from 0 on.
fn text_of_rows(alloc: Global, rows: u32) -> Result<String, Fail> {
    let mut text = String::new(alloc);
    for key in 0..rows {
        write!(text, "{key},7\n")?;
    }
    Ok(text)
}

/// Why the text is no table of numbers with this row behind it.
fn stop_behind(alloc: Global, text: &str, row: &str) -> Result<Option<TableStop>, AllocError> {
    let text = format!(in alloc; "{text}{row}\n")?;
    Ok(stop_of(alloc, &text))
}

const ONE_MORE: [&str; 5] = ["100000,7", "0,7", "x", "1,2,3", "1,y"];

#[test]
fn takes_as_many_rows_as_a_table_may_have(rt: HostRuntime) -> Result<(), Fail> {
    let alloc = rt.alloc();
    let most = text_of_rows(alloc, 100_000)?;
    let table = read_numbers(alloc, &most)?;
    assert!(rt; image_of(&table, 99_999) == Some(7));
    assert!(rt; image_of(&table, 100_000) == None);
    for row in &ONE_MORE {
        let stop = stop_behind(alloc, &most, row)?;
        assert!(rt; stop == fault(100_001, RowFault::TooMany), "{row}");
    }
    let text = format!(in alloc; "x,7\n{most}")?;
    assert!(rt; stop_of(alloc, &text) == fault(1, RowFault::Key));
    Ok(())
}

/// The spellings of one table of words.
const SPELLINGS_OF_WORDS: [&str; 2] = [
    "cat,pet\ndog,pet\n9,09\n09,xxxxxxxxxxxxxxxxxxxxxxxx\n",
    "\u{feff}\"cat\",pet\r\ndog,\"pet\"\r\n\n\"9\",\"09\"\n09,xxxxxxxxxxxxxxxxxxxxxxxx",
];

/// Words, and their images in that table.
const IMAGES_OF_WORDS: [(&str, Option<&str>); 10] = [
    ("cat", Some("pet")),
    ("dog", Some("pet")),
    ("9", Some("09")),
    ("09", Some(LONGEST)),
    ("ca", None),
    ("cats", None),
    ("Cat", None),
    ("pet", None),
    ("009", None),
    (LONGEST, None),
];

/// Whether the image of a word is this one.
fn has_image(table: &Table, key: &str, image: Option<&str>) -> bool {
    match image {
        Some(image) => table.image(&word(key)) == Some(word(image)),
        None => table.image(&word(key)) == None,
    }
}

#[test]
fn reads_tables_of_words(rt: HostRuntime) -> Result<(), Fail> {
    for text in &SPELLINGS_OF_WORDS {
        let table = Table::read(rt.alloc(), text.as_bytes(), Keys::Words)?;
        for (key, image) in &IMAGES_OF_WORDS {
            assert!(rt; has_image(&table, key, *image), "{key} in {text:?}");
        }
        assert!(rt; table.image(&Key::Number(9)) == None, "{text:?}");
    }
    let numbers = read_numbers(rt.alloc(), "9,1\n")?;
    assert!(rt; numbers.image(&word("9")) == None);
    Ok(())
}

/// Texts that are no tables of words, the first faulty row, and its first fault.
const FAULTY_OF_WORDS: [(&str, u32, RowFault); 17] = [
    ("cat,pet\ncat,bird\n", 2, RowFault::Repeated),
    ("cat,pet\n\"cat\",pet\n", 2, RowFault::Repeated),
    ("cat\n", 1, RowFault::Width),
    ("cat,pet,\n", 1, RowFault::Width),
    (",pet\n", 1, RowFault::Key),
    ("a cat,pet\n", 1, RowFault::Key),
    ("\"a,cat\",pet\n", 1, RowFault::Key),
    ("\"a\"\"cat\",pet\n", 1, RowFault::Key),
    ("cat\x7f,pet\n", 1, RowFault::Key),
    ("k\u{e4}se,pet\n", 1, RowFault::Key),
    ("xxxxxxxxxxxxxxxxxxxxxxxxx,pet\n", 1, RowFault::Key),
    ("cat,\n", 1, RowFault::Image),
    ("cat,a pet\n", 1, RowFault::Image),
    ("cat, pet\n", 1, RowFault::Image),
    ("cat,xxxxxxxxxxxxxxxxxxxxxxxxx\n", 1, RowFault::Image),
    // Two faults in one row.
    (",\n", 1, RowFault::Key),
    ("cat,pet\ncat,\n", 2, RowFault::Image),
];

#[test]
fn names_the_first_fault_of_a_table_of_words(rt: HostRuntime) {
    for (text, row, what) in &FAULTY_OF_WORDS {
        assert!(rt;
            stop_of_words(rt.alloc(), text) == fault(*row, *what),
            "{text:?}"
        );
    }
}

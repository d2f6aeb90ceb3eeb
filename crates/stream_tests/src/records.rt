//! The rules of lines, of their order and of rows, by example.

use sb_base::{
    END_MARK, Intake, Item, Key, Keys, LatePolicy, MAX_LINE_LENGTH, Malformed, Record, Refusal,
    Sequence, Stream, Streams, TextBuf, Word, read_line, read_number, row_bytes,
};
use std::test::Fail;

const BOTH: Streams = Streams { a: true, b: true };

const ONLY_A: Streams = Streams { a: true, b: false };

const ONLY_B: Streams = Streams { a: false, b: true };

const NEITHER: Streams = Streams { a: false, b: false };

/// A word of the most bytes that one may have, and one of a byte more.
const LONGEST: &str = "xxxxxxxxxxxxxxxxxxxxxxxx";

const TOO_LONG: &str = "xxxxxxxxxxxxxxxxxxxxxxxxx";

fn record(time: u64, number: u64, value: i64) -> Record {
    let key = Key::Number(number);
    Record { time, key, value }
}

/// The text as a key, where it is a word, else the number 0.
fn word(text: &str) -> Key {
    match Word::new(text.as_bytes()) {
        Some(word) => Key::Word(word),
        None => Key::Number(0),
    }
}

fn named(time: u64, text: &str, value: i64) -> Record {
    let key = word(text);
    Record { time, key, value }
}

/// The greatest time and the greatest key of a line.
const TIME: u64 = 1_000_000_000_000_000;

const KEY: u64 = 1_000_000_000_000_000_000;

/// Lines of records with numbers for keys, and what they give.
const RECORDS: [(&str, Stream, u64, u64, i64); 4] = [
    ("r,a,3,1,5", Stream::A, 3, 1, 5),
    ("r,b,0,0,-1", Stream::B, 0, 0, -1),
    (
        "r,a,1000000000000000,1000000000000000000,-9223372036854775808",
        Stream::A,
        TIME,
        KEY,
        i64::MIN,
    ),
    (
        "r,a,1000000000000000,1000000000000000000,9223372036854775807",
        Stream::A,
        TIME,
        KEY,
        i64::MAX,
    ),
];

const OTHER_LINES: [(&str, Item); 4] = [
    ("w,b,10", Item::Mark(Stream::B, 10)),
    ("w,a,1000000000000000", Item::Mark(Stream::A, TIME)),
    ("#", Item::Skip),
    ("# x", Item::Skip),
];

fn is_read(line: &str, keys: Keys, item: &Item) -> bool {
    read_line(line.as_bytes(), keys) == Ok(*item)
}

fn is_refused(line: &[u8], keys: Keys) -> bool {
    read_line(line, keys) == Err(Malformed)
}

#[test]
fn reads_lines(rt: HostRuntime) {
    for (line, stream, time, number, value) in &RECORDS {
        let item = Item::Rec(*stream, record(*time, *number, *value));
        assert!(rt; is_read(line, Keys::Numbers, &item), "at {line}");
    }
    for (line, item) in &OTHER_LINES {
        assert!(rt; is_read(line, Keys::Numbers, item), "at {line}");
    }
}

const NO_LINES: [&str; 26] = [
    "",
    "r",
    " # x",
    "r,a,03,1,5",
    "r,a,3,1,-0",
    "r,a,3,1,+5",
    "r,a,3,1,-",
    "r,a,3, 1,5",
    "r,a,-3,1,5",
    "r,c,3,1,5",
    "r,A,3,1,5",
    "r,a,3,1,5\r",
    "r,a,1000000000000001,1,5",
    "r,a,3,1000000000000000001,5",
    "r,a,3,1,9223372036854775808",
    "r,a,3,1,-9223372036854775809",
    "r,a,3,1,18446744073709551621",
    "r,a,18446744073709551619,1,5",
    "r,a,100000000000000000000000000003,1,5",
    "r,a,3,1",
    "r,a,3,1,5,",
    "r,a,3,cat,5",
    "w,a,",
    "w,a",
    "w,a,1000000000000001",
    "w,a,00",
];

#[test]
fn refuses_what_is_no_line(rt: HostRuntime) {
    for line in &NO_LINES {
        assert!(rt; is_refused(line.as_bytes(), Keys::Numbers), "at {line}");
    }
    assert!(rt;
        is_refused(b"\x1f\x8b\x08\x00", Keys::Numbers),
        "the head of a gzip file"
    );
}

/// Texts, and whether they are words.
const WORDS: [(&str, bool); 11] = [
    ("a", true),
    ("!", true),
    ("~", true),
    ("a,b", false),
    ("a\"b", false),
    ("a b", false),
    ("a\x7f", false),
    ("a\u{80}", false),
    ("", false),
    (LONGEST, true),
    (TOO_LONG, false),
];

/// Whether the text is a word, which then has its bytes.
fn is_word(text: &str) -> Option<bool> {
    let word = Word::new(text.as_bytes())?;
    Some(word.as_slice() == text.as_bytes())
}

#[test]
fn takes_words(rt: HostRuntime) {
    for (text, wanted) in &WORDS {
        assert!(rt; is_word(text) == wanted.then_some(true), "of {text}");
    }
}

/// Whether two keys compare as their places do.
fn are_ordered(a: &Key, b: &Key, i: usize, j: usize) -> bool {
    a.cmp(b) == i.cmp(&j) && (a == b) == (i == j)
}

#[test]
fn orders_keys(rt: HostRuntime) {
    let ascending = [
        Key::Number(9),
        Key::Number(10),
        word("!"),
        word("1"),
        word("10"),
        word("9"),
        word("ca"),
        word("cat"),
        word("dog"),
    ];
    for (i, a) in ascending.iter().enumerate() {
        for (j, b) in ascending.iter().enumerate() {
            assert!(rt; are_ordered(a, b, i, j), "{i} and {j}");
        }
    }
}

/// Lines of records with words for keys, and what they give.
const LINES_OF_WORDS: [(&str, Stream, u64, &str, i64); 4] = [
    ("r,a,3,cat,5", Stream::A, 3, "cat", 5),
    ("r,b,0,007,-1", Stream::B, 0, "007", -1),
    ("r,a,3,r,5", Stream::A, 3, "r", 5),
    ("r,a,3,xxxxxxxxxxxxxxxxxxxxxxxx,5", Stream::A, 3, LONGEST, 5),
];

const NO_LINES_OF_WORDS: [&str; 6] = [
    "r,a,3,,5",
    "r,a,3,cat",
    "r,a,3,cat,dog,5",
    "r,a,3,c t,5",
    "r,a,3,\"cat\",5",
    "r,a,3,xxxxxxxxxxxxxxxxxxxxxxxxx,5",
];

#[test]
fn reads_lines_with_words(rt: HostRuntime) {
    for (line, stream, time, text, value) in &LINES_OF_WORDS {
        let item = Item::Rec(*stream, named(*time, text, *value));
        assert!(rt; is_read(line, Keys::Words, &item), "at {line}");
    }
    assert!(rt; is_read("w,a,3", Keys::Words, &Item::Mark(Stream::A, 3)));
    assert!(rt; is_read("#", Keys::Words, &Item::Skip));
    for line in &NO_LINES_OF_WORDS {
        assert!(rt; is_refused(line.as_bytes(), Keys::Words), "at {line}");
    }
}

/// A line, what it gives, and then the low watermark and the number of the next line.
type Accepted = (&'static str, Result<Item, Refusal>, u64, u64);

/// Whether the intake takes the line so.
fn is_accepted(intake: &mut Intake, accepted: &Accepted) -> bool {
    let (line, result, low, next) = *accepted;
    line.len() <= MAX_LINE_LENGTH
        && intake.accept(line.as_bytes()) == result
        && intake.low() == low
        && intake.too_long() == Refusal::TooLong { line: next }
}

const IN_ORDER: [Accepted; 12] = [
    ("w,a,10", Ok(Item::Mark(Stream::A, 10)), 10, 2),
    (
        "r,a,10,1,1",
        Ok(Item::Rec(
            Stream::A,
            Record {
                time: 10,
                key: Key::Number(1),
                value: 1,
            },
        )),
        10,
        3,
    ),
    (
        "r,a,9,1,1",
        Err(Refusal::Late {
            line: 3,
            time: 9,
            mark: 10,
        }),
        10,
        3,
    ),
    ("w,a,10", Ok(Item::Mark(Stream::A, 10)), 10, 4),
    (
        "w,a,9",
        Err(Refusal::Back {
            line: 4,
            time: 9,
            mark: 10,
        }),
        10,
        4,
    ),
    ("r,b,9,1,1", Err(Refusal::WrongStream { line: 4 }), 10, 4),
    ("w,b,11", Err(Refusal::WrongStream { line: 4 }), 10, 4),
    ("r,b,09,1,1", Err(Refusal::Malformed { line: 4 }), 10, 4),
    ("", Err(Refusal::Malformed { line: 4 }), 10, 4),
    ("# x", Ok(Item::Skip), 10, 5),
    ("w,a,12", Ok(Item::Mark(Stream::A, 12)), 12, 6),
    (
        "r,a,11,1,1",
        Err(Refusal::Late {
            line: 6,
            time: 11,
            mark: 12,
        }),
        12,
        6,
    ),
];

#[test]
fn tests_lines_in_their_order(rt: HostRuntime) {
    let mut intake = Intake::new(ONLY_A, 0, LatePolicy::Refuse, Keys::Numbers);
    for accepted in &IN_ORDER {
        assert!(rt; is_accepted(&mut intake, accepted), "at {}", accepted.0);
    }
}

/// The two lines before the record of a word, and those behind it.
const BEFORE_THE_WORD: [Accepted; 2] = [
    ("w,a,10", Ok(Item::Mark(Stream::A, 10)), 10, 2),
    (
        "r,a,9,cat,1",
        Ok(Item::Late {
            line: 2,
            time: 9,
            mark: 10,
        }),
        10,
        3,
    ),
];

const BEHIND_THE_WORD: [Accepted; 4] = [
    (
        "w,a,9",
        Err(Refusal::Back {
            line: 4,
            time: 9,
            mark: 10,
        }),
        10,
        4,
    ),
    ("r,b,9,cat,1", Err(Refusal::WrongStream { line: 4 }), 10, 4),
    ("w,a,12", Ok(Item::Mark(Stream::A, 12)), 12, 5),
    (
        "r,a,0,cat,1",
        Ok(Item::Late {
            line: 5,
            time: 0,
            mark: 12,
        }),
        12,
        6,
    ),
];

#[test]
fn drops_late_records(rt: HostRuntime) {
    let mut intake = Intake::new(ONLY_A, 0, LatePolicy::Drop, Keys::Words);
    for accepted in &BEFORE_THE_WORD {
        assert!(rt; is_accepted(&mut intake, accepted), "at {}", accepted.0);
    }
    let item = Item::Rec(Stream::A, named(10, "cat", 1));
    assert!(rt; is_accepted(&mut intake, &("r,a,10,cat,1", Ok(item), 10, 4)));
    for accepted in &BEHIND_THE_WORD {
        assert!(rt; is_accepted(&mut intake, accepted), "at {}", accepted.0);
    }
}

#[test]
fn counts_each_line_up_to_the_last(rt: HostRuntime) {
    let line = 4_294_967_295;
    let mut intake = Intake::new(BOTH, 4_294_967_294, LatePolicy::Drop, Keys::Numbers);
    assert!(rt; intake.accept(b"r") == Err(Refusal::Malformed { line }));
    assert!(rt; intake.too_long() == Refusal::TooLong { line });
    assert!(rt; intake.accept(b"#") == Ok(Item::Skip));
    assert!(rt; intake.accept(b"#") == Err(Refusal::TooMany));
    assert!(rt; intake.accept(b"r") == Err(Refusal::TooMany));
    assert!(rt; intake.too_long() == Refusal::TooMany);
}

/// The low watermark at first, behind a watermark of 7 of stream a, and behind one of 5 of stream b; and whether the
/// two were taken.
fn lows_of(streams: Streams) -> (u64, bool, u64, bool, u64) {
    let mut intake = Intake::new(streams, 0, LatePolicy::Refuse, Keys::Numbers);
    let at_first = intake.low();
    let takes_a = intake.accept(b"w,a,7").is_ok();
    let after_a = intake.low();
    let takes_b = intake.accept(b"w,b,5").is_ok();
    (at_first, takes_a, after_a, takes_b, intake.low())
}

#[test]
fn takes_the_least_watermark_of_its_streams(rt: HostRuntime) {
    assert!(rt; lows_of(BOTH) == (0, true, 0, true, 5));
    assert!(rt; lows_of(ONLY_A) == (0, true, 7, false, 7));
    assert!(rt; lows_of(ONLY_B) == (0, false, 0, true, 5));
    assert!(rt; lows_of(NEITHER) == (0, false, 0, false, 0));
}

/// The most that a number may be, a text, and the number that it is.
const NUMBERS: [(u64, &str, Option<u64>); 16] = [
    (100, "0", Some(0)),
    (100, "1", Some(1)),
    (100, "100", Some(100)),
    (100, "101", None),
    (100, "01", None),
    (100, "00", None),
    (100, "", None),
    (100, "+1", None),
    (100, "-1", None),
    (100, "1 ", None),
    (0, "0", Some(0)),
    (0, "1", None),
    (
        9_999_999_999_999_999_999,
        "9999999999999999999",
        Some(9_999_999_999_999_999_999),
    ),
    (9_999_999_999_999_999_998, "9999999999999999999", None),
    (9_999_999_999_999_999_999, "10000000000000000000", None),
    (9_999_999_999_999_999_999, "18446744073709551617", None),
];

fn is_number(most: u64, text: &str, number: Option<u64>) -> bool {
    most < 10_000_000_000_000_000_000 && read_number(most, text.as_bytes()) == number
}

#[test]
fn reads_numbers_up_to_a_bound(rt: HostRuntime) {
    for (most, text, number) in &NUMBERS {
        assert!(rt; is_number(*most, text, *number), "{text} up to {most}");
    }
}

fn is_printed(row: &Record, text: &str) -> bool {
    row.time < END_MARK && row_bytes(row).as_slice() == text.as_bytes()
}

#[test]
fn prints_rows(rt: HostRuntime) {
    assert!(rt; is_printed(&record(9, 1, 7), "10,1,7\n"));
    let row = record(1_000_000_000_000_009, 1_000_000_000_000_000_000, i64::MIN);
    let text = "1000000000000010,1000000000000000000,-9223372036854775808\n";
    assert!(rt; is_printed(&row, text));
    assert!(rt; is_printed(&named(9, "cat", 7), "10,cat,7\n"));
    let row = named(1_999_999_999_999_999, LONGEST, i64::MIN);
    let text = "2000000000000000,xxxxxxxxxxxxxxxxxxxxxxxx,-9223372036854775808\n";
    assert!(rt; is_printed(&row, text));
}

#[test]
fn are_small(rt: HostRuntime) {
    assert!(rt; size_of::<Key>() == 32);
    assert!(rt; size_of::<Record>() == 48);
}

#[test]
fn joins_pieces(rt: HostRuntime) {
    let mut text = TextBuf::<43>::new();
    text.push(b"a: ");
    text.push_number(u64::MAX);
    text.push_signed(i64::MIN);
    assert!(rt; text.as_slice() == b"a: 18446744073709551615-9223372036854775808".as_slice());
}

#[test]
fn keeps_the_elements(rt: HostRuntime) -> Result<(), Fail> {
    let sequence = Sequence::new(vec![in rt.alloc(); 3, 1, 2]?);
    assert!(rt; sequence.as_slice() == [3, 1, 2].as_slice());
    assert!(rt; sequence.into_vec().as_slice() == [3, 1, 2].as_slice());
    Ok(())
}

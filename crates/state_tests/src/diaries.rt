//! Diaries and their texts, by example.

use sb_diary::{Diary, DiaryEvent, DiaryLine, line_bytes, read_diary_line};
use sb_record::NoMemory;
use std::alloc::{AllocError, Global};
use std::test::Fail;

/// The text of a worked diary: a sum and the sink, three records in bundles of one.
const WORKED: &str = "\
transform 0 1
arrive 0 0 1 1
take 0 1
finish 0 1 0
arrive 0 0 2 1
take 0 2
finish 0 2 0
seal 0 0 10
begin 0 0 10 1
end 0 0
arrive 0 1 3 1
take 0 3
finish 0 3 0
seal 0 1 2000000000000000
begin 0 1 2000000000000000 1
end 0 1
transform 1 1
arrive 0 0 1 1
seal 0 0 10
take 0 1
finish 0 1 0
begin 0 0 10 1
end 0 0
arrive 0 1 2 1
seal 0 1 2000000000000000
take 0 2
finish 0 2 0
begin 0 1 2000000000000000 1
end 0 1
";

/// The greatest mark: that of the end of an input.
const LAST: u64 = 2_000_000_000_000_000;

fn head(node: u32, lanes: u32) -> DiaryLine {
    DiaryLine::Head { node, lanes }
}

fn arrive(lane: u32, epoch: u64, number: u64, length: u64) -> DiaryLine {
    DiaryLine::Event(DiaryEvent::Arrive {
        lane,
        epoch,
        number,
        length,
    })
}

fn seal(lane: u32, epoch: u64, mark: u64) -> DiaryLine {
    DiaryLine::Event(DiaryEvent::Seal { lane, epoch, mark })
}

fn take(lane: u32, number: u64) -> DiaryLine {
    DiaryLine::Event(DiaryEvent::Take { lane, number })
}

fn finish(lane: u32, number: u64, length: u64) -> DiaryLine {
    DiaryLine::Event(DiaryEvent::Finish {
        lane,
        number,
        length,
    })
}

fn begin(lane: u32, epoch: u64, mark: u64, rows: u64) -> DiaryLine {
    DiaryLine::Event(DiaryEvent::Begin {
        lane,
        epoch,
        mark,
        rows,
    })
}

fn end(lane: u32, epoch: u64) -> DiaryLine {
    DiaryLine::Event(DiaryEvent::End { lane, epoch })
}

/// The lines of [`WORKED`].
fn worked_lines() -> [DiaryLine; 29] {
    [
        head(0, 1),
        arrive(0, 0, 1, 1),
        take(0, 1),
        finish(0, 1, 0),
        arrive(0, 0, 2, 1),
        take(0, 2),
        finish(0, 2, 0),
        seal(0, 0, 10),
        begin(0, 0, 10, 1),
        end(0, 0),
        arrive(0, 1, 3, 1),
        take(0, 3),
        finish(0, 3, 0),
        seal(0, 1, LAST),
        begin(0, 1, LAST, 1),
        end(0, 1),
        head(1, 1),
        arrive(0, 0, 1, 1),
        seal(0, 0, 10),
        take(0, 1),
        finish(0, 1, 0),
        begin(0, 0, 10, 1),
        end(0, 0),
        arrive(0, 1, 2, 1),
        seal(0, 1, LAST),
        take(0, 2),
        finish(0, 2, 0),
        begin(0, 1, LAST, 1),
        end(0, 1),
    ]
}

/// Whether the line is printed so and read back.
fn is_spelled(line: &DiaryLine, text: &str) -> bool {
    line_bytes(line).as_slice() == text.as_bytes()
        && read_diary_line(text.as_bytes()) == Some(*line)
}

#[test]
fn prints_lines_and_reads_them_back(rt: HostRuntime) {
    for (line, text) in [
        (head(0, 1), "transform 0 1"),
        (head(u32::MAX, 2), "transform 4294967295 2"),
        (arrive(1, 0, 10, 65_536), "arrive 1 0 10 65536"),
        (
            arrive(u32::MAX, u64::MAX, u64::MAX, u64::MAX),
            "arrive 4294967295 18446744073709551615 18446744073709551615 18446744073709551615",
        ),
        (seal(1, 3, LAST), "seal 1 3 2000000000000000"),
        (take(0, 7), "take 0 7"),
        (finish(1, 7, 0), "finish 1 7 0"),
        (begin(0, 2, 30, 100), "begin 0 2 30 100"),
        (end(1, 0), "end 1 0"),
    ] {
        assert!(rt; is_spelled(&line, text), "at {text}");
    }
}

const NO_LINES: [&str; 33] = [
    "",
    " ",
    "0 0",
    "end",
    "end 0",
    "end 0 ",
    "end 0 0 ",
    " end 0 0",
    "end  0 0",
    "end 0  0",
    "end 0 0 0",
    "end 0 0\n",
    "end\t0 0",
    "end 00 0",
    "end 0 01",
    "end 0 -1",
    "end 0 +1",
    "end 0 1x",
    "end 0 18446744073709551616",
    "end 0 100000000000000000000000000000",
    "end 4294967296 0",
    "ends 0 0",
    "take 4294967296 1",
    "Arrive 0 0 1 1",
    "arrive 0 0 1",
    "arrive 0 0 1 1 1",
    "arrive0 0 1 1",
    "transform 0 0",
    "transform 0 3",
    "transform 0 4294967297",
    "transform 4294967296 1",
    "transform 0",
    "transform 0 1 0",
];

#[test]
fn refuses_what_is_no_line(rt: HostRuntime) {
    for text in &NO_LINES {
        assert!(rt; read_diary_line(text.as_bytes()) == None, "at {text}");
    }
    assert!(rt; read_diary_line(b"end 0 \xB2") == None, "no UTF-8");
}

/// The text of lines.
fn text_of(alloc: Global, lines: &[DiaryLine]) -> Result<Vec<u8>, AllocError> {
    let mut text = Vec::new(alloc);
    for line in lines {
        text.extend_from_slice(line_bytes(line).as_slice())?;
        text.push(b'\n')?;
    }
    Ok(text)
}

/// The lines of a text, if each is one.
fn lines_of(alloc: Global, text: &str) -> Result<Vec<DiaryLine>, Fail> {
    let mut lines = Vec::new(alloc);
    for line in text.lines() {
        lines.push(read_diary_line(line.as_bytes()).ok_or("no line")?)?;
    }
    Ok(lines)
}

#[test]
fn the_worked_diary_is_its_text(rt: HostRuntime) -> Result<(), Fail> {
    let lines = worked_lines();
    assert!(rt; text_of(rt.alloc(), &lines)?.as_slice() == WORKED.as_bytes());
    assert!(rt; lines_of(rt.alloc(), WORKED)?.as_slice() == lines.as_slice());
    Ok(())
}

#[test]
fn keeps_its_lines_only_if_asked(rt: HostRuntime) {
    let events = [
        DiaryEvent::Seal {
            lane: 1,
            epoch: 0,
            mark: 10,
        },
        DiaryEvent::End { lane: 1, epoch: 0 },
    ];
    for keeps in [true, false] {
        let mut diary = Diary::new(rt.alloc(), 2, keeps);
        diary.reserve(1).expect(&rt, "room for one");
        diary.push(events[0]);
        diary.reserve(5).expect(&rt, "room for more");
        diary.push(events[1]);
        assert!(rt; diary.count() == 2);
        assert!(rt; diary.lanes() == 2);
        assert!(rt; diary.keeps() == keeps);
        if diary.keeps() {
            assert!(rt; diary.events() == events.as_slice());
        }
        assert!(rt; diary.reserve(usize::MAX) == Err(NoMemory));
        assert!(rt; diary.count() == 2);
    }
}

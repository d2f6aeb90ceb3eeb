//! Diary texts by example: the worked one, and each way in which a line can be wrong.

use sb_diary::{AuditEnd, AuditFault, AuditStop, Auditor};
use std::alloc::Global;

/// The worked diary: a sum over windows of 10, and the sink behind it.
const WORKED: [&str; 29] = [
    "transform 0 1",
    "arrive 0 0 1 1",
    "take 0 1",
    "finish 0 1 0",
    "arrive 0 0 2 1",
    "take 0 2",
    "finish 0 2 0",
    "seal 0 0 10",
    "begin 0 0 10 1",
    "end 0 0",
    "arrive 0 1 3 1",
    "take 0 3",
    "finish 0 3 0",
    "seal 0 1 2000000000000000",
    "begin 0 1 2000000000000000 1",
    "end 0 1",
    "transform 1 1",
    "arrive 0 0 1 1",
    "seal 0 0 10",
    "take 0 1",
    "finish 0 1 0",
    "begin 0 0 10 1",
    "end 0 0",
    "arrive 0 1 2 1",
    "seal 0 1 2000000000000000",
    "take 0 2",
    "finish 0 2 0",
    "begin 0 1 2000000000000000 1",
    "end 0 1",
];

/// What an audit of these lines gives: how it stopped, if it did, and what it says at the end.
fn outcome_of(alloc: Global, lines: &[&str]) -> (Result<(), AuditStop>, AuditEnd) {
    let mut auditor = Auditor::new(alloc);
    let mut outcome = Ok(());
    for line in lines {
        outcome = auditor.line(line.as_bytes());
    }
    (outcome, auditor.end())
}

/// Whether an audit of the lines stops so and says this at the end.
fn ends_so(alloc: Global, lines: &[&str], stop: Result<(), AuditStop>, want: AuditEnd) -> bool {
    let (outcome, end) = outcome_of(alloc, lines);
    outcome == stop && end == want
}

fn audit_end(transforms: u32, events: u64, settled: bool) -> AuditEnd {
    AuditEnd {
        transforms,
        events,
        settled,
    }
}

#[test]
fn legal_texts_are_told(rt: HostRuntime) {
    let cases: [(&[&str], AuditEnd); 10] = [
        (&WORKED, audit_end(2, 27, true)),
        (&WORKED[..28], audit_end(2, 26, false)),
        (&WORKED[..16], audit_end(1, 15, true)),
        (&[], audit_end(0, 0, true)),
        (&["transform 0 1"], audit_end(1, 0, true)),
        // A bundle waits, and one is out; an epoch is sealed and has not ended.
        (&["transform 0 1", "arrive 0 0 1 1"], audit_end(1, 1, false)),
        (
            &["transform 0 1", "arrive 0 0 1 1", "take 0 1"],
            audit_end(1, 2, false),
        ),
        (&["transform 0 1", "seal 0 0 10"], audit_end(1, 1, false)),
        // A bundle was finished in an epoch that is not sealed.
        (
            &[
                "transform 0 1",
                "arrive 0 9 1 1",
                "take 0 1",
                "finish 0 1 0",
            ],
            audit_end(1, 3, false),
        ),
        // What is left open in a diary stays so behind the next head.
        (
            &["transform 0 1", "seal 0 0 10", "transform 1 2"],
            audit_end(2, 1, false),
        ),
    ];
    for (lines, want) in cases {
        assert!(rt; ends_so(rt.alloc(), lines, Ok(()), want), "{lines:?}");
    }
}

/// Lines of which the last is not legal after the others.
const NOT_LEGAL: [&[&str]; 27] = [
    // A head with a wrong node, an event before a head, and a lane too high.
    &["transform 1 1"],
    &["transform 0 1", "transform 0 1"],
    &["arrive 0 0 1 1"],
    &["transform 0 1", "arrive 1 0 1 1"],
    &["transform 0 2", "seal 2 0 10"],
    // A bundle with a wrong number, of a sealed epoch, and without a record.
    &["transform 0 1", "arrive 0 0 2 1"],
    &["transform 0 1", "arrive 0 0 0 1"],
    &["transform 0 1", "arrive 0 0 1 1", "arrive 0 0 1 1"],
    &["transform 0 1", "seal 0 0 10", "arrive 0 0 1 1"],
    &["transform 0 1", "arrive 0 0 1 0"],
    // A watermark of a wrong epoch, and one that falls.
    &["transform 0 1", "seal 0 1 10"],
    &["transform 0 1", "seal 0 0 10", "seal 0 1 9"],
    // A bundle is taken that never came, or twice.
    &["transform 0 1", "take 0 1"],
    &["transform 0 1", "take 0 0"],
    &["transform 0 1", "arrive 0 0 1 1", "take 0 1", "take 0 1"],
    // One is finished that was not taken, or twice.
    &["transform 0 1", "arrive 0 0 1 1", "finish 0 1 0"],
    &[
        "transform 0 1",
        "arrive 0 0 1 1",
        "take 0 1",
        "finish 0 1 0",
        "finish 0 1 0",
    ],
    // A closing begins while another has not ended, of an epoch that is not the oldest, and of one that is not sealed.
    &[
        "transform 0 2",
        "seal 0 0 10",
        "seal 1 0 20",
        "begin 0 0 0 0",
        "begin 1 0 10 0",
    ],
    &[
        "transform 0 1",
        "seal 0 0 10",
        "seal 0 1 20",
        "begin 0 1 20 0",
    ],
    &["transform 0 1", "begin 0 0 0 0"],
    // A closing begins while a bundle waits, or is out.
    &[
        "transform 0 1",
        "arrive 0 0 1 1",
        "seal 0 0 10",
        "begin 0 0 10 0",
    ],
    &[
        "transform 0 1",
        "arrive 0 0 1 1",
        "take 0 1",
        "seal 0 0 10",
        "begin 0 0 10 1",
    ],
    // A closing begins with a wrong mark, and with the greater one of two lanes.
    &["transform 0 1", "seal 0 0 10", "begin 0 0 11 0"],
    &[
        "transform 0 2",
        "seal 0 0 10",
        "seal 1 0 20",
        "begin 0 0 0 0",
        "end 0 0",
        "begin 1 0 20 0",
    ],
    // A closing ends that did not begin, in a wrong lane, and of a wrong epoch.
    &["transform 0 1", "seal 0 0 10", "end 0 0"],
    &[
        "transform 0 2",
        "seal 0 0 10",
        "seal 1 0 20",
        "begin 0 0 0 0",
        "end 1 0",
    ],
    &["transform 0 1", "seal 0 0 10", "begin 0 0 10 0", "end 0 1"],
];

/// Whether an audit stops since the last of the lines is not legal.
fn is_not_legal(alloc: Global, lines: &[&str]) -> bool {
    let line = lines.len() as u64;
    let (outcome, _) = outcome_of(alloc, lines);
    outcome == Err(AuditStop::Fault(AuditFault::NotLegal { line }))
}

#[test]
fn illegal_lines_are_refused(rt: HostRuntime) {
    for lines in &NOT_LEGAL {
        assert!(rt; is_not_legal(rt.alloc(), lines), "{lines:?}");
    }
}

#[test]
fn a_refusal_is_kept(rt: HostRuntime) {
    let cases: [(&[&str], AuditFault, AuditEnd); 3] = [
        (
            &["transform 0 3", "transform 0 1"],
            AuditFault::Malformed { line: 1 },
            audit_end(0, 0, true),
        ),
        (
            &["transform 0 1", "seal 0 0 10", "# x", "begin 0 0 10 0"],
            AuditFault::Malformed { line: 3 },
            audit_end(1, 1, false),
        ),
        (
            &["transform 0 1", "take 0 1", "seal 0 0 10"],
            AuditFault::NotLegal { line: 2 },
            audit_end(1, 0, true),
        ),
    ];
    for (lines, fault, want) in cases {
        let stop = Err(AuditStop::Fault(fault));
        assert!(rt; ends_so(rt.alloc(), lines, stop, want), "{lines:?}");
    }
}

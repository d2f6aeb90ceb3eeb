//! What a user is told of how a run ended.

ghost use Rattle.std.specs.Prelude.{◌≡◌, ◌≤◌, ◌+◌, ◌++◌, codes, decimal, length};
ghost use Rattle.sb_plan.specs.Keys.{key_text};
ghost use Rattle.sb_told.specs.Statuses as spec;

use crate::status::Status;
use sb_diary::{AuditEnd, AuditFault};
use sb_feed::{Dropped, Refusal, RowFault, Stream, TableFault, TextBuf};
use sb_plan::{PlanCause, PlanFault, PlanKey};

/// The text of a note: it takes no memory.
pub type Note = TextBuf<128>;

/// `line N: `
fn at_line(line: u64) -> Note
    ensures text { result ≡ spec.at_line line }
    ensures short { length result ≤ 27 }
{
    let mut note = Note::new();
    note.push(b"line ");
    note.push_number(line);
    note.push(b": ");
    note
}

/// `, time T, watermark W`, at the end of a note.
fn push_times(note: &mut Note, time: u64, mark: u64)
    requires { length note.old ≤ 68 }
    ensures text { note.new ≡ spec.with_times note.old time mark }
    ensures short { length note.new ≤ length note.old + 59 }
{
    note.push(b", time ");
    note.push_number(time);
    note.push(b", watermark ");
    note.push_number(mark);
}

/// `file a: ` or `file b: `, and a text behind it.
fn in_file(file: Stream, text: &[u8]) -> Note
    requires { length text.now ≤ 119 }
    ensures text { result ≡ spec.file_text file ++ text.now }
    ensures short { length result ≤ length text.now + 8 }
{
    let mut note = Note::new();
    match file {
        Stream::A => note.push(b"file a: "),
        Stream::B => note.push(b"file b: "),
    }
    note.push(text);
    note
}

/// What is wrong with a refused line.
fn refusal_note(refusal: Refusal) -> Note
    ensures text { result ≡ spec.refusal_text refusal }
    ensures short { length result ≤ 119 }
{
    match refusal {
        Refusal::TooMany => {
            let mut note = Note::new();
            note.push(b"line 4294967296: too many lines");
            note
        }
        Refusal::TooLong { line } => {
            let mut note = at_line(line);
            note.push(b"too long");
            note
        }
        Refusal::Malformed { line } => {
            let mut note = at_line(line);
            note.push(b"malformed");
            note
        }
        Refusal::WrongStream { line } => {
            let mut note = at_line(line);
            note.push(b"stream not in the plan");
            note
        }
        Refusal::Late { line, time, mark } => {
            let mut note = at_line(line);
            note.push(b"late record");
            push_times(&mut note, time, mark);
            note
        }
        Refusal::Back { line, time, mark } => {
            let mut note = at_line(line);
            note.push(b"watermark goes back");
            push_times(&mut note, time, mark);
            note
        }
    }
}

/// What is wrong with a refused line of a diary text.
fn audit_note(fault: AuditFault) -> Note
    ensures text { result ≡ spec.audit_fault_text fault }
    ensures short { length result ≤ 127 }
{
    match fault {
        AuditFault::TooMany => {
            let mut note = Note::new();
            note.push(b"line 4294967296: too many lines");
            note
        }
        AuditFault::TooLong { line } => {
            let mut note = at_line(line);
            note.push(b"too long");
            note
        }
        AuditFault::Malformed { line } => {
            let mut note = at_line(line);
            note.push(b"malformed");
            note
        }
        AuditFault::NotLegal { line } => {
            let mut note = at_line(line);
            note.push(b"not legal");
            note
        }
    }
}

/// Which tap has failed.
fn tap_note(place: u32) -> Note
    ensures text { result ≡ codes "tap " ++ decimal place ++ codes " failed" }
    ensures short { length result ≤ 127 }
{
    let mut note = Note::new();
    note.push(b"tap ");
    note.push_number(u64::from(place));
    note.push(b" failed");
    note
}

/// Which line of a checkpoint is faulty.
fn checkpoint_note(line: u64) -> Note
    ensures text { result ≡ codes "checkpoint: " ++ spec.at_line line ++ codes "malformed" }
    ensures short { length result ≤ 127 }
{
    let mut note = Note::new();
    note.push(b"checkpoint: ");
    note.push(at_line(line).as_slice());
    note.push(b"malformed");
    note
}

/// `plan: `, and the transform where it is one.
fn at_transform(place: u32) -> Note
    ensures text { result ≡ spec.at_transform place }
    ensures short { length result ≤ 38 }
{
    let mut note = Note::new();
    note.push(b"plan: ");
    if place > 0 {
        note.push(b"transform ");
        note.push_number(u64::from(place));
        note.push(b": ");
    }
    note
}

/// What is wrong with a row of a table.
fn row_fault_text(what: RowFault) -> &'static [u8]
    ensures text { result.now ≡ spec.row_fault_text what }
    ensures short { length result.now ≤ 15 }
{
    match what {
        RowFault::TooMany => b"too many rows",
        RowFault::Width => b"not two columns",
        RowFault::Key => b"bad key",
        RowFault::Image => b"bad image",
        RowFault::Repeated => b"repeated key",
    }
}

/// A key of a plan file, and what is wrong with it.
fn push_key(note: &mut Note, key: PlanKey, what: &[u8])
    requires { (length note.old ≤ 38) × (length what.now ≤ 14) }
    ensures text { note.new ≡ note.old ++ (key_text key ++ what.now) }
    ensures short { length note.new ≤ length note.old + 23 }
{
    note.push(key.text().as_bytes());
    note.push(what);
}

/// A faulty row of a table.
fn push_row(note: &mut Note, fault: TableFault)
    requires { length note.old ≤ 38 }
    ensures text { note.new ≡ note.old ++ spec.plan_cause_text (PlanCause.TableRow fault) }
    ensures short { length note.new ≤ length note.old + 47 }
{
    note.push(b"table row ");
    note.push_number(u64::from(fault.row));
    note.push(b": ");
    note.push(row_fault_text(fault.what));
}

/// What is wrong with a plan.
fn plan_note(fault: PlanFault) -> Note
    ensures text { result ≡ spec.plan_text fault }
    ensures short { length result ≤ 127 }
{
    let mut note = at_transform(fault.at);
    match fault.what {
        PlanCause::TooLong => note.push(b"file too long"),
        PlanCause::NotToml => note.push(b"not TOML"),
        PlanCause::UnknownField => note.push(b"unknown field"),
        PlanCause::Missing(key) => push_key(&mut note, key, b": missing"),
        PlanCause::WrongType(key) => push_key(&mut note, key, b": wrong type"),
        PlanCause::OutOfRange(key) => push_key(&mut note, key, b": out of range"),
        PlanCause::TooMany => note.push(b"too many transforms"),
        PlanCause::NameTaken => note.push(b"name taken"),
        PlanCause::UnknownKind => note.push(b"unknown kind"),
        PlanCause::TableTooLong => note.push(b"table too long"),
        PlanCause::TableRow(fault) => push_row(&mut note, fault),
        PlanCause::UnknownFrom(key) => push_key(&mut note, key, b": unknown"),
        PlanCause::UsedTwice(key) => push_key(&mut note, key, b": used twice"),
        PlanCause::TwoJoins => note.push(b"second join"),
        PlanCause::Unused => note.push(b"not used"),
        PlanCause::NoWindow => note.push(b"no window"),
        PlanCause::HasSession => note.push(b"session cannot be saved"),
    }
    note
}

/// The line that a user is told; none where all went well.
pub fn note_of(status: Status) -> Note
    ensures { result ≡ spec.note_text status }
{
    let mut note = match status {
        Status::Done => return Note::new(),
        Status::Line(refusal) => refusal_note(refusal),
        Status::FileLine { stream, refusal } => {
            in_file(stream, refusal_note(refusal).as_slice())
        }
        Status::Plan(fault) => plan_note(fault),
        Status::Audit(fault) => audit_note(fault),
        Status::Tap { place } => tap_note(place),
        Status::Checkpoint { line } => checkpoint_note(line),
        _ => Note::new(),
    };
    match status {
        Status::Words => note.push(b"words not understood"),
        Status::Input => note.push(b"input failed"),
        Status::Output => note.push(b"output failed"),
        Status::Folder => note.push(b"file failed"),
        Status::Memory => note.push(b"out of memory"),
        Status::FileTooLong => note.push(b"record file too long"),
        _ => {}
    }
    note.push(b"\n");
    note
}

/// The line that a user is told of a late record that was dropped, of an input or of the file of a stream.
pub(crate) fn late_note(file: Option<Stream>, dropped: &Dropped) -> Note
    ensures { result ≡ spec.late_line file dropped.now }
{
    match file {
        Some(stream) => in_file(stream, dropped_note(dropped).as_slice()),
        None => dropped_note(dropped),
    }
}

/// The line that a user is told of a late record of an input.
fn dropped_note(dropped: &Dropped) -> Note
    ensures text { result ≡ spec.dropped_text dropped.now }
    ensures short { length result ≤ 119 }
{
    let mut note = at_line(dropped.line);
    note.push(b"dropped");
    push_times(&mut note, dropped.time, dropped.mark);
    note.push(b"\n");
    note
}

/// The line that an audit says of a diary text.
pub fn audit_line(said: &AuditEnd) -> Note
    ensures { result ≡ spec.audit_text said.now }
{
    let mut line = Note::new();
    line.push(b"transforms ");
    line.push_number(u64::from(said.transforms));
    line.push(b" events ");
    line.push_number(said.events);
    if said.settled {
        line.push(b" settled\n");
    } else {
        line.push(b" running\n");
    }
    line
}

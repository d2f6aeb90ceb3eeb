//! Reading a diary text: an auditor takes its lines, up to where reading stops.

ghost use Rattle.std.specs.Prelude.{◌≡◌, None, Some, OnOk, IfErr, Err};
ghost use Rattle.sb_feed.specs.outside.declared.lines.Halt.TheVariants as halt;
ghost use Rattle.sb_feed.specs.outside.Readings.{reading};
ghost use Rattle.sb_told.specs.DiaryReads.{DiaryFaultCause, ReadsDiary, TakesDiaryLine};
ghost use Rattle.sb_feed.specs.Reads.{IsGoing};

use sb_diary::{AuditEnd, AuditFault, AuditStop, Auditor};
use sb_feed::{LineBuffer, Source, Step};
use std::alloc::Global;

/// Why the reading of a diary text stops.
#[derive(Clone, Copy, Debug, PartialEq, Eq)]
pub enum DiaryHalt {
    /// The input has ended.
    End,
    /// A line is refused.
    Refused(AuditFault),
    /// The source of the input has failed.
    Fault,
    /// There was not enough memory.
    Memory,
}

/// What was read of a diary text.
#[derive(Clone, Copy, Debug, PartialEq, Eq)]
pub struct DiaryInput {
    /// What an audit says of the lines that were taken.
    pub said: AuditEnd,
    /// Where reading stopped.
    pub halt: DiaryHalt,
}

/// Has the auditor take the next line, or says why reading stops.
fn take_line<S: Source>(
    source: &mut S,
    lines: &mut LineBuffer,
    auditor: &mut Auditor,
) -> Result<(), DiaryHalt>
    requires going { IsGoing lines.old.halt (S.left source.old) }
    requires takes { auditor.old.stop ≡ None }
    ensures takes { TakesDiaryLine S.left (reading source.old lines.old) (reading source.new lines.new)
        auditor.old auditor.new result }
    ensures same { OnOk result (S.faults source.new ≡ S.faults source.old) }
    ensures cause { IfErr result (λ halt. DiaryFaultCause (S.faults source.old) (S.faults source.new) halt) }
    ensures at_end { result ≡ Err DiaryHalt.End → lines.new.halt ≡ Some halt.End }
    ensures end { (lines.old.halt ≡ Some halt.End → S.has_ended source.old)
        → lines.new.halt ≡ Some halt.End → S.has_ended source.new }
{
    match lines.advance(source) {
        Step::Line => match auditor.line(lines.line()) {
            Ok(()) => Ok(()),
            Err(AuditStop::Fault(fault)) => Err(DiaryHalt::Refused(fault)),
            Err(AuditStop::Memory) => Err(DiaryHalt::Memory),
        },
        Step::End => Err(DiaryHalt::End),
        Step::TooLong => Err(DiaryHalt::Refused(auditor.too_long())),
        Step::Fault => Err(DiaryHalt::Fault),
    }
}

/// Reads a diary text up to where reading stops.
pub fn read_diary<S: Source>(alloc: Global, source: &mut S) -> DiaryInput
    ensures reads { ReadsDiary (S.left source.old) (S.left source.new) result }
    ensures cause { DiaryFaultCause (S.faults source.old) (S.faults source.new) result.halt }
    ensures end { result.halt ≡ DiaryHalt.End → S.has_ended source.new }
{
    let mut lines = LineBuffer::new();
    let mut auditor = Auditor::new(alloc);
    'lines: loop {
        if let Err(halt) = take_line(source, &mut lines, &mut auditor) {
            return DiaryInput {
                said: auditor.end(),
                halt,
            };
        }
    }
}

//! The answer to `audit`: a diary text is read, and what it says is written as one line.

ghost use Rattle.std.specs.Prelude.{◌≡◌, List};
ghost use Rattle.sb_answers.specs.outside.Folders.{Load};
ghost use Rattle.sb_answers.specs.Answers.{IsAuditAnswer};
ghost use Rattle.sb_answers.specs.told.Outcomes.{IsNoTap, IsRead};
ghost use Rattle.sb_answers.specs.Faults.{HasCause, HidesNoFault, faults_of};

use sb_answers::{DiaryHalt, Ending, Sink, Source, Status, audit_line, print, read_diary};
use std::alloc::Global;

/// Answers with what a diary text says.
pub fn answer_audit<S: Source, K: Sink>(alloc: Global, source: &mut S, out: &mut K) -> Ending
    ensures answer { IsAuditAnswer (S.left source.old) (S.left source.new)
        (K.taken out.old) (K.taken out.new) result }
    ensures read { IsRead result.status }
    ensures no_tap { IsNoTap result.status }
    ensures cause { (loads : List Load) → HasCause
        (faults_of (S.faults source.old) (K.sink_state out.old) loads)
        (faults_of (S.faults source.new) (K.sink_state out.new) loads) result.status }
    ensures no_fault_hidden { (loads : List Load) → HidesNoFault
        (faults_of (S.faults source.old) (K.sink_state out.old) loads)
        (faults_of (S.faults source.new) (K.sink_state out.new) loads) result.status }
    ensures end { result.status ≡ Status.Done → S.has_ended source.new }
{
    let input = read_diary(alloc, source);
    match input.halt {
        DiaryHalt::End => Ending::of(alloc, print(out, audit_line(&input.said).as_slice())),
        DiaryHalt::Refused(fault) => Ending::of(alloc, Status::Audit(fault)),
        DiaryHalt::Fault => Ending::of(alloc, Status::Input),
        DiaryHalt::Memory => Ending::of(alloc, Status::Memory),
    }
}

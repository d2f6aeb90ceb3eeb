//! Reading the items of an input, one at a time.

ghost use Rattle.std.specs.Prelude.{◌≡◌, ◌≤◌, ◌<◌, ◌+◌, Err, None, Some, IfErr, IfNone, IfOk, IfSome, OnOk};
ghost use Rattle.sb_base.specs.records.declared.item.Item.TheVariants.{Rec};
ghost use Rattle.sb_base.specs.records.FrontReading.{usual_record};
ghost use Rattle.sb_outside.specs.declared.lines.Halt.TheVariants as halt;
ghost use Rattle.sb_outside.specs.Readings.{reading};
ghost use Rattle.sb_feed.specs.Reads.{IsGoing, TakesItem, TakesNext, FaultCause};

use sb_base::{Intake, Item, MAX_LINES, Stop, UsualRecord};
use sb_outside::{LineBuffer, Source, Step};

/// The record of the next line, if the line is at hand in the usual form and passes the tests, as by
/// [`Intake::accept_usual`]. What its source has left stays as it is. If it gives none, nothing changes, and the line is
/// for [`next_other`].
#[inline(always)]
pub fn next_usual<S: Source>(
    source: &S,
    lines: &mut LineBuffer,
    intake: &mut Intake,
) -> Option<UsualRecord>
    requires { IsGoing lines.old.halt (S.left source.now) }
    ensures takes { IfSome result (λ r. TakesItem S.left (reading source.now lines.old) (reading source.now lines.new)
        intake.old intake.new (Rec r.stream (usual_record r))) }
    ensures room { IfSome result (λ _. intake.old.lines < MAX_LINES) }
    ensures on { IfSome result (λ _. lines.new.halt ≡ None) }
    ensures going { IsGoing lines.new.halt (S.left source.now) }
    ensures lines { IfNone result (lines.new ≡ lines.old) }
    ensures intake { IfNone result (intake.new ≡ intake.old) }
{
    match intake.accept_usual(lines.at_hand()) {
        Some(usual) => {
            lines.take_line(usual.len);
            Some(usual)
        }
        None => None,
    }
}

/// The item of the next line, or where reading stops. It may be called again only after an item.
///
/// # Errors
///
/// Where reading stops: at the end of the input, at a line that is refused, or because the source failed. `Fault` only
/// if the source's count of faults rose in this call.
#[inline(always)]
pub fn next_item<S: Source>(
    source: &mut S,
    lines: &mut LineBuffer,
    intake: &mut Intake,
) -> Result<Item, Stop>
    requires { IsGoing lines.old.halt (S.left source.old) }
    ensures takes { TakesNext S.left (reading source.old lines.old) (reading source.new lines.new)
        intake.old intake.new result }
    ensures same { OnOk result (S.faults source.new ≡ S.faults source.old) }
    ensures cause { IfErr result (λ stop. FaultCause (S.faults source.old) (S.faults source.new) stop) }
    ensures room { OnOk result (intake.old.lines < MAX_LINES) }
    ensures at_end { result ≡ Err Stop.End → lines.new.halt ≡ Some halt.End }
    ensures end { (lines.old.halt ≡ Some halt.End → S.has_ended source.old)
        → lines.new.halt ≡ Some halt.End → S.has_ended source.new }
    ensures name { S.name source.new ≡ S.name source.old }
{
    match next_usual(source, lines, intake) {
        Some(usual) => Ok(Item::Rec(usual.stream, usual.record())),
        None => next_other(source, lines, intake),
    }
}

/// The same as [`next_item`], without a look for the usual form: [`next_usual`] gave no record.
///
/// # Errors
///
/// Those of [`next_item`].
#[inline(always)]
pub fn next_other<S: Source>(
    source: &mut S,
    lines: &mut LineBuffer,
    intake: &mut Intake,
) -> Result<Item, Stop>
    requires { IsGoing lines.old.halt (S.left source.old) }
    ensures takes { TakesNext S.left (reading source.old lines.old) (reading source.new lines.new)
        intake.old intake.new result }
    ensures same { OnOk result (S.faults source.new ≡ S.faults source.old) }
    ensures cause { IfErr result (λ stop. FaultCause (S.faults source.old) (S.faults source.new) stop) }
    ensures room { OnOk result (intake.old.lines < MAX_LINES) }
    ensures at_end { result ≡ Err Stop.End → lines.new.halt ≡ Some halt.End }
    ensures end { (lines.old.halt ≡ Some halt.End → S.has_ended source.old)
        → lines.new.halt ≡ Some halt.End → S.has_ended source.new }
    ensures name { S.name source.new ≡ S.name source.old }
{
    match intake.accept_front(lines.at_hand()) {
        Some(front) => {
            lines.take_line(front.len);
            Ok(front.item)
        }
        None => line_item(source, lines, intake),
    }
}

// The same of a line whose end is looked for before it is read.
#[inline(never)]
fn line_item<S: Source>(
    source: &mut S,
    lines: &mut LineBuffer,
    intake: &mut Intake,
) -> Result<Item, Stop>
    requires { IsGoing lines.old.halt (S.left source.old) }
    ensures takes { TakesNext S.left (reading source.old lines.old) (reading source.new lines.new)
        intake.old intake.new result }
    ensures same { OnOk result (S.faults source.new ≡ S.faults source.old) }
    ensures cause { IfErr result (λ stop. FaultCause (S.faults source.old) (S.faults source.new) stop) }
    ensures room { OnOk result (intake.old.lines < MAX_LINES) }
    ensures at_end { result ≡ Err Stop.End → lines.new.halt ≡ Some halt.End }
    ensures end { (lines.old.halt ≡ Some halt.End → S.has_ended source.old)
        → lines.new.halt ≡ Some halt.End → S.has_ended source.new }
    ensures name { S.name source.new ≡ S.name source.old }
{
    match lines.advance(source) {
        Step::Line => match intake.accept(lines.line()) {
            Ok(item) => Ok(item),
            Err(refusal) => Err(Stop::Refused(refusal)),
        },
        Step::End => Err(Stop::End),
        Step::TooLong => Err(Stop::Refused(intake.too_long())),
        Step::Fault => Err(Stop::Fault),
    }
}

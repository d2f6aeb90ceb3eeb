//! The laws of diaries, over any lines, and a worked diary. Each function has its law for a contract, and does nothing.

ghost use Rattle.sb_diary.specs.Laws as law;
ghost use Rattle.sb_diary.specs.Limits as limit;
ghost use Rattle.sb_diary.specs.Texts as texts;
ghost use Rattle.sb_diary.specs.Worked as worked;
ghost use Rattle.sb_diary.specs.WorkedText as worked_text;

/// A diary has at most 2^56 lines.
pub fn limits()
    ensures { limit.Limits }
{}

/// A line more is legal exactly if it is so after what the lines before it say.
pub fn legal_line_by_line()
    ensures { law.LegalLineByLine }
{}

/// The bundles that a legal diary says were finished in a lane are of those that came into it.
pub fn finished_ones_came()
    ensures { law.FinishedOnesCame }
{}

/// Lines that differ have texts that differ.
pub fn lines_are_told_apart()
    ensures { texts.LinesAreToldApart }
{}

/// The text of the worked diary of a sum and the sink.
pub fn worked_is_spelled()
    ensures { worked_text.WorkedIsSpelled }
{}

/// The worked diary of a sum and the sink is legal and settled.
pub fn worked_is_settled()
    ensures { worked.WorkedIsSettled }
{}

/// Wrong lines are refused: a number left out, a bundle after its epoch's watermark, a closing that begins while a
/// bundle waits or is out, a join that passes the greater of its marks, and others.
pub fn wrong_lines_are_refused()
    ensures { worked.WrongLinesAreRefused }
{}

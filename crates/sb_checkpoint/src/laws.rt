//! The laws that resuming rests on. Each function has its law for a contract, and does nothing.
//!
//! Each law that speaks of rows is about plans without sessions, since nothing bounds how long a session goes on.

ghost use Rattle.sb_checkpoint.specs.Laws as law;

/// What a plan gives from a time on depends on the records at most its reach before that time.
pub fn later_rows_depend_on_records_within_reach()
    ensures { law.LaterRowsDependOnRecordsWithinReach }
{}

/// What a plan gives before a time depends on the records before that time.
pub fn earlier_rows_depend_on_earlier_records()
    ensures { law.EarlierRowsDependOnEarlierRecords }
{}

/// The records that a checkpoint leaves out are part of no row from the low watermark on, whatever comes later.
pub fn kept_records_give_the_later_rows()
    ensures { law.KeptRecordsGiveTheLaterRows }
{}

/// The rows of a whole run are those of its first part, and then the rest of what a resumed run gives.
pub fn resumed_rows_are_the_rest()
    ensures { law.ResumedRowsAreTheRest }
{}

/// Lines that follow a checkpoint are accepted and refused as those that follow the whole first part. What the first
/// part drops and gives, and then what the resumed run drops and gives from the low watermark on, is that of the
/// whole run.
pub fn resumed_runs_give_the_rest()
    ensures { law.ResumedRunsGiveTheRest }
{}

/// An input is accepted part by part.
pub fn inputs_are_accepted_in_parts()
    ensures { law.InputsAreAcceptedInParts }
{}

/// What a checkpoint keeps of an input can be read again by its lines.
pub fn resumed_lines_are_accepted()
    ensures { law.ResumedLinesAreAccepted }
{}

/// A run over the first lines of an input, and one over the lines of a checkpoint of them and the rest, give what one
/// run over all lines gives.
pub fn cut_runs_give_the_whole()
    ensures { law.CutRunsGiveTheWhole }
{}

/// The same of an input of bytes, which is cut behind a line: its first part, and then the bytes that a resumed run
/// reads in place of that part and the rest, give what one run over all bytes gives.
pub fn cut_inputs_give_the_whole()
    ensures { law.CutInputsGiveTheWhole }
{}

/// The lines of a checkpoint are read as what it kept.
pub fn checkpoints_are_read_back()
    ensures { law.CheckpointsAreReadBack }
{}

/// What is written of a checkpoint is read as what it kept.
pub fn saved_texts_are_read_back()
    ensures { law.SavedTextsAreReadBack }
{}

/// A run that goes on refuses no line of a checkpoint that was read, whoever wrote it.
pub fn read_items_are_accepted()
    ensures { law.ReadItemsAreAccepted }
{}

/// Each text is a checkpoint of one input or has one first faulty line, and never both.
pub fn checkpoints_are_read_or_faulty()
    ensures { law.CheckpointsAreReadOrFaulty }
{}

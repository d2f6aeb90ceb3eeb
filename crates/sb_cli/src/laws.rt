//! Laws of the program: what the answers of several commands have to do with one another, and its limits. The functions
//! have their laws for contracts, and do nothing.

ghost use Rattle.sb_cli.specs.Laws as law;
ghost use Rattle.sb_cli.specs.Limits as limit;

/// A checkpoint has at most 268,435,456 bytes, and `work` sums windows of 10.
pub fn limits()
    ensures { limit.Limits }
{}

/// The rows of `part` on a first part of an input, and then those of `resume` on the rest with the checkpoint that
/// `save` writes of the part, are those of `run` on the whole, with the same status; and of the late records that the
/// whole run drops, `part` lists those of the part, and `resume` those of the rest. This holds of plans without
/// sessions, of parts that end with a line and of which none is refused, and of all numbers of workers and sizes of
/// bundles.
pub fn cut_runs_write_the_whole()
    ensures { law.CutRunsWriteTheWhole }
{}

/// Where a first part was saved, what `resume` answers behind it is the rest of what `run` gives of the whole. This is
/// said of each answer that the contract of `resume` allows, over a source whose bytes are known, where all that is due
/// was written: at the end of the input, at a refused line, and where a read has failed. Then `resume` has written what
/// `run`, of the part and what the source has given, writes behind the rows of `part`; it has the status of that run;
/// and it lists the late records that this run drops behind the part. It holds of plans without sessions, and of parts
/// that end with a line and of which none is refused.
pub fn resumed_answers_are_the_rest()
    ensures { law.ResumedAnswersAreTheRest }
{}

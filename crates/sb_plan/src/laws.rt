//! The laws of plan files. Each function has its law for a contract, and does nothing.

ghost use Rattle.sb_plan.specs.Laws as law;

/// What a text that passes all tests describes is a plan, whatever the files of the folder are.
pub fn texts_that_pass_are_plans()
    ensures { law.TextsThatPassArePlans }
{}

/// What a text says that wants no file is the same whatever the files of the folder are.
pub fn files_matter_only_if_wanted()
    ensures { law.FilesMatterOnlyIfWanted }
{}

/// The limits of plan files, as numbers of bytes.
pub fn limits()
    ensures { law.Limits }
{}

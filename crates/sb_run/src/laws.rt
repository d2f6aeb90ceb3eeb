//! Laws of runs. The function has its law for a contract, and does nothing.

ghost use Rattle.sb_run.specs.Laws as law;

/// A run has at most 64 workers, and a record file at most 268,435,456 bytes.
pub fn limits()
    ensures { law.Limits }
{}

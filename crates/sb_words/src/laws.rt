//! The ranges and the defaults of options as numbers. The function has its law for a contract, and does nothing.

ghost use Rattle.sb_words.specs.Laws as law;

/// `--workers` is at most 64, `--pending` at most 1,024. Without them the values are 1 and 256, and without `--bundle`
/// it is 1,024.
pub fn limits()
    ensures { law.Limits }
{}

//! The limits of lines as numbers: the contract of a function that does nothing.

ghost use Rattle.sb_outside.specs.Laws as law;

/// A line has at most 128 bytes without its end, and a reader of lines has room for 65,536 bytes.
pub fn limits()
    ensures { law.Limits }
{}

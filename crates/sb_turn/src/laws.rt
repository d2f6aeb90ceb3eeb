//! The limits of turns and of the shelf as numbers: the contract of a function that does nothing.

ghost use Rattle.sb_turn.specs.Laws as law;

/// The shelf has 64 places, there are at most 13 nodes, and a state has at most 2^60 lines.
pub fn limits()
    ensures { law.Limits }
{}

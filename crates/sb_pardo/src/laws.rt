//! The limits of operations as numbers, and the laws of every operation. Each function has its law for a contract, and
//! does nothing.

ghost use Rattle.sb_pardo.specs.Laws as law;

/// A table has at most 100,000 rows, and an expansion at most 8 addends.
pub fn limits()
    ensures { law.Limits }
{}

/// For two lists of records, one after the other, an operation gives what it gives for the first list, and then what it
/// gives for the second. So it does not matter how a stream is cut into pieces.
pub fn outputs_over_a_joined_list_are_joined()
    ensures { law.OutputsOverAJoinedListAreJoined }
{}

/// What an operation gives for a record has the record's time, and a valid operation keeps keys such as a record may
/// have.
pub fn outputs_keep_the_time()
    ensures time { law.OutputsKeepTheTime }
    ensures key { law.OutputsKeepKeysInRange }
{}

/// A valid operation gives at most [`MAX_ADDENDS`](crate::MAX_ADDENDS) records for one.
pub fn outputs_are_few()
    ensures { law.OutputsAreFew }
{}

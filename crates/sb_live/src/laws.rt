//! What follows from the definitions alone. Each function has its law for a contract, and does nothing.

ghost use Rattle.sb_live.specs.Laws as law;
ghost use Rattle.sb_live.specs.Limits as limit;

/// A live table is made with at most 64 readers.
pub fn limits()
    ensures { limit.Limits }
{}

/// The last row of a key among changes is the last one among their rows: in which calls they were shown does not
/// matter.
pub fn rows_alone_count()
    ensures { law.RowsAloneCount }
{}

/// An output that was handed rows that rise, from above those shown before and in calls that are apart, has counted no
/// fault.
pub fn rising_rows_are_never_refused()
    ensures { law.RisingRowsAreNeverRefused }
{}

/// The first of sorted records rise, and the rows of a run are the first of sorted records.
pub fn first_sorted_rows_rise()
    ensures { law.FirstSortedRowsRise }
{}

/// A text names the key of which it is the text, and no other.
pub fn keys_are_named_by_their_text()
    ensures { law.KeysAreNamedByTheirText }
{}

/// The last row whose key has a text is the last row of the key that the text names, if lines can give all keys of the
/// rows.
pub fn named_rows_are_those_of_the_key()
    ensures { law.NamedRowsAreThoseOfTheKey }
{}

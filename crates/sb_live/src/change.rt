//! Changes: what a call of the writer adds to the table.

use sb_emit::Record;

/// What the list of a writer or a reader is made of. The changes of a call are its rows, in order, and then its end.
#[derive(Clone, Copy, Debug)]
pub enum Change {
    /// A row is shown.
    Row(Record),
    /// The rows of a call are whole.
    End,
}

//! What goes through a ring of rows.

use sb_feed::Record;

/// A value of a ring of rows.
#[derive(Drop)]
pub enum RowsFed {
    /// Rows that came out together.
    Rows(Vec<Record>),
    /// No more rows come. Nothing follows.
    End,
}
